// A node's cell in the memory: the number that it starts with, and its judged values.
ghost use Rattle.std.specs.Prelude.{◌≡◌, ◌+◌, ◌*◌, ◌≤◌, ◌&&◌, length, drop};
ghost use Rattle.values.specs.Words.{words};
ghost use Rattle.kinds.specs.Kind.{samples_from};
ghost use Rattle.kinds.specs.Cell.{number_of, takes_number, value_fits, number_fits, carry_fits, place_fits, cell_fits};

use crate::kind::{NodeKind, is_frequency};
use values::bytes::word_at;
use values::float::{finite, finite_bits, of_bits, within};

// The values of a cell, in order: number, carry, ring place, and from SAMPLES on the samples, then
// the line. Places in the memory to count on from, so numbers and no enum.
pub const NUMBER: usize = 0;

pub const CARRY: usize = 1;

pub const PLACE: usize = 2;

pub const SAMPLES: usize = 3;

// A match on a type gives a value or a test here: no step is picked that a closure could be.

// The number with which a fresh cell starts.
#[tactic(auto, unfolding(crate::specs::Cell::number_of))]
pub fn number_of(kind: NodeKind) -> f32
    ensures { result ≡ number_of kind }
{
    match kind {
        NodeKind::Mul(f) | NodeKind::Add(f) | NodeKind::AllPass(_, f) | NodeKind::Sine(f) => f,
        _ => 0.0,
    }
}

// Whether a number message may set the number.
#[tactic(auto, unfolding(crate::specs::Cell::takes_number))]
pub fn takes_number(kind: NodeKind) -> bool
    ensures { result ≡ takes_number kind }
{
    matches!(
        kind,
        NodeKind::Mul(_) | NodeKind::Add(_) | NodeKind::AllPass(_, _) | NodeKind::Sine(_)
    )
}

// Whether a number message may set the number to x.
#[tactic(auto, unfolding(crate::specs::Cell::value_fits))]
pub fn value_fits(kind: NodeKind, x: f32) -> bool
    ensures { result ≡ value_fits kind x }
{
    match kind {
        NodeKind::Mul(_) | NodeKind::Add(_) | NodeKind::AllPass(_, _) => finite(x),
        NodeKind::Sine(_) => is_frequency(x),
        _ => false,
    }
}

// Whether the judged values, given as patterns, are as they must be. A one-pole's last output may be
// any float, a sine's phase is from 0 to 1.
#[tactic(auto, unfolding(crate::specs::Cell::number_fits, crate::specs::Cell::carry_fits, crate::specs::Cell::place_fits))]
fn values_fit(kind: NodeKind, number: u32, carry: u32, place: u32) -> bool
    ensures { result ≡ number_fits kind number && carry_fits kind carry && place_fits kind place }
{
    match kind {
        NodeKind::Mul(_) | NodeKind::Add(_) => finite_bits(number) & (carry == 0) & (place == 0),
        NodeKind::Delay(n) => (number == 0) & (carry == 0) & (place < n),
        NodeKind::AllPass(n, _) => finite_bits(number) & (carry == 0) & (place < n),
        NodeKind::OnePole(_) => (number == 0) & (place == 0),
        NodeKind::Sine(_) => {
            is_frequency(of_bits(number)) & within(of_bits(carry), 1.0) & (place == 0)
        }
        _ => (number == 0) & (carry == 0) & (place == 0),
    }
}

// Whether the cell that starts at value `at` of the memory is as it must be.
pub fn cell_fits(memory: &[u8], at: usize, kind: NodeKind) -> bool
    requires { 4 * (at + samples_from) ≤ length memory.now }
    ensures { result ≡ cell_fits kind (drop at (words memory.now)) }
{
    let number = word_at(memory, at + NUMBER);
    let carry = word_at(memory, at + CARRY);
    let place = word_at(memory, at + PLACE);
    values_fit(kind, number, carry, place)
}
