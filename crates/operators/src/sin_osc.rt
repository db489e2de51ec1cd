// The sine oscillator; the number is its frequency, the carry its phase. The phases come first, in a
// loop that only adds until a phase turns back; then the sines as whole numbers, in a loop that
// vectorizes; then they are stored as floats.
ghost use Rattle.std.specs.Prelude.{◌≡◌, ℕ, ◌+◌, ◌*◌, ◌≤◌, ◌<◌, T, length, get_or, pos, Float};
ghost use Rattle.values.specs.Words.{words};
ghost use Rattle.values.specs.Floats.{float_at};
ghost use Rattle.values.specs.Floors.{f1, f44100, within};
ghost use Rattle.leaves.specs.Sine.{sine_of};
ghost use Rattle.kinds.specs.Kind.{samples_from, number_index, carry_index};
ghost use Rattle.effects.specs.Block.{nothing, stored};
ghost use Rattle.kinds.specs.Cell.{run_values};
ghost use Rattle.operators.specs.Phases.{Stays, Moves, Units, sine_at};

use crate::block::put_each;
use kinds::cell::{CARRY, NUMBER, SAMPLES};
use kinds::kind::NodeKind;
use leaves::phase::{advance, increment};
use leaves::sine::{over23, phase_units, sine_units};
use values::float::{load, store};

// How many samples were passed, and the next one's phase.
#[derive(Clone, Copy)]
struct Climbed {
    count: usize,
    phase: f32,
}

// The phases up to the first after which the phase turns back. To return there makes the turn a branch,
// which is seldom taken: each phase waits for one sum only.
fn climb(units: &mut [u32], start: f32, by: f32) -> Climbed
    requires { (0 < length units.old) × T (within f1 start) × Stays by }
    ensures passed { (0 < result.count) × (result.count ≤ length units.old) × T (within f1 result.phase) }
    ensures by_index { (p : ℕ → Float) → Moves by p → start ≡ p 0 → (result.phase ≡ p result.count) × Units p result.count units.new }
{
    let mut phase = start;
    for (i, unit) in units.iter_mut().enumerate() {
        *unit = phase_units(phase);
        if phase + by > 1.0 {
            return Climbed {
                count: i + 1,
                phase: advance(phase, by),
            };
        }
        phase = advance(phase, by);
    }
    Climbed {
        count: units.len(),
        phase,
    }
}

// The phases of a block; the phase after the last is given.
fn phases(units: &mut [u32], start: f32, by: f32) -> f32
    requires { T (within f1 start) × Stays by }
    ensures { (p : ℕ → Float) → Moves by p → start ≡ p 0 → (result ≡ p (length units.old)) × Units p (length units.old) units.new }
{
    let mut done = 0;
    let mut phase = start;
    // A turn is a climb, of as many samples as go before the phase turns back.
    while done < units.len() {
        let climbed = climb(&mut units[done..], phase, by);
        done += climbed.count;
        phase = climbed.phase;
    }
    phase
}

// The sines of phases, over 2^23. A loop over whole numbers alone vectorizes.
fn sine_wholes(units: &[u32], values: &mut [i32])
    requires { length values.old ≤ length units.now }
    ensures { (j : ℕ) → j < length values.old → get_or values.new j (pos 0) ≡ sine_of (get_or units.now j 0) }
{
    for (i, value) in values.iter_mut().enumerate() {
        *value = sine_units(units[i]);
    }
}

fn sines(cell: &mut [u8], units: &[u32])
    requires { (4 * (samples_from + length units.now) ≤ length cell.old) × (length units.now ≤ 128) }
    ensures { words cell.new ≡ stored (sine_at units.now) samples_from (length units.now) (words cell.old) }
{
    let mut values = [0i32; 128];
    sine_wholes(units, &mut values[..units.len()]);
    put_each(cell, SAMPLES, units.len(), |i| over23(values[i]));
}

// A block over a cell of so many samples. `size` stands beside the cell, though its length has it: each
// clause would say `length cell.old / 4 - samples_from` where it says `size`.
pub fn sin_osc(cell: &mut [u8], size: usize)
    requires size_nonzero { (0 < size) × (size ≤ 128) × (length cell.old ≡ 4 * (samples_from + size)) }
    requires in_band { (T (within f44100 (float_at (words cell.old) number_index))) × (T (within f1 (float_at (words cell.old) carry_index))) }
    ensures { (f : Float) → words cell.new ≡ run_values (NodeKind.Sine f) size nothing (words cell.old) }
{
    let by = increment(load(cell, NUMBER));
    let mut room = [0u32; 128];
    let units = &mut room[..size];
    let last = phases(units, load(cell, CARRY), by);
    sines(cell, units);
    store(cell, CARRY, last);
}
