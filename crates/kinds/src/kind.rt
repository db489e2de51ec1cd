// The ten node types, and what a node record's three fields may say.
ghost use Rattle.std.specs.Prelude.{◌≡◌, ◌≤◌, ◌<◌, ◌&&◌, leb};
ghost use Rattle.kinds.specs.Row.{in_range, frequency};
ghost use Rattle.kinds.specs.Types.{type_number};
ghost use Rattle.kinds.specs.Kind.{length_fits, rule_of, kind_by, fields_of, line_of, channels_of, cell_size, is_destination, is_pass, fewest, most, sources_fit};

use crate::cell::SAMPLES;
use crate::types::Kind;
use values::float::{SAMPLE_RATE, finite_bits, of_bits, within};

// A node's type, with its line length and its number, coefficient or frequency.
#[derive(Clone, Copy)]
pub enum NodeKind {
    Pass,
    Sum,
    Destination,
    Balance,
    Mul(f32),
    Add(f32),
    Delay(u32),
    AllPass(u32, f32),
    OnePole(f32),
    Sine(f32),
}

impl NodeKind {
    // The type's name, its whole number and its float, zero where it has none: what a record of it says.
    // Three values, here and where nodes are read and written: a record has the type as 16 bits and the
    // float as bits, a card has the type's name, a node an `f32`; one struct would be converted at each.
    // Ruled out, and tried by a must-fail edit: the name of another type (fields_of_add).
    pub fn fields(self) -> (Kind, u32, f32)
        ensures which { result ≡ fields_of self }
        ensures inverse { kind_by (type_number result.0) result.1 result.2 ≡ self }
    {
        match self {
            NodeKind::Pass => (Kind::Pass, 0, 0.0),
            NodeKind::Sum => (Kind::Sum, 0, 0.0),
            NodeKind::Destination => (Kind::Destination, 0, 0.0),
            NodeKind::Balance => (Kind::Balance, 0, 0.0),
            NodeKind::Mul(x) => (Kind::Mul, 0, x),
            NodeKind::Add(x) => (Kind::Add, 0, x),
            NodeKind::Delay(n) => (Kind::Delay, n, 0.0),
            NodeKind::AllPass(n, g) => (Kind::AllPass, n, g),
            NodeKind::OnePole(b) => (Kind::OnePole, 0, b),
            NodeKind::Sine(f) => (Kind::Sine, 0, f),
        }
    }
}

// A node record as read: its type, its channel count and where its cell starts in the memory,
// counted in values of 4 bytes.
#[derive(Clone, Copy)]
pub struct NodeRecord {
    pub kind: NodeKind,
    pub channels: u8,
    pub cell: u32,
}

// Whether a line may have n samples.
pub fn length_fits(n: u32) -> bool
    ensures { result ≡ length_fits n }
{
    (1 <= n) & (n <= 132300)
}

// Whether a sine may have the frequency x. No NaN and no infinity passes.
pub fn is_frequency(x: f32) -> bool
    ensures { result ≡ in_range frequency x }
{
    within(x, SAMPLE_RATE)
}

// What a node record's type, whole number and float bits say, numbers as they stand in it; nothing where
// one of them is broken.
#[tactic(auto, unfolding(crate::specs::Kind::rule_of))]
pub fn rule_of(t: u16, n: u32, f: u32) -> Option<NodeKind>
    ensures { result ≡ rule_of t n f }
{
    let x = of_bits(f);
    match Kind::try_from(t).ok()? {
        Kind::Pass => ((n == 0) & (f == 0)).then_some(NodeKind::Pass),
        Kind::Sum => ((n == 0) & (f == 0)).then_some(NodeKind::Sum),
        Kind::Destination => ((n == 0) & (f == 0)).then_some(NodeKind::Destination),
        Kind::Balance => ((n == 0) & (f == 0)).then_some(NodeKind::Balance),
        Kind::Mul => ((n == 0) & finite_bits(f)).then_some(NodeKind::Mul(x)),
        Kind::Add => ((n == 0) & finite_bits(f)).then_some(NodeKind::Add(x)),
        Kind::Delay => (length_fits(n) & (f == 0)).then_some(NodeKind::Delay(n)),
        Kind::AllPass => (length_fits(n) & finite_bits(f)).then_some(NodeKind::AllPass(n, x)),
        Kind::OnePole => ((n == 0) & finite_bits(f)).then_some(NodeKind::OnePole(x)),
        Kind::Sine => ((n == 0) & is_frequency(x)).then_some(NodeKind::Sine(x)),
    }
}

// The values that a node's line takes.
pub fn line_of(k: NodeKind) -> usize
    ensures { (result ≡ line_of k) × (result < 8589934592) }
{
    match k {
        NodeKind::Delay(n) => n as usize,
        NodeKind::AllPass(n, _) => n as usize * 2,
        _ => 0,
    }
}

// The channels of a node's samples.
pub fn channels_of(k: NodeKind) -> u8
    ensures { result ≡ channels_of k }
{
    match k {
        NodeKind::Destination | NodeKind::Balance => 2,
        _ => 1,
    }
}

// The values of a node's cell at blocks of the given size. A size is a number that a head or a board has;
// a type for it would be taken off in each product.
pub fn cell_size(size: usize, k: NodeKind) -> usize
    requires { size ≤ 128 }
    ensures { result ≡ cell_size size k }
{
    SAMPLES + size * usize::from(channels_of(k)) + line_of(k)
}

// Whether a node is the destination.
pub fn is_destination(k: NodeKind) -> bool
    ensures { result ≡ is_destination k }
{
    matches!(k, NodeKind::Destination)
}

// Whether a node is a pass.
pub fn is_pass(k: NodeKind) -> bool
    ensures { result ≡ is_pass k }
{
    matches!(k, NodeKind::Pass)
}

// The fewest and the most distinct sources that a type takes.
#[derive(Clone, Copy)]
pub struct Bounds {
    pub few: u8,
    pub many: u8,
}

impl Bounds {
    // Whether n sources are within them. Both are looked at, so that a loop over many has no branch.
    // Ruled out, and tried by a must-fail edit: one source less than the most (one_source_fewer).
    pub fn allow(self, n: u8) -> bool
        ensures { result ≡ (leb self.few n && leb n self.many) }
    {
        (self.few <= n) & (n <= self.many)
    }
}

// The fewest and the most distinct sources that a node's type takes.
pub fn bounds_of(k: NodeKind) -> Bounds
    ensures { (result.few ≡ fewest k) × (result.many ≡ most k) }
{
    let (few, many) = match k {
        NodeKind::Pass => (0, 1),
        NodeKind::Sum | NodeKind::Destination => (0, 8),
        NodeKind::Balance => (2, 2),
        NodeKind::Delay(_) | NodeKind::OnePole(_) => (1, 1),
        NodeKind::Sine(_) => (0, 0),
        _ => (1, 2),
    };
    Bounds { few, many }
}

// Whether a type takes n distinct sources.
pub fn sources_fit(k: NodeKind, n: usize) -> bool
    ensures { result ≡ sources_fit k n }
{
    u8::try_from(n).is_ok_and(|n| bounds_of(k).allow(n))
}
