// What is wrong with a board that the judge refuses: the rule of document 01 that its bytes break.
ghost use Rattle.std.specs.Prelude.{◌<◌, ◌≤◌, length};
ghost use Rattle.answers.specs.Rules.{most_words};

use kinds::kind::{bounds_of, is_frequency, length_fits, rule_of};
use kinds::types::Kind;
use values::bytes::{u16_at, u32_at};
use values::float::{finite_bits, of_bits};

// The rule that is broken: by a record, the head, a node by itself, a node in its place, a wire, the input
// node, or a node's sources. `Missing` and `NoInput` name the node that is not there.
#[derive(Clone, Copy)]
pub enum Fault {
    Record,
    NoHead,
    Order,
    Size,
    Type,
    NoWhole,
    Length,
    NoFloat,
    Number,
    Gain,
    Pole,
    Frequency,
    First,
    Second,
    ManyNodes,
    Lines,
    Missing(u32),
    Itself,
    ManyWires,
    NoNodes,
    NoInput(u32),
    InputKind,
    InputWired,
    Sources { has: u32, few: u32, many: u32 },
}

impl Fault {
    // The rule in words; a number follows where the fault has one. Not `Display`: a `Formatter` says nothing of
    // how much it wrote, and what follows the words has to fit the same 512 bytes. Ruled out: many words where
    // three numbers follow (sources_at_length).
    pub fn words(self) -> &'static [u8]
        ensures short { length result.now ≤ 90 }
        ensures most { length result.now ≤ most_words self }
    {
        match self {
            Fault::Record => b"a record that is cut or of a wrong length, or bytes after the end",
            Fault::NoHead => b"no block line at the start",
            Fault::Order => b"a record of a kind that is unknown or out of order",
            Fault::Size => b"the block size must be 1 to 128",
            Fault::Type => b"the type must be 1 to 10",
            Fault::NoWhole => b"n must be 0 for this type",
            Fault::Length => b"n must be 1 to 132300",
            Fault::NoFloat => b"the float must be 0 for this type",
            Fault::Number => b"the number must be finite",
            Fault::Gain => b"the gain must be finite",
            Fault::Pole => b"b must be finite",
            Fault::Frequency => b"the frequency must be 0 to 44100",
            Fault::First => b"the first node must be the destination",
            Fault::Second => b"only the first node may be a destination",
            Fault::ManyNodes => b"more than 64 nodes",
            Fault::Lines => {
                b"all lines together must be at most 262144, an all-pass counting twice"
            }
            Fault::Missing(_) => b"there is no node ",
            Fault::Itself => b"from a node to itself",
            Fault::ManyWires => b"more than 128 wires",
            Fault::NoNodes => b"there are no nodes",
            Fault::NoInput(_) => b"the input: there is no node ",
            Fault::InputKind => b"the input node must be a pass",
            Fault::InputWired => b"the input node must have no wires in",
            Fault::Sources { .. } => b"sources: ",
        }
    }
}

// The length and the kind of a node's record, and of a wire's, as their first four bytes.
const NODE: [u8; 4] = [14, 0, 2, 0];

const WIRE: [u8; 4] = [8, 0, 3, 0];

// The N bytes at `at`, if they are there.
fn record_at<const N: usize>(s: &[u8], at: usize) -> Option<&[u8; N]> {
    s.get(at..)?.first_chunk()
}

// A node record's fields. The type is a number: a refused board's may be one that no type has.
#[derive(Clone, Copy)]
pub struct Fields {
    pub t: u16,
    pub n: u32,
    pub f: u32,
}

// The node record at `at`.
pub fn fields_at(s: &[u8], at: usize) -> Option<Fields> {
    let record = record_at::<14>(s, at)?;
    Some(Fields {
        t: u16_at(record, 4),
        n: u32_at(record, 6),
        f: u32_at(record, 10),
    })
}

// The two numbers of the head at 0 or of the wire record at `at`.
pub fn ends_at(s: &[u8], at: usize) -> Option<(u16, u16)> {
    let record = record_at::<8>(s, at)?;
    Some((u16_at(record, 4), u16_at(record, 6)))
}

// The bytes after the records of N bytes that start so, of which each follows the one before.
fn after_records<const N: usize>(s: &[u8], start: [u8; 4]) -> &[u8]
    requires { (0 < N) × (N ≤ 14) }
    ensures { length result.now ≤ length s.now }
{
    let mut rest = s;
    // A `while let`: a turn passes a record, and the first that starts otherwise ends it.
    while let Some((record, behind)) = rest.split_first_chunk::<N>() {
        if !record.starts_with(&start) {
            return rest;
        }
        rest = behind;
    }
    rest
}

// How many node records follow the head, up to 65: no more are looked at.
pub fn node_count(s: &[u8]) -> usize
    ensures { result ≤ 65 }
{
    let Some(behind) = s.get(8..) else {
        return 0;
    };
    let nodes = &behind[..behind.len().min(14 * 65)];
    ((nodes.len() - after_records::<14>(nodes, NODE).len()) / 14).min(65)
}

// What follows the nodes.
fn after_nodes(s: &[u8]) -> &[u8]
    ensures { length result.now ≤ length s.now }
{
    s.get(8 + 14 * node_count(s)..).unwrap_or_default()
}

// Where a card's board ends, which may have other bytes after it.
pub fn board_end(s: &[u8]) -> usize
    ensures { result ≤ length s.now }
{
    let rest = after_records::<8>(after_nodes(s), WIRE).len();
    s.len() - rest + rest.min(4)
}

// Which number of a type is out of its range.
fn number_fault(kind: Kind) -> Fault {
    match kind {
        Kind::Mul | Kind::Add => Fault::Number,
        Kind::AllPass => Fault::Gain,
        Kind::OnePole => Fault::Pole,
        Kind::Sine => Fault::Frequency,
        _ => Fault::NoFloat,
    }
}

// What is wrong with a node whose fields each may stand, as node i.
fn place_fault(kind: Kind, i: usize) -> Fault {
    match (i, kind) {
        (64.., _) => Fault::ManyNodes,
        (0, Kind::Destination) => Fault::Lines,
        (0, _) => Fault::First,
        (_, Kind::Destination) => Fault::Second,
        _ => Fault::Lines,
    }
}

// Whether a node of this type may have a float of these bits.
fn float_fits(kind: Kind, f: u32) -> bool {
    match kind {
        Kind::Sine => is_frequency(of_bits(f)),
        _ if kind.has_float() => finite_bits(f),
        _ => f == 0,
    }
}

// What is wrong with node i, refusal 4.
pub fn node_fault(node: Fields, i: usize) -> Fault {
    let Ok(kind) = Kind::try_from(node.t) else {
        return Fault::Type;
    };
    if !kind.has_whole() && node.n != 0 {
        return Fault::NoWhole;
    }
    if kind.has_whole() && !length_fits(node.n) {
        return Fault::Length;
    }
    if float_fits(kind, node.f) {
        place_fault(kind, i)
    } else {
        number_fault(kind)
    }
}

// What is wrong with wire w on a board of so many nodes, refusal 5.
pub fn wire_fault(ends: (u16, u16), count: usize, w: usize) -> Fault {
    let (source, target) = ends;
    if 128 <= w {
        Fault::ManyWires
    } else if count <= usize::from(source) {
        Fault::Missing(u32::from(source))
    } else if count <= usize::from(target) {
        Fault::Missing(u32::from(target))
    } else {
        Fault::Itself
    }
}

// How many distinct sources node i has, by the 128 wires that a board may have.
fn sources_of(s: &[u8], i: usize) -> u32 {
    let mut seen = [false; 64];
    for record in after_nodes(s).chunks_exact(8).take(128) {
        if record.starts_with(&WIRE) && usize::from(u16_at(record, 6)) == i {
            seen[usize::from(record[4] % 64)] = true;
        }
    }
    seen.iter().filter(|new| **new).count() as u32
}

// What is wrong with the input node of a board of so many nodes, refusal 6.
fn input_fault(s: &[u8], count: usize, input: u16) -> Fault {
    if count <= usize::from(input) {
        return Fault::NoInput(u32::from(input));
    }
    let node = fields_at(s, 8 + 14 * usize::from(input));
    if node.is_some_and(|node| node.t == u16::from(Kind::Pass)) {
        Fault::InputWired
    } else {
        Fault::InputKind
    }
}

// What is wrong with node i, or the input node, refusal 6.
pub fn source_fault(s: &[u8], i: usize) -> Fault {
    let count = node_count(s);
    if count == 0 {
        return Fault::NoNodes;
    }
    let Some((_, input)) = ends_at(s, 0) else {
        return Fault::NoNodes;
    };
    if i == usize::from(input) {
        return input_fault(s, count, input);
    }
    if count <= i {
        return Fault::Record;
    }
    let Some(node) = fields_at(s, 8 + 14 * i) else {
        return Fault::Record;
    };
    let Some(kind) = rule_of(node.t, node.n, node.f) else {
        return Fault::Record;
    };
    let bounds = bounds_of(kind);
    Fault::Sources {
        has: sources_of(s, i),
        few: u32::from(bounds.few),
        many: u32::from(bounds.many),
    }
}
