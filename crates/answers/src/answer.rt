// Answers in words: what is wrong with a card or a board.
ghost use Rattle.std.specs.Prelude.{◌+◌, ◌≤◌, length, IfSome};
ghost use Rattle.answers.specs.Part.{IsPart};

use crate::fault::{
    Fault, board_end, ends_at, fields_at, node_count, node_fault, source_fault, wire_fault,
};
use crate::kind::push_type;
use card_lines::labels::{bare, body_of, unmarked};
use card_lines::names::{Name, named};
use card_lines::reason::Reason;
use cards::board::Wrong;
use records::answer::Answer;
use text::words::{Lines, is_space, nth_word};
use text::written::Text;
use values::float::of_bits;

// What is wrong with a line, in words. Not `Display`: a `Formatter` says nothing of how much it wrote, and
// what follows the words has to fit the same 512 bytes.
fn reason_words(reason: Reason) -> &'static [u8]
    ensures { length result.now ≤ 90 }
{
    match reason {
        Reason::Name => b"unknown name",
        Reason::Fields => b"wrong number of fields",
        Reason::Whole => b"no whole number, or too large",
        Reason::Float => b"no float",
        Reason::Long => b"decimal too long: write its bits, x and 8 hexadecimal digits",
        Reason::Late => b"out of order: block, then nodes, then wires",
        Reason::Early => b"before the block line",
        Reason::Many => b"too many of these",
        Reason::Range => {
            b"milliseconds out of range: 0 to 3000, and at least one sample for an all-pass"
        }
        Reason::Label => b"no name: a letter, then letters, digits, _ - .",
        Reason::Twice => b"name given twice",
        Reason::NoNode => b"a name before a line that is no node",
        Reason::Missing => b"no node has this name",
    }
}

// What the judge refuses with each number, and where: the offset of a record, or a node's number.
#[derive(Clone, Copy)]
enum Refused {
    Record,
    Order { at: u32 },
    Head,
    Node { at: u32 },
    Wire { at: u32 },
    Sources { node: u32 },
}

impl From<Answer> for Refused {
    fn from(refusal: Answer) -> Self {
        let place = refusal.place;
        match refusal.number {
            2 => Refused::Order { at: place },
            3 => Refused::Head,
            4 => Refused::Node { at: place },
            5 => Refused::Wire { at: place },
            6 => Refused::Sources { node: place },
            _ => Refused::Record,
        }
    }
}

// Each of the next functions says in its contract the most bytes that it adds: each adds another number of
// them, so no type can say it for all.

// The rule that a board breaks, in words.
fn push_fault<const N: usize>(out: &mut Text<N>, fault: Fault)
    requires { length out.old + 100 ≤ N }
    ensures { length out.new ≤ length out.old + 100 }
{
    out.push_word(fault.words());
    match fault {
        Fault::Missing(node) | Fault::NoInput(node) => out.push_number(node),
        Fault::Sources { has, few, many } => {
            out.push_pair(b"", has, b", must be ", few, b"");
            if few != many {
                out.push_word(b" to ");
                out.push_number(many);
            }
        }
        _ => {}
    }
}

// The number of the node whose record stands at an offset, or of the wire behind so many nodes.
fn node_index(at: u32) -> u32 {
    at.saturating_sub(8) / 14
}

fn wire_index(at: u32, count: usize) -> usize
    requires { count ≤ 65 }
{
    (at as usize).saturating_sub(8 + 14 * count) / 8
}

// The rule that a board breaks by which the judge refuses it so.
fn fault_of(s: &[u8], refused: Refused) -> Fault {
    match refused {
        Refused::Record => Fault::Record,
        Refused::Order { at: 0 } => Fault::NoHead,
        Refused::Order { .. } => Fault::Order,
        Refused::Head => Fault::Size,
        Refused::Node { at } => fields_at(s, at as usize).map_or(
            Fault::Type,
            |node| node_fault(node, node_index(at) as usize),
        ),
        Refused::Wire { at } => {
            let count = node_count(s);
            ends_at(s, at as usize).map_or(Fault::Record, |ends| {
                wire_fault(ends, count, wire_index(at, count))
            })
        }
        Refused::Sources { node } => source_fault(s, node as usize),
    }
}

// Node i, whose record stands at `at`, by its number and its fields.
fn push_node<const N: usize>(out: &mut Text<N>, s: &[u8], at: usize, i: u32)
    requires { length out.old + 100 ≤ N }
    ensures { length out.new ≤ length out.old + 100 }
{
    let Some(node) = fields_at(s, at) else {
        return;
    };
    out.push_word(b"node ");
    out.push_number(i);
    out.push_word(b": ");
    push_type(out, usize::from(node.t), node.n, of_bits(node.f));
    out.push_word(b": ");
}

// The two numbers of a head or of a wire with a word before each, and a colon.
fn push_ends<const N: usize>(
    out: &mut Text<N>,
    first: &[u8],
    ends: Option<(u16, u16)>,
    between: &[u8],
)
    requires { (length first.now ≤ 10) × (length between.now ≤ 10) × (length out.old + 100 ≤ N) }
    ensures { length out.new ≤ length out.old + 100 }
{
    if let Some((a, b)) = ends {
        out.push_pair(first, u32::from(a), between, u32::from(b), b": ");
    }
}

// What a refusal is about: the head, a node or a wire.
fn push_subject<const N: usize>(out: &mut Text<N>, s: &[u8], refused: Refused)
    requires { length out.old + 100 ≤ N }
    ensures { length out.new ≤ length out.old + 100 }
{
    match refused {
        Refused::Head => push_ends(out, b"block ", ends_at(s, 0), b" input "),
        Refused::Node { at } => push_node(out, s, at as usize, node_index(at)),
        Refused::Wire { at } => push_ends(out, b"wire ", ends_at(s, at as usize), b" "),
        Refused::Sources { node } => {
            if (node as usize) < node_count(s) {
                push_node(out, s, 8 + 14 * node as usize, node);
            }
        }
        Refused::Record | Refused::Order { .. } => {}
    }
}

// What is wrong with the board s, which the judge refuses so: what it is about, and the rule. Ruled out: what
// it is about written twice (subject_twice).
pub fn push_why<const N: usize>(out: &mut Text<N>, s: &[u8], refusal: Answer)
    requires { length out.old + 200 ≤ N }
    ensures { length out.new ≤ length out.old + 200 }
{
    let refused = Refused::from(refusal);
    push_subject(out, s, refused);
    push_fault(out, fault_of(s, refused));
}

// A line of a text, and its number, from 1.
#[derive(Clone, Copy)]
struct Spot<'a> {
    number: usize,
    line: &'a [u8],
}

// Line k, from 0, of those whose record's name is asked for. Ruled out: a line that the text does not have
// (line_of_no_text).
fn spot_of<'a, F: Fn(Name) -> bool>(text: &'a [u8], k: usize, asked: F) -> Option<Spot<'a>>
    requires { F.IsAlwaysCallable asked }
    ensures { IfSome result (λ spot. IsPart text.now spot.line.now) }
{
    let (i, line) = Lines::new(text)
        .enumerate()
        .filter(|(_, line)| named(nth_word(body_of(bare(line)), 0)).is_some_and(|name| asked(name)))
        .nth(k)?;
    Some(Spot {
        number: i.saturating_add(1),
        line,
    })
}

// The line of a card that a refusal is about.
fn spot_by<'a>(text: &'a [u8], board: &[u8], refused: Refused) -> Option<Spot<'a>>
    ensures { IfSome result (λ spot. IsPart text.now spot.line.now) }
{
    let is_node = |name| matches!(name, Name::Node(_));
    let count = node_count(board);
    match refused {
        Refused::Node { at } => spot_of(text, node_index(at) as usize, is_node),
        Refused::Wire { at } => spot_of(text, wire_index(at, count), |name| name == Name::Wire),
        Refused::Sources { node }
            if (node as usize) < count
                && ends_at(board, 0).is_some_and(|(_, input)| u32::from(input) != node) => {
            spot_of(text, node as usize, is_node)
        }
        _ => spot_of(text, 0, |name| name == Name::Head),
    }
}

// The words of a line, a space before each, as far as they fit 60 bytes.
fn push_words(out: &mut Text<512>, line: &[u8])
    requires { length out.old + 64 ≤ 512 }
    ensures { length out.new ≤ length out.old + 64 }
{
    let mut room = 60;
    let words = line
        .split(|byte| is_space(*byte))
        .filter(|word| !word.is_empty());
    for word in words {
        if room <= word.len() {
            return out.push_word(b" ..");
        }
        out.push(b' ');
        out.push_word(word);
        room -= word.len() + 1;
    }
}

// A line's number; from 4,294,967,295 on, that.
fn push_count(out: &mut Text<512>, n: usize)
    requires { length out.old + 10 ≤ 512 }
    ensures { length out.new ≤ length out.old + 10 }
{
    out.push_number(u32::try_from(n).unwrap_or(u32::MAX));
}

// The line of a card that a refusal is about, in its own words, and a colon.
fn push_spot(out: &mut Text<512>, spot: Spot)
    requires { length out.old + 100 ≤ 512 }
    ensures { length out.new ≤ length out.old + 100 }
{
    out.push_word(b"line ");
    push_count(out, spot.number);
    out.push(b':');
    push_words(out, bare(spot.line));
    out.push_word(b": ");
}

// A bad line: its number and what is wrong with it.
fn bad_text(line: usize, reason: Reason) -> Text<512>
    ensures { length result ≤ 200 }
{
    let mut out = Text::new();
    out.push_word(b"line ");
    push_count(&mut out, line);
    out.push_word(b": ");
    out.push_word(reason_words(reason));
    out.push(b'\n');
    out
}

// A refusal of a card's board.
fn refused_text(text: &[u8], board: &[u8], refusal: Answer) -> Text<512>
    ensures { length result ≤ 300 }
{
    let refused = Refused::from(refusal);
    let mut out = Text::new();
    if let Some(spot) = spot_by(unmarked(text), board, refused) {
        push_spot(&mut out, spot);
    }
    push_fault(&mut out, fault_of(&board[..board_end(board)], refused));
    out.push_pair(b" (refused ", refusal.number, b" ", refusal.place, b")\n");
    out
}

// What became of a card that gives no board: its first bad line, or the judge's refusal with the line that
// it is about. The board may have other bytes after it.
pub fn answer_text(text: &[u8], board: &[u8], wrong: Wrong) -> Text<512> {
    match wrong {
        Wrong::Refused(refusal) => refused_text(text, board, refusal),
        Wrong::Bad(line, reason) => bad_text(line, reason),
    }
}

// A refusal of a board's bytes.
pub fn refusal_text(s: &[u8], refusal: Answer) -> Text<512> {
    let mut out = Text::new();
    out.push_pair(b"refused ", refusal.number, b" ", refusal.place, b": ");
    push_why(&mut out, s, refusal);
    out.push(b'\n');
    out
}
