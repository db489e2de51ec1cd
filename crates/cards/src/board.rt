// The board of a card: its lines, one after the other, written as records and then judged.
ghost use Rattle.std.specs.Prelude.{◌≡◌, ◌++◌, ◌+◌, ◌≤◌, length, take};
ghost use Rattle.std.proofs.lemmas.List.Edits.{sets};
ghost use Rattle.reading.specs.Order.{wire};
ghost use Rattle.records.specs.Write.{head_bytes, node_bytes, wire_bytes, end_bytes};
ghost use Rattle.kinds.specs.Types.{type_number};
ghost use Rattle.cards.specs.Adding.{Room, Adds, Within};
ghost use Rattle.cards.specs.Board.{record_bytes, head_step, node_step, wire_step, step_of, judged_of, lines_say, card_of};
ghost use Rattle.text.specs.Words.{lines_of};

use boards::judge::judge;
use card_lines::labels::unmarked;
use card_lines::line::{Line, said};
use card_lines::reason::Reason;
use kinds::types::Kind;
use records::answer::Answer;
use records::writer::{put_end, put_head, put_node, put_wire};
use text::words::Lines;

// How far a board is written: its bytes, its nodes and its wires. `Room` of it stands in the contracts, not in
// ghost fields: the definitions (`node_step`, `card_from`) make such values by a test alone, and would each have
// to prove the room of what they make. Not one struct with `out`: what a bad line leaves in `out` is promised too
// (`bytes` of `board_of`), and is read off the slice itself.
#[derive(Clone, Copy)]
pub struct Written {
    pub at: usize,
    pub nodes: usize,
    pub wires: usize,
}

// Why a card gives no board: the judge refuses it; or the first bad line, from 1, and what is wrong with it.
#[derive(Clone, Copy)]
pub enum Wrong {
    Refused(Answer),
    Bad(usize, Reason),
}

impl Written {
    // The head is the first record.
    fn add_head(self, out: &mut [u8], size: u16, input: u16) -> Result<Written, Reason>
        requires { (1932 ≤ length out.old) × Room self }
        ensures { Adds self (head_step self) (head_bytes size input) out.old out.new result }
    {
        if self.at != 0 {
            return Err(Reason::Late);
        }
        put_head(out, size, input);
        Ok(Written {
            at: 8,
            nodes: 0,
            wires: 0,
        })
    }

    // A node stands after the head and before the wires.
    fn add_node(self, out: &mut [u8], kind: Kind, n: u32, f: u32) -> Result<Written, Reason>
        requires { (1932 ≤ length out.old) × Room self }
        ensures { Adds self (node_step self) (node_bytes (record { type = type_number kind; n = n; f = f })) out.old out.new result }
    {
        if self.at == 0 {
            return Err(Reason::Early);
        }
        if self.wires != 0 {
            return Err(Reason::Late);
        }
        if self.nodes == 64 {
            return Err(Reason::Many);
        }
        put_node(out, self.at, u16::from(kind), n, f);
        Ok(Written {
            at: self.at + 14,
            nodes: self.nodes + 1,
            wires: self.wires,
        })
    }

    // A wire stands after the head.
    fn add_wire(self, out: &mut [u8], source: u16, target: u16) -> Result<Written, Reason>
        requires { (1932 ≤ length out.old) × Room self }
        ensures { Adds self (wire_step self) (wire_bytes (wire source target)) out.old out.new result }
    {
        if self.at == 0 {
            return Err(Reason::Early);
        }
        if self.wires == 128 {
            return Err(Reason::Many);
        }
        put_wire(out, self.at, source, target);
        Ok(Written {
            at: self.at + 8,
            nodes: self.nodes,
            wires: self.wires + 1,
        })
    }

    // The record of what a line says, after those that are written.
    #[tactic(auto, unfolding(crate::specs::Board::step_of))]
    fn add_line(self, out: &mut [u8], line: Result<Line, Reason>) -> Result<Written, Reason>
        requires { (1932 ≤ length out.old) × Room self }
        ensures { Adds self (step_of self line) (record_bytes line) out.old out.new result }
    {
        match line {
            Ok(Line::Blank) => Ok(self),
            Ok(Line::Head(size, input)) => self.add_head(out, size, input),
            Ok(Line::Node(kind, n, f)) => self.add_node(out, kind, n, f),
            Ok(Line::Wire(source, target)) => self.add_wire(out, source, target),
            // An arm, not `?`: an edit of it passes over a bad line alone (bad_line_passed).
            Err(reason) => Err(reason),
        }
    }
}

// A board of `at` bytes with its end record: how long it is, if the judge accepts it.
fn finished(out: &mut [u8], at: usize) -> Result<usize, Wrong>
    requires { at + 4 ≤ length out.old }
    ensures within { Within out.new result }
    ensures answered { result ≡ (judged_of (take at out.old ++ end_bytes)).made }
    ensures bytes { out.new ≡ sets out.old at end_bytes }
{
    put_end(out, at);
    let end = at + 4;
    judge(&out[..end]).checked().map_err(Wrong::Refused)?;
    Ok(end)
}

// The board of a card without a byte-order mark.
fn lines_board(text: &[u8], out: &mut [u8]) -> Result<usize, Wrong>
    requires { 1932 ≤ length out.old }
    ensures within { Within out.new result }
    ensures answered { result ≡ (lines_say (lines_of text.now)).made }
    ensures bytes { out.new ≡ sets out.old 0 (lines_say (lines_of text.now)).bytes }
{
    let mut done = Written {
        at: 0,
        nodes: 0,
        wires: 0,
    };
    for (i, line) in Lines::new(text).enumerate() {
        done = done
            .add_line(out, said(text, done.nodes, line))
            .map_err(|reason| Wrong::Bad(i + 1, reason))?;
    }
    finished(out, done.at)
}

// The board of a card, in the first bytes of `out`: how many, if the judge accepts it. Ruled out, and tried
// by must-fail edits: every card refused (refuses_all), a bad line passed over (bad_line_passed), a second
// node with the same name passed over (card_lines, first_name_wins), a name that stands for the node behind
// it (card_lines, name_one_off). A length, not the slice, though `Within` then stands in three contracts: the
// answer to a card that gives no board reads `out` too.
pub fn board_of(text: &[u8], out: &mut [u8]) -> Result<usize, Wrong>
    requires { 1932 ≤ length out.old }
    ensures within { Within out.new result }
    ensures answered { result ≡ (card_of text.now).made }
    ensures bytes { out.new ≡ sets out.old 0 (card_of text.now).bytes }
{
    lines_board(unmarked(text), out)
}
