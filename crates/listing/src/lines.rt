// The lines of a board: its visiting list, and its late wires.
ghost use Rattle.std.specs.Prelude.{◌≡◌, [], ◌∷◌, ◌++◌, ◌+◌, ◌*◌, ◌<◌, ◌≤◌, length, take};
ghost use Rattle.boards.specs.Judge.{read_board};
ghost use Rattle.boards.specs.Wires.{Within, wires_of};
ghost use Rattle.graph.specs.Late.{late_wires};
ghost use Rattle.text.specs.Written.{Appends};
ghost use Rattle.listing.specs.Text.{spaced_all, line, order_word, late_word, refused_word, late_lines, order_text, text_of};

use boards::board::Wires;
use boards::judge::read_board;
use graph::graph::{Order, visiting_list};
use records::answer::Answer;
use text::written::Text;

// Each node with a space before it.
fn push_nodes(out: &mut Text<2048>, nodes: &[u8])
    requires { (length out.old + 3 * length nodes.now + 8 ≤ 2048) × Within 64 nodes.now (length nodes.now) }
    ensures { Appends (3 * length nodes.now) out.old (spaced_all nodes.now) out.new }
{
    for node in nodes {
        out.push_spaced(u32::from(*node));
    }
}

// The line of a late wire.
fn push_late(out: &mut Text<2048>, source: u8, target: u8)
    requires { (source < 64) × (target < 64) × (length out.old + 27 ≤ 2048) }
    ensures { Appends 11 out.old (line late_word source target) out.new }
{
    out.push_pair(b"late ", u32::from(source), b" ", u32::from(target), b"\n");
}

// A line for each late wire.
fn push_lates(out: &mut Text<2048>, order: &Order, wires: &Wires)
    requires { length out.old + 11 * wires.now.count + 16 ≤ 2048 }
    ensures { out.new ≡ out.old ++ late_lines (late_wires (take order.now.count order.now.nodes) (wires_of wires.now.list wires.now.count)) }
{
    let places = order.places();
    for &(source, target) in wires.listed() {
        if places.is_late(usize::from(source), usize::from(target)) {
            push_late(out, source, target);
        }
    }
}

// The text of a board with these wires and this visiting list, in place of what `out` held: lent, for a program
// that writes one after another (`Text::clear`).
// Ruled out, and tried by a must-fail edit: the list's line not ended (list_not_ended).
pub fn write_listed(out: &mut Text<2048>, order: &Order, wires: &Wires)
    ensures { out.new ≡ order_text (take order.now.count order.now.nodes) (wires_of wires.now.list wires.now.count) }
{
    out.clear();
    out.push_word(b"order");
    push_nodes(out, order.listed());
    out.push(b'\n');
    push_lates(out, order, wires);
}

// The same, as a text of its own.
pub fn listed_text(order: &Order, wires: &Wires) -> Text<2048>
    ensures { result ≡ order_text (take order.now.count order.now.nodes) (wires_of wires.now.list wires.now.count) }
{
    let mut out = Text::new();
    write_listed(&mut out, order, wires);
    out
}

// The text of a refusal, in place of what `out` held.
// Ruled out, and tried by a must-fail edit: the place before the number (place_first).
pub fn write_refused(out: &mut Text<2048>, refused: Answer)
    ensures { out.new ≡ line refused_word refused.number refused.place }
{
    out.clear();
    out.push_pair(b"refused ", refused.number, b" ", refused.place, b"\n");
}

// The same, as a text of its own.
pub fn refused_text(refused: Answer) -> Text<2048>
    ensures { result ≡ line refused_word refused.number refused.place }
{
    let mut out = Text::new();
    write_refused(&mut out, refused);
    out
}

// The text of the board that the bytes hold.
pub fn board_text(s: &[u8]) -> Text<2048>
    ensures { result ≡ text_of (read_board s.now) }
{
    match read_board(s) {
        Ok(board) => listed_text(&visiting_list(&board.sources), &board.wires),
        Err(refused) => refused_text(refused),
    }
}
