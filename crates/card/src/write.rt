// A board as text: a card, or a graph for Graphviz.
ghost use Rattle.std.specs.Prelude.{◌+◌, ◌<◌, ◌≤◌, length};
ghost use Rattle.card.specs.Board.{Accepted};

use answers::kind::push_kind;
use boards::board::Board;
use graph::graph::{Places, visiting_list};
use kinds::kind::NodeKind;
use text::written::Text;

// What a board is shown as.
#[derive(Clone, Copy)]
pub enum ShownAs {
    Card,
    Graph,
}

// A board's text, in which all that is written of one board has room. Each function says how much room it
// takes; as that differs, no type could say it for all.
pub type Page = Text<24576>;

// A type's name, and its whole number and float.
fn push_fields(out: &mut Page, kind: NodeKind)
    requires { length out.old + 64 ≤ 24576 }
    ensures { length out.new ≤ length out.old + 64 }
{
    let (name, n, f) = kind.fields();
    push_kind(out, name, n, f);
}

// How a board's text is written: its head, each node and each wire, and its end. A wire's two ends are
// below 64, as its board says. Each function takes the board, as its promises speak of it: i is below the
// board's count.
trait Shape {
    fn push_head(&self, out: &mut Page, board: &Board)
        requires { length out.old + 120 ≤ 24576 }
        ensures { length out.new ≤ length out.old + 120 };

    // Node i, of this type.
    fn push_node(&self, out: &mut Page, board: &Board, i: usize, kind: NodeKind)
        requires { (length out.old + 160 ≤ 24576) × (i < board.now.count) }
        ensures { length out.new ≤ length out.old + 160 };

    // Wire i, from `source` to `target`.
    fn push_wire(&self, out: &mut Page, board: &Board, i: usize, source: u8, target: u8)
        requires { (length out.old + 96 ≤ 24576) × (i < board.now.wires.count) × (source < 64) × (target < 64) }
        ensures { length out.new ≤ length out.old + 96 };

    fn push_end(&self, out: &mut Page)
        requires { length out.old + 8 ≤ 24576 }
        ensures { length out.new ≤ length out.old + 8 };
}

// A card: a line for each.
struct Card;

impl Shape for Card {
    fn push_head(&self, out: &mut Page, board: &Board) {
        out.push_pair(
            b"block ",
            board.size as u32,
            b" input ",
            board.input as u32,
            b"\n",
        );
    }

    fn push_node(&self, out: &mut Page, _board: &Board, i: usize, kind: NodeKind) {
        push_fields(out, kind);
        out.push_word(b"  #");
        out.push_spaced(i as u32);
        out.push(b'\n');
    }

    fn push_wire(&self, out: &mut Page, _board: &Board, _i: usize, source: u8, target: u8) {
        out.push_pair(b"wire ", u32::from(source), b" ", u32::from(target), b"\n");
    }

    fn push_end(&self, _out: &mut Page) {}
}

// A graph, with a node for each node and an arrow for each wire. The input stands at the top and the
// destination at the bottom, a late wire is dashed and does not pull, a node that is not reached is grey,
// and where a node tells its two sources apart, their wires are marked 1 and 2.
#[derive(Drop)]
struct Graph {
    places: Places,
}

// How a node looks in a graph: the input and the destination by their shape, what is not reached grey.
fn look(i: usize, input: usize, reached: bool) -> &'static [u8]
    ensures { length result.now ≤ 60 }
{
    if !reached {
        b" style=dotted color=grey fontcolor=grey"
    } else if i == input {
        b" shape=invhouse"
    } else if i == 0 {
        b" shape=house"
    } else {
        b""
    }
}

// Whether a type tells its first source from its second.
fn is_ordered(kind: NodeKind) -> bool {
    matches!(
        kind,
        NodeKind::Balance | NodeKind::Mul(_) | NodeKind::Add(_) | NodeKind::AllPass(_, _)
    )
}

// Which source wire i brings to its target, 1 or 2, where that has two and tells them apart.
fn mark_of(board: &Board, i: usize) -> Option<u32>
    requires { i < board.now.wires.count }
{
    let (_, target) = board.wires.list[i];
    let node = usize::from(target);
    if !is_ordered(board.nodes[node].kind) || board.sources.counts[node] != 2 {
        return None;
    }
    let before = board.wires.list[..i].iter().filter(|wire| wire.1 == target);
    match before.count() {
        0 => Some(1),
        1 => Some(2),
        _ => None,
    }
}

// What an arrow of a graph says beside its ends: that the wire is late, and which source it brings, where
// that is told.
fn push_marks(out: &mut Page, late: bool, mark: Option<u32>)
    requires { length out.old + 60 ≤ 24576 }
    ensures { length out.new ≤ length out.old + 60 }
{
    out.push_word(b" [");
    if late {
        out.push_word(b"style=dashed constraint=false");
    }
    if let Some(mark) = mark {
        out.push_word(b" headlabel=\"");
        out.push_number(mark);
        out.push(b'"');
    }
    out.push(b']');
}

impl Shape for Graph {
    fn push_head(&self, out: &mut Page, board: &Board) {
        out.push_word(b"digraph board {\n  rankdir=TB;\n  node [shape=box];\n  { rank=source; ");
        out.push_number(board.input as u32);
        out.push_word(b"; }\n  { rank=sink; 0; }\n");
    }

    fn push_node(&self, out: &mut Page, board: &Board, i: usize, kind: NodeKind) {
        let reached = self.places.place_of(i).is_some();
        out.push_pair(b"  ", i as u32, b" [label=\"", i as u32, b" ");
        push_fields(out, kind);
        out.push(b'"');
        out.push_word(look(i, board.input, reached));
        out.push_word(b"];\n");
    }

    fn push_wire(&self, out: &mut Page, board: &Board, i: usize, source: u8, target: u8) {
        let late = self
            .places
            .is_late(usize::from(source), usize::from(target));
        let mark = mark_of(board, i);
        out.push_pair(b"  ", u32::from(source), b" -> ", u32::from(target), b"");
        if late || mark.is_some() {
            push_marks(out, late, mark);
        }
        out.push_word(b";\n");
    }

    fn push_end(&self, out: &mut Page) {
        out.push_word(b"}\n");
    }
}

fn push_nodes<S: Shape>(out: &mut Page, board: &Board, shape: &S)
    requires { length out.old + 10240 ≤ 24576 }
    ensures { length out.new ≤ length out.old + 10240 }
{
    for (i, node) in board.listed().iter().enumerate() {
        shape.push_node(out, board, i, node.kind);
    }
}

fn push_wires<S: Shape>(out: &mut Page, board: &Board, shape: &S)
    requires { length out.old + 12288 ≤ 24576 }
    ensures { length out.new ≤ length out.old + 12288 }
{
    for (i, &(source, target)) in board.wires.listed().iter().enumerate() {
        shape.push_wire(out, board, i, source, target);
    }
}

// A board in a shape, in place of what the page held.
fn draw<S: Shape>(out: &mut Page, board: &Board, shape: &S) {
    out.clear();
    shape.push_head(out, board);
    push_nodes(out, board, shape);
    push_wires(out, board, shape);
    shape.push_end(out);
}

// The text of a board, in place of what the page held: lent, for many boards (`Text::clear`). The one match on
// the form.
pub fn text_of(board: &Board, form: ShownAs, out: &mut Page)
    requires { Accepted board.now }
{
    match form {
        ShownAs::Card => draw(out, board, &Card),
        ShownAs::Graph => {
            let places = visiting_list(&board.sources).places();
            draw(out, board, &Graph { places });
        }
    }
}
