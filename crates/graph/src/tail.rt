// The tail: how many samples a board's output can go on after its input has turned zero for good.
ghost use Rattle.std.specs.Prelude.{◌≡◌, Option, Some, Ok, ℕ, ◌≤◌, take};
ghost use Rattle.boards.specs.Wires.{wires_of};
ghost use Rattle.boards.specs.Judge.{read_board};
ghost use Rattle.graph.specs.Tail.{delays, endless, lines_by, tail_if, tail_read, tail_answer, LinesFit};

use crate::graph::{Order, visiting_list};
use boards::board::Board;
use boards::judge::read_board;
use kinds::kind::{NodeKind, NodeRecord, line_of};
use records::answer::Answer;

// The answer of a board whose output may never end: document 01's number, as C is handed it.
pub const ENDLESS: usize = 4294967295;

// Whether a node of this type is silent as soon as its sources and its line are.
fn delays(kind: NodeKind) -> bool
    ensures { result ≡ delays kind }
{
    !matches!(
        kind,
        NodeKind::Add(_) | NodeKind::AllPass(_, _) | NodeKind::OnePole(_) | NodeKind::Sine(_)
    )
}

// The sum of the listed nodes' lines; none if one of them does not only delay.
fn listed_lines(nodes: &[NodeRecord; 64], order: &Order) -> Option<usize>
    requires { LinesFit nodes.now order.now.nodes order.now.count }
    ensures sum { result ≡ lines_by nodes.now (take order.now.count order.now.nodes) }
    ensures few { (n : ℕ) → result ≡ Some n → n ≤ endless }
{
    let mut sum = 0;
    for &node in order.listed() {
        let kind = nodes[usize::from(node)].kind;
        if !delays(kind) {
            return None;
        }
        sum += line_of(kind);
    }
    Some(sum)
}

// The tail of a board with this visiting list; none if it is endless.
fn tail(board: &Board, order: &Order) -> Option<usize>
    requires { LinesFit board.now.nodes order.now.nodes order.now.count }
    ensures sum { result ≡ tail_if board.now.nodes (wires_of board.now.wires.list board.now.wires.count) (take order.now.count order.now.nodes) }
    ensures few { (n : ℕ) → result ≡ Some n → n ≤ endless }
{
    if order.places().late_count(&board.wires) != 0 {
        return None;
    }
    listed_lines(&board.nodes, order)
}

// The tail of the board that the bytes hold, none if it is endless; or the board's refusal.
// Ruled out, and tried by a must-fail edit: none of any board (no_tail).
pub fn board_tail(s: &[u8]) -> Result<Option<usize>, Answer>
    ensures read { result ≡ tail_read (read_board s.now) }
    ensures few { (n : ℕ) → result ≡ Ok (Some n) → n ≤ endless }
{
    let board = read_board(s)?;
    let order = visiting_list(&board.sources);
    Ok(tail(&board, &order))
}

// The tail call: a refusal, or 0 and the tail.
// Ruled out, and tried by must-fail edits: each tail endless (tail_endless_on_time), lines of nodes that
// are not listed (tail_unlisted_lines).
pub fn tail_of(s: &[u8]) -> Answer
    ensures { result ≡ tail_answer s.now }
{
    match board_tail(s) {
        Ok(tail) => Answer::new(0, tail.unwrap_or(ENDLESS)),
        Err(refused) => refused,
    }
}
