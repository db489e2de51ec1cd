// A change made on a board, and what came of it as text.
ghost use Rattle.std.specs.Prelude.{◌≡◌, IfOk, take};
ghost use Rattle.boards.specs.Judge.{read_board};
ghost use Rattle.wiring.specs.Rewire.{wiring, wiring_by};
ghost use Rattle.wiring.specs.Rewiring.{Checked};
ghost use Rattle.wiring.specs.declared.rewire.Wiring.{Wiring};
ghost use Rattle.rewire.specs.Step.{made_of, length_after, step_text, Room};

use crate::change::Request;
use boards::judge::read_board;
use graph::graph::Order;
use listing::lines::{write_listed, write_refused};
use records::answer::Answer;
use text::written::Text;
use wiring::rewire::{Wiring, add_wire, pull_wire};

// Makes a change on the board that the first n bytes are, lent with the spare bytes behind it, as the calls
// take them. A match: each changes the length its own way.
pub fn make(bytes: &mut [u8], n: usize, request: Request) -> Wiring
    ensures answered { result ≡ (made_of request bytes.old n).0 }
    ensures bytes { bytes.new ≡ (made_of request bytes.old n).1 }
{
    match request {
        Request::Add(source, target) => add_wire(bytes, n, source, target),
        Request::Pull(source, target) => pull_wire(bytes, n, source, target),
    }
}

// The board's length after a change with this answer: a wire's record has 8 bytes. A match: each changes
// the length its own way.
pub fn length_after(n: usize, request: Request, answer: &Result<Order, Answer>) -> usize
    requires { IfOk answer.now (λ _. Room request n) }
    ensures { (w : Wiring) → Checked w answer.now → result ≡ length_after request n w }
{
    match (answer, request) {
        (Err(_), _) => n,
        (Ok(_), Request::Add(_, _)) => n + 8,
        (Ok(_), Request::Pull(_, _)) => n - 8,
    }
}

// The text of an answer, in place of what `out` held: the refusal, or the lines of the changed board `s` with
// the answer's list.
pub fn step_text(answer: &Result<Order, Answer>, s: &[u8], out: &mut Text<2048>)
    requires { IfOk answer.now (λ o. wiring 0 0 (take o.count o.nodes) ≡ wiring_by (read_board s.now)) }
    ensures { (w : Wiring) → Checked w answer.now → out.new ≡ step_text w s.now }
{
    let order = match answer {
        Ok(order) => order,
        Err(refused) => return write_refused(out, *refused),
    };
    match read_board(s) {
        Ok(board) => write_listed(out, order, &board.wires),
        Err(refused) => write_refused(out, refused),
    }
}
