// The number message: it sets the number of a node that takes one.
ghost use Rattle.std.specs.Prelude.{◌≡◌, ◌*◌, ◌<◌, length};
ghost use Rattle.values.specs.Words.{words};
ghost use Rattle.records.specs.Answer.{checked, told};
ghost use Rattle.boards.specs.Read.{parsed_of};
ghost use Rattle.memory.specs.Fine.{Fine};
ghost use Rattle.memory.specs.Calls.{check_number, put_number, message_of};

use crate::open::judged;
use boards::board::Board;
use kinds::cell::{NUMBER, takes_number, value_fits};
use records::answer::Answer;
use values::float::store;

// Checks 11 and 12: the node is there and takes a number, and the value is in its range.
fn number_judged(board: &Board, node: u32, value: f32) -> Result<(), Answer>
    ensures { result ≡ checked (check_number (parsed_of board.now) node value) }
{
    let k = node as usize;
    if board.count <= k {
        return Err(Answer::new(11, k));
    }
    let kind = board.nodes[k].kind;
    if !takes_number(kind) {
        return Err(Answer::new(11, k));
    }
    if !value_fits(kind, value) {
        return Err(Answer::new(12, k));
    }
    Ok(())
}

// The value as node k's number, in a memory of the board's length. `Fine` is asked for: it is no fact of
// `Board`, since it is proved of the bytes that were read, by what stands above boards.
pub fn put_number(board: &Board, k: usize, value: f32, memory: &mut [u8])
    requires fine { Fine (parsed_of board.now) }
    requires k_lt_count { k < board.now.count }
    requires memory_len { length memory.old ≡ 4 * board.now.values }
    ensures { words memory.new ≡ put_number (parsed_of board.now) k value (words memory.old) }
{
    store(memory, board.nodes[k].cell as usize + NUMBER, value);
}

// The number set, or the first refusal. Every check comes first, so a refusal leaves every byte as found.
// mixing's `mix_set` is as short and of this shape: one function of both would take the check and the change
// as two closures, and each call of it would be as long as this body.
fn number_set(s: &[u8], memory: &mut [u8], node: u32, value: f32) -> Result<(), Answer>
    ensures { (told result ≡ (message_of s.now memory.old node value).0) × (memory.new ≡ (message_of s.now memory.old node value).1) }
{
    let board = judged(s, memory)?;
    number_judged(&board, node, value)?;
    put_number(&board, node as usize, value, memory);
    Ok(())
}

// The number message.
// Ruled out, and tried by must-fail edits: one that writes another value of the cell
// (message_sets_carry), a value out of range answered as a wrong node (message_eleven_for_twelve).
pub fn message(s: &[u8], memory: &mut [u8], node: u32, value: f32) -> Answer
    ensures answered { result ≡ (message_of s.now memory.old node value).0 }
    ensures bytes { memory.new ≡ (message_of s.now memory.old node value).1 }
{
    Answer::from(number_set(s, memory, node, value))
}
