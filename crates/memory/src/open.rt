// A board opened for a call: read, its memory's length judged, and the cells in it.
ghost use Rattle.std.specs.Prelude.{◌≡◌, ◌≤◌, cond, eqb, Ok, Err, length};
ghost use Rattle.values.specs.Words.{words};
ghost use Rattle.records.specs.Answer.{checked};
ghost use Rattle.memory.specs.Memory.{check_cells};
ghost use Rattle.memory.specs.Stages.{CellsIn, read_open, read_judged, Opened};

use boards::board::Board;
use boards::judge::read_board;
use kinds::cell::cell_fits;
use kinds::kind::NodeRecord;
use records::answer::Answer;

// Checks 7 and 9: as many bytes are lent as are needed; else the refusal that is given.
pub fn length_judged(lent: usize, needed: usize, refusal: Answer) -> Result<(), Answer>
    ensures { result ≡ cond (eqb lent needed) (Ok tt) (Err refusal) }
{
    if lent == needed { Ok(()) } else { Err(refusal) }
}

// Check 8: the lowest node with a judged value that is not as it must be. A slice, since the laws go by
// a list of nodes; its bound of 64 is a clause, as in running and resizing, since a slice's type has none.
fn cells_judged(nodes: &[NodeRecord], memory: &[u8]) -> Result<(), Answer>
    requires { (length nodes.now ≤ 64) × CellsIn nodes.now (length nodes.now) (length memory.now) }
    ensures { result ≡ checked (check_cells (words memory.now) 0 nodes.now) }
{
    for (i, node) in nodes.iter().enumerate() {
        if !cell_fits(memory, node.cell as usize, node.kind) {
            return Err(Answer::new(8, i));
        }
    }
    Ok(())
}

// The board that the bytes hold, or the first refusal: checks 1 to 7, for a memory of so many bytes.
pub fn opened(s: &[u8], lent: usize) -> Result<Board, Answer>
    ensures { Opened (read_open s.now lent) lent result }
{
    let board = read_board(s)?;
    let needed = 4 * board.values;
    length_judged(lent, needed, Answer::new(7, needed))?;
    Ok(board)
}

// The same, and check 8.
pub fn judged(s: &[u8], memory: &[u8]) -> Result<Board, Answer>
    ensures { Opened (read_judged s.now memory.now) (length memory.now) result }
{
    let board = opened(s, memory.len())?;
    cells_judged(board.listed(), memory)?;
    Ok(board)
}
