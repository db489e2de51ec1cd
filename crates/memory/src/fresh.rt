// Fresh memory. The call judges everything first and then works, so a refusal leaves every byte as found.
ghost use Rattle.std.specs.Prelude.{◌≡◌, ◌≤◌, length};
ghost use Rattle.values.specs.Words.{words};
ghost use Rattle.records.specs.Answer.{told};
ghost use Rattle.memory.specs.Calls.{fresh_of};
ghost use Rattle.memory.specs.Stages.{CellsIn, put_numbers};

use crate::open::opened;
use kinds::cell::{NUMBER, number_of};
use kinds::kind::NodeRecord;
use records::answer::Answer;
use values::float::store;

// Each node's number, in its cell.
fn put_numbers(nodes: &[NodeRecord], memory: &mut [u8])
    requires { CellsIn nodes.now (length nodes.now) (length memory.old) }
    ensures { words memory.new ≡ put_numbers nodes.now (words memory.old) }
{
    for node in nodes {
        store(memory, node.cell as usize + NUMBER, number_of(node.kind));
    }
}

// The whole memory written, or the first refusal.
fn written(s: &[u8], memory: &mut [u8]) -> Result<(), Answer>
    ensures { (told result ≡ (fresh_of s.now memory.old).0) × (memory.new ≡ (fresh_of s.now memory.old).1) }
{
    let board = opened(s, memory.len())?;
    memory.fill(0);
    put_numbers(board.listed(), memory);
    Ok(())
}

// The fresh call writes the whole memory: numbers at their start, all else 0.
// Ruled out, and tried by must-fail edits: numbers left at 0 (fresh_numbers_left_out), a refused call
// that writes (fresh_refused_writes).
pub fn fresh(s: &[u8], memory: &mut [u8]) -> Answer
    ensures answered { result ≡ (fresh_of s.now memory.old).0 }
    ensures bytes { memory.new ≡ (fresh_of s.now memory.old).1 }
{
    Answer::from(written(s, memory))
}
