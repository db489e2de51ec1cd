// The mix message: it sets the four numbers by which the plate mixes its dry and its wet signal.
ghost use Rattle.std.specs.Prelude.{◌≡◌, ◌*◌, ◌<◌, length};
ghost use Rattle.values.specs.Words.{words};
ghost use Rattle.records.specs.Answer.{checked, told};
ghost use Rattle.boards.specs.Read.{parsed_of};
ghost use Rattle.memory.specs.Fine.{Fine};
ghost use Rattle.mixing.specs.Mix.{is_mul, check_mul, check_mix, set_mix, mix_of};

use boards::board::Board;
use kinds::kind::NodeKind;
use memory::message::put_number;
use memory::open::judged;
use plate_board::writer::{DRY_LEFT, DRY_RIGHT, WET_LEFT, WET_RIGHT};
use records::answer::Answer;
use values::float::finite;

fn is_mul(kind: NodeKind) -> bool
    ensures { result ≡ is_mul kind }
{
    matches!(kind, NodeKind::Mul(_))
}

// Check 11: node k is there and is a mul. memory's `number_judged` begins with the same two tests, but for
// the type: one function of both would take the test as a closure, with a clause that speaks of every test
// and a proof in each caller that its own is the one, for two tests of three lines.
fn mul_judged(board: &Board, k: usize) -> Result<(), Answer>
    requires k_bound { k < 4294967296 }
    ensures { result ≡ checked (check_mul (parsed_of board.now) k) }
{
    if board.count <= k {
        return Err(Answer::new(11, k));
    }
    if !is_mul(board.nodes[k].kind) {
        return Err(Answer::new(11, k));
    }
    Ok(())
}

// Checks 11 and 12: the first of the four that is no mul, then mix.
fn mix_judged(board: &Board, mix: f32) -> Result<(), Answer>
    ensures { result ≡ checked (check_mix (parsed_of board.now) mix) }
{
    mul_judged(board, WET_LEFT)?;
    mul_judged(board, WET_RIGHT)?;
    mul_judged(board, DRY_LEFT)?;
    mul_judged(board, DRY_RIGHT)?;
    if !finite(mix) {
        return Err(Answer::new(12, WET_LEFT));
    }
    Ok(())
}

// The two wet numbers, then the two dry ones.
fn put_mix(board: &Board, mix: f32, memory: &mut [u8])
    requires fine { Fine (parsed_of board.now) }
    requires lt_count { 49 < board.now.count }
    requires memory_len { length memory.old ≡ 4 * board.now.values }
    ensures { words memory.new ≡ set_mix (parsed_of board.now) mix (words memory.old) }
{
    let dry = 1.0 - mix;
    put_number(board, WET_LEFT, mix, memory);
    put_number(board, WET_RIGHT, mix, memory);
    put_number(board, DRY_LEFT, dry, memory);
    put_number(board, DRY_RIGHT, dry, memory);
}

// The four numbers set, or the first refusal. Every check comes first, so a refusal leaves every byte as found.
// Of the shape of memory's `number_set`, which says why the two are no one function.
fn mix_set(s: &[u8], memory: &mut [u8], mix: f32) -> Result<(), Answer>
    ensures { (told result ≡ (mix_of s.now memory.old mix).0) × (memory.new ≡ (mix_of s.now memory.old mix).1) }
{
    let board = judged(s, memory)?;
    mix_judged(&board, mix)?;
    put_mix(&board, mix, memory);
    Ok(())
}

// The mix message.
pub fn set_mix(s: &[u8], memory: &mut [u8], mix: f32) -> Answer
    ensures answered { result ≡ (mix_of s.now memory.old mix).0 }
    ensures bytes { memory.new ≡ (mix_of s.now memory.old mix).1 }
{
    Answer::from(mix_set(s, memory, mix))
}
