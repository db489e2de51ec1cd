// The block run with packed blocks: the input's words become a float block, that is run as any other, and
// its outputs go out as words. The call judges everything first, so a refusal leaves every byte as found.
ghost use Rattle.std.specs.Prelude.{◌≡◌, ℕ, ◌*◌, ◌/◌, ◌≤◌, false, Some, None, IfSome, length};
ghost use Rattle.records.specs.Answer.{told};
ghost use Rattle.context.specs.Block.{as_left};
ghost use Rattle.packed.specs.Packed.{packed_of};
ghost use Rattle.memory.specs.Stages.{read_judged};
ghost use Rattle.packed.specs.Said.{size_said, lengths_fit, Fits, Lacks};

use context::block::block;
use leaves::converter::{give_words, take_words};
use memory::open::judged;
use records::answer::Answer;
use values::bytes::u16_at;

// The block size that the board's head says. Only the judge knows whether there is a board; if there is,
// this is its block size.
fn size_said(s: &[u8]) -> Option<usize>
    ensures said { result ≡ size_said s.now }
    ensures few { IfSome result (λ n. n ≤ 128) }
{
    if s.len() < 6 {
        return None;
    }
    let n = usize::from(u16_at(s, 4));
    if n <= 128 { Some(n) } else { None }
}

// The same where each of the three blocks is of the length that goes with it.
fn size_lent(s: &[u8], input: usize, left: usize, right: usize) -> Option<usize>
    ensures fits { IfSome result (Fits s.now input left right) }
    ensures other { result ≡ None → (n : ℕ) → size_said s.now ≡ Some n → lengths_fit n input left right ≡ false }
{
    let n = size_said(s)?;
    let long = 3 * n;
    if (input == long) & (left == long) & (right == long) {
        Some(n)
    } else {
        None
    }
}

// The call where each block is of the length that the board's head says: a board that is accepted has that
// block size, so the float block's answer is the call's. The three float blocks are room to work in. Memory
// and blocks are no struct: the C interface lends them apart, and `block` takes them so.
fn converted(
    s: &[u8],
    memory: &mut [u8],
    input: &[u8],
    out0: &mut [u8],
    out1: &mut [u8],
    floats: &mut [u8],
    left: &mut [u8],
    right: &mut [u8],
) -> Result<(), Answer>
    requires fits { Fits s.now (length input.now) (length out0.old) (length out1.old) (length floats.old / 4) }
    requires floats_len { (length floats.old ≡ 4 * (length floats.old / 4)) × (length left.old ≡ length floats.old) × (length right.old ≡ length floats.old) }
    ensures { as_left (told result) memory.new out0.new out1.new
        ≡ packed_of s.now memory.old input.now out0.old out1.old }
{
    take_words(input, floats);
    block(s, memory, floats, left, right).checked()?;
    give_words(left, out0);
    give_words(right, out1);
    Ok(())
}

// The refusal of blocks of other lengths than the board's head says: what checks 1 to 8 refuse, else 13. A
// function of its own: the board that it judges takes room, which would be cleared for every call.
fn lengths_refused(s: &[u8], memory: &[u8]) -> Answer
    ensures { Lacks (read_judged s.now memory.now) result }
{
    match judged(s, memory) {
        Ok(board) => Answer::new(13, board.size),
        Err(refusal) => refusal,
    }
}

// The same for any lengths: another is refused, and before it what checks 1 to 8 refuse.
fn run_words(
    s: &[u8],
    memory: &mut [u8],
    input: &[u8],
    out0: &mut [u8],
    out1: &mut [u8],
) -> Result<(), Answer>
    ensures { as_left (told result) memory.new out0.new out1.new
        ≡ packed_of s.now memory.old input.now out0.old out1.old }
{
    let Some(n) = size_lent(s, input.len(), out0.len(), out1.len()) else {
        return Err(lengths_refused(s, memory));
    };
    let size = 4 * n;
    let mut floats = [0u8; 512];
    let mut left = [0u8; 512];
    let mut right = [0u8; 512];
    converted(
        s,
        memory,
        input,
        out0,
        out1,
        &mut floats[..size],
        &mut left[..size],
        &mut right[..size],
    )
}

// A packed block.
// Ruled out, and tried by must-fail edits: 9 in 13's stead (nine_for_thirteen), a refused block that writes
// (refused_writes).
pub fn block24(
    s: &[u8],
    memory: &mut [u8],
    input: &[u8],
    out0: &mut [u8],
    out1: &mut [u8],
) -> Answer
    ensures { as_left result memory.new out0.new out1.new
        ≡ packed_of s.now memory.old input.now out0.old out1.old }
{
    Answer::from(run_words(s, memory, input, out0, out1))
}
