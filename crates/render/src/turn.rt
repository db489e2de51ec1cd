// One block of a rendering: frames that were read, through the board, to frames that are written.
ghost use Rattle.std.specs.Prelude.{◌≡◌, ◌*◌, ◌/◌, ◌%◌, length};
ghost use Rattle.render.specs.Turn.{run_on, Turned};

use context::block::block;
use records::answer::Answer;
use wav::block::{fill_block, interleave};
use wav::format::Format;

// Runs the board on the samples of `bytes`, zeros after the last, and gives as many frames. The three
// blocks are room to work in.
pub fn turn(
    board: &[u8],
    memory: &mut [u8],
    bytes: &[u8],
    format: Format,
    input: &mut [u8],
    left: &mut [u8],
    right: &mut [u8],
    frames: &mut [u8],
) -> Answer
    requires whole { length input.old % 4 ≡ 0 }
    requires both { (length left.old ≡ length input.old) × (length right.old ≡ length input.old) }
    requires room { length frames.old ≡ 2 * length input.old }
    ensures { Turned (run_on board.now memory.old format bytes.now (length input.old / 4) left.old right.old)
        result memory.new frames.new }
{
    fill_block(bytes, format, input);
    let answer = block(board, memory, input, left, right);
    interleave(left, right, frames);
    answer
}
