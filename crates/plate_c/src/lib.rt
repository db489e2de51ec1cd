// The calls of the crate plate, exported for C: include/plate.h declares them. Each export has the clauses of
// the call of its name, whole, as one who calls it reads them here.
#![tactic(auto)]

ghost use Rattle.std.specs.Prelude.{◌≡◌};
ghost use Rattle.leaves.specs.Lengths.{delay_of, all_pass_of};
ghost use Rattle.boards.specs.Judge.{judge_of};
ghost use Rattle.graph.specs.Tail.{tail_answer};
ghost use Rattle.wiring.specs.Rewire.{add_of, pull_of};
ghost use Rattle.context.specs.Block.{as_left, block_of};
ghost use Rattle.memory.specs.Calls.{fresh_of, message_of};
ghost use Rattle.packed.specs.Packed.{packed_of};
ghost use Rattle.plate_board.specs.Plate.{write_of};
ghost use Rattle.mixing.specs.Mix.{mix_of};
ghost use Rattle.plate.specs.Lengths.{length_answer};

use records::answer::Answer;
use wiring::rewire::Wiring;

// The board judge: 0 and the memory's length.
#[unsafe(no_mangle)]
pub extern "C" fn plate_judge(board: &[u8]) -> Answer
    ensures { result ≡ judge_of board.now }
{
    plate::plate_judge(board)
}

// 0 and the tail, 4,294,967,295 for an endless one.
#[unsafe(no_mangle)]
pub extern "C" fn plate_tail(board: &[u8]) -> Answer
    ensures { result ≡ tail_answer board.now }
{
    plate::plate_tail(board)
}

// Fresh memory.
#[unsafe(no_mangle)]
pub extern "C" fn plate_fresh(board: &[u8], memory: &mut [u8]) -> Answer
    ensures answered { result ≡ (fresh_of board.now memory.old).0 }
    ensures bytes { memory.new ≡ (fresh_of board.now memory.old).1 }
{
    plate::plate_fresh(board, memory)
}

// A block run.
#[unsafe(no_mangle)]
pub extern "C" fn plate_block(
    board: &[u8],
    memory: &mut [u8],
    input: &[u8],
    out0: &mut [u8],
    out1: &mut [u8],
) -> Answer
    ensures { as_left result memory.new out0.new out1.new
        ≡ block_of board.now memory.old input.now out0.old out1.old }
{
    plate::plate_block(board, memory, input, out0, out1)
}

// A block run with packed blocks.
#[unsafe(no_mangle)]
pub extern "C" fn plate_block24(
    board: &[u8],
    memory: &mut [u8],
    input: &[u8],
    out0: &mut [u8],
    out1: &mut [u8],
) -> Answer
    ensures { as_left result memory.new out0.new out1.new
        ≡ packed_of board.now memory.old input.now out0.old out1.old }
{
    plate::plate_block24(board, memory, input, out0, out1)
}

// A number message.
#[unsafe(no_mangle)]
pub extern "C" fn plate_message(board: &[u8], memory: &mut [u8], node: u32, value: f32) -> Answer
    ensures answered { result ≡ (message_of board.now memory.old node value).0 }
    ensures bytes { memory.new ≡ (message_of board.now memory.old node value).1 }
{
    plate::plate_message(board, memory, node, value)
}

// The mix message.
#[unsafe(no_mangle)]
pub extern "C" fn plate_mix(board: &[u8], memory: &mut [u8], mix: f32) -> Answer
    ensures answered { result ≡ (mix_of board.now memory.old mix).0 }
    ensures bytes { memory.new ≡ (mix_of board.now memory.old mix).1 }
{
    plate::plate_mix(board, memory, mix)
}

// The plate writer.
#[unsafe(no_mangle)]
pub extern "C" fn plate_write(n: u32, mix: f32, board: &mut [u8]) -> Answer
    ensures answered { result ≡ (write_of n mix board.old).0 }
    ensures bytes { board.new ≡ (write_of n mix board.old).1 }
{
    plate::plate_write(n, mix, board)
}

// Adds a wire to the board that the first n bytes are.
#[unsafe(no_mangle)]
pub extern "C" fn plate_add_wire(bytes: &mut [u8], n: usize, source: u16, target: u16) -> Wiring
    ensures answered { result ≡ (add_of bytes.old n source target).0 }
    ensures bytes { bytes.new ≡ (add_of bytes.old n source target).1 }
{
    plate::plate_add_wire(bytes, n, source, target)
}

// Pulls the newest wire from source to target of the board that the first n bytes are.
#[unsafe(no_mangle)]
pub extern "C" fn plate_pull_wire(bytes: &mut [u8], n: usize, source: u16, target: u16) -> Wiring
    ensures answered { result ≡ (pull_of bytes.old n source target).0 }
    ensures bytes { bytes.new ≡ (pull_of bytes.old n source target).1 }
{
    plate::plate_pull_wire(bytes, n, source, target)
}

// 0 and the length of a delay of so many milliseconds.
#[unsafe(no_mangle)]
pub extern "C" fn plate_delay_length(ms: f32) -> Answer
    ensures { result ≡ length_answer (delay_of ms) }
{
    plate::plate_delay_length(ms)
}

// 0 and the length of an all-pass of so many milliseconds.
#[unsafe(no_mangle)]
pub extern "C" fn plate_allpass_length(ms: f32) -> Answer
    ensures { result ≡ length_answer (all_pass_of ms) }
{
    plate::plate_allpass_length(ms)
}
