// The library's calls: numbers and byte slices in, a number and a place out. None asks anything of its
// caller, and a refusal leaves every byte as found. The crate plate_c exports them for C. Each has the clauses
// of the function that does the work, whole: one who calls it reads them here.
#![tactic(auto)]

ghost use Rattle.std.specs.Prelude.{◌≡◌};
ghost use Rattle.leaves.specs.Lengths.{delay_of, all_pass_of};
ghost use Rattle.boards.specs.Judge.{judge_of};
ghost use Rattle.graph.specs.Tail.{tail_answer};
ghost use Rattle.wiring.specs.Rewire.{add_of, pull_of};
ghost use Rattle.context.specs.Block.{as_left, block_of};
ghost use Rattle.memory.specs.Calls.{fresh_of, message_of};
ghost use Rattle.packed.specs.Packed.{packed_of};
ghost use Rattle.plate_board.specs.Plate.{write_of};
ghost use Rattle.mixing.specs.Mix.{mix_of};
ghost use Rattle.plate.specs.Lengths.{length_answer};

use records::answer::Answer;
use wiring::rewire::Wiring;

// The board judge: 0 and the memory's length.
// Ruled out, and tried by must-fail edits: lines of 262,145 together (boards, lines_one_more), one that counts
// a repeated wire twice (sources, repeat_counts).
pub fn plate_judge(board: &[u8]) -> Answer
    ensures { result ≡ judge_of board.now }
{
    boards::judge::judge(board)
}

// 0 and the tail, 4,294,967,295 for an endless one.
// Ruled out: endless for every board (graph, tail_endless_on_time), lines of nodes that are not listed
// (graph, tail_unlisted_lines).
pub fn plate_tail(board: &[u8]) -> Answer
    ensures { result ≡ tail_answer board.now }
{
    graph::tail::tail_of(board)
}

// Fresh memory.
// Ruled out: numbers left at 0 (memory, fresh_numbers_left_out), a refused call that writes (memory,
// fresh_refused_writes).
pub fn plate_fresh(board: &[u8], memory: &mut [u8]) -> Answer
    ensures answered { result ≡ (fresh_of board.now memory.old).0 }
    ensures bytes { memory.new ≡ (fresh_of board.now memory.old).1 }
{
    memory::fresh::fresh(board, memory)
}

// A block run.
// Ruled out: memory left untouched (running, block_runs_nothing), a fixed output (context,
// block_fixed_output), an infinite sample taken (context, block_takes_infinity).
pub fn plate_block(
    board: &[u8],
    memory: &mut [u8],
    input: &[u8],
    out0: &mut [u8],
    out1: &mut [u8],
) -> Answer
    ensures { as_left result memory.new out0.new out1.new
        ≡ block_of board.now memory.old input.now out0.old out1.old }
{
    context::block::block(board, memory, input, out0, out1)
}

// A block run with packed blocks: words of 24 bits, three bytes each, the least significant first.
// Ruled out: 9 in 13's stead (packed, nine_for_thirteen), a tie that goes away from zero (leaves, ties_away), the
// most significant byte first (values, word_bytes_swapped and most_significant_first).
pub fn plate_block24(
    board: &[u8],
    memory: &mut [u8],
    input: &[u8],
    out0: &mut [u8],
    out1: &mut [u8],
) -> Answer
    ensures { as_left result memory.new out0.new out1.new
        ≡ packed_of board.now memory.old input.now out0.old out1.old }
{
    packed::block24::block24(board, memory, input, out0, out1)
}

// A number message.
// Ruled out: one that writes another value of the cell (memory, message_sets_carry), a value out of
// range answered as a wrong node (memory, message_eleven_for_twelve).
pub fn plate_message(board: &[u8], memory: &mut [u8], node: u32, value: f32) -> Answer
    ensures answered { result ≡ (message_of board.now memory.old node value).0 }
    ensures bytes { memory.new ≡ (message_of board.now memory.old node value).1 }
{
    memory::message::message(board, memory, node, value)
}

// The mix message.
// Ruled out: 43 judged before 47 (mixing, mix_judges_43_before_47), 43 set before the checks end (mixing,
// mix_43_set_before_checks_end).
pub fn plate_mix(board: &[u8], memory: &mut [u8], mix: f32) -> Answer
    ensures answered { result ≡ (mix_of board.now memory.old mix).0 }
    ensures bytes { memory.new ≡ (mix_of board.now memory.old mix).1 }
{
    mixing::mix::set_mix(board, memory, mix)
}

// The plate writer.
// Ruled out: the repeated wires left out (plate_board, repeats_left_out), an all-pass one sample longer
// (plate_board, all_pass_one_longer), 7 before 12 (plate_board, write_seven_before_twelve).
pub fn plate_write(n: u32, mix: f32, board: &mut [u8]) -> Answer
    ensures answered { result ≡ (write_of n mix board.old).0 }
    ensures bytes { board.new ≡ (write_of n mix board.old).1 }
{
    plate_board::writer::write(n, mix, board)
}

// Adds a wire to the board that the first n bytes are.
// Ruled out: a length that wraps (wiring, length_wraps), a list found from the old wires (wiring,
// list_of_old_wires).
pub fn plate_add_wire(bytes: &mut [u8], n: usize, source: u16, target: u16) -> Wiring
    ensures answered { result ≡ (add_of bytes.old n source target).0 }
    ensures bytes { bytes.new ≡ (add_of bytes.old n source target).1 }
{
    wiring::rewire::add_wire(bytes, n, source, target)
}

// Pulls the newest wire from source to target of the board that the first n bytes are.
// Ruled out: the oldest wire pulled (carrying, oldest_pulled), the bytes behind the new end cleared (wiring,
// spare_bytes_cleared), 16 before 1 to 6 (wiring, sixteen_first).
pub fn plate_pull_wire(bytes: &mut [u8], n: usize, source: u16, target: u16) -> Wiring
    ensures answered { result ≡ (pull_of bytes.old n source target).0 }
    ensures bytes { bytes.new ≡ (pull_of bytes.old n source target).1 }
{
    wiring::rewire::pull_wire(bytes, n, source, target)
}

// 0 and the length, or 12.
fn length_answer(length: Option<u32>) -> Answer
    ensures { result ≡ length_answer length }
{
    match length {
        Some(n) => Answer {
            number: 0,
            place: n,
        },
        None => Answer {
            number: 12,
            place: 0,
        },
    }
}

// 0 and the length of a delay of so many milliseconds.
// Ruled out: a delay of no sample (leaves, no_shortest_delay), a time past 3000 ms answered with the
// longest line (leaves, delay_too_long_taken).
pub fn plate_delay_length(ms: f32) -> Answer
    ensures { result ≡ length_answer (delay_of ms) }
{
    length_answer(leaves::lengths::delay_length(ms))
}

// 0 and the length of an all-pass of so many milliseconds.
// Ruled out: another length for 0 ms, a line of no sample (leaves, all_pass_of_no_sample).
pub fn plate_allpass_length(ms: f32) -> Answer
    ensures { result ≡ length_answer (all_pass_of ms) }
{
    length_answer(leaves::lengths::all_pass_length(ms))
}
