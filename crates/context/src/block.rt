// The block run. The call judges everything first and then works, so a refusal leaves every byte as found.
ghost use Rattle.std.specs.Prelude.{◌≡◌, ◌≤◌, length};
ghost use Rattle.values.specs.Words.{words};
ghost use Rattle.memory.specs.Calls.{and_then};
ghost use Rattle.records.specs.Answer.{checked, told};
ghost use Rattle.context.specs.Block.{check_sizes, check_samples, as_left, block_of};

use boards::board::Board;
use boards::judge::read_board;
use graph::graph::visiting_list;
use memory::open::length_judged;
use nodes::node::Starts;
use records::answer::Answer;
use running::run::{give, memory_judged, put_input, run};
use values::bytes::word_at;
use values::float::finite_bits;

// Check 10: the first infinite or NaN sample.
fn samples_judged(input: &[u8]) -> Result<(), Answer>
    requires { length input.now ≤ 512 }
    ensures { result ≡ checked (check_samples 0 (words input.now)) }
{
    // An index: the refusal names it. `chunks_exact(4).enumerate()` is as long, and the definition counts
    // words.
    for i in 0..input.len() / 4 {
        if !finite_bits(word_at(input, i)) {
            return Err(Answer::new(10, i));
        }
    }
    Ok(())
}

// Check 9: the input block, then the output blocks.
fn sizes_judged(board: &Board, input: usize, left: usize, right: usize) -> Result<(), Answer>
    ensures { result ≡ checked (check_sizes board.now.size input left right) }
{
    let needed = 4 * board.size;
    let refusal = Answer::new(9, board.size);
    length_judged(input, needed, refusal)?;
    length_judged(left, needed, refusal)?;
    length_judged(right, needed, refusal)
}

// Checks 9 and 10: the blocks' lengths, then the input's samples.
fn blocks_judged(board: &Board, input: &[u8], left: usize, right: usize) -> Result<(), Answer>
    ensures { result ≡ checked (and_then (check_sizes board.now.size (length input.now) left right) (check_samples 0 (words input.now))) }
{
    sizes_judged(board, input.len(), left, right)?;
    samples_judged(input)
}

// The input block into the input node's samples, listed or not; the listed nodes in order; node 0's two
// channels out. Or the first refusal. Memory and blocks one by one, as C lends them.
fn run_whole(
    s: &[u8],
    memory: &mut [u8],
    input: &[u8],
    out0: &mut [u8],
    out1: &mut [u8],
) -> Result<(), Answer>
    ensures { as_left (told result) memory.new out0.new out1.new
        ≡ block_of s.now memory.old input.now out0.old out1.old }
{
    let board = read_board(s)?;
    let mut starts = Starts {
        lefts: [0; 64],
        rights: [0; 64],
    };
    let nodes = board.listed();
    memory_judged(nodes, board.size, board.values, memory, &mut starts)?;
    blocks_judged(&board, input, out0.len(), out1.len())?;
    let cell = board.nodes[board.input].cell as usize;
    put_input(input, cell, memory);
    let order = visiting_list(&board.sources);
    run(&board, &starts, &order, memory);
    give(memory, out0, out1);
    Ok(())
}

// The block run.
// Ruled out: memory left untouched (running, block_runs_nothing), a fixed output (block_fixed_output), a
// block of a fixed size (block_fixed_size), 9 judged before 8 (block_nine_before_eight).
pub fn block(s: &[u8], memory: &mut [u8], input: &[u8], out0: &mut [u8], out1: &mut [u8]) -> Answer
    ensures { as_left result memory.new out0.new out1.new
        ≡ block_of s.now memory.old input.now out0.old out1.old }
{
    Answer::from(run_whole(s, memory, input, out0, out1))
}
