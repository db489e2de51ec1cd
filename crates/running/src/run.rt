// The stages of a block run: the memory judged, the input put into it, the listed nodes run, and node
// 0's two channels given.
ghost use Rattle.std.specs.Prelude.{◌≡◌, ◌+◌, ◌*◌, ◌≤◌, OnOk, length, drop};
ghost use Rattle.std.proofs.Math.Seq.{paste};
ghost use Rattle.values.specs.Words.{words};
ghost use Rattle.kinds.specs.Kind.{samples_from};
ghost use Rattle.records.specs.Answer.{checked};
ghost use Rattle.boards.specs.Read.{parsed_of};
ghost use Rattle.memory.specs.Memory.{listed, check_cells};
ghost use Rattle.memory.specs.Calls.{and_then, check_needed};
ghost use Rattle.memory.specs.Stages.{CellsIn};
ghost use Rattle.running.specs.Run.{run_nodes};
ghost use Rattle.running.specs.Lent.{StartsFit, StartsOf, Runs};

use boards::board::Board;
use graph::graph::Order;
use kinds::cell::{SAMPLES, cell_fits};
use kinds::kind::NodeRecord;
use memory::open::length_judged;
use nodes::node::{Inputs, Starts, step};
use records::answer::Answer;

// Check 8, and the starts of the nodes' samples. One pass over the nodes: memory's `cells_judged` and a
// loop for the starts would be two.
fn starts_judged(
    nodes: &[NodeRecord],
    size: usize,
    memory: &[u8],
    starts: &mut Starts,
) -> Result<(), Answer>
    requires { (length nodes.now ≤ 64) × (size ≤ 128) × StartsFit nodes.now (length nodes.now) × CellsIn nodes.now (length nodes.now) (length memory.now) }
    ensures answered { result ≡ checked (check_cells (words memory.now) 0 nodes.now) }
    ensures started { OnOk result (StartsOf nodes.now size starts.new) }
{
    for (i, node) in nodes.iter().enumerate() {
        let cell = node.cell as usize;
        if !cell_fits(memory, cell, node.kind) {
            return Err(Answer::new(8, i));
        }
        let left = cell + SAMPLES;
        starts.lefts[i] = left;
        starts.rights[i] = left + size * (usize::from(node.channels) - 1);
    }
    Ok(())
}

// Checks 7 and 8 of a board's nodes, with the starts. `values` are those of all cells.
pub fn memory_judged(
    nodes: &[NodeRecord],
    size: usize,
    values: usize,
    memory: &[u8],
    starts: &mut Starts,
) -> Result<(), Answer>
    requires { (length nodes.now ≤ 64) × (size ≤ 128) × (values ≤ 278720)
        × StartsFit nodes.now (length nodes.now) × CellsIn nodes.now (length nodes.now) (4 * values) }
    ensures answered { result ≡ checked (and_then (check_needed (4 * values) (length memory.now))
        (check_cells (words memory.now) 0 nodes.now)) }
    ensures started { OnOk result (StartsOf nodes.now size starts.new) }
{
    let needed = 4 * values;
    length_judged(memory.len(), needed, Answer::new(7, needed))?;
    starts_judged(nodes, size, memory, starts)
}

// The listed nodes, in order.
pub fn run(board: &Board, starts: &Starts, order: &Order, memory: &mut [u8])
    requires { Runs board.now starts.now order.now memory.old }
    ensures { words memory.new ≡ run_nodes (parsed_of board.now) (listed (parsed_of board.now)) (words memory.old) }
{
    let table = &board.sources;
    let mut x = [0.0f32; 128];
    let mut m = [0.0f32; 128];
    let x = &mut x[..board.size];
    let m = &mut m[..board.size];
    for node in order.listed() {
        let k = usize::from(*node);
        let sources = Inputs {
            list: table.of(k),
            second: usize::from(table.seconds[k]),
        };
        step(memory, board.nodes[k], sources, starts, x, m);
    }
}

// Copies bytes into as many. No `copy_from_slice`: of a length that is not known it asks memmove of the host,
// and the archive for C is to need memcpy and memset alone (docs/FIRMWARE.md).
fn copy(from: &[u8], to: &mut [u8])
    requires { length to.old ≡ length from.now }
    ensures { to.new ≡ from.now }
{
    for i in 0..to.len() {
        to[i] = from[i];
    }
}

// The input block into the samples of the input node, whose cell starts at `cell`.
pub fn put_input(input: &[u8], cell: usize, memory: &mut [u8])
    requires { (4 * (cell + samples_from) + length input.now ≤ length memory.old) × (length memory.old ≤ 1114880) }
    ensures { memory.new ≡ paste memory.old (4 * (cell + samples_from)) input.now (length input.now) }
{
    let at = 4 * (cell + SAMPLES);
    copy(input, &mut memory[at..at + input.len()]);
}

// The byte at which node 0's samples start: its cell is the first.
const FIRST: usize = 4 * SAMPLES;

// Node 0's two channels out.
pub fn give(memory: &[u8], out0: &mut [u8], out1: &mut [u8])
    requires { (4 * samples_from + length out0.old + length out1.old ≤ length memory.now) × (length out0.old ≤ 512) × (length out1.old ≤ 512) }
    ensures { (out0.new ≡ paste out0.old 0 (drop (4 * samples_from) memory.now) (length out0.old))
        × (out1.new ≡ paste out1.old 0 (drop (4 * samples_from + length out0.old) memory.now) (length out1.old)) }
{
    let next = FIRST + out0.len();
    copy(&memory[FIRST..next], out0);
    copy(&memory[next..next + out1.len()], out1);
}
