// One node's block: its sources' blocks are fetched first, then its own cell is lent to its type's
// loop, so that nothing else can change.
ghost use Rattle.std.specs.Prelude.{◌≡◌, ℕ, ◌+◌, ◌*◌, ◌≤◌, ◌<◌, ltb, length, get_or};
ghost use Rattle.std.specs.Option.{option_copied};
ghost use Rattle.std.specs.Bool.{then_some};
ghost use Rattle.values.specs.Words.{words};
ghost use Rattle.kinds.specs.Rule.{Brought};
ghost use Rattle.kinds.specs.Cell.{run_values};
ghost use Rattle.effects.specs.Block.{fetched_if};
ghost use Rattle.operators.specs.Sums.{InMemory};
ghost use Rattle.nodes.specs.Ready.{Supplies, CellReady, Ready};
ghost use Rattle.kinds.specs.Node.{brought_at, node_run};

use allpass::apfmsgain::{all_pass, all_pass_modulated};
use effects::delayn::delay;
use effects::onepole::one_pole;
use kinds::cell::SAMPLES;
use kinds::kind::{NodeKind, NodeRecord, cell_size};
use operators::block::{fetch, put};
use operators::operator::add::add;
use operators::operator::mul::mul;
use operators::sin_osc::sin_osc;
use operators::sum::total;

// Where each node's samples start in the memory: its channel 0, and what the destination's channel 1
// reads of it. Two arrays and none of pairs: `total` adds up one channel and takes its starts as they are;
// off pairs it would take a closure that picks the field, and its clauses a list mapped by it.
#[derive(Clone, Copy)]
pub struct Starts {
    pub lefts: [usize; 64],
    pub rights: [usize; 64],
}

// A node's distinct sources by first wire, and the second wire's source. The memory is not among them:
// `step` reads it for them and then lends it to be written.
#[derive(Clone, Copy)]
pub struct Inputs<'a> {
    pub list: &'a [u8],
    pub second: usize,
}

// The first wire's source, and the second's where there are two sources. The memory and the two blocks are
// lent one by one, and `step` lends the memory again to be written: one struct would be taken apart at
// each call.
fn operands(memory: &[u8], sources: Inputs<'_>, starts: &Starts, x: &mut [f32], m: &mut [f32])
    requires alike { length m.old ≡ length x.old }
    requires in_memory { InMemory sources.list.now starts.now.lefts (length x.old) (length memory.now) }
    requires second_bound { (sources.second < 64) × (4 * (get_or starts.now.lefts sources.second 0 + length x.old) ≤ length memory.now) }
    ensures first { x.new ≡ fetched_if (ltb 0 (length sources.entry.list.now)) (words memory.now) (get_or starts.now.lefts (get_or sources.entry.list.now 0 0) 0) (length x.old) x.old }
    ensures second { m.new ≡ fetched_if (ltb 1 (length sources.entry.list.now)) (words memory.now) (get_or starts.now.lefts sources.entry.second 0) (length x.old) m.old }
{
    if let Some(first) = sources.list.first() {
        fetch(memory, starts.lefts[usize::from(*first)], x);
    }
    if 1 < sources.list.len() {
        fetch(memory, starts.lefts[sources.second], m);
    }
}

// The second source's block where there are two sources.
fn second_of(count: usize, m: &[f32]) -> Option<&[f32]>
    ensures { option_copied result ≡ then_some (ltb 1 count) m.now }
{
    if 1 < count { Some(m) } else { None }
}

fn bring(
    memory: &[u8],
    kind: NodeKind,
    sources: Inputs<'_>,
    starts: &Starts,
    x: &mut [f32],
    m: &mut [f32],
)
    requires alike { length m.old ≡ length x.old }
    requires in_memory { (InMemory sources.list.now starts.now.lefts (length x.old) (length memory.now)) × (InMemory sources.list.now starts.now.rights (length x.old) (length memory.now)) }
    requires second_bound { (sources.second < 64) × (4 * (get_or starts.now.lefts sources.second 0 + length x.old) ≤ length memory.now) }
    ensures { Supplies kind (length sources.entry.list.now) (length x.old) x.new m.new
        (brought_at (words memory.now) starts.now.lefts starts.now.rights sources.entry.list.now sources.entry.second) }
{
    match kind {
        NodeKind::Sum => total(memory, sources.list, &starts.lefts, x),
        NodeKind::Destination => {
            total(memory, sources.list, &starts.lefts, x);
            total(memory, sources.list, &starts.rights, m);
        }
        _ => operands(memory, sources, starts, x, m),
    }
}

// The block of a node over its cell: x and m are what its wires bring, `count` its distinct sources.
// A modulated all-pass uses m up. A match: the types' loops take other arguments each, and the closure
// that one could be would be picked by the same match.
fn run_cell(cell: &mut [u8], kind: NodeKind, count: usize, x: &[f32], m: &mut [f32])
    requires { CellReady cell.old kind (length x.now) count × (length m.old ≡ length x.now) }
    ensures { (bs : ℕ → Brought) → Supplies kind count (length x.now) x.now m.old bs
        → words cell.new ≡ run_values kind (length x.now) bs (words cell.old) }
{
    match kind {
        NodeKind::Pass => {
            if 0 < count {
                put(cell, SAMPLES, x);
            }
        }
        NodeKind::Sum => put(cell, SAMPLES, x),
        NodeKind::Destination | NodeKind::Balance => {
            put(cell, SAMPLES, x);
            put(cell, SAMPLES + x.len(), m);
        }
        NodeKind::Mul(_) => mul(cell, x, second_of(count, m)),
        NodeKind::Add(_) => add(cell, x, second_of(count, m)),
        NodeKind::Delay(n) => delay(cell, n as usize, x),
        NodeKind::AllPass(n, _) => {
            if 1 < count {
                all_pass_modulated(cell, n as usize, x, m);
            } else {
                all_pass(cell, n as usize, x);
            }
        }
        NodeKind::OnePole(b) => one_pole(cell, b, x),
        NodeKind::Sine(_) => sin_osc(cell, x.len()),
    }
}

// The node's block over the whole memory. x and m, each as long as a block, are room to work in.
// Lent one by one: a struct of the two would be taken apart in each function, so that they are as long
// is asked of each.
pub fn step(
    memory: &mut [u8],
    node: NodeRecord,
    sources: Inputs<'_>,
    starts: &Starts,
    x: &mut [f32],
    m: &mut [f32],
)
    requires ready { Ready memory.old node.kind (length x.old) node.cell sources.list.now starts.now.lefts starts.now.rights sources.second }
    requires alike { length m.old ≡ length x.old }
    ensures { words memory.new ≡ node_run node.kind (length x.old) node.cell
        (brought_at (words memory.old) starts.now.lefts starts.now.rights sources.entry.list.now sources.entry.second)
        (words memory.old) }
{
    let kind = node.kind;
    let start = 4 * node.cell as usize;
    let end = start + 4 * cell_size(x.len(), kind);
    bring(memory, kind, sources, starts, x, m);
    run_cell(&mut memory[start..end], kind, sources.list.len(), x, m);
}
