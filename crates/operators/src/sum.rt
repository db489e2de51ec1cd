// A sum starts at +0 and adds its distinct sources one after the other, by first wire.
ghost use Rattle.std.specs.Prelude.{◌≡◌, ◌+◌, ◌*◌, ◌≤◌, length};
ghost use Rattle.values.specs.Words.{words};
ghost use Rattle.effects.specs.Block.{fill, begun, added};
ghost use Rattle.operators.specs.Sums.{total_at, InMemory};

use crate::block::join;

// The samples that stand from value `at` on, each added to 0: the first source needs no clearing.
fn begin(memory: &[u8], at: usize, x: &mut [f32])
    requires { 4 * (at + length x.old) ≤ length memory.now }
    ensures { x.new ≡ fill (begun (words memory.now) at) (length x.old) x.old }
{
    join(memory, at, x, |_, y| 0.0 + y);
}

// Adds the samples that stand from value `at` on.
fn accumulate(memory: &[u8], at: usize, x: &mut [f32])
    requires { 4 * (at + length x.old) ≤ length memory.now }
    ensures { x.new ≡ fill (added (words memory.now) at x.old) (length x.old) x.old }
{
    join(memory, at, x, |sum, y| sum + y);
}

// The sum of the blocks of the listed nodes; `starts` says where each node's block stands.
pub fn total(memory: &[u8], list: &[u8], starts: &[usize; 64], x: &mut [f32])
    requires { InMemory list.now starts.now (length x.old) (length memory.now) }
    ensures { x.new ≡ fill (total_at (words memory.now) starts.now list.now) (length x.old) x.old }
{
    let Some((first, others)) = list.split_first() else {
        x.fill(0.0);
        return;
    };
    begin(memory, starts[usize::from(*first)], x);
    for source in others {
        accumulate(memory, starts[usize::from(*source)], x);
    }
}
