// The one-pole filter over a block; the carry is its last output.
ghost use Rattle.std.specs.Prelude.{◌≡◌, ◌+◌, ◌*◌, ◌≤◌, ◌<◌, length};
ghost use Rattle.values.specs.Words.{words};
ghost use Rattle.kinds.specs.Kind.{samples_from};
ghost use Rattle.effects.specs.Block.{alone};
ghost use Rattle.kinds.specs.Cell.{run_values};

use kinds::cell::{CARRY, SAMPLES};
use kinds::kind::NodeKind;
use leaves::onepole::OnePole;
use values::float::{load, store};

pub fn one_pole(cell: &mut [u8], b: f32, x: &[f32])
    requires { (0 < length x.now) × (length x.now ≤ 128) × (length cell.old ≡ 4 * (samples_from + length x.now)) }
    ensures { words cell.new ≡ run_values (NodeKind.OnePole b) (length x.now) (alone x.now) (words cell.old) }
{
    let mut pole = OnePole::new(b, load(cell, CARRY));
    for (i, sample) in x.iter().enumerate() {
        pole = pole.step(*sample);
        store(cell, SAMPLES + i, pole.y1);
    }
    store(cell, CARRY, pole.y1);
}
