// Operators on one source and a number, or on two sources.
ghost use Rattle.std.specs.Prelude.{◌≡◌, ◌+◌, ◌*◌, length, Float};
ghost use Rattle.std.specs.Option.{ForSome, option_copied};
ghost use Rattle.values.specs.Words.{words};
ghost use Rattle.values.specs.Floats.{float_at};
ghost use Rattle.kinds.specs.Kind.{samples_from, number_index};
ghost use Rattle.effects.specs.Block.{stored, op_number, op_sources};
ghost use Rattle.operators.specs.Operators.{Computes, op_by};

use crate::block::put_each;
use kinds::cell::{NUMBER, SAMPLES};
use values::float::load;

pub mod add;
pub mod mul;

// What a cell must be is asked of each function here and of each type's: it is a part of the memory that C
// lends, and a struct around it would have to ask the same where it is made, once a node and block.
fn with_number<F: Fn(f32, f32) -> f32>(cell: &mut [u8], x: &[f32], number: f32, op: F)
    requires lent { length cell.old ≡ 4 * (samples_from + length x.now) }
    requires called { F.IsAlwaysCallable op }
    ensures { (o : Float → Float → Float) → Computes (F.post op) o → words cell.new ≡ stored (op_number o x.now number) samples_from (length x.now) (words cell.old) }
{
    put_each(cell, SAMPLES, x.len(), |i| op(x[i], number));
}

fn with_second<F: Fn(f32, f32) -> f32>(cell: &mut [u8], x: &[f32], m: &[f32], op: F)
    requires lent { length cell.old ≡ 4 * (samples_from + length x.now) }
    requires alike { length m.now ≡ length x.now }
    requires called { F.IsAlwaysCallable op }
    ensures { (o : Float → Float → Float) → Computes (F.post op) o → words cell.new ≡ stored (op_sources o x.now m.now) samples_from (length x.now) (words cell.old) }
{
    put_each(cell, SAMPLES, x.len(), |i| op(x[i], m[i]));
}

// Each sample of x with the second source's by `op`, or where there is none with the number.
pub fn apply_op<F: Fn(f32, f32) -> f32>(cell: &mut [u8], x: &[f32], m: Option<&[f32]>, op: F)
    requires lent { length cell.old ≡ 4 * (samples_from + length x.now) }
    requires alike { ForSome m (λ r. length r.now ≡ length x.now) }
    requires called { F.IsAlwaysCallable op }
    ensures { (o : Float → Float → Float) → Computes (F.post op) o
        → words cell.new ≡ stored (op_by o x.now (float_at (words cell.old) number_index) (option_copied m.entry)) samples_from (length x.now) (words cell.old) }
{
    match m {
        Some(m) => with_second(cell, x, m, op),
        None => {
            let number = load(cell, NUMBER);
            with_number(cell, x, number, op);
        }
    }
}
