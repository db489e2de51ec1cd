// Source times number, or first times second.
ghost use Rattle.std.specs.Prelude.{◌≡◌, ◌+◌, ◌*◌, length, Float};
ghost use Rattle.std.specs.Option.{ForSome, option_copied};
ghost use Rattle.values.specs.Words.{words};
ghost use Rattle.kinds.specs.Kind.{samples_from};
ghost use Rattle.effects.specs.Block.{given_by};
ghost use Rattle.kinds.specs.Cell.{run_values};

use crate::operator::apply_op;
use kinds::kind::NodeKind;

pub fn mul(cell: &mut [u8], x: &[f32], m: Option<&[f32]>)
    requires lent { length cell.old ≡ 4 * (samples_from + length x.now) }
    requires alike { ForSome m (λ r. length r.now ≡ length x.now) }
    ensures { (f : Float) → words cell.new ≡ run_values (NodeKind.Mul f) (length x.now) (given_by x.now (option_copied m.entry)) (words cell.old) }
{
    apply_op(cell, x, m, |a, b| a * b);
}
