// The float nearest to a decimal, by its bits: one division of whole numbers, rounded once. The number
// n is counted in smallest floats, 2^-149. A float keeps 24 digits of base 2, so its units are 2^k of
// those, for the least k that leaves n with 24 digits. Then n over the unit, rounded, plus k × 2^23 are
// its bits: the first digit counts into the exponent's field.
ghost use Rattle.std.specs.Prelude.{◌≡◌};
ghost use Prim.Native.Nat.{◌+◌, ◌*◌, ◌^◌, ◌<◌, ◌≤◌, compare};
ghost use Rattle.std.specs.Float.{binary32};
ghost use Rattle.std.specs.Float.Ieee.{nearest, to_bits};
ghost use Rattle.decimals.specs.Big.{value_of, limit};
ghost use Rattle.decimals.specs.Decimal.{nearest_to};

use crate::big::{Big, minus, raised, small, times};

// 2^24 units, which are 2^k smallest floats each.
#[derive(Clone, Copy)]
struct Scale {
    unit: Big,
    k: u32,
}

// A quotient by a unit: its whole part, and what is left.
#[derive(Clone, Copy)]
struct Quotient {
    whole: u32,
    rest: Big,
    unit: Big,
    ghost less: { value_of rest < value_of unit },
    ghost fits: { value_of unit * 2 < limit },
}

impl Quotient {
    // One digit of base 2 more.
    fn lengthened(self) -> Quotient
        requires { self.whole < 2 ^ 24 }
        ensures { (result.whole ≤ self.whole * 2 + 1) × (result.unit ≡ self.unit) × (result.whole * value_of result.unit + value_of result.rest ≡ (self.whole * value_of self.unit + value_of self.rest) * 2) }
    {
        let whole = self.whole * 2;
        let unit = self.unit;
        let twice = times(self.rest, 2, 0);
        let Some(rest) = minus(twice, unit) else {
            return Quotient {
                whole,
                rest: twice,
                unit,
            };
        };
        Quotient {
            whole: whole + 1,
            rest,
            unit,
        }
    }

    // The whole number nearest to it; at a tie the even one.
    fn rounded(self) -> u32
        requires { self.whole < 2 ^ 24 }
        ensures { (result ≤ 2 ^ 24) × (result ≡ nearest self.whole (compare (value_of self.rest * 2) (value_of self.unit))) }
    {
        let Quotient { whole, rest, unit } = self;
        let twice = times(rest, 2, 0);
        if minus(twice, unit).is_none() {
            return whole;
        }
        if minus(unit, twice).is_none() {
            return whole + 1;
        }
        whole + whole % 2
    }
}

// The first of unit, 2 unit, 4 unit .. that is above n.
fn scaled(n: Big, unit: Big) -> Scale
    requires { (0 < value_of unit) × (value_of unit * 2 < limit) × (value_of n * 4 < limit) }
    ensures { (result.k ≤ 512) × (value_of n < value_of result.unit) × (value_of result.unit * 2 < limit) × (0 < result.k → value_of result.unit ≤ value_of n * 2) × (value_of result.unit ≡ value_of unit * 2 ^ result.k) }
{
    let mut large = unit;
    let mut k = 0;
    // A while: how often it doubles depends on n. The rest is taken at a turn's end: taken in the test, a turn costs
    // a fifth more.
    let mut rest = minus(n, large);
    while rest.is_some() {
        large = times(large, 2, 0);
        k += 1;
        rest = minus(n, large);
    }
    Scale { unit: large, k }
}

// 2^24 n over unit, for an n below unit.
fn divided(n: Big, unit: Big) -> Quotient
    requires { (value_of n < value_of unit) × (value_of unit * 2 < limit) }
    ensures { (result.whole < 2 ^ 24) × (result.unit ≡ unit) × (result.whole * value_of result.unit + value_of result.rest ≡ value_of n * 2 ^ 24) }
{
    let mut q = Quotient {
        whole: 0,
        rest: n,
        unit,
    };
    for _ in 0..24u32 {
        q = q.lengthened();
    }
    q
}

// The bits of the float nearest to digits × 10^up / 10^down; infinity's where that is too large. Where
// rounding gives 2^24, the carry makes the next field with digits 0.
pub fn nearest(digits: Big, up: u32, down: u32) -> u32
    requires { (value_of digits < 10 ^ 40) × (up ≤ 60) × (down ≤ 100) }
    ensures { (result ≤ 2139095040) × (result ≡ to_bits binary32 (nearest_to (value_of digits) up down)) }
{
    let n = raised(raised(digits, 10, up), 2, 149);
    let scale = scaled(n, raised(small(0x100_0000), 10, down));
    let unit = scale.unit;
    let k = scale.k;
    if 253 < k {
        return 0x7f80_0000;
    }
    k * 0x80_0000 + divided(n, unit).rounded()
}
