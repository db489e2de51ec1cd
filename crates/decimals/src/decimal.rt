// Floats as decimals: digits below 2^24 over a power of ten up to 10^10. Both are floats exactly, so
// one division gives the nearest float.
ghost use Rattle.std.specs.Prelude.{◌≡◌, false, ◌^◌, ◌<◌, ◌≤◌, IfSome};
ghost use Rattle.std.specs.Float.Ieee.Exact.{HasValue};
ghost use Rattle.decimals.specs.Decimal.{over, Prints};

use values::float::to_bits;

// digits / 10^places.
#[derive(Clone, Copy)]
pub struct Decimal {
    pub digits: u32,
    pub places: u32,
    pub ghost few: { digits < 2 ^ 24 },
    pub ghost near: { places ≤ 10 },
}

// Ten to each k up to 10, as a whole number and as a float, which it is exactly. A table: worked out anew for each
// number of places that is tried, the powers were most of a float's way to text.
const POWERS: [(u64, f32); 11] = [
    (1, 1.0),
    (10, 10.0),
    (100, 100.0),
    (1000, 1000.0),
    (10000, 10000.0),
    (100000, 100000.0),
    (1000000, 1000000.0),
    (10000000, 10000000.0),
    (100000000, 100000000.0),
    (1000000000, 1000000000.0),
    (10000000000, 10000000000.0),
];

// Ten to k. `k ≤ 10` stands in three contracts: a number of places is tried (`decimal_of`) before there is a
// `Decimal` that could hold it.
pub fn power(k: u32) -> u64
    requires { k ≤ 10 }
    ensures { (result ≡ 10 ^ k) × (1 ≤ result) × (result ≤ 10000000000) }
{
    POWERS[k as usize].0
}

// Ten to k, up to 10 a float exactly.
fn ten(k: u32) -> f32
    requires { k ≤ 10 }
    ensures { HasValue result false (10 ^ k) 1 }
{
    POWERS[k as usize].1
}

// The float nearest to a decimal.
pub fn quotient(decimal: Decimal) -> f32
    ensures { result ≡ over decimal.digits decimal.places }
{
    decimal.digits as f32 / ten(decimal.places)
}

// The whole number nearest to a positive float, by its bits, times `tens`: 2^24 if the float is
// that large, 0 if it is far below.
fn rounded(bits: u32, tens: u64) -> u64
    requires { tens ≤ 10000000000 }
{
    let exponent = bits / 0x80_0000;
    let digits = u64::from(bits % 0x80_0000 + 0x80_0000);
    if 150 < exponent {
        return 0x100_0000;
    }
    let down = 150 - exponent;
    if 63 < down {
        return 0;
    }
    (((2 * digits * tens) >> down) + 1) / 2
}

// A decimal with so many places that gives the positive float of these bits.
fn with_places(bits: u32, places: u32) -> Option<Decimal>
    requires { places ≤ 10 }
    ensures { IfSome result (λ d. Prints bits d.digits d.places) }
{
    let nearest = rounded(bits, power(places));
    if 0x100_0000 <= nearest {
        return None;
    }
    let decimal = Decimal {
        digits: nearest as u32,
        places,
    };
    (to_bits(quotient(decimal)) == bits).then_some(decimal)
}

// The decimal with the fewest places that gives the positive float of these bits, if there is one.
pub fn decimal_of(bits: u32) -> Option<Decimal>
    ensures { IfSome result (λ d. Prints bits d.digits d.places) }
{
    (0..=10).find_map(|places| with_places(bits, places))
}
