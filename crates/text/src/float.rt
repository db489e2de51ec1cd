// Floats written as `decimals::number::float_of` reads them.
ghost use Rattle.std.specs.Prelude.{◌≡◌, ◌+◌, ◌<◌, ◌≤◌, length};

use crate::written::Text;
use decimals::decimal::{Decimal, decimal_of, power};
use values::float::to_bits;

// A digit of base 16. `char::from_digit` gives an Option of a char, to be unwrapped and narrowed to a byte.
fn glyph(digit: u32) -> u8
    requires { digit < 16 }
{
    b"0123456789abcdef"[digit as usize]
}

impl<const N: usize> Text<N> {
    // The last k digits of a number, in a base up to 16.
    fn push_digits(&mut self, v: u32, base: u32, k: usize)
        requires { (length self.old + k ≤ N) × (2 ≤ base) × (base ≤ 16) }
        ensures { length self.new ≡ length self.old + k }
    {
        if k == 0 {
            return;
        }
        self.push_digits(v / base, base, k - 1);
        self.push(glyph(v % base));
    }

    // A decimal, with as many digits after the point as it has places.
    fn push_decimal(&mut self, decimal: Decimal)
        requires { length self.old + 21 ≤ N }
        ensures { length self.new ≤ length self.old + 21 }
    {
        let Decimal { digits, places } = decimal;
        let whole = u64::from(digits) / power(places);
        self.push_number(whole as u32);
        if places == 0 {
            return;
        }
        self.push(b'.');
        self.push_digits(digits, 10, places as usize);
    }

    // The bits of a float, in base 16 after an `x`.
    fn push_bits(&mut self, bits: u32)
        requires { length self.old + 9 ≤ N }
        ensures { length self.new ≤ length self.old + 9 }
    {
        self.push(b'x');
        self.push_digits(bits, 16, 8);
    }

    // The decimal that reads as this float, or its bits.
    pub fn push_float(&mut self, x: f32)
        requires { length self.old + 22 ≤ N }
        ensures { length self.new ≤ length self.old + 22 }
    {
        let bits = to_bits(x);
        let Some(decimal) = decimal_of(bits % 0x8000_0000) else {
            return self.push_bits(bits);
        };
        if 0x8000_0000 <= bits {
            self.push(b'-');
        }
        self.push_decimal(decimal);
    }
}
