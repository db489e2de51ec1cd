// Numbers of a text: whole numbers, and floats as decimals or as bits.
ghost use Rattle.std.specs.Prelude.{◌≡◌, cond, ◌+◌, ◌*◌, ◌^◌, ◌<◌, ◌≤◌, length, IfSome, MatchOption};
ghost use Rattle.decimals.specs.Big.{value_of};
ghost use Rattle.decimals.specs.Number.{digit_of, more, digits_from, whole_of, Decimals, first_digits, behind_digits, parts, number_from, digits_of, all_of, exponent_of, power_of, scaled, decimal, bits_of, float_of};

use crate::big::{Big, small, times};
use crate::nearest::nearest;
use std::error::Error;
use std::fmt;

// The digits that a text starts with: their value, and the place after them.
#[derive(Clone, Copy)]
pub struct Run {
    pub value: u64,
    pub next: usize,
}

// The parts of a decimal: its digits before the point, those behind it, and what follows them.
#[derive(Clone, Copy)]
struct Digits<'a> {
    whole: &'a [u8],
    fraction: &'a [u8],
    rest: &'a [u8],
    ghost before: { Decimals whole.now },
    ghost behind: { Decimals fraction.now },
}

// The power of ten at the end of a decimal: times ten to `up`, or over ten to `down`. One of the two is 0, but
// no enum: `nearest` takes both, so `scaled`, its one reader, would take the enum apart into them again.
#[derive(Clone, Copy)]
pub struct Power {
    pub up: u64,
    pub down: u64,
}

// Why a word gives no float: it is none, or it is a decimal that is too long.
#[derive(Clone, Copy, Debug, PartialEq, Eq)]
pub enum FloatError {
    Bad,
    Long,
}

impl fmt::Display for FloatError {
    fn fmt<W: fmt::Write>(&self, f: &mut fmt::Formatter<W>) -> fmt::Result {
        match self {
            FloatError::Bad => write!(f, "no float"),
            FloatError::Long => write!(
                f,
                "decimal too long: write its bits, x and 8 hexadecimal digits"
            ),
        }
    }
}

impl Error for FloatError {}

// The value of a digit of the base, if the byte is one.
fn digit_of(byte: u8, base: u32) -> Option<u32>
    requires { (2 ≤ base) × (base ≤ 16) }
    ensures { MatchOption result (base ≤ digit_of byte) (λ digit. (digit ≡ digit_of byte) × (digit < base)) }
{
    char::from(byte).to_digit(base)
}

// From this on a number is too large for every field, and is read as this.
const LARGEST: u64 = 42949672960;

// One decimal digit more.
fn appended(value: u64, digit: u32) -> u64
    requires { (value ≤ 42949672960) × (digit < 10) }
    ensures { (result ≡ more value digit) × (result ≤ 42949672960) }
{
    if value < 4294967296 {
        value * 10 + u64::from(digit)
    } else {
        LARGEST
    }
}

// The decimal digits that a text starts with.
fn digits_from(s: &[u8]) -> Run
    ensures { (result.next ≤ length s.now) × (result.value ≤ 42949672960) × (result ≡ digits_from s.now 0 0) }
{
    let mut value = 0;
    for (i, byte) in s.iter().enumerate() {
        let Some(digit) = digit_of(*byte, 10) else {
            return Run { value, next: i };
        };
        value = appended(value, digit);
    }
    Run {
        value,
        next: s.len(),
    }
}

// A whole number up to `most`; callers narrow it to their own types, which differ.
pub fn whole_of(word: &[u8], most: u64) -> Option<u64>
    ensures { IfSome result (λ value. value ≤ most) × (result ≡ whole_of word.now most) }
{
    let run = digits_from(word);
    if run.next == 0 {
        return None;
    }
    if run.next < word.len() {
        return None;
    }
    if most < run.value {
        return None;
    }
    Some(run.value)
}

// The decimal digits that a text starts with, and what follows them.
fn split_digits(s: &[u8]) -> (&[u8], &[u8])
    ensures { Decimals result.0.now × (result.0.now ≡ first_digits s.now) × (result.1.now ≡ behind_digits s.now) }
{
    s.split_at(digits_from(s).next)
}

// The parts of a decimal: digits, and perhaps a point and more.
fn digits_of(word: &[u8]) -> Digits
    ensures { parts result.whole.now result.fraction.now result.rest.now ≡ digits_of word.now }
{
    let (whole, rest) = split_digits(word);
    let [b'.', behind @ ..] = rest else {
        return Digits {
            whole,
            fraction: &[],
            rest,
        };
    };
    let (fraction, rest) = split_digits(behind);
    Digits {
        whole,
        fraction,
        rest,
    }
}

// Digits appended to a number.
fn number_from(start: Big, digits: &[u8]) -> Big
    requires { Decimals digits.now × ((value_of start + 1) * 10 ^ length digits.now ≤ 10 ^ 40) }
    ensures { (value_of result ≡ number_from digits.now (value_of start)) × (value_of result + 1 ≤ (value_of start + 1) * 10 ^ length digits.now) }
{
    let mut number = start;
    for byte in digits {
        number = times(number, 10, digit_of(*byte, 10).unwrap());
    }
    number
}

// The number that all digits of a decimal say.
fn all_of(d: Digits) -> Big
    requires { length d.whole.now + length d.fraction.now ≤ 40 }
    ensures { (value_of result < 10 ^ 40) × (value_of result ≡ all_of d.entry.whole.now d.entry.fraction.now) }
{
    let whole = number_from(small(0), d.whole);
    number_from(whole, d.fraction)
}

// The exponent of a power of ten: a whole number, perhaps with a sign.
fn exponent_of(s: &[u8]) -> Option<Power>
    ensures { result ≡ exponent_of s.now }
{
    if let [b'-', rest @ ..] = s {
        let down = whole_of(rest, LARGEST)?;
        return Some(Power { up: 0, down });
    }
    let digits = match s {
        [b'+', rest @ ..] => rest,
        _ => s,
    };
    let up = whole_of(digits, LARGEST)?;
    Some(Power { up, down: 0 })
}

// The power of ten that a decimal ends with: none, or `e` and an exponent.
fn power_of(s: &[u8]) -> Option<Power>
    ensures { result ≡ power_of s.now }
{
    match s {
        [] => Some(Power { up: 0, down: 0 }),
        [b'e' | b'E', exponent @ ..] => exponent_of(exponent),
        _ => None,
    }
}

// A float's bits with its sign.
fn signed(minus: bool, bits: u32) -> u32
    requires { bits < 2 ^ 31 }
    ensures { result ≡ cond minus (2 ^ 31 + bits) bits }
{
    if minus { 0x8000_0000 + bits } else { bits }
}

// The float nearest to a decimal, if it has at most 40 digits and a power of ten from -60 to 60.
fn scaled(minus: bool, d: Digits, power: Power) -> Result<u32, FloatError>
    ensures { result ≡ scaled minus d.entry.whole.now d.entry.fraction.now power }
{
    let places = d.fraction.len();
    if 40 < d.whole.len() + places {
        return Err(FloatError::Long);
    }
    if 60 < power.up {
        return Err(FloatError::Long);
    }
    if 60 < power.down {
        return Err(FloatError::Long);
    }
    let digits = all_of(d);
    let down = places as u64 + power.down;
    Ok(signed(minus, nearest(digits, power.up as u32, down as u32)))
}

// The float of a decimal whose sign stood before it.
fn decimal(minus: bool, word: &[u8]) -> Result<u32, FloatError>
    ensures { result ≡ decimal minus word.now }
{
    let d = digits_of(word);
    if d.whole.len() + d.fraction.len() == 0 {
        return Err(FloatError::Bad);
    }
    let power = power_of(d.rest).ok_or(FloatError::Bad)?;
    scaled(minus, d, power)
}

// The bits that 8 digits of base 16 give.
fn bits_of(digits: &[u8]) -> Result<u32, FloatError>
    ensures { result ≡ bits_of digits.now }
{
    if digits.len() != 8 {
        return Err(FloatError::Bad);
    }
    let mut bits = 0;
    for byte in digits {
        let digit = digit_of(*byte, 16).ok_or(FloatError::Bad)?;
        bits = bits * 16 + digit;
    }
    Ok(bits)
}

// The float that a word says: a decimal, perhaps with a sign, or `x` and its bits. Ruled out, and tried
// by must-fail edits: one that rounds a tie away from the even float (tie_away), one that loses an
// exponent's minus (exponent_upward).
pub fn float_of(word: &[u8]) -> Result<u32, FloatError>
    ensures { result ≡ float_of word.now }
{
    match word {
        [] => Err(FloatError::Bad),
        [b'x' | b'X', rest @ ..] => bits_of(rest),
        [b'-', rest @ ..] => decimal(true, rest),
        [b'+', rest @ ..] => decimal(false, rest),
        _ => decimal(false, word),
    }
}
