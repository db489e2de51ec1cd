// A float's 32-bit pattern, read and written, and tests of its range. Every pattern of a NaN is read
// as the one NaN, and the NaN is written as hex 7FC00000.
ghost use Rattle.std.specs.Prelude.{◌≡◌, ◌+◌, ◌*◌, ◌^◌, ◌≤◌, length};
ghost use Rattle.std.specs.Float.{binary32};
ghost use Rattle.std.specs.Float.Ieee.{of_bits, to_bits};
ghost use Rattle.values.specs.Words.{words};
ghost use Rattle.values.specs.Floats.{float_at, set_float, finite_bits};
ghost use Rattle.values.specs.Floors.{finite_f, floor_of, within, Upto};

use crate::bytes::{put_word, word_at};

// Samples a second.
pub const SAMPLE_RATE: f32 = 44100.0;

// f32::from_bits and f32::to_bits ask that there is no NaN, so of_bits and to_bits test for it.
pub fn of_bits(bits: u32) -> f32
    ensures { result ≡ of_bits binary32 bits }
{
    if bits % 0x8000_0000 > 0x7f80_0000 {
        f32::NAN
    } else {
        f32::from_bits(bits)
    }
}

pub fn to_bits(x: f32) -> u32
    ensures { result ≡ to_bits binary32 x }
{
    if x.is_nan() { 0x7fc0_0000 } else { x.to_bits() }
}

// The pattern of a finite float is below infinity's, the sign's bit aside.
pub fn finite_bits(w: u32) -> bool
    ensures { result ≡ finite_bits w }
{
    w % 0x8000_0000 < 0x7f80_0000
}

// Neither a NaN nor an infinity: by the pattern, as memory's words are judged.
pub fn finite(x: f32) -> bool
    ensures { result ≡ finite_f x }
{
    finite_bits(to_bits(x))
}

// From 0 to `most`, negative zero among them; a NaN never is.
pub fn within(x: f32, most: f32) -> bool
    ensures { result ≡ within most x }
{
    x >= 0.0 && x <= most
}

// The floor of an x from 0 to 2^24, off its bits: x is digits × 2^(bits / 2^23 - 150). f32::floor works
// out floor and ceiling of the size and puts the sign back, where one shift does here.
pub fn floor(x: f32) -> u32
    requires { Upto (2 ^ 24) x }
    ensures { result ≡ floor_of x }
{
    if x >= 1.0 {
        let bits = x.to_bits();
        let digits = bits % 0x80_0000 + 0x80_0000;
        (digits * 2) >> (151 - bits / 0x80_0000)
    } else {
        0
    }
}

// The float at word k.
pub fn load(mem: &[u8], k: usize) -> f32
    requires { 4 * k + 4 ≤ length mem.now }
    ensures { result ≡ float_at (words mem.now) k }
{
    of_bits(word_at(mem, k))
}

// Stores a float at word k.
pub fn store(mem: &mut [u8], k: usize, x: f32)
    requires { 4 * k + 4 ≤ length mem.old }
    ensures { words mem.new ≡ set_float (words mem.old) k x }
{
    put_word(mem, k, to_bits(x));
}
