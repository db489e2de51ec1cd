// A converter's words of 24 bits: the sample that a word is going in, and the word that a sample is
// going out. A word is its pattern, a number below 2^24 in which the negative words stand from 2^23 on.
ghost use Rattle.std.specs.Prelude.{◌≡◌, ◌+◌, ◌-◌, ◌*◌, ◌<◌, ◌≤◌, ◌^◌, T, length};
ghost use Rattle.std.specs.Float.{binary32};
ghost use Rattle.std.specs.Float.Ieee.{of_bits, le};
ghost use Rattle.std.proofs.lemmas.List.Edits.{sets};
ghost use Rattle.values.specs.Bytes.{u24_at, u24_bytes};
ghost use Rattle.values.specs.Floors.{zero_f};
ghost use Rattle.values.specs.Words.{words};
ghost use Rattle.leaves.specs.Converter.{as_pattern, of_word, clipped, word_size, to_word, floats_of, words_of};

use values::bytes::{put_u24, u24_at, word_at};
use values::float::store;

// The sample of a word w: w / 2^23, with nothing lost. A word is a u32 below 2^24: the language has no type
// of 24 bits.
// Ruled out, and tried by a must-fail edit: a word whose sign is lost (sign_lost).
pub fn of_word(word: u32) -> f32
    requires { word < 2 ^ 24 }
    ensures { result ≡ of_word word }
{
    let number = word as i32 - (word / 0x80_0000 * 0x100_0000) as i32;
    number as f32 / 8388608.0
}

// The size of the word of an x that is not below zero: the whole number nearest to 2^23 × x, of two the
// even one; 2^23 from 1 on. Floats from 1 to 2 are 2^-23 apart, so the sum with 1 is rounded just there.
fn size_of(x: f32) -> u32
    requires { T (le zero_f x) }
    ensures { (result ≡ word_size x) × (result ≤ 2 ^ 23) }
{
    if x < 1.0 {
        f32::to_bits(x + 1.0) - 0x3f80_0000
    } else {
        0x80_0000
    }
}

// The pattern of a size with its sign. Both are worked out and one is picked: no branch waits for the sign
// of a sample.
fn pattern_of(size: u32, below: bool) -> u32
    requires { size ≤ 2 ^ 23 }
    ensures { (result ≡ as_pattern (clipped below size)) × (result < 2 ^ 24) }
{
    let minus = (0x100_0000 - size) % 0x100_0000;
    let plus = size.min(0x7f_ffff);
    if below { minus } else { plus }
}

// The word of the sample with this pattern: its upper bit is the sign, and the others are the pattern without it.
// The test for a NaN is one of whole numbers.
// Ruled out, and tried by must-fail edits: a tie that goes away from zero (ties_away), -8388607 as the lower
// limit (lower_limit_one_short), a NaN held at a limit (nan_at_limit).
pub fn to_word(bits: u32) -> u32
    ensures { (result ≡ to_word (of_bits binary32 bits)) × (result < 2 ^ 24) }
{
    let plain = bits % 0x8000_0000;
    if plain > 0x7f80_0000 {
        return 0;
    }
    pattern_of(size_of(f32::from_bits(plain)), bits >= 0x8000_0000)
}

// The sample of the word in the three bytes at `at`, the least significant first.
pub fn take_word(s: &[u8], at: usize) -> f32
    requires { at + 3 ≤ length s.now }
    ensures { result ≡ of_word (u24_at s.now at) }
{
    of_word(u24_at(s, at))
}

// Stores the word of the sample with this pattern in the three bytes at `at`, the least significant first.
pub fn give_word(s: &mut [u8], at: usize, bits: u32)
    requires { at + 3 ≤ length s.old }
    ensures { s.new ≡ sets s.old at (u24_bytes (to_word (of_bits binary32 bits))) }
{
    put_u24(s, at, to_word(bits));
}

// Going in: a block of words as a float block. An index. Tried with the chunks of both blocks zipped: the
// proof didn't close, as what is written stands in lent chunks and the laws speak of the first i words.
pub fn take_words(input: &[u8], floats: &mut [u8])
    requires { (length floats.old ≤ 1024) × (4 * length input.now ≡ 3 * length floats.old) }
    ensures { floats.new ≡ floats_of input.now }
{
    for i in 0..floats.len() / 4 {
        store(floats, i, take_word(input, 3 * i));
    }
}

// Going out: a float block as a block of words. An index, as going in.
// Ruled out, and tried by must-fail edits: the most significant byte first (values, word_bytes_swapped going in,
// most_significant_first going out).
pub fn give_words(floats: &[u8], out: &mut [u8])
    requires { (length floats.now ≤ 1024) × (4 * length out.old ≡ 3 * length floats.now) }
    ensures { out.new ≡ words_of (words floats.now) }
{
    for i in 0..floats.len() / 4 {
        give_word(out, 3 * i, word_at(floats, i));
    }
}
