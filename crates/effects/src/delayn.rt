// A delay of n samples: a ring of n values in the cell, after the samples, whose place indexes the
// oldest. A block goes through it in stretches that end at the ring's end, so that no sample is
// tested for the wrap. What a block, a ring's length and its place may be is asked of each type's loop,
// here, in onepole.rt and in allpass: a struct around the lent cell would ask it where it is made, once a
// node and block, and would be taken apart in the loop.
ghost use Rattle.std.specs.Prelude.{◌≡◌, ℕ, ◌+◌, ◌*◌, ◌≤◌, ◌<◌, length, get_or};
ghost use Rattle.std.specs.Float.{binary32};
ghost use Rattle.std.specs.Float.Ieee.{of_bits, to_bits};
ghost use Rattle.values.specs.Words.{words};
ghost use Rattle.kinds.specs.Kind.{samples_from, place_index};
ghost use Rattle.effects.specs.Ring.{stretch_of, wrap_of, stretch_values};
ghost use Rattle.effects.specs.Block.{alone};
ghost use Rattle.kinds.specs.Cell.{run_values};

use kinds::cell::{PLACE, SAMPLES};
use kinds::kind::NodeKind;
use values::bytes::{put_word, word_at};
use values::float::store;
use values::lanes::{load_four, store_four};

// The pattern of the float that a pattern stands for: another NaN becomes 7FC00000. Measured:
// `to_bits(of_bits(bits))`, which is the same, made short lines a third slower.
fn canonical(bits: u32) -> u32
    ensures { result ≡ to_bits binary32 (of_bits binary32 bits) }
{
    if bits % 0x8000_0000 > 0x7f80_0000 {
        0x7fc0_0000
    } else {
        bits
    }
}

// How many of `left` samples go before the ring's end.
pub fn stretch(place: usize, n: usize, left: usize) -> usize
    requires { place < n }
    ensures { (result ≡ stretch_of place n left) × (result ≤ left) × (place + result ≤ n) }
{
    left.min(n - place)
}

// The place after a stretch that ends at `end`, which is not past n.
pub fn wrap(end: usize, n: usize) -> usize
    ensures { result ≡ wrap_of end n }
{
    if end < n { end } else { 0 }
}

// The samples x[done..done + count], from ring place `place` on. The values that they replace there
// are given.
fn push(cell: &mut [u8], place: usize, x: &[f32], done: usize, count: usize)
    requires { (length x.now ≤ 128) × (done + count ≤ length x.now) × (4 * (samples_from + length x.now + (place + count)) ≤ length cell.old) }
    ensures { (n : ℕ) → length cell.old ≡ 4 * (samples_from + length x.now + n)
        → words cell.new ≡ stretch_values (NodeKind.Delay n) (length x.now) (alone x.now) place done count (words cell.old) }
{
    let at = SAMPLES + x.len() + place;
    // Four samples at once, and then one by one those that are left. x comes whole, as its length says
    // where the ring starts.
    for group in 0..count / 4 {
        let i = 4 * group;
        let k = done + i;
        let old = load_four(cell, at + i);
        store_four(cell, at + i, [x[k], x[k + 1], x[k + 2], x[k + 3]]);
        store_four(cell, SAMPLES + k, old);
    }
    let whole = count / 4 * 4;
    for j in 0..count % 4 {
        let i = whole + j;
        let k = done + i;
        let old = word_at(cell, at + i);
        store(cell, at + i, x[k]);
        put_word(cell, SAMPLES + k, canonical(old));
    }
}

// A block x through the delay, in stretches up to the ring's end; the place is stored at the end.
pub fn delay(cell: &mut [u8], n: usize, x: &[f32])
    requires { (length x.now ≤ 128) × (n ≤ 132300) × (length cell.old ≡ 4 * (samples_from + length x.now + n)) × (get_or (words cell.old) place_index 0 < n) }
    ensures { words cell.new ≡ run_values (NodeKind.Delay n) (length x.now) (alone x.now) (words cell.old) }
{
    let mut place = word_at(cell, PLACE) as usize;
    let mut done = 0;
    // A turn is a stretch, of as many samples as go before the ring's end. allpass has this loop around
    // its own step. One over a closure `Fn(&mut [u8], usize, usize, usize)` is no plainer: what the closure
    // may be called with, that it keeps the number and the length, and what it makes of the values would
    // be clauses of a function of five lines.
    while done < x.len() {
        let count = stretch(place, n, x.len() - done);
        push(cell, place, x, done, count);
        done += count;
        place = wrap(place + count, n);
    }
    put_word(cell, PLACE, place as u32);
}
