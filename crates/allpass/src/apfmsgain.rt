// The all-pass filter with a gain: a ring of the last n inputs and one of the last n outputs, with
// one place, in the cell after the samples. `Lent` and the bounds of n are asked of each loop, as
// the head of effects' delayn.rt says.
ghost use Rattle.std.specs.Prelude.{◌≡◌, ℕ, ◌+◌, ◌*◌, ◌%◌, ◌^◌, ◌≤◌, ◌<◌, List, length, get_or, Float};
ghost use Rattle.values.specs.Words.{words};
ghost use Rattle.values.specs.Floats.{float_at};
ghost use Rattle.values.specs.Floors.{Upto};
ghost use Rattle.leaves.specs.Position.{position_of};
ghost use Rattle.kinds.specs.Kind.{samples_from, number_index, place_index};
ghost use Rattle.kinds.specs.Rule.{all_pass, between};
ghost use Rattle.effects.specs.Block.{sample, fill, positioned, Split, alone, pair};
ghost use Rattle.kinds.specs.Cell.{run_values};
ghost use Rattle.effects.specs.Ring.{stretch_values};
ghost use Rattle.allpass.specs.Lent.{Lent};

use effects::delayn::{stretch, wrap};
use kinds::cell::{NUMBER, PLACE, SAMPLES};
use kinds::kind::NodeKind;
use leaves::position::{Tap, position, position_four, split};
use std::simd::prelude::*;
use values::bytes::{put_word, word_at};
use values::float::{load, store, to_bits};
use values::lanes::{load_four, store_four};

// The output for the input x and the delayed input and output.
#[tactic(auto, unfolding(kinds::specs::Row::all_pass))]
fn output(g: f32, x: f32, old_x: f32, old_y: f32) -> f32
    ensures { result ≡ all_pass g x old_x old_y }
{
    (-g * x + old_x) + g * old_y
}

// The value between two neighbours of the ring that starts at value `ring`: the older has the
// weight r.
#[tactic(auto, unfolding(kinds::specs::Row::between))]
fn between(cell: &[u8], ring: usize, older: usize, newer: usize, r: f32) -> f32
    requires { (4 * (ring + older) + 4 ≤ length cell.now) × (4 * (ring + newer) + 4 ≤ length cell.now) }
    ensures { result ≡ between (float_at (words cell.now) (ring + older)) (float_at (words cell.now) (ring + newer)) r }
{
    load(cell, ring + older) * r + load(cell, ring + newer) * (1.0 - r)
}

// The place of index i of the ring, counted from the oldest.
fn wrapped(place: usize, i: usize, n: usize) -> usize
    requires { (place < n) × (i ≤ n) }
    ensures { (result ≡ (place + i) % n) × (result < n) }
{
    if place < n - i {
        place + i
    } else {
        place - (n - i)
    }
}

// The positions at which the second source m has the rings read, in its place.
fn positions(m: &mut [f32], n: usize)
    requires { n ≤ 132300 }
    ensures { m.new ≡ fill (positioned m.old n) (length m.old) m.old }
{
    let count = m.len();
    // Four samples at once, and then one by one those that are left.
    for group in 0..count / 4 {
        let i = 4 * group;
        let four = position_four([m[i], m[i + 1], m[i + 2], m[i + 3]], n as u32);
        f32x4::from_array(four).copy_to_slice(&mut m[i..]);
    }
    let whole = count / 4 * 4;
    for j in 0..count % 4 {
        let i = whole + j;
        m[i] = position(m[i], n as u32);
    }
}

// The positions' floors, and in their place what is above them. Here too a loop of its own is
// faster: the loop that reads and writes the rings has enough to hold. The floors by their index: measured
// in Rust, with a zip that tests both ends as core's does, this loop was a fifth slower with AVX2.
fn splits(p: &mut [f32], floors: &mut [u32])
    requires { (length p.old ≤ length floors.old) × ((j : ℕ) → j < length p.old → Upto (2 ^ 24) (sample p.old j)) }
    ensures { (j : ℕ) → j < length p.old → Split (sample p.old j) (get_or floors.new j 0) (sample p.new j) }
{
    for (i, sample) in p.iter_mut().enumerate() {
        let at = split(*sample);
        floors[i] = at.index;
        *sample = at.rest;
    }
}

// An all-pass of n samples with the gain g, its cell's number.
#[derive(Clone, Copy)]
struct Filter {
    n: usize,
    g: f32,
}

impl Filter {
    // The samples x[done..done + count], from ring place `place` on: each input goes in place of the
    // oldest, and its output n values further and into the samples.
    fn filter(self, cell: &mut [u8], place: usize, x: &[f32], done: usize, count: usize)
        requires { Lent self.n (length x.now) self.g cell.old × (done + count ≤ length x.now) × (place + count ≤ self.n) }
        ensures { (f : Float) → words cell.new
            ≡ stretch_values (NodeKind.AllPass self.n f) (length x.now) (alone x.now) place done count (words cell.old) }
    {
        let at = SAMPLES + x.len() + place;
        // Four samples at once, and then one by one those that are left. x comes whole, as its length
        // says where the rings start.
        for group in 0..count / 4 {
            let i = 4 * group;
            let k = done + i;
            let old_x = load_four(cell, at + i);
            let old_y = load_four(cell, at + self.n + i);
            let y = [
                output(self.g, x[k], old_x[0], old_y[0]),
                output(self.g, x[k + 1], old_x[1], old_y[1]),
                output(self.g, x[k + 2], old_x[2], old_y[2]),
                output(self.g, x[k + 3], old_x[3], old_y[3]),
            ];
            store_four(cell, at + i, [x[k], x[k + 1], x[k + 2], x[k + 3]]);
            store_four(cell, at + self.n + i, y);
            store_four(cell, SAMPLES + k, y);
        }
        let whole = count / 4 * 4;
        for j in 0..count % 4 {
            let i = whole + j;
            let k = done + i;
            let old_x = load(cell, at + i);
            let old_y = load(cell, at + self.n + i);
            let y = to_bits(output(self.g, x[k], old_x, old_y));
            store(cell, at + i, x[k]);
            put_word(cell, at + self.n + i, y);
            put_word(cell, SAMPLES + k, y);
        }
    }

    // A block of one source, in stretches up to the ring's end.
    fn run(self, cell: &mut [u8], x: &[f32])
        requires { Lent self.n (length x.now) self.g cell.old × (get_or (words cell.old) place_index 0 < self.n) }
        ensures { (f : Float) → words cell.new
            ≡ run_values (NodeKind.AllPass self.n f) (length x.now) (alone x.now) (words cell.old) }
    {
        let mut place = word_at(cell, PLACE) as usize;
        let mut done = 0;
        // A turn is a stretch, of as many samples as go before the ring's end, as in `delay` of effects.
        while done < x.len() {
            let count = stretch(place, self.n, x.len() - done);
            self.filter(cell, place, x, done, count);
            done += count;
            place = wrap(place + count, self.n);
        }
        put_word(cell, PLACE, place as u32);
    }

    // Sample i of the block x, where `at` says which neighbours are read: the rule's sample for each
    // second source m whose position it is.
    fn modulate(self, cell: &mut [u8], place: usize, x: &[f32], i: usize, at: Tap)
        requires { Lent self.n (length x.now) self.g cell.old × (i < length x.now) × (place < self.n) × (at.index ≤ self.n) }
        ensures { (f : Float) (m : List Float) → Split (position_of (sample m i) self.n) at.index at.rest
            → words cell.new ≡ stretch_values (NodeKind.AllPass self.n f) (length x.now) (pair x.now m) place i 1 (words cell.old) }
    {
        let n = self.n;
        let older = wrapped(place, at.index as usize, n);
        let newer = wrap(older + 1, n);
        let ring = SAMPLES + x.len();
        let old_x = between(cell, ring, older, newer, at.rest);
        let old_y = between(cell, ring + n, older, newer, at.rest);
        let y = to_bits(output(self.g, x[i], old_x, old_y));
        store(cell, ring + place, x[i]);
        put_word(cell, ring + n + place, y);
        put_word(cell, SAMPLES + i, y);
    }

    // A block of two sources, sample by sample. m becomes what is above the positions' floors.
    fn run_modulated(self, cell: &mut [u8], x: &[f32], m: &mut [f32])
        requires { Lent self.n (length x.now) self.g cell.old × (get_or (words cell.old) place_index 0 < self.n) × (length m.old ≡ length x.now) }
        ensures { (f : Float) → words cell.new
            ≡ run_values (NodeKind.AllPass self.n f) (length x.now) (pair x.now m.old) (words cell.old) }
    {
        positions(m, self.n);
        // Floors and rests in two blocks: an array of pairs would keep `splits` from vectorizing.
        let mut floors = [0u32; 128];
        splits(m, &mut floors);
        let mut place = word_at(cell, PLACE) as usize;
        // An index: floor, rest and source are read and the sample is written at it, by `modulate`, and the
        // place moves on with it; a zip of three blocks would still need `enumerate` for the cell.
        for i in 0..x.len() {
            let at = Tap {
                index: floors[i],
                rest: m[i],
            };
            self.modulate(cell, place, x, i, at);
            place = wrap(place + 1, self.n);
        }
        put_word(cell, PLACE, place as u32);
    }
}

// A block of the one source x. The gain is the cell's number.
pub fn all_pass(cell: &mut [u8], n: usize, x: &[f32])
    requires { (length x.now ≤ 128) × (n ≤ 132300) × (length cell.old ≡ 4 * (samples_from + length x.now + n * 2)) × (get_or (words cell.old) place_index 0 < n) }
    ensures { (f : Float) → words cell.new ≡ run_values (NodeKind.AllPass n f) (length x.now) (alone x.now) (words cell.old) }
{
    let g = load(cell, NUMBER);
    Filter { n, g }.run(cell, x);
}

// A block of the source x, modulated by the second source m, which is used up.
pub fn all_pass_modulated(cell: &mut [u8], n: usize, x: &[f32], m: &mut [f32])
    requires { (length x.now ≤ 128) × (n ≤ 132300) × (length cell.old ≡ 4 * (samples_from + length x.now + n * 2)) × (get_or (words cell.old) place_index 0 < n) × (length m.old ≡ length x.now) }
    ensures { (f : Float) → words cell.new ≡ run_values (NodeKind.AllPass n f) (length x.now) (pair x.now m.old) (words cell.old) }
{
    let g = load(cell, NUMBER);
    Filter { n, g }.run_modulated(cell, x, m);
}
