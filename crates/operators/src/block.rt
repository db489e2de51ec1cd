// Blocks of samples: fetched from the memory into a slice, and stored in a cell.
ghost use Rattle.std.specs.Prelude.{◌≡◌, ℕ, ◌+◌, ◌*◌, ◌≤◌, ◌<◌, length, Float};
ghost use Rattle.values.specs.Words.{words};
ghost use Rattle.effects.specs.Block.{fetched, fill, stored, put_block};
ghost use Rattle.operators.specs.Operators.{Computes, Gives, joined};

use std::simd::prelude::*;
use values::float::{load, store};
use values::lanes::{load_four, store_four};

// Each sample with the one that stands from value `at` on, by `op`. The memory and a place in it are one
// call's: a struct of both would be made for each block and taken apart here.
pub fn join<F: Fn(f32, f32) -> f32>(memory: &[u8], at: usize, x: &mut [f32], op: F)
    requires lent { 4 * (at + length x.old) ≤ length memory.now }
    requires called { F.IsAlwaysCallable op }
    ensures { (o : Float → Float → Float) → Computes (F.post op) o → x.new ≡ fill (joined o x.old (words memory.now) at) (length x.old) x.old }
{
    let count = x.len();
    // Four samples at once, and then one by one those that are left.
    for group in 0..count / 4 {
        let i = 4 * group;
        let y = load_four(memory, at + i);
        let four = [
            op(x[i], y[0]),
            op(x[i + 1], y[1]),
            op(x[i + 2], y[2]),
            op(x[i + 3], y[3]),
        ];
        f32x4::from_array(four).copy_to_slice(&mut x[i..]);
    }
    let whole = count / 4 * 4;
    for j in 0..count % 4 {
        let i = whole + j;
        x[i] = op(x[i], load(memory, at + i));
    }
}

// The samples that stand from value `at` on.
pub fn fetch(memory: &[u8], at: usize, x: &mut [f32])
    requires { 4 * (at + length x.old) ≤ length memory.now }
    ensures { x.new ≡ fill (fetched (words memory.now) at) (length x.old) x.old }
{
    join(memory, at, x, |_, y| y);
}

// Stores what `sample` gives for each of `count` places, from value `at` of a cell on.
// Ruled out, and tried by a must-fail edit: one sample of four in its neighbour's place
// (fourth_sample_twice).
pub fn put_each<F: Fn(usize) -> f32>(cell: &mut [u8], at: usize, count: usize, sample: F)
    requires lent { 4 * (at + count) ≤ length cell.old }
    requires called { (i : ℕ) → i < count → F.pre sample i }
    ensures { (y : ℕ → Float) → Gives (F.post sample) count y → words cell.new ≡ stored y at count (words cell.old) }
{
    // Four samples at once, and then one by one those that are left.
    for group in 0..count / 4 {
        let i = 4 * group;
        let four = [sample(i), sample(i + 1), sample(i + 2), sample(i + 3)];
        store_four(cell, at + i, four);
    }
    let whole = count / 4 * 4;
    for j in 0..count % 4 {
        let i = whole + j;
        store(cell, at + i, sample(i));
    }
}

// Stores the samples from value `at` of a cell on.
pub fn put(cell: &mut [u8], at: usize, x: &[f32])
    requires { 4 * (at + length x.now) ≤ length cell.old }
    ensures { words cell.new ≡ put_block x.now at (length x.now) (words cell.old) }
{
    put_each(cell, at, x.len(), |i| x[i]);
}
