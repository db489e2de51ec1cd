// Four floats at once, in the language's vectors: a loop that stores floats tests each for a NaN, and a
// loop with such a test is not made into one over vectors by the compiler.
ghost use Rattle.std.specs.Prelude.{◌≡◌, ◌+◌, ◌*◌, ◌≤◌, length, map};
ghost use Rattle.std.specs.Float.{binary32};
ghost use Rattle.std.specs.Float.Ieee.{of_bits, to_bits};
ghost use Rattle.values.specs.Words.{words};
ghost use Rattle.values.specs.Floats.{floats_at, set_four};

use std::simd::prelude::*;

// The floats of four patterns.
fn floats(bits: u32x4) -> f32x4
    requires { length bits ≡ 4 }
    ensures { result ≡ map (of_bits binary32) bits }
{
    let nan = (bits & u32x4::splat(0x7fff_ffff)).simd_gt(u32x4::splat(0x7f80_0000));
    let number = f32x4::from_bits(nan.select(u32x4::splat(0), bits));
    nan.select(f32x4::splat(f32::NAN), number)
}

// The patterns of four floats.
fn patterns(x: f32x4) -> u32x4
    requires { length x ≡ 4 }
    ensures { result ≡ map (to_bits binary32) x }
{
    let nan = x.simd_ne(x);
    let number = nan.select(f32x4::splat(0.0), x);
    nan.select(u32x4::splat(0x7fc0_0000), number.to_bits())
}

// The floats at words k to k + 3.
// Ruled out, and tried by a must-fail edit: the floats in another order (lanes_turned_round).
pub fn load_four(mem: &[u8], k: usize) -> [f32; 4]
    requires { 4 * k + 16 ≤ length mem.now }
    ensures { result ≡ floats_at (words mem.now) k }
{
    let bits = u32x4::from_le_bytes(u8x16::from_slice(&mem[4 * k..]));
    floats(bits).to_array()
}

// Stores four patterns at words k to k + 3.
fn put_patterns(mem: &mut [u8], k: usize, bits: u32x4)
    requires { (4 * k + 16 ≤ length mem.old) × (length bits ≡ 4) }
    ensures { words mem.new ≡ set_four (words mem.old) k bits }
{
    bits.to_le_bytes().copy_to_slice(&mut mem[4 * k..]);
}

// Stores four floats at words k to k + 3.
// Ruled out, and tried by a must-fail edit: a NaN stored as another pattern (nan_lane_kept).
pub fn store_four(mem: &mut [u8], k: usize, x: [f32; 4])
    requires { 4 * k + 16 ≤ length mem.old }
    ensures { words mem.new ≡ set_four (words mem.old) k (map (to_bits binary32) x) }
{
    put_patterns(mem, k, patterns(f32x4::from_array(x)));
}
