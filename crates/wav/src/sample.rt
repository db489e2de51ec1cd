// Samples and frames: the float that stands in a sample's bytes, and the one that a frame becomes.
ghost use Rattle.std.specs.Prelude.{◌≡◌, ◌+◌, ◌≤◌, ◌^◌, false, length};
ghost use Rattle.std.specs.Float.{binary32};
ghost use Rattle.std.specs.Float.Ieee.{round};
ghost use Rattle.wav.specs.Format.{width_of, frame_of};
ghost use Rattle.wav.specs.Frames.{byte_of, long_of, sample_of, halved, taken_of, frame_at};

use crate::format::{Channels, Coding, Format, Taken, width};
use leaves::converter::{of_word, take_word};
use values::bytes::{u16_at, u32_at};
use values::float::of_bits;

// A byte, in which 128 is zero, over 128: nothing is lost.
fn eight(byte: u8) -> f32
    ensures { result ≡ byte_of byte }
{
    if byte < 128 {
        -(f32::from(128 - byte) / 128.0)
    } else {
        f32::from(byte - 128) / 128.0
    }
}

// A size of 32 bits over 2^31. Its upper 24 bits and its lower 8 are floats exactly, so their sum is
// rounded once.
fn long_size(n: u32) -> f32
    requires { n ≤ 2 ^ 31 }
    ensures { result ≡ round binary32 false n (2 ^ 31) }
{
    (n / 256) as f32 / 8388608.0 + (n % 256) as f32 / 2147483648.0
}

// A whole number of 32 bits, negative from 2^31 on, over 2^31: the nearest float.
#[tactic(auto, unfolding(crate::specs::Frames::long_of))]
fn long(w: u32) -> f32
    ensures { result ≡ long_of w }
{
    if w < 0x8000_0000 {
        long_size(w)
    } else {
        -long_size(0xffff_ffff - w + 1)
    }
}

// The sample at byte `at`. One of 24 bits is a converter's word, and one of 16 its upper 16. Ruled out: a
// negative number whose sign is lost; a byte that is read as one with a sign.
pub fn sample_at(s: &[u8], at: usize, coding: Coding) -> f32
    requires { at + width_of coding ≤ length s.now }
    ensures { result ≡ sample_of coding s.now at }
{
    match coding {
        Coding::Whole8 => eight(s[at]),
        Coding::Whole16 => of_word(u32::from(u16_at(s, at)) * 256),
        Coding::Whole24 => take_word(s, at),
        Coding::Whole32 => long(u32_at(s, at)),
        Coding::Float32 => of_bits(u32_at(s, at)),
    }
}

// (left + right) × 0.5.
fn halved(left: f32, right: f32) -> f32
    ensures { result ≡ halved left right }
{
    (left + right) * 0.5
}

// What two samples are taken as.
fn taken_as(taken: Taken, left: f32, right: f32) -> f32
    ensures { result ≡ taken_of taken left right }
{
    match taken {
        Taken::Mean => halved(left, right),
        Taken::Left => left,
        Taken::Right => right,
    }
}

// The one sample that the frame at byte `at` becomes. Ruled out: the left channel where the right is asked
// for; a mean that is rounded otherwise.
#[tactic(auto, unfolding(crate::specs::Frames::frame_at))]
pub fn frame_at(s: &[u8], at: usize, format: Format) -> f32
    requires { at + frame_of format ≤ length s.now }
    ensures { result ≡ frame_at format s.now at }
{
    let coding = format.coding;
    let first = sample_at(s, at, coding);
    match format.channels {
        Channels::Mono => first,
        Channels::Stereo(taken) => taken_as(taken, first, sample_at(s, at + width(coding), coding)),
    }
}
