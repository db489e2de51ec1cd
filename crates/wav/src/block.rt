// Blocks: the samples of some frames as a board takes them, and a board's two output blocks as frames.
ghost use Rattle.std.specs.Prelude.{◌≡◌, ◌*◌, ◌/◌, ◌<◌, length, IfSome};
ghost use Rattle.values.specs.Words.{words};
ghost use Rattle.wav.specs.Frames.{sample_in, first_bad, block_of, interleaved};
ghost use Rattle.wav.specs.Format.{frame_of};

use crate::format::{Format, frame_size};
use crate::sample::frame_at;
use values::bytes::{put_word, word_at};
use values::float::{finite, store};

// Sample i of some frames; zero after the last.
#[tactic(auto, using(crate::proofs::Widths::frame_fits))]
fn sample_in(frames: &[u8], i: usize, format: Format) -> f32
    ensures { result ≡ sample_in format frames.now i }
{
    let size = frame_size(format);
    if i < frames.len() / size {
        frame_at(frames, i * size, format)
    } else {
        0.0
    }
}

// The first sample that is infinite or NaN.
pub fn first_bad(frames: &[u8], format: Format) -> Option<usize>
    ensures first { result ≡ first_bad format frames.now 0 (length frames.now / frame_of format) }
    ensures there { IfSome result (λ i. i < length frames.now / frame_of format) }
{
    let count = frames.len() / frame_size(format);
    (0..count).find(|i| !finite(sample_in(frames, *i, format)))
}

// A block of samples, 4 bytes each, of some frames; zeros after the last.
pub fn fill_block(frames: &[u8], format: Format, block: &mut [u8])
    ensures { words block.new ≡ block_of format frames.now (length block.old / 4) }
{
    // An index: `chunks_exact_mut(4).enumerate()` is as long, and `store` takes the index.
    for i in 0..block.len() / 4 {
        store(block, i, sample_in(frames, i, format));
    }
}

// The frames of two blocks of as many samples, 4 bytes each.
pub fn interleave(left: &[u8], right: &[u8], frames: &mut [u8])
    requires both { length left.now / 4 ≡ length right.now / 4 }
    requires room { length frames.old / 4 ≡ 2 * (length left.now / 4) }
    ensures { words frames.new ≡ interleaved (words left.now) (words right.now) }
{
    // An index: word i goes to 2 × i, and chunks of three blocks zipped would still be copied by halves.
    for i in 0..left.len() / 4 {
        put_word(frames, 2 * i, word_at(left, i));
        put_word(frames, 2 * i + 1, word_at(right, i));
    }
}
