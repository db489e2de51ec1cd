// What is written of a board's frames: floats of 32 bits, or words of 24 as a converter takes them.
ghost use Rattle.std.specs.Prelude.{◌≡◌, ◌%◌, ◌≤◌, length};
ghost use Rattle.render.specs.Written.{most_frames, head_of, written_of};

use leaves::converter::give_words;
use wav::header::{MOST, MOST_IN_WORDS, header, word_header};

#[derive(Clone, Copy, PartialEq, Eq)]
pub enum Written {
    Floats,
    Words,
}

impl Written {
    // The most frames that a file has room for. Ruled out: more floats than fit (floats_past_limit).
    pub fn most(self) -> usize
        ensures { result ≡ most_frames self }
    {
        match self {
            Written::Floats => MOST,
            Written::Words => MOST_IN_WORDS,
        }
    }

    // What stands before so many frames. Ruled out: a header that tells of half of them (half_the_frames).
    pub fn header<'a>(self, frames: u32, room: &'a mut [u8]) -> &'a [u8]
        requires fits { frames ≤ most_frames self }
        requires room { 58 ≤ length room.old }
        ensures { result.now ≡ head_of self frames }
    {
        match self {
            Written::Floats => {
                let head = &mut room[..58];
                head.copy_from_slice(&header(frames));
                head
            }
            Written::Words => {
                let head = &mut room[..44];
                head.copy_from_slice(&word_header(frames));
                head
            }
        }
    }

    // The bytes that are written of some frames of floats; `room` is for words. Ruled out: the floats
    // where words are asked for (floats_as_words).
    pub fn bytes_of<'a>(self, frames: &'a [u8], room: &'a mut [u8]) -> &'a [u8]
        requires whole { (length frames.now ≤ 1024) × (length frames.now % 8 ≡ 0) }
        requires room { 768 ≤ length room.old }
        ensures { result.now ≡ written_of self frames.now }
    {
        match self {
            Written::Floats => frames,
            Written::Words => {
                let words = &mut room[..frames.len() / 4 * 3];
                give_words(frames, words);
                words
            }
        }
    }
}
