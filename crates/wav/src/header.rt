// What stands before the frames of the WAV file that is written: stereo at 44,100 Hz, in floats of 32 bits
// or in words of 24.
ghost use Rattle.std.specs.Prelude.{◌≡◌, ◌≤◌};
ghost use Rattle.wav.specs.Header.{header_of, word_header_of};

use values::bytes::put_u32;

// The most frames that a file can have, of floats and of words: its length after the first 8 bytes is a
// number of 32 bits.
pub const MOST: usize = 536870905;

pub const MOST_IN_WORDS: usize = 715827876;

// The chunks' names and lengths and the format, with zeros where the number of frames tells.
const EMPTY: [u8; 58] =
    *b"RIFF\0\0\0\0WAVEfmt \x12\0\0\0\x03\0\x02\0\x44\xac\0\0\x20\x62\x05\0\x08\0\x20\0\0\0fact\x04\0\0\0\0\0\0\0data\0\0\0\0";

const EMPTY_IN_WORDS: [u8; 44] =
    *b"RIFF\0\0\0\0WAVEfmt \x10\0\0\0\x01\0\x02\0\x44\xac\0\0\x98\x09\x04\0\x06\0\x18\0data\0\0\0\0";

// The 58 bytes before so many frames of floats.
#[tactic(auto, unfolding(crate::specs::Header::header_of))]
pub fn header(frames: u32) -> [u8; 58]
    requires { frames ≤ 536870905 }
    ensures { result ≡ header_of frames }
{
    let mut head = EMPTY;
    put_u32(&mut head, 4, 8 * frames + 50);
    put_u32(&mut head, 46, frames);
    put_u32(&mut head, 54, 8 * frames);
    head
}

// The 44 bytes before so many frames of words. Ruled out: the frame's bytes of the floats
// (frame_of_floats).
#[tactic(auto, unfolding(crate::specs::Header::word_header_of))]
pub fn word_header(frames: u32) -> [u8; 44]
    requires { frames ≤ 715827876 }
    ensures { result ≡ word_header_of frames }
{
    let mut head = EMPTY_IN_WORDS;
    put_u32(&mut head, 4, 6 * frames + 36);
    put_u32(&mut head, 40, 6 * frames);
    head
}
