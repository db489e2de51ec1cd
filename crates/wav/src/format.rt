// The body of a fmt chunk: what the samples are, or why they are not read.
ghost use Rattle.std.specs.Prelude.{◌≡◌, ◌≤◌, length};
ghost use Rattle.wav.specs.Format.{width_of, frame_of, whole_coded, coded_of, judged_frame, judged_coding, judged_as, format_of};

use std::error::Error;
use std::fmt;
use values::bytes::{u16_at, u32_at};

// How a sample is coded: a whole number of 8, 16, 24 or 32 bits, or a float of 32.
#[derive(Clone, Copy, Debug, PartialEq, Eq)]
pub enum Coding {
    Whole8,
    Whole16,
    Whole24,
    Whole32,
    Float32,
}

// What a frame of two samples is taken as: the mean of both, or one of them alone.
#[derive(Clone, Copy, Debug, PartialEq, Eq)]
pub enum Taken {
    Mean,
    Left,
    Right,
}

// Frames of one sample, or of two, left and right, which are taken as one.
#[derive(Clone, Copy, Debug, PartialEq, Eq)]
pub enum Channels {
    Mono,
    Stereo(Taken),
}

// What stands in a frame.
#[derive(Clone, Copy, Debug, PartialEq, Eq)]
pub struct Format {
    pub coding: Coding,
    pub channels: Channels,
}

// Why a fmt chunk is not read: it is too short, or names a format, a number of channels, a rate, a number
// of bits or a number of bytes in a frame that is not read.
#[derive(Clone, Copy, Debug, PartialEq, Eq)]
pub enum FormatError {
    Short,
    Tag(u16),
    Channels(u16),
    Rate(u32),
    Bits(u16),
    Frame(u16),
}

impl fmt::Display for FormatError {
    fn fmt<W: fmt::Write>(&self, f: &mut fmt::Formatter<W>) -> fmt::Result {
        match self {
            FormatError::Short => write!(f, "fmt chunk cut short"),
            FormatError::Tag(tag) => write!(
                f,
                "{tag} as format: only 1 (whole numbers) and 3 (floats) are read"
            ),
            FormatError::Channels(n) => write!(f, "{n} channels: only 1 and 2 are read"),
            FormatError::Rate(rate) => write!(f, "{rate} Hz: only 44100 is read"),
            FormatError::Bits(bits) => write!(
                f,
                "{bits} bits: only 8, 16, 24 and 32 bit whole numbers and 32 bit floats are read"
            ),
            FormatError::Frame(bytes) => {
                write!(f, "{bytes} bytes a frame do not fit channels and bits")
            }
        }
    }
}

impl Error for FormatError {}

// The bytes of a sample.
pub fn width(coding: Coding) -> usize
    ensures { (result ≡ width_of coding) × (1 ≤ result) × (result ≤ 4) }
{
    match coding {
        Coding::Whole8 => 1,
        Coding::Whole16 => 2,
        Coding::Whole24 => 3,
        Coding::Whole32 => 4,
        Coding::Float32 => 4,
    }
}

// The bytes of a frame. That a width and a frame have a byte at least is said of both numbers: a type for a
// number of bytes would be taken off where samples are read.
pub fn frame_size(format: Format) -> usize
    ensures { (result ≡ frame_of format) × (1 ≤ result) × (result ≤ 8) }
{
    let w = width(format.coding);
    match format.channels {
        Channels::Mono => w,
        Channels::Stereo(_) => 2 * w,
    }
}

// Whole numbers of so many bits.
fn whole_coding(bits: u16) -> Result<Coding, FormatError>
    ensures { result ≡ whole_coded bits }
{
    match bits {
        8 => Ok(Coding::Whole8),
        16 => Ok(Coding::Whole16),
        24 => Ok(Coding::Whole24),
        32 => Ok(Coding::Whole32),
        _ => Err(FormatError::Bits(bits)),
    }
}

// Tag 1 is whole numbers, tag 3 floats.
fn coding_of(tag: u16, bits: u16) -> Result<Coding, FormatError>
    ensures { result ≡ coded_of tag bits }
{
    match tag {
        1 => whole_coding(bits),
        3 if bits == 32 => Ok(Coding::Float32),
        3 => Err(FormatError::Bits(bits)),
        _ => Err(FormatError::Tag(tag)),
    }
}

// The chunk's own number of bytes in a frame must be the format's.
fn judged_frame(format: Format, frame: u16) -> Result<Format, FormatError>
    ensures { result ≡ judged_frame format frame }
{
    if usize::from(frame) == frame_size(format) {
        Ok(format)
    } else {
        Err(FormatError::Frame(frame))
    }
}

#[tactic(auto, unfolding(crate::specs::Format::judged_coding))]
fn judged_coding(body: &[u8], tag: u16, channels: Channels) -> Result<Format, FormatError>
    requires { 16 ≤ length body.now }
    ensures { result ≡ judged_coding body.now tag channels }
{
    let coding = coding_of(tag, u16_at(body, 14))?;
    judged_frame(Format { coding, channels }, u16_at(body, 12))
}

// A body of these 16 bytes and of this tag: rate, channels, coding and frame are judged in this order.
#[tactic(auto, unfolding(crate::specs::Format::judged_as))]
fn judged_as(body: &[u8], tag: u16) -> Result<Format, FormatError>
    requires { 16 ≤ length body.now }
    ensures { result ≡ judged_as body.now tag }
{
    let rate = u32_at(body, 4);
    if rate != 44100 {
        return Err(FormatError::Rate(rate));
    }
    match u16_at(body, 2) {
        1 => judged_coding(body, tag, Channels::Mono),
        2 => judged_coding(body, tag, Channels::Stereo(Taken::Mean)),
        channels => Err(FormatError::Channels(channels)),
    }
}

// The format that a fmt chunk's body says, with both channels taken as their mean. The tag FFFE has the
// true one in byte 24.
#[tactic(auto, unfolding(crate::specs::Format::format_of))]
pub fn format_of(body: &[u8]) -> Result<Format, FormatError>
    ensures { result ≡ format_of body.now }
{
    if body.len() < 16 {
        return Err(FormatError::Short);
    }
    let tag = u16_at(body, 0);
    if tag != 0xfffe {
        return judged_as(body, tag);
    }
    if body.len() < 40 {
        return Err(FormatError::Short);
    }
    judged_as(body, u16_at(body, 24))
}
