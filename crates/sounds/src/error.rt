// Why a WAV file gives no sound, and the words for it.
use std::error::Error;
use std::{fmt, io};
use wav::format::FormatError;

#[derive(Clone, Copy, Debug)]
pub enum SoundError {
    NotWave,
    Format(FormatError),
    NoFormat,
    NoData,
    // More chunks than a file has: `say::no_sound` writes no line for it.
    Endless,
    TooLong,
    // Bytes that are no whole frames.
    PartFrame(u64),
    // One channel, where left or right is asked for.
    Mono,
    Unplaced(io::Error),
    Cut { there: usize, all: usize },
    // The place of the first sample that is infinite or NaN.
    NotFinite(usize),
}

impl fmt::Display for SoundError {
    fn fmt<W: fmt::Write>(&self, f: &mut fmt::Formatter<W>) -> fmt::Result {
        match self {
            SoundError::NotWave => write!(f, "not a WAV file"),
            SoundError::Format(why) => write!(f, "{why}"),
            SoundError::NoFormat => write!(f, "no fmt chunk before the data"),
            SoundError::NoData => write!(f, "no data chunk"),
            SoundError::Endless => write!(f, "chunks without an end"),
            SoundError::TooLong => write!(f, "too long: more than 4 GiB are read"),
            SoundError::PartFrame(bytes) => {
                write!(f, "{bytes} bytes of data are no whole frames")
            }
            SoundError::Mono => write!(f, "mono: it has neither left nor right"),
            SoundError::Unplaced(_) => write!(f, "cannot be read twice"),
            SoundError::Cut { there, all } => {
                write!(f, "cut short: {there} of {all} bytes of data are there")
            }
            SoundError::NotFinite(sample) => write!(f, "sample {sample} is infinite or NaN"),
        }
    }
}

impl Error for SoundError {}

impl From<FormatError> for SoundError {
    fn from(why: FormatError) -> SoundError {
        SoundError::Format(why)
    }
}
