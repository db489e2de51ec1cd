// The words after the fourth, in any order: how many seconds the output goes on, which channel of a
// stereo sound is taken, whether words of 24 bits are written, and whether progress is shown. A word that
// is not understood, or that says again what was said, is refused.
use crate::written::Written;
use decimals::number::whole_of;
use std::fmt;
use wav::format::Taken;

// What is asked for; no seconds are the board's tail, and no channel is the mean of both.
#[derive(Clone, Copy)]
pub struct Asked {
    pub seconds: Option<u16>,
    pub channel: Option<Taken>,
    pub written: Written,
    pub progress: bool,
}

// Why a word is refused.
#[derive(Clone, Copy)]
pub enum WordError {
    SecondChannel,
    SaidAlready,
    SecondSeconds,
    NoSeconds,
    Unknown,
}

impl fmt::Display for WordError {
    fn fmt<W: fmt::Write>(&self, f: &mut fmt::Formatter<W>) -> fmt::Result {
        match self {
            WordError::SecondChannel => write!(f, "a channel is named already"),
            WordError::SaidAlready => write!(f, "is said already"),
            WordError::SecondSeconds => write!(f, "seconds are given already"),
            WordError::NoSeconds => write!(f, "seconds are a whole number up to 600"),
            WordError::Unknown => write!(
                f,
                "neither seconds nor mono, left, right, 24bit or progress"
            ),
        }
    }
}

// Whether a word begins as a number does.
fn numeric(word: &[u8]) -> bool {
    matches!(word, [b'0'..=b'9' | b'-' | b'+' | b'.', ..])
}

impl Asked {
    // What is asked for where there are no words.
    pub fn nothing() -> Asked {
        Asked {
            seconds: None,
            channel: None,
            written: Written::Floats,
            progress: false,
        }
    }

    fn with_channel(self, taken: Taken) -> Result<Asked, WordError> {
        if self.channel.is_some() {
            return Err(WordError::SecondChannel);
        }
        Ok(Asked {
            channel: Some(taken),
            ..self
        })
    }

    fn with_words(self) -> Result<Asked, WordError> {
        if self.written == Written::Words {
            return Err(WordError::SaidAlready);
        }
        Ok(Asked {
            written: Written::Words,
            ..self
        })
    }

    fn with_progress(self) -> Result<Asked, WordError> {
        if self.progress {
            return Err(WordError::SaidAlready);
        }
        Ok(Asked {
            progress: true,
            ..self
        })
    }

    fn with_seconds(self, word: &[u8]) -> Result<Asked, WordError> {
        let Some(seconds) = whole_of(word, 600) else {
            return Err(if numeric(word) {
                WordError::NoSeconds
            } else {
                WordError::Unknown
            });
        };
        if self.seconds.is_some() {
            return Err(WordError::SecondSeconds);
        }
        Ok(Asked {
            seconds: Some(seconds as u16),
            ..self
        })
    }

    // One more word.
    pub fn with(self, word: &[u8]) -> Result<Asked, WordError> {
        match word {
            b"mono" => self.with_channel(Taken::Mean),
            b"left" => self.with_channel(Taken::Left),
            b"right" => self.with_channel(Taken::Right),
            b"24bit" => self.with_words(),
            b"progress" => self.with_progress(),
            _ => self.with_seconds(word),
        }
    }
}
