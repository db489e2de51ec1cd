// What the program says: lines on standard error, or on standard output where a list is checked, each
// with the name of what it speaks of. `to` is where they go. One that cannot be written is lost.
use crate::error::SoundError;
use std::fmt::{Display, InlineText};
use std::io::{Stderr, Stdout, Write};
use std::{fmt, io};
use wav::format::FormatError;
use wav::level::Count;

// Both streams, and whether the lines go to standard output. A flag, not an enum: it only picks the stream,
// and no other field depends on it.
#[derive(Clone, Copy)]
pub struct To {
    pub error: Stderr,
    pub output: Stdout,
    pub checked: bool,
}

impl Write for To {
    fn write(&mut self, bytes: &[u8]) -> io::Result<usize> {
        if self.checked {
            self.output.write(bytes)
        } else {
            self.error.write(bytes)
        }
    }

    fn flush(&mut self) -> io::Result<()> {
        Ok(())
    }
}

// Standard error, wherever lines go.
fn error(to: To) -> To {
    To {
        checked: false,
        ..to
    }
}

// `NAME: line`, of a line that has its end.
pub fn answer(mut to: To, of: &[u8], line: &[u8]) {
    let _ = to.write_all(of);
    let _ = to.write_all(b": ");
    let _ = to.write_all(line);
}

// `NAME: what is wrong`
pub fn problem(mut to: To, of: &[u8], what: impl Display + Drop) {
    let _ = to.write_all(of);
    let _ = writeln!(to, ": {what}");
}

// The system's reason without its number: `No such file or directory`.
fn reason(told: &str) -> &str {
    match told.split_once(" (os error ") {
        Some((reason, _)) => reason,
        None => told,
    }
}

// A call on a file failed: why, on standard error, and what is wrong.
pub fn failed(to: To, file: &[u8], why: io::Error, what: impl Display + Drop) {
    let told = InlineText::<128>::of(why);
    problem(error(to), file, reason(told.as_str()));
    problem(to, file, what);
}

// `0.512 s (frame 22579)`; the time is rounded to the nearest millisecond.
#[derive(Clone, Copy)]
struct Time {
    frame: u32,
}

impl Display for Time {
    fn fmt<W: fmt::Write>(&self, f: &mut fmt::Formatter<W>) -> fmt::Result {
        let frame = self.frame;
        let ms = (u64::from(frame) * 1000 + 22050) / 44100;
        write!(f, "{}.{:03} s (frame {frame})", ms / 1000, ms % 1000)
    }
}

// `NAME: 12 samples above full scale, the first at 0.512 s (frame 22579)`; nothing where none was
// found. Two samples are a frame.
pub fn level(to: To, of: &[u8], found: Count, what: &str) {
    let Some(first) = found.first else {
        return;
    };
    let count = found.count;
    let samples = if count == 1 { "sample" } else { "samples" };
    let time = Time {
        frame: (first / 2 % 4294967296) as u32,
    };
    problem(
        to,
        of,
        format_args!("{count} {samples} {what}, the first at {time}"),
    );
}

// How sox, a program that many have, turns a file into one that is read; none where it may not help.
fn sox_options(why: FormatError) -> Option<&'static str> {
    match why {
        FormatError::Short => None,
        FormatError::Frame(_) => None,
        FormatError::Channels(_) => Some("-r 44100 -c 2 -e signed -b 24"),
        _ => Some("-r 44100 -e signed -b 24"),
    }
}

// Why a format is not read; with the line that turns the file into one that is.
fn format(mut to: To, of: &[u8], why: FormatError) {
    let Some(options) = sox_options(why) else {
        problem(to, of, why);
        return;
    };
    let _ = to.write_all(of);
    let _ = write!(to, ": {why}; try: sox ");
    let _ = to.write_all(of);
    let _ = writeln!(to, " {options} new.wav");
}

// Why a file gives no sound.
pub fn no_sound(to: To, of: &[u8], why: SoundError) {
    match why {
        SoundError::Format(why) => format(to, of, why),
        SoundError::Unplaced(error) => failed(to, of, error, why),
        SoundError::Endless => (),
        _ => problem(to, of, why),
    }
}

// The per cent that are written, on standard error, over the line that was there.
pub fn percent(to: To, n: usize) {
    let _ = write!(error(to), "\r{n} %");
}

// The end of that line.
pub fn percent_end(to: To) {
    let _ = writeln!(error(to));
}
