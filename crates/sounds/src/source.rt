// The sound that is read: a first pass over the file finds its format and its length, and sees that
// every sample is there and finite.
ghost use Rattle.std.specs.Prelude.{◌≤◌, ◌<◌, IfOk};

use crate::error::SoundError;
use input::fill;
use std::io::{Read, Seek, SeekFrom};
use wav::block::first_bad;
use wav::chunk::{Chunk, ChunkKind, chunk_of, is_wave, passed};
use wav::format::{Channels, Format, Taken, format_of, frame_size};

// The data chunk: what its samples are, and its bytes.
#[derive(Clone, Copy)]
struct Data {
    format: Format,
    length: u32,
}

// A sound: its format, its frames, no more than its data has bytes, and where in the file they start.
#[derive(Clone, Copy)]
pub struct Sound {
    pub format: Format,
    pub frames: usize,
    pub start: u64,
    ghost short: { frames ≤ 4294967295 },
}

// Whether the file begins as a WAV file does.
fn begins<R: Read>(input: &mut R) -> bool {
    let mut head = [0u8; 12];
    fill(input, &mut head).0 == 12 && is_wave(&head)
}

// Passes over bytes of the file.
fn pass_over<R: Seek>(input: &mut R, bytes: u64)
    requires { bytes ≤ 4294967296 }
{
    let _ = input.seek(SeekFrom::Current(bytes as i64));
}

// The longest fmt chunk has 40 bytes; what follows them is passed over.
const LONGEST: usize = 40;

// The format of a fmt chunk of so many bytes.
fn read_format<R: Read + Seek>(input: &mut R, length: u32) -> Result<Format, SoundError> {
    let mut body = [0u8; LONGEST];
    let want = LONGEST.min(length as usize);
    let (n, _) = fill(input, &mut body[..want]);
    let format = format_of(&body[..n])?;
    pass_over(input, passed(length) - want as u64);
    Ok(format)
}

// The bytes from here to the file's end; none in a pipe.
fn bytes_left<R: Seek>(input: &mut R) -> u64 {
    let here = input.stream_position().unwrap_or(0);
    let end = input.seek(SeekFrom::End(0)).unwrap_or(0);
    let _ = input.seek(SeekFrom::Start(here));
    end.saturating_sub(here)
}

// The bytes of the data: as many as its chunk says; or up to the file's end, which is what the lengths 0
// and FFFFFFFF mean, that programs write which did not know the length.
fn data_length<R: Seek>(input: &mut R, length: u32) -> u64 {
    match length {
        0 | u32::MAX => bytes_left(input),
        _ => u64::from(length),
    }
}

// The data of a format that must be known by now.
fn data_of<R: Seek>(input: &mut R, known: Option<Format>, length: u32) -> Result<Data, SoundError> {
    let format = known.ok_or(SoundError::NoFormat)?;
    let bytes = data_length(input, length);
    let length = u32::try_from(bytes).map_err(|_| SoundError::TooLong)?;
    if length as usize % frame_size(format) != 0 {
        return Err(SoundError::PartFrame(bytes));
    }
    Ok(Data { format, length })
}

// The next chunk.
fn next_chunk<R: Read>(input: &mut R) -> Result<Chunk, SoundError> {
    let mut head = [0u8; 8];
    if fill(input, &mut head).0 < 8 {
        return Err(SoundError::NoData);
    }
    Ok(chunk_of(&head))
}

// The data chunk. A proved loop has to end, and nothing says that a file does: so it counts the chunks,
// up to a number that no file reaches.
fn find_data<R: Read + Seek>(input: &mut R) -> Result<Data, SoundError> {
    let mut known = None;
    for _ in 0..u32::MAX {
        let chunk = next_chunk(input)?;
        match chunk.kind {
            ChunkKind::Format => known = Some(read_format(input, chunk.length)?),
            ChunkKind::Data => return data_of(input, known, chunk.length),
            ChunkKind::Other => pass_over(input, passed(chunk.length)),
        }
    }
    Err(SoundError::Endless)
}

// The frames that are looked over at once.
const PART: usize = 512;

// The part of the data, of `all` bytes, that begins at `start`.
fn part_fine<R: Read>(
    input: &mut R,
    format: Format,
    start: usize,
    all: usize,
) -> Result<(), SoundError>
    requires { (start < all) × (all ≤ 4294967295) }
{
    let mut bytes = [0u8; 4096];
    let size = frame_size(format);
    let want = (PART * size).min(all - start);
    let (n, _) = fill(input, &mut bytes[..want]);
    if n < want {
        return Err(SoundError::Cut {
            there: start + n,
            all,
        });
    }
    if let Some(bad) = first_bad(&bytes[..n], format) {
        return Err(SoundError::NotFinite(start / size + bad));
    }
    Ok(())
}

// Whether all data is there and finite.
fn data_fine<R: Read>(input: &mut R, data: Data) -> Result<(), SoundError> {
    let all = data.length as usize;
    for start in (0..all).step_by(PART * frame_size(data.format)) {
        part_fine(input, data.format, start, all)?;
    }
    Ok(())
}

// The format with the one channel that is asked for, or the mean of both.
fn with_channel(format: Format, taken: Taken) -> Result<Format, SoundError> {
    match format.channels {
        Channels::Stereo(_) => Ok(Format {
            channels: Channels::Stereo(taken),
            ..format
        }),
        Channels::Mono if taken == Taken::Mean => Ok(format),
        Channels::Mono => Err(SoundError::Mono),
    }
}

// The sound of an open file, of which a channel or the mean of both is taken.
pub fn survey<R: Read + Seek>(input: &mut R, taken: Taken) -> Result<Sound, SoundError> {
    if !begins(input) {
        return Err(SoundError::NotWave);
    }
    let found = find_data(input)?;
    let format = with_channel(found.format, taken)?;
    let start = input.stream_position().map_err(SoundError::Unplaced)?;
    data_fine(input, Data { format, ..found })?;
    Ok(Sound {
        format,
        frames: found.length as usize / frame_size(format),
        start,
    })
}
