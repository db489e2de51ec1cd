// The second pass: block by block from the input file to the output file.
ghost use Rattle.std.specs.Prelude.{◌≡◌, ◌+◌, ◌*◌, ◌≤◌, min, length, IfOk};
ghost use Rattle.render.specs.Run.{Few};
ghost use Rattle.render.specs.Written.{most_frames};

use crate::turn::turn;
use crate::written::Written;
use input::{fill, room};
use records::answer::Answer;
use sounds::say;
use sounds::say::To;
use std::fs::File;
use std::io;
use std::io::{Stdout, Write};
use wav::format::{Format, frame_size};
use wav::level::Levels;

// Where the frames go: to standard output, or to an open file.
#[derive(Clone, Copy)]
pub enum Output<'a> {
    Standard(Stdout),
    File(&'a File),
}

impl Output<'_> {
    // Writes all of the bytes, or says why it cannot.
    pub fn write_all(self, bytes: &[u8]) -> io::Result<()> {
        match self {
            Output::Standard(stream) => Print::write_all(&stream, bytes),
            Output::File(file) => {
                let mut writer = file;
                writer.write_all(bytes)
            }
        }
    }
}

// What a board needs: its block size, and the bytes of its memory, no more than any board's memory has.
#[derive(Clone, Copy)]
pub struct Needs {
    pub size: usize,
    pub room: usize,
    ghost least_size: { 1 ≤ size },
    ghost most_size: { size ≤ 128 },
    ghost room_fits: { room ≤ 1114880 },
}

// A rendering: the open files, the format of the input, what is written of the frames, what the board
// needs, how many frames are still to be read and to be written, how many are written, what was found in
// them, and whether progress is shown. The frames fit a WAV file, and what was found is among those that
// are written.
#[derive(Clone, Copy)]
pub struct Run<'a> {
    pub input: &'a File,
    pub output: Output<'a>,
    pub format: Format,
    pub written: Written,
    pub needs: Needs,
    pub reads: usize,
    pub writes: usize,
    pub done: usize,
    pub levels: Levels,
    pub progress: bool,
    ghost writes_fit: { done + writes ≤ most_frames written },
    ghost found: { Few (2 * done) levels },
}

// Why a rendering ended early.
#[derive(Clone, Copy)]
pub enum PlayError {
    NotRead,
    NotWritten(io::Error),
    Refused(Answer),
}

// The bytes of the longer header; of the longest block's samples, of its frames, and of these in words.
const HEAD_BYTES: usize = 58;

const SAMPLE_BYTES: usize = 512;

const FRAME_BYTES: usize = 1024;

const WORD_BYTES: usize = 768;

impl<'a> Run<'a> {
    ghost use Rattle.render.specs.Step.{BlockPassed};

    // The same to another file.
    pub fn with_output(self, file: &'a File) -> Run<'a> {
        let mut next = self;
        next.output = Output::File(file);
        next
    }

    // Writes what stands before the frames.
    pub fn write_header(self) -> io::Result<()> {
        let mut head = room::<HEAD_BYTES>();
        self.output
            .write_all(self.written.header(self.writes as u32, &mut head))
    }

    // The frames of the next block that are read, and those that are written.
    fn next_reads(self) -> usize
        ensures { (result ≡ min self.entry.needs.size self.entry.reads) × (result ≤ 128) }
    {
        self.needs.size.min(self.reads)
    }

    fn next_writes(self) -> usize
        ensures { (result ≡ min self.entry.needs.size self.entry.writes) × (result ≤ 128) }
    {
        self.needs.size.min(self.writes)
    }

    // Writes the first of a block's frames, those that are still to be written: what is left after the
    // block, with what is found in their floats. Ruled out: nothing left after a block (block_takes_all).
    fn write_frames(self, frames: &[u8]) -> Result<Run<'a>, PlayError>
        requires { length frames.now ≡ 8 * self.needs.size }
        ensures { IfOk result (λ run. BlockPassed self.entry run) }
    {
        let wrote = self.next_writes();
        let part = &frames[..8 * wrote];
        let mut words = room::<WORD_BYTES>();
        self.output
            .write_all(self.written.bytes_of(part, &mut words))
            .map_err(PlayError::NotWritten)?;
        let mut next = self;
        next.levels = self.levels.with(part, 2 * self.done);
        next.reads -= self.next_reads();
        next.writes -= wrote;
        next.done += wrote;
        Ok(next)
    }

    // Runs the board on the frames that were read, and writes those that come of it: what is left. `memory`
    // is written while `Run`, a Copy value, goes on: lent beside it, with the board.
    fn run_block(self, board: &[u8], memory: &mut [u8], bytes: &[u8]) -> Result<Run<'a>, PlayError>
        ensures { IfOk result (λ run. BlockPassed self.entry run) }
    {
        let short = 4 * self.needs.size;
        let long = 8 * self.needs.size;
        let mut input = room::<SAMPLE_BYTES>();
        let mut left = room::<SAMPLE_BYTES>();
        let mut right = room::<SAMPLE_BYTES>();
        let mut frames = room::<FRAME_BYTES>();
        let answer = turn(
            board,
            memory,
            bytes,
            self.format,
            &mut input[..short],
            &mut left[..short],
            &mut right[..short],
            &mut frames[..long],
        );
        answer.checked().map_err(PlayError::Refused)?;
        self.write_frames(&frames[..long])
    }

    // One block: what is left after it.
    fn one(self, board: &[u8], memory: &mut [u8]) -> Result<Run<'a>, PlayError>
        ensures { IfOk result (λ run. BlockPassed self.entry run) }
    {
        let mut bytes = room::<FRAME_BYTES>();
        let want = self.next_reads() * frame_size(self.format);
        let mut input = self.input;
        let (got, _) = fill(&mut input, &mut bytes[..want]);
        if got < want {
            return Err(PlayError::NotRead);
        }
        self.run_block(board, memory, &bytes[..got])
    }

    // The per cent of the frames that are written.
    fn percent(self) -> usize {
        let all = self.done + self.writes;
        if all == 0 {
            return 100;
        }
        self.done * 100 / all
    }

    // Shows the per cent where they have changed and progress is asked for.
    fn show(self, to: To, before: Run) {
        let percent = self.percent();
        if self.progress && percent != before.percent() {
            say::percent(to, percent);
        }
    }
}

// All blocks: what was found in them.
pub fn play(to: To, start: Run, board: &[u8], memory: &mut [u8]) -> Result<Levels, PlayError> {
    let mut run = start;
    for _ in 0..run.writes.div_ceil(run.needs.size) {
        let next = run.one(board, memory)?;
        next.show(to, run);
        run = next;
    }
    Ok(run.levels)
}
