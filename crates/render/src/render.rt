// One render: the words that ask for it, judged in their order, and then the two passes.
ghost use Rattle.std.specs.Prelude.{◌≡◌, ◌≤◌, length};

use crate::board::{BoardError, Form, make};
use crate::play::{Needs, Output, PlayError, Run, play};
use crate::words::Asked;
use boards::judge::read_board;
use files::name::{create, open_overwrite, open_read, remove, rename};
use files::output::{Way, led_to, part_name, way_of};
use files::{is_file, is_open_file};
use graph::tail::board_tail;
use input::room;
use sounds::error::SoundError;
use sounds::say;
use sounds::say::To;
use sounds::source::survey;
use std::fs::File;
use std::io;
use std::io::{Seek, SeekFrom};
use std::rt::Files;
use wav::format::{Channels, Format, Taken};
use wav::level::Levels;

// What is asked for: IN OUT plate MIX, IN OUT board FILE or IN OUT card FILE, with what the other words
// say; `list` names the list that has these words, and `to` is where answers go.
// `list` is empty for none, and so is a word that is not there: no Option, as an empty word is no mode and
// no file's name.
#[derive(Clone, Copy)]
pub struct Job<'a> {
    pub to: To,
    pub list: &'a [u8],
    pub input: &'a [u8],
    pub output: &'a [u8],
    pub form: &'a [u8],
    pub what: &'a [u8],
    pub asked: Asked,
}

// Why nothing was written. `Told`: the line is written already, as it has to come before something else, or
// has a name that `tell` does not have.
#[derive(Drop)]
enum Failure {
    Form,
    Board(BoardError),
    OutputIsBoard,
    OutputIsList,
    OutputIsInput,
    Unopened(io::Error),
    Sound(SoundError),
    TooLong,
    NoName,
    Unwritable(io::Error),
    Play(PlayError),
    Told,
}

// What went wrong, with the name that it went wrong with.
fn tell(job: Job, failure: Failure) {
    let Job {
        to,
        input,
        output,
        form,
        what,
        ..
    } = job;
    match failure {
        Failure::Form => say::problem(to, form, "neither plate nor board nor card"),
        Failure::Board(why) => why.tell(to, what),
        Failure::OutputIsBoard => say::problem(to, output, "is the board's file"),
        Failure::OutputIsList => say::problem(to, output, "is the list"),
        Failure::OutputIsInput => say::problem(to, output, "is the input"),
        Failure::Unopened(why) => say::failed(to, input, why, "cannot be opened"),
        Failure::Sound(why) => say::no_sound(to, input, why),
        Failure::TooLong => {
            say::problem(to, input, "too long: more than 4 GiB would be written")
        }
        Failure::NoName => say::problem(
            to,
            output,
            "no name of a file: empty, too long, or links without an end",
        ),
        Failure::Unwritable(why) => { say::failed(to, output, why, "cannot be opened for writing") }
        Failure::Play(PlayError::NotRead) => {
            say::problem(to, input, "has changed while it was read")
        }
        Failure::Play(PlayError::NotWritten(why)) => {
            say::failed(to, output, why, "cannot be written")
        }
        Failure::Play(PlayError::Refused(refusal)) => say::problem(
            to,
            input,
            format_args!("refused {} {}", refusal.number, refusal.place),
        ),
        Failure::Told => (),
    }
}

// A failure that is told at once.
fn told(job: Job, failure: Failure) -> Failure {
    tell(job, failure);
    Failure::Told
}

// The frames that are given where the tail is endless.
const FOUR_SECONDS: usize = 176400;

// The board's tail, or four seconds.
fn tail_frames(board: &[u8]) -> usize
    ensures { result ≤ 4294967295 }
{
    board_tail(board).ok().flatten().unwrap_or(FOUR_SECONDS)
}

// The frames after the input: the seconds that are asked for, or the tail.
fn frames_after(asked: Asked, board: &[u8]) -> usize
    ensures { result ≤ 4294967295 }
{
    match asked.seconds {
        Some(seconds) => 44100 * usize::from(seconds),
        None => tail_frames(board),
    }
}

// The most bytes that a board's memory has.
const LENT: usize = 1114880;

// A render that can begin: what was asked for, the sound looked over, and the board's bytes.
#[derive(Clone, Copy)]
struct Rendering<'a> {
    job: Job<'a>,
    run: Run<'a>,
    board: &'a [u8],
}

impl<'a> Rendering<'a> {
    // The same to an open file.
    fn with_output(self, file: &'a File) -> Rendering<'a> {
        Rendering {
            run: self.run.with_output(file),
            ..self
        }
    }

    // All blocks, from fresh memory.
    fn blocks(self) -> Result<Levels, PlayError> {
        let mut memory = room::<LENT>();
        memory::fresh::fresh(self.board, &mut memory[..self.run.needs.room]);
        play(
            self.job.to,
            self.run,
            self.board,
            &mut memory[..self.run.needs.room],
        )
    }

    // The header and then all blocks, to the output.
    fn written(self) -> Result<Levels, PlayError> {
        self.run.write_header().map_err(PlayError::NotWritten)?;
        let levels = self.blocks();
        if self.run.progress {
            say::percent_end(self.job.to);
        }
        levels
    }

    // What is told of a sound that was written: what its samples are, and that two channels became one
    // where nobody asked for it.
    fn warn(self, levels: Levels) {
        let job = self.job;
        say::level(job.to, job.output, levels.bad, "infinite or NaN");
        say::level(job.to, job.output, levels.loud, "above full scale");
        if self.run.format.channels != Channels::Mono && job.asked.channel.is_none() {
            say::problem(
                job.to,
                job.input,
                "stereo, mixed to one channel ((left + right) / 2); left or right takes one alone",
            );
        }
    }

    // The end of a sound that is written whole to a file.
    fn finish(self, levels: Levels) {
        say::problem(
            self.job.to,
            self.job.output,
            format_args!("{} samples in, {} out", self.run.reads, self.run.writes),
        );
        self.warn(levels);
    }

    // To standard output.
    fn to_standard(self) -> Result<(), Failure> {
        let levels = self.written().map_err(Failure::Play)?;
        self.warn(levels);
        Ok(())
    }

    // To what is there, as a pipe.
    fn straight<R: Files<File = File>>(self, rt: &R) -> Result<(), Failure> {
        let opened = open_overwrite(rt, self.job.output).map_err(Failure::Unwritable)?;
        let levels = self.with_output(&opened).written();
        drop(opened);
        self.finish(levels.map_err(Failure::Play)?);
        Ok(())
    }

    // Writes what is made, and gives it the file's name. What goes wrong is told here: the line comes before
    // what is made is removed.
    fn completed<R: Files<File = File>>(
        self,
        rt: &R,
        made: File,
        part: &[u8],
        file: &[u8],
    ) -> Result<Levels, Failure> {
        let levels = self
            .with_output(&made)
            .written()
            .map_err(|why| told(self.job, Failure::Play(why)))?;
        if let Err(why) = named(rt, made, part, file) {
            say::failed(self.job.to, file, why, "cannot be written");
            return Err(Failure::Told);
        }
        Ok(levels)
    }

    // To a file beside the one that the output leads to, whose name it then takes.
    fn beside<R: Files<File = File>>(self, rt: &R, file: &[u8]) -> Result<(), Failure> {
        let mut name = [0u8; 4096];
        // A name too long for `.part` becomes an empty one, which the system refuses; its reason is told.
        let part = part_name(file, &mut name).unwrap_or(b"");
        let made = made(rt, self.job.to, part)?;
        match self.completed(rt, made, part, file) {
            Ok(levels) => {
                self.finish(levels);
                Ok(())
            }
            Err(why) => {
                let _ = remove(rt, part);
                Err(why)
            }
        }
    }

    // From an input that is wholly fine, at its data, to the output.
    fn to_output<R: Files<File = File> + Alloc>(self, rt: &R) -> Result<(), Failure> {
        let output = self.job.output;
        if let b"-" = output {
            return self.to_standard();
        }
        let mut name = [0u8; 4096];
        let file = led_to(rt, output, &mut name).ok_or(Failure::NoName)?;
        match way_of(rt, output, file).map_err(Failure::Unwritable)? {
            Way::Straight => self.straight(rt),
            Way::Beside => self.beside(rt, file),
        }
    }
}

// Closes what is written, once the system has taken all of it, and gives it the file's name. What only
// closing would tell is lost, so the system is asked before.
fn named<R: Files<File = File>>(rt: &R, written: File, part: &[u8], file: &[u8]) -> io::Result<()> {
    written.sync_all()?;
    drop(written);
    rename(rt, part, file)
}

// What is to be written beside a file, made. One of the failures is told here, by the name that was made.
fn made<R: Files<File = File>>(rt: &R, to: To, part: &[u8]) -> Result<File, Failure> {
    let why = match create(rt, part) {
        Ok(made) => return Ok(made),
        Err(why) => why,
    };
    if why.kind() != io::ErrorKind::AlreadyExists {
        return Err(Failure::Unwritable(why));
    }
    say::problem(
        to,
        part,
        "is there already: remove it, unless a render is writing it",
    );
    Err(Failure::Told)
}

// The open input, surveyed, and then played.
fn from_open<'a, R: Files<File = File> + Alloc>(
    rt: &R,
    job: Job<'a>,
    opened: &'a File,
    needs: Needs,
    board: &'a [u8],
) -> Result<(), Failure> {
    let mut reader = opened;
    let taken = job.asked.channel.unwrap_or(Taken::Mean);
    let sound = survey(&mut reader, taken).map_err(Failure::Sound)?;
    let total = sound.frames + frames_after(job.asked, board);
    let written = job.asked.written;
    if written.most() < total {
        return Err(Failure::TooLong);
    }
    if is_open_file(rt, opened, job.output) {
        return Err(Failure::OutputIsInput);
    }
    let _ = reader.seek(SeekFrom::Start(sound.start));
    let run = Run {
        input: opened,
        output: Output::Standard(job.to.output),
        format: sound.format,
        written,
        needs,
        reads: sound.frames,
        writes: total,
        done: 0,
        levels: Levels::none(),
        progress: job.asked.progress,
    };
    Rendering { job, run, board }.to_output(rt)
}

// Needs of a board's bytes, once they are judged. A match: tried as `map_err` with `?`, and the proof that
// they are a board's did not close.
fn needs_of(board: &[u8]) -> Result<Needs, BoardError> {
    match read_board(board) {
        Ok(read) => Ok(Needs {
            size: read.size,
            room: 4 * read.values,
        }),
        Err(refusal) => Err(BoardError::refused(board, refusal)),
    }
}

// The failure where writing the output would lose the board's file or the list.
fn not_lost<R: Files>(rt: &R, job: Job, form: Option<Form>) -> Result<(), Failure> {
    if form.is_some_and(Form::is_file) && is_file(rt, job.what, job.output) {
        return Err(Failure::OutputIsBoard);
    }
    if is_file(rt, job.list, job.output) {
        return Err(Failure::OutputIsList);
    }
    Ok(())
}

// Through the board that is asked for.
// By `map_err`, not `From`: where it came up says which failure it is; two of them are an io::Error.
fn rendered<R: Files<File = File> + Alloc>(rt: &R, job: Job) -> Result<(), Failure> {
    let form = Form::named(job.form);
    not_lost(rt, job, form)?;
    let form = form.ok_or(Failure::Form)?;
    let mut bytes = [0u8; answers::card::MOST];
    let board = make(rt, form, job.what, &mut bytes).map_err(Failure::Board)?;
    let needs = needs_of(board).map_err(Failure::Board)?;
    let opened = open_read(rt, job.input).map_err(Failure::Unopened)?;
    from_open(rt, job, &opened, needs, board)
}

pub fn render<R: Files<File = File> + Alloc>(rt: &R, job: Job) {
    if let Err(failure) = rendered(rt, job) {
        tell(job, failure);
    }
}
