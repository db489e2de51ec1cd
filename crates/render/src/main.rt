// Plays a sound through the plate or any board, from WAV file to WAV file. docs/RENDER.md has the
// formats and the answers.
//
//     render IN.wav OUT.wav plate MIX [SECONDS] [mono|left|right] [24bit] [progress]
//     render IN.wav OUT.wav board FILE [SECONDS] [mono|left|right] [24bit] [progress]
//     render IN.wav OUT.wav card FILE [SECONDS] [mono|left|right] [24bit] [progress]
//     render list FILE
//     render check FILE
//
// A line of a list has the words of one render; `#` starts a comment, and an empty line says nothing.
// Answers go to standard error; those of `check`, which is `list` otherwise, to standard output.
#![tactic(auto)]

mod board;
mod play;
mod render;
mod turn;
mod words;
mod written;

use files::name::open_read;
use input::{fill, is_there, word};
use render::{Job, render};
use sounds::say;
use sounds::say::To;
use std::fs::File;
use std::io::Write;
use std::rt::{Env, Files};
use text::words::{Lines, find, nth_word, word_count};
use words::{Asked, WordError};

const USAGE: &str = "render IN.wav OUT.wav plate MIX [SECONDS] [mono|left|right] [24bit] [progress]
render IN.wav OUT.wav board FILE [SECONDS] [mono|left|right] [24bit] [progress]
render IN.wav OUT.wav card FILE [SECONDS] [mono|left|right] [24bit] [progress]
render list FILE, render check FILE
IN: WAV, 44100 Hz, mono or stereo, 8, 16, 24 or 32 bit whole numbers or 32 bit floats
OUT: WAV, stereo, 32 bit floats, or 24 bit whole numbers by 24bit; - is standard output
MIX: 0 is the sound alone, 1 the plate alone; SECONDS: how long OUT goes on after IN, up to 600
docs/RENDER.md has more
";

fn usage(mut to: To) {
    let _ = to.write_all(USAGE.as_bytes());
}

// One more word; one that is refused is told.
fn with_word(to: To, asked: Asked, word: &[u8]) -> Result<Asked, WordError> {
    let more = asked.with(word);
    if let Err(why) = more {
        say::problem(to, word, why);
    }
    more
}

// What the words of a line from the fifth on ask for. A word's number, not an index: words are found in
// the line.
fn line_asks(to: To, line: &[u8]) -> Result<Asked, WordError> {
    let mut asked = Asked::nothing();
    for k in 4..word_count(line) {
        asked = with_word(to, asked, nth_word(line, k))?;
    }
    Ok(asked)
}

// How many arguments there are, the program's name among them.
fn arg_count<R: Env>(rt: &R) -> usize {
    (0..usize::MAX)
        .find(|i| !is_there(rt, *i))
        .unwrap_or(usize::MAX)
}

// One more word, which is an argument.
fn with_arg<R: Env>(rt: &R, to: To, asked: Asked, i: usize) -> Result<Asked, WordError> {
    with_word(to, asked, word(rt, i, &mut [0u8; 4096]))
}

// What the arguments from the fifth on ask for.
fn args_ask<R: Env>(rt: &R, to: To) -> Result<Asked, WordError> {
    let mut asked = Asked::nothing();
    for i in 5..arg_count(rt) {
        asked = with_arg(rt, to, asked, i)?;
    }
    Ok(asked)
}

// The render that a line asks for; an empty line asks for none.
fn line<R: Files<File = File> + Alloc>(rt: &R, to: To, list: &[u8], words: &[u8]) {
    let input = nth_word(words, 0);
    if input.is_empty() {
        return;
    }
    let what = nth_word(words, 3);
    if what.is_empty() {
        usage(to);
        return;
    }
    let Ok(asked) = line_asks(to, words) else {
        return;
    };
    let job = Job {
        to,
        list,
        input,
        output: nth_word(words, 1),
        form: nth_word(words, 2),
        what,
        asked,
    };
    render(rt, job);
}

// Each line of a list, without its comment.
fn lines<R: Files<File = File> + Alloc>(rt: &R, to: To, name: &[u8], list: &[u8]) {
    for whole in Lines::new(list) {
        let comment = find(whole, 0, |byte| byte == b'#');
        line(rt, to, name, &whole[..comment]);
    }
}

// The renders that a file lists.
fn list<R: Files<File = File> + Alloc>(rt: &R, to: To, file: &[u8]) {
    let mut opened = match open_read(rt, file) {
        Ok(opened) => opened,
        Err(why) => {
            say::failed(to, file, why, "cannot be opened");
            return;
        }
    };
    let mut text = [0u8; 65536];
    let (n, _) = fill(&mut opened, &mut text);
    drop(opened);
    if n == text.len() {
        say::problem(to, file, "list too long");
        return;
    }
    lines(rt, to, file, &text[..n]);
}

// The render that the arguments ask for.
fn from_args<R: Files<File = File> + Env + Alloc>(rt: &R, to: To) {
    let mut input = [0u8; 4096];
    let mut output = [0u8; 4096];
    let mut form = [0u8; 4096];
    let mut what = [0u8; 4096];
    let Ok(asked) = args_ask(rt, to) else {
        return;
    };
    let job = Job {
        to,
        list: b"",
        input: word(rt, 1, &mut input),
        output: word(rt, 2, &mut output),
        form: word(rt, 3, &mut form),
        what: word(rt, 4, &mut what),
        asked,
    };
    render(rt, job);
}

fn main(rt: HostRuntime) {
    let to = To {
        error: rt.stderr(),
        output: rt.stdout(),
        checked: false,
    };
    let mut first = [0u8; 4096];
    let mut second = [0u8; 4096];
    let file = word(&rt, 2, &mut second);
    let count = arg_count(&rt);
    match word(&rt, 1, &mut first) {
        b"list" if count == 3 => list(&rt, to, file),
        b"check" if count == 3 => {
            let checked = true;
            list(&rt, To { checked, ..to }, file);
        }
        _ if count < 5 => usage(to),
        _ => from_args(&rt, to),
    }
}
