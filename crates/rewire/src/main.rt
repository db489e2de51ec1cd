// Shows changes of wires on a board, with the visiting list and the late wires after each.
//
//     rewire BOARD < CHANGES
//
// BOARD is a file with a board's bytes. A line of CHANGES is `+ SOURCE TARGET`, which adds a wire, or
// `- SOURCE TARGET`, which pulls one; an empty line is passed over. docs/REWIRING.md says what comes of
// them.
#![tactic(auto)]

mod change;
mod step;

ghost use Rattle.std.specs.Prelude.{◌≡◌, true, IfOk};
ghost use Rattle.boards.specs.Judge.{judge_of};
ghost use Rattle.rewire.specs.Step.{made_of, length_after, Plays};

use boards::judge::judge;
use change::{NoChange, Request, change_of, change_text};
use files::name::open_read;
use input::{is_there, read_full, word};
use listing::lines::board_text;
use std::io;
use std::rt::Files;
use step::{length_after, make, step_text};
use text::words::Lines;
use text::written::Text;

// Makes a change on the board that the first n bytes are, shows it with what came of it, and returns
// the board's length. `bytes, n`, as the calls take them: the spare bytes behind the board are lent with it.
// What came of it is written into `out`, lent for all changes.
fn show_change(
    rt: &impl Print,
    bytes: &mut [u8],
    n: usize,
    request: Request,
    out: &mut Text<2048>,
) -> io::Result<usize>
    requires { Plays bytes.old n }
    ensures made { bytes.new ≡ (made_of request bytes.old n).1 }
    ensures long { IfOk result (λ m. m ≡ length_after request n (made_of request bytes.old n).0) }
    ensures plays { IfOk result (λ m. Plays bytes.new m) }
{
    let answer = make(bytes, n, request).checked();
    let after = length_after(n, request, &answer);
    rt.write_all(change_text(request).as_bytes())?;
    step_text(&answer, &bytes[..after], out);
    rt.write_all(out.as_bytes())?;
    Ok(after)
}

// Each change of the text, up to a line that is none, on the board that the first `board` bytes are.
fn show_changes(rt: &impl Print, bytes: &mut [u8], board: usize, text: &[u8]) -> io::Result<()>
    requires { Plays bytes.old board }
{
    let mut out = Text::new();
    let mut n = board;
    for (i, line) in Lines::new(text).enumerate() {
        match change_of(line) {
            Ok(None) => {}
            Ok(Some(request)) => n = show_change(rt, bytes, n, request, &mut out)?,
            Err(NoChange) => {
                return println!(rt; "line {} is no change", i.saturating_add(1));
            }
        }
    }
    Ok(())
}

// The lines of a board, or its refusal; whether it is one.
fn show_board(rt: &impl Print, s: &[u8]) -> io::Result<bool>
    ensures { IfOk result (λ b. b ≡ true → (judge_of s.now).number ≡ 0) }
{
    rt.write_all(board_text(s).as_bytes())?;
    Ok(judge(s).checked().is_ok())
}

// The board of an open file, and the changes on standard input. No byte past the buffer's end can change an
// answer (answers::card::MOST); the longest board has 1,932 bytes and so leaves spare ones for a wire.
fn run<R: Files + Input + Print>(rt: &R, file: R::File) -> io::Result<()> {
    let mut file = file;
    let mut bytes = [0u8; 69632];
    let n = read_full(&mut file, &mut bytes)?;
    let mut text = [0u8; 65536];
    let m = read_full(&mut rt.reader(), &mut text)?;
    if m == text.len() {
        return rt.write_all(b"text too long\n");
    }
    if show_board(rt, &bytes[..n])? {
        return show_changes(rt, &mut bytes, n, &text[..m]);
    }
    Ok(())
}

fn main(rt: HostRuntime) -> io::Result<()> {
    if !is_there(&rt, 1) | is_there(&rt, 2) {
        return rt.write_all(b"rewire BOARD < CHANGES\n");
    }
    let mut name = [0u8; 4096];
    let Ok(file) = open_read(&rt, word(&rt, 1, &mut name)) else {
        return rt.write_all(b"the board cannot be opened\n");
    };
    run(&rt, file)
}
