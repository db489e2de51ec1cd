// Boards as text: `card bytes` reads a card, a board written as text, and writes the board's bytes;
// `card text` reads a board and writes its card; `card dot` reads a board and writes it as a graph for
// Graphviz; `card size M` reads a board and writes it at blocks of M samples. All read standard input
// and write standard output. What is wrong, and how to use the program, is told on standard error, so
// that only a board, a card or a graph goes into a file. docs/CARD.md says what a card is, and has every
// answer.
//
// `card size M` corrects the one line that makes the board sound the same, or writes nothing; what it
// did, or why it cannot, is told on standard error. docs/SIZES.md says what carries over.
//
// `card check` reads cards with a `%` between them, and writes of each the board's bytes in base 16, its
// card and its graph, and what becomes of it at blocks of 1, then 64, then 128; or its answer, and that
// to its board's bytes.
#![tactic(auto)]

mod size;
mod write;

use answers::answer::{answer_text, refusal_text};
use answers::card::{MOST, board_of_card};
use answers::fault::board_end;
use boards::judge::read_board;
use cards::board::{Wrong, board_of};
use decimals::number::whole_of;
use input::{read_full, word};
use resizing::resize::{NotCarried, Resized, resize};
use size::show_resized;
use std::io;
use std::io::{Stderr, Stdout};
use text::written::Text;
use write::{Page, ShownAs, text_of};

// Where the answers go, and what is told beside them.
#[derive(Drop)]
struct Streams {
    out: Stdout,
    err: Stderr,
}

// What is asked for.
#[derive(Clone, Copy)]
enum Mode {
    Bytes,
    Show(ShownAs),
    Size,
    Check,
}

// What a word asks for.
fn mode_of(word: &[u8]) -> Option<Mode> {
    match word {
        b"bytes" => Some(Mode::Bytes),
        b"text" => Some(Mode::Show(ShownAs::Card)),
        b"dot" => Some(Mode::Show(ShownAs::Graph)),
        b"size" => Some(Mode::Size),
        b"check" => Some(Mode::Check),
        _ => None,
    }
}

// Board to card, or to graph, by way of the page.
fn show_form(to: &Streams, s: &[u8], form: ShownAs, page: &mut Page) -> io::Result<()> {
    match read_board(s) {
        Ok(board) => {
            text_of(&board, form, page);
            to.out.write_all(page.as_bytes())
        }
        Err(refusal) => to.err.write_all(refusal_text(s, refusal).as_bytes()),
    }
}

// A board's bytes in base 16, 32 on a line.
fn show_hex(to: &Streams, s: &[u8]) -> io::Result<()> {
    for (i, byte) in s.iter().enumerate() {
        print!(to.out; "{byte:02x}")?;
        if i % 32 == 31 {
            to.out.write_all(b"\n")?;
        }
    }
    to.out.write_all(b"\n")
}

// For a check: what becomes of a board at another block size, and its bytes where a line is corrected.
fn show_at(to: &Streams, s: &mut [u8], size: u32) -> io::Result<()> {
    let resized = resize(s, size);
    show_resized(&to.out, size, resized)?;
    if let Ok(Resized::Line(_, _, _)) = resized {
        return show_hex(to, s);
    }
    Ok(())
}

// One board to card, or to graph, on a page of its own.
fn show_board(to: &Streams, s: &[u8], form: ShownAs) -> io::Result<()> {
    show_form(to, s, form, &mut Text::new())
}

// For a check: all forms of a board, and what becomes of it at one block size after another.
fn show_all(to: &Streams, s: &mut [u8], page: &mut Page) -> io::Result<()> {
    show_hex(to, s)?;
    show_form(to, s, ShownAs::Card, page)?;
    show_form(to, s, ShownAs::Graph, page)?;
    for size in [1, 64, 128] {
        show_at(to, s, size)?;
    }
    Ok(())
}

// For a check: what is wrong with a card, and what the board's bytes are answered with.
fn show_wrong(to: &Streams, card: &[u8], board: &[u8], wrong: Wrong) -> io::Result<()> {
    to.out
        .write_all(answer_text(card, board, wrong).as_bytes())?;
    if let Wrong::Refused(refusal) = wrong {
        let board = &board[..board_end(board)];
        to.out.write_all(refusal_text(board, refusal).as_bytes())?;
    }
    Ok(())
}

// Each card of a text, up to a `%` or the text's end. One page for all.
fn check_cards(to: &Streams, cards: &[u8]) -> io::Result<()> {
    let mut page = Text::new();
    for card in cards.split_inclusive(|byte| *byte == b'%') {
        let card = card.strip_suffix(b"%").unwrap_or(card);
        let mut board = [0u8; 2048];
        match board_of(card, &mut board) {
            Ok(n) => show_all(to, &mut board[..n], &mut page)?,
            Err(wrong) => show_wrong(to, card, &board, wrong)?,
        }
    }
    Ok(())
}

// Card to board: of it the bytes are shown; `order` shows the list and the late wires.
fn show_bytes(to: &Streams, card: &[u8]) -> io::Result<()> {
    let mut board = [0u8; 2048];
    match board_of_card(card, &mut board) {
        Ok(n) => to.out.write_all(&board[..n]),
        Err(answer) => to.err.write_all(answer.as_bytes()),
    }
}

// A board at blocks of `size`: its bytes, if it was carried there. Refused bytes are told in the words
// that the other modes have for them.
fn show_size(to: &Streams, s: &mut [u8], size: u32) -> io::Result<()> {
    let resized = resize(s, size);
    if let Err(NotCarried::Refused(refusal)) = resized {
        to.err.write_all(b"not carried: ")?;
        return to.err.write_all(refusal_text(s, refusal).as_bytes());
    }
    show_resized(&to.err, size, resized)?;
    if resized.is_ok() {
        to.out.write_all(s)?;
    }
    Ok(())
}

// The block size that a word says.
fn size_of(word: &[u8]) -> Option<u32> {
    Some(whole_of(word, 128)? as u32)
}

fn show_use(err: &impl Print) -> io::Result<()> {
    err.write_all(
        b"card bytes   < CARD  > BOARD   a card's board\ncard text    < BOARD > CARD    a board's card\n",
    )?;
    err.write_all(
        b"card dot     < BOARD > GRAPH   a board's graph, for Graphviz: dot -Tsvg\ncard size M  < BOARD > BOARD   the board at blocks of M samples, 1 to 128\n",
    )?;
    err.write_all(
        b"card check   < CARDS           cards with a % between them, for a check\ndocs/CARD.md says what a card is.\n",
    )
}

fn main(rt: HostRuntime) -> io::Result<()> {
    let to = Streams {
        out: rt.stdout(),
        err: rt.stderr(),
    };
    let Some(mode) = mode_of(word(&rt, 1, &mut [0; 8])) else {
        return show_use(&to.err);
    };
    let mut input = [0u8; MOST];
    let n = read_full(&mut rt.stdin(), &mut input)?;
    let input = &mut input[..n];
    // A match: each mode's function takes other arguments.
    match mode {
        Mode::Bytes => show_bytes(&to, input),
        Mode::Show(form) => show_board(&to, input, form),
        // A word that says no number is refused as the size 0 is: by `resize`, and after the board.
        Mode::Size => {
            let size = size_of(word(&rt, 2, &mut [0; 8]));
            show_size(&to, input, size.unwrap_or(0))
        }
        Mode::Check => check_cards(&to, input),
    }
}
