// Writes the visiting list and the late wires of the board on standard input, or its refusal. `order
// card` takes a card there (docs/CARD.md), and tells what is wrong with it on standard error.
#![tactic(auto)]

use answers::card::{MOST, board_of_card};
use input::{read_full, word};
use listing::lines::board_text;
use std::io;

// A card's board: of it `order` shows the list and the late wires, `card` the bytes.
fn show_card(stdout: &impl Print, stderr: &impl Print, card: &[u8]) -> io::Result<()> {
    let mut board = [0u8; 2048];
    match board_of_card(card, &mut board) {
        Ok(n) => stdout.write_all(board_text(&board[..n]).as_bytes()),
        Err(answer) => stderr.write_all(answer.as_bytes()),
    }
}

// What the first word asks: nothing, or a card.
fn main(rt: HostRuntime) -> io::Result<()> {
    let mut bytes = [0u8; MOST];
    let n = read_full(&mut rt.stdin(), &mut bytes)?;
    match word(&rt, 1, &mut [0; 8]) {
        b"card" => show_card(&rt.stdout(), &rt.stderr(), &bytes[..n]),
        _ => rt.write_all(board_text(&bytes[..n]).as_bytes()),
    }
}
