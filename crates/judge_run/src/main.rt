// Judges the boards on standard input, each after its length in two bytes, and writes number and
// place of each answer on a line.
#![tactic(auto)]

ghost use Rattle.std.specs.Prelude.{◌<◌, length, IfSome};

use boards::judge::judge;
use input::read_full;
use std::io;

// The first of some boards, and those after it; none where it is cut short.
fn next_board(boards: &[u8]) -> Option<(&[u8], &[u8])>
    ensures { IfSome result (λ p. length p.1.now < length boards.now) }
{
    let (size, rest) = boards.split_first_chunk()?;
    rest.split_at_checked(usize::from(u16::from_le_bytes(*size)))
}

fn judge_all(rt: &impl Print, boards: &[u8]) -> io::Result<()> {
    let mut rest = boards;
    // A `while`: a turn passes a board, which has its own length.
    while let Some((board, after)) = next_board(rest) {
        let answer = judge(board);
        println!(rt; "{} {}", answer.number, answer.place)?;
        rest = after;
    }
    Ok(())
}

// Two calls over a buffer, as in leaves_trial: a function of both would be as long, and take a closure.
fn main(rt: HostRuntime) -> io::Result<()> {
    let mut boards = [0u8; 65536];
    let n = read_full(&mut rt.stdin(), &mut boards)?;
    judge_all(&rt, &boards[..n])
}
