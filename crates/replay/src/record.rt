// What the library answers to a record. No record is trusted: what it says is tested before use.
ghost use Rattle.std.specs.Prelude.{◌≤◌};

use crate::hash::{START, carried};
use boards::board::Board;
use boards::judge::{judge, read_board};
use context::block::block;
use graph::tail::tail_of;
use kinds::cell::SAMPLES;
use memory::fresh::fresh;
use memory::message::message;
use mixing::mix::set_mix;
use packed::block24::block24;
use plate::{plate_allpass_length, plate_delay_length};
use plate_board::writer::LENGTH;
use records::answer::Answer;
use values::bytes::{u16_at, u32_at};
use values::float::of_bits;

// What a record asks of the library.
#[derive(Clone, Copy, PartialEq)]
pub enum Call {
    Accept,
    Block,
    Message,
    Mix,
    Cells,
    DelayLength,
    AllPassLength,
    Write,
    Packed,
}

// A number that no call has.
#[derive(Clone, Copy)]
pub struct NoCall;

impl TryFrom<u32> for Call {
    type Error = NoCall;

    fn try_from(number: u32) -> Result<Self, NoCall> {
        match number {
            1 => Ok(Call::Accept),
            2 => Ok(Call::Block),
            3 => Ok(Call::Message),
            4 => Ok(Call::Mix),
            5 => Ok(Call::Cells),
            6 => Ok(Call::DelayLength),
            7 => Ok(Call::AllPassLength),
            8 => Ok(Call::Write),
            9 => Ok(Call::Packed),
            _ => Err(NoCall),
        }
    }
}

// An answer and its check.
#[derive(Clone, Copy, PartialEq)]
pub struct Reply {
    pub number: u32,
    pub place: u32,
    pub check: u32,
}

impl Reply {
    // A refusal has no check.
    fn new(answer: Answer, check: u32) -> Self {
        let Answer { number, place } = answer;
        Reply {
            number,
            place,
            check: if answer.checked().is_ok() { check } else { 0 },
        }
    }

    // Of a call that writes these bytes: its check is their hash. Where it was refused none is worked out, as
    // that takes longer than the refusal.
    fn hashed(answer: Answer, first: &[u8], second: &[u8]) -> Self {
        let check = match answer.checked() {
            Ok(_) => carried(carried(START, first), second),
            Err(_) => 0,
        };
        Reply::new(answer, check)
    }
}

// The last accepted board, which the other calls work on, in the first `room` bytes of the memory:
// a length, as memory is lent anew to each call.
#[derive(Clone, Copy)]
pub struct Current<'a> {
    pub board: &'a [u8],
    pub room: usize,
}

// Accept: the board judged, its tail and fresh memory. An accepted board is the current one.
fn accept<'a>(board: &'a [u8], current: &mut Current<'a>, memory: &mut [u8]) -> Option<Reply> {
    let judged = judge(board);
    if let Err(refused) = judged.checked() {
        return Some(Reply::new(refused, 0));
    }
    let room = judged.place as usize;
    let lent = memory.get_mut(..room)?;
    fresh(board, lent).checked().ok()?;
    *current = Current { board, room };
    Some(Reply::new(judged, tail_of(board).place))
}

// Block: a block run with outputs of the board's block size.
fn run(board: &[u8], memory: &mut [u8], input: &[u8]) -> Option<Reply> {
    if board.len() < 6 {
        return None;
    }
    let n = 4 * usize::from(u16_at(board, 4));
    let mut out0 = [0u8; 512];
    let mut out1 = [0u8; 512];
    let out0 = out0.get_mut(..n)?;
    let out1 = out1.get_mut(..n)?;
    let answer = block(board, memory, input, out0, out1);
    Some(Reply::hashed(answer, out0, out1))
}

// Packed: a block run of words of 24 bits. The body is the lengths of the outputs and the input, any of which
// may be wrong.
fn run_packed(board: &[u8], memory: &mut [u8], body: &[u8]) -> Option<Reply> {
    let left = word(body, 0)? as usize;
    let right = word(body, 4)? as usize;
    let input = body.get(8..)?;
    let mut out0 = [0u8; 512];
    let mut out1 = [0u8; 512];
    let out0 = out0.get_mut(..left)?;
    let out1 = out1.get_mut(..right)?;
    let answer = block24(board, memory, input, out0, out1);
    Some(Reply::hashed(answer, out0, out1))
}

// The samples of the board's nodes, in order.
fn cells_hash(board: &Board, memory: &[u8]) -> u32 {
    let mut h = START;
    for node in board.listed() {
        let from = 4 * (node.cell as usize + SAMPLES);
        // Tried as 4 * size * channels, with a lemma named on the function and in answers of its own: that
        // a count of channels that is read from the list is a byte's, so that the product fits, was not
        // proved.
        let size = if node.channels == 2 {
            8 * board.size
        } else {
            4 * board.size
        };
        let Some(samples) = memory.get(from..from + size) else {
            return h;
        };
        h = carried(h, samples);
    }
    h
}

// Cells: every node's samples in the memory, none where the board is refused.
fn cells(board: &[u8], memory: &[u8]) -> Reply {
    let check = match read_board(board) {
        Ok(b) => cells_hash(&b, memory),
        Err(_) => START,
    };
    Reply::new(Answer::new(0, 0), check)
}

// Write: the plate writer.
fn write(n: u32, mix: f32) -> Reply {
    let mut board = [0u8; LENGTH];
    let answer = plate_board::writer::write(n, mix, &mut board);
    Reply::hashed(answer, &board, &[])
}

// The word of a body at `at`.
fn word(body: &[u8], at: usize) -> Option<u32>
    requires { at ≤ 4 }
{
    let bytes = body.get(at..at + 4)?;
    Some(u32_at(bytes, 0))
}

// The answer to a record, if it can be replayed. A match: each call takes other arguments.
pub fn answered<'a>(
    number: u32,
    body: &'a [u8],
    current: &mut Current<'a>,
    memory: &mut [u8],
) -> Option<Reply> {
    let call = Call::try_from(number).ok()?;
    let board = current.board;
    let lent = memory.get_mut(..current.room)?;
    // 0 where the body has no such word: a call that reads none, or a body that is cut.
    let first = word(body, 0).unwrap_or(0);
    let second = word(body, 4).unwrap_or(0);
    let answer = match call {
        Call::Accept => return accept(body, current, memory),
        Call::Block => return run(board, lent, body),
        Call::Packed => return run_packed(board, lent, body),
        Call::Cells => return Some(cells(board, lent)),
        Call::Write => return Some(write(first, of_bits(second))),
        Call::Message => message(board, lent, first, of_bits(second)),
        Call::Mix => set_mix(board, lent, of_bits(first)),
        Call::DelayLength => plate_delay_length(of_bits(first)),
        Call::AllPassLength => plate_allpass_length(of_bits(first)),
    };
    Some(Reply::new(answer, 0))
}
