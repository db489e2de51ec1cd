// The board that a sound is played through: the plate with a mix, a board's bytes from a file, or the
// board of a card.
ghost use Rattle.std.specs.Prelude.{◌≤◌, length, IfOk};

use answers::answer::refusal_text;
use answers::card::{MOST, board_of_card};
use decimals::number::{FloatError, float_of};
use files::name::open_read;
use input::fill;
use plate_board::writer::LENGTH;
use records::answer::Answer;
use sounds::say;
use sounds::say::To;
use std::io;
use std::rt::Files;
use text::written::Text;
use values::float::of_bits;

// What stands for a board: `plate MIX`, `board FILE` or `card FILE`.
#[derive(Clone, Copy)]
pub enum Form {
    Plate,
    Board,
    Card,
}

impl Form {
    pub fn named(word: &[u8]) -> Option<Form> {
        match word {
            b"plate" => Some(Form::Plate),
            b"board" => Some(Form::Board),
            b"card" => Some(Form::Card),
            _ => None,
        }
    }

    // Whether the board comes from a file, which the form's other word names.
    pub fn is_file(self) -> bool {
        matches!(self, Form::Board | Form::Card)
    }
}

// Why there is no board. An answer is what is wrong with a card or a board, in words.
#[derive(Drop)]
pub enum BoardError {
    Mix(FloatError),
    MixNotFinite,
    Unopened(io::Error),
    Answer(Text<512>),
}

impl BoardError {
    // What is wrong with a board, by its refusal.
    pub fn refused(board: &[u8], refusal: Answer) -> BoardError {
        BoardError::Answer(refusal_text(board, refusal))
    }

    // Told of the mix or the file.
    pub fn tell(self, to: To, what: &[u8]) {
        match self {
            BoardError::Mix(why) => say::problem(to, what, why),
            BoardError::MixNotFinite => say::problem(to, what, "mix not finite"),
            BoardError::Unopened(why) => say::failed(to, what, why, "cannot be opened"),
            BoardError::Answer(text) => say::answer(to, what, text.as_bytes()),
        }
    }
}

// The plate at blocks of 128 samples, with a mix that is written as a number: so many bytes.
fn plate_of(mix: &[u8], room: &mut [u8]) -> Result<usize, BoardError>
    requires { 1270 ≤ length room.old }
    ensures { IfOk result (λ n. n ≤ length room.new) }
{
    let bits = float_of(mix).map_err(BoardError::Mix)?;
    plate_board::writer::write(128, of_bits(bits), &mut room[..LENGTH])
        .checked()
        .map_err(|_| BoardError::MixNotFinite)?;
    Ok(LENGTH)
}

// A board's bytes from a file. No byte past the room's end can change the judge's answer.
fn board_in<'a, R: Files>(rt: &R, file: &[u8], room: &'a mut [u8]) -> Result<&'a [u8], BoardError>
    ensures { IfOk result (λ b. length b.now ≤ length room.old) }
{
    let mut opened = open_read(rt, file).map_err(BoardError::Unopened)?;
    let (n, _) = fill(&mut opened, room);
    Ok(&room[..n])
}

// The board of a card in a file.
fn card_in<'a, R: Files>(rt: &R, file: &[u8], room: &'a mut [u8]) -> Result<&'a [u8], BoardError>
    requires { 1932 ≤ length room.old }
    ensures { IfOk result (λ b. length b.now ≤ length room.old) }
{
    let mut opened = open_read(rt, file).map_err(BoardError::Unopened)?;
    let mut text = [0u8; MOST];
    let (n, _) = fill(&mut opened, &mut text);
    let n = board_of_card(&text[..n], room).map_err(BoardError::Answer)?;
    Ok(&room[..n])
}

// The board's bytes, in a room for them. The one match on the form.
pub fn make<'a, R: Files>(
    rt: &R,
    form: Form,
    what: &[u8],
    room: &'a mut [u8],
) -> Result<&'a [u8], BoardError>
    requires { 1932 ≤ length room.old }
    ensures { IfOk result (λ b. length b.now ≤ length room.old) }
{
    match form {
        Form::Plate => {
            let n = plate_of(what, room)?;
            Ok(&room[..n])
        }
        Form::Board => board_in(rt, what, room),
        Form::Card => card_in(rt, what, room),
    }
}
