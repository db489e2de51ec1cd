// A card's text as a program reads it: its board, or the answer that tells what is wrong.
ghost use Rattle.std.specs.Prelude.{◌≤◌, length, IfOk};

use crate::answer::answer_text;
use cards::board::board_of;
use text::written::Text;

// Programs cut their input at this length. The longest board has 1,932 bytes, and the stated length of a
// record after them reaches 65,535: no byte past the cut can change the answer to a board.
pub const MOST: usize = 69632;

// A text that fills the room may have been cut, so it gives no board.
fn too_long() -> Text<512> {
    let mut out = Text::new();
    out.push_word(b"text too long: at most 69631 bytes\n");
    out
}

// The board of a card, in the first bytes of `board`: how many, as `board_of` gives it, or what is wrong with
// the card. Ruled out, and tried by a must-fail edit: a byte more than there is room for (byte_past_board).
pub fn board_of_card(text: &[u8], board: &mut [u8]) -> Result<usize, Text<512>>
    requires { 1932 ≤ length board.old }
    ensures { IfOk result (λ n. n ≤ length board.new) }
{
    if MOST <= text.len() {
        return Err(too_long());
    }
    board_of(text, board).map_err(|wrong| answer_text(text, board, wrong))
}
