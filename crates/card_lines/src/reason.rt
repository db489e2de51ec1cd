// What is wrong with a line of a card.
ghost use Rattle.std.specs.Prelude.{◌≡◌};
ghost use Rattle.card_lines.specs.Reason.{float_reason};

use decimals::number::FloatError;

#[derive(Clone, Copy, Debug, PartialEq, Eq)]
pub enum Reason {
    // No line starts with this word; or the head has no `input`.
    Name,
    Fields,
    Whole,
    Float,
    Long,
    Late,
    Early,
    Many,
    // Milliseconds out of range.
    Range,
    // A node's name that is malformed, or given before, or stands before a line that is no node; and
    // one that no node has.
    Label,
    Twice,
    NoNode,
    Missing,
}

impl From<FloatError> for Reason {
    ghost from_gives = { λ error reason. reason ≡ float_reason error };

    fn from(error: FloatError) -> Reason {
        match error {
            FloatError::Bad => Reason::Float,
            FloatError::Long => Reason::Long,
        }
    }
}
