// The length of a line, in samples or in milliseconds: `delay 300ms`.
ghost use Rattle.std.specs.Prelude.{◌≡◌};
ghost use Rattle.card_lines.specs.LineLengths.{length_for, length_of};

use crate::reason::Reason;
use decimals::number::{float_of, whole_of};
use kinds::types::Kind;
use leaves::lengths::{all_pass_length, delay_length};
use values::float::of_bits;

// The line of a delay, or of an all-pass, for milliseconds by their bits.
fn length_for(kind: Kind, ms: u32) -> Option<u32>
    ensures { result ≡ length_for kind ms }
{
    match kind {
        Kind::Delay => delay_length(of_bits(ms)),
        _ => all_pass_length(of_bits(ms)),
    }
}

// The length that a word says for a type.
pub fn length_of(kind: Kind, word: &[u8]) -> Result<u32, Reason>
    ensures { result ≡ length_of kind word.now }
{
    if let Some(number) = word.strip_suffix(b"ms") {
        let ms = float_of(number)?;
        return length_for(kind, ms).ok_or(Reason::Range);
    }
    let samples = whole_of(word, 4294967295).ok_or(Reason::Whole)?;
    Ok(samples as u32)
}
