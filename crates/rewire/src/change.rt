// A change of wires: what a line of text says, and how it is written again.
ghost use Rattle.std.specs.Prelude.{◌≡◌, ◌≤◌, [], ◌∷◌, length};
ghost use Rattle.text.specs.Written.{pair};
ghost use Rattle.rewire.specs.Change.{signed, change_of, change_line};

use decimals::number::whole_of;
use text::words::nth_word;
use text::written::Text;

// A wire to add or to pull, by its source and its target, as the two calls take them. `carrying` has a
// `Change` of its own, by indices, for the walk below those calls.
#[derive(Clone, Copy)]
pub enum Request {
    Add(u16, u16),
    Pull(u16, u16),
}

// A line that is not empty, and says no change.
#[derive(Clone, Copy, Debug, PartialEq, Eq)]
pub struct NoChange;

// The change of this sign.
fn signed(sign: u8, source: u16, target: u16) -> Result<Option<Request>, NoChange>
    ensures { result ≡ signed sign source target }
{
    match sign {
        b'+' => Ok(Some(Request::Add(source, target))),
        b'-' => Ok(Some(Request::Pull(source, target))),
        _ => Err(NoChange),
    }
}

// Reads a line: a sign and two numbers of nodes, apart by spaces; or nothing.
pub fn change_of(line: &[u8]) -> Result<Option<Request>, NoChange>
    ensures { result ≡ change_of line.now }
{
    let sign = nth_word(line, 0);
    if sign.is_empty() {
        return Ok(None);
    }
    if sign.len() != 1 {
        return Err(NoChange);
    }
    if !nth_word(line, 3).is_empty() {
        return Err(NoChange);
    }
    let source = whole_of(nth_word(line, 1), 65535).ok_or(NoChange)?;
    let target = whole_of(nth_word(line, 2), 65535).ok_or(NoChange)?;
    signed(sign[0], source as u16, target as u16)
}

// A line of the output: a sign and a space, source and target.
fn line(sign: &[u8], source: u16, target: u16) -> Text<32>
    requires { length sign.now ≤ 2 }
    ensures { result ≡ pair sign.now source (32 ∷ []) target (10 ∷ []) }
{
    let mut out = Text::new();
    out.push_pair(sign, u32::from(source), b" ", u32::from(target), b"\n");
    out
}

// The change as a line of the output. A match: each has its own sign.
pub fn change_text(request: Request) -> Text<32>
    ensures { result ≡ change_line request }
{
    match request {
        Request::Add(source, target) => line(b"+ ", source, target),
        Request::Pull(source, target) => line(b"- ", source, target),
    }
}
