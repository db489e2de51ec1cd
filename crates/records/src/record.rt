// The record at an offset of the board's bytes: a cut record is refused first, then its kind, then
// its length.
ghost use Rattle.std.specs.Prelude.{◌≡◌};
ghost use Rattle.records.specs.Record.{in_order, sized, found_of, found_at, record_length, number_of, numbered};

use values::bytes::u16_at;

// A whole record of a kind that may stand there, of the kind's length.
#[derive(Clone, Copy)]
pub enum Found {
    Head,
    Node,
    Wire,
    End,
}

impl Found {
    // The record's length: how far a reader moves.
    pub fn length(self) -> usize
        ensures { result ≡ record_length self }
    {
        match self {
            Found::Head => 8,
            Found::Node => 14,
            Found::Wire => 8,
            Found::End => 4,
        }
    }
}

// Why no record stands at an offset: it is cut or of another length than its kind's, or its kind is
// unknown or out of order.
#[derive(Clone, Copy, Debug, PartialEq, Eq)]
pub enum RecordError {
    Length,
    Kind,
}

impl RecordError {
    // The refusal's number. A method, since a bare number, as `From` would give it, says less.
    // Ruled out, and tried by a must-fail edit: a kind refused as a length is (kind_refused_as_length).
    pub fn number(self) -> u32
        ensures { result ≡ number_of self }
    {
        match self {
            RecordError::Length => 1,
            RecordError::Kind => 2,
        }
    }
}

// Whether a record of kind k may stand after one of kind `last`. Kinds stay numbers here: they are read
// from the bytes and compared, and callers may give any number.
fn in_order(last: u16, k: u16) -> bool
    ensures { result ≡ in_order last k }
{
    if last == 0 {
        k == 1
    } else {
        2 <= k && last <= k && k <= 4
    }
}

fn sized(z: u16, n: u16, f: Found) -> Result<Found, RecordError>
    ensures { numbered result ≡ sized z n f }
{
    if z == n {
        Ok(f)
    } else {
        Err(RecordError::Length)
    }
}

fn found_of(k: u16, z: u16) -> Result<Found, RecordError>
    ensures { numbered result ≡ found_of k z }
{
    match k {
        1 => sized(z, 8, Found::Head),
        2 => sized(z, 14, Found::Node),
        3 => sized(z, 8, Found::Wire),
        _ => sized(z, 4, Found::End),
    }
}

// What stands at an offset, which may lie past the end, after a record of kind `last` (0: none).
// Ruled out, and tried by a must-fail edit: a length judged before the kind (length_before_kind).
pub fn found_at(s: &[u8], at: usize, last: u16) -> Result<Found, RecordError>
    ensures { numbered result ≡ found_at s.now at last }
{
    let left = s.len().saturating_sub(at);
    if left < 4 {
        return Err(RecordError::Length);
    }
    let size = u16_at(s, at);
    if left < usize::from(size) {
        return Err(RecordError::Length);
    }
    let kind = u16_at(s, at + 2);
    if in_order(last, kind) {
        found_of(kind, size)
    } else {
        Err(RecordError::Kind)
    }
}
