// The record reader: it lends the board's bytes and remembers the offset of the next record. Each
// method of it is thin; the work is `record::found_at`'s, which takes a plain slice. boards knows most
// records by their first four bytes, and asks `read_record` only what ends a part.
ghost use Rattle.std.specs.Prelude.{◌≡◌, ◌+◌};
ghost use Rattle.records.specs.Record.{found_at, length_of, passed, numbered};

use crate::record::{Found, RecordError, found_at};

#[derive(Drop)]
pub struct Reader<'a> {
    pub bytes: &'a [u8],
    pub at: usize,
}

impl<'a> Reader<'a> {
    // A reader at an offset, which may lie past the end.
    pub fn open(bytes: &'a [u8], at: usize) -> Reader<'a>
        ensures { (result.bytes ≡ bytes.entry) × (result.at ≡ at) }
    {
        Reader { bytes, at }
    }

    // What stands at the reader's offset, after a record of kind `last` (0: none). The reader moves past
    // the record; where it is refused, it stays.
    // Ruled out, and tried by a must-fail edit: a reader that forgets its offset (reader_forgets_offset).
    pub fn next(&mut self, last: u16) -> Result<Found, RecordError>
        ensures { (numbered result ≡ found_at self.old.bytes.now self.old.at last) × (self.new ≡ passed self.old (numbered result)) }
    {
        let found = found_at(self.bytes, self.at, last)?;
        self.at += found.length();
        Ok(found)
    }
}

// The same for a caller that holds a plain slice and an offset: the offset moves past the record.
pub fn read_record(s: &[u8], at: &mut usize, last: u16) -> Result<Found, RecordError>
    ensures { (numbered result ≡ found_at s.now at.old last) × (at.new ≡ at.old + length_of (numbered result)) }
{
    let mut reader = Reader::open(s, *at);
    let found = reader.next(last);
    *at = reader.at;
    found
}
