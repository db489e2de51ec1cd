// Text written: a buffer that fills from its start.
ghost use Rattle.std.specs.Prelude.{◌≡◌, List, [], ◌∷◌, ◌++◌, ℕ, ◌+◌, ◌<◌, ◌≤◌, length, take};
ghost use Rattle.text.specs.Written.{Appends, number, spaced, pair};

use std::marker::Model;

// A text of at most N bytes, which lie in the value itself, since libraries have no heap. Words and numbers
// are pushed by functions, not by `write!`: a `Formatter` says nothing of what it wrote, and the clauses
// here say each byte. The kit's `ArrayVec<u8, N>` inside would leave them all, and each call as it is.
#[derive(Drop)]
pub struct Text<const N: usize> {
    bytes: [u8; N],
    len: usize,
}

// Clauses see the bytes that are written.
impl<const N: usize> Model for Text<N> {
    ghost Value = { List ℕ };

    ghost view = { λ t. take t.len t.bytes };

    ghost invariant = { λ t. t.len ≤ N };
}

impl<const N: usize> Text<N> {
    pub fn new() -> Self
        ensures { result ≡ [] }
    {
        Text {
            bytes: [0; N],
            len: 0,
        }
    }

    // Takes all back that was written, and touches no byte: so one text, made once and lent, serves for many
    // boards, where a text for each is zeroed and copied.
    // Ruled out, and tried by a must-fail edit: a byte that stays (clear_keeps_byte).
    pub fn clear(&mut self)
        ensures { self.new ≡ [] }
    {
        self.len = 0;
    }

    pub fn as_bytes(&self) -> &[u8]
        ensures { result.now ≡ self.now }
    {
        &self.bytes[..self.len]
    }

    pub fn push(&mut self, byte: u8)
        requires { length self.old < N }
        ensures text { self.new ≡ self.old ++ byte ∷ [] }
        ensures len { length self.new ≡ length self.old + 1 }
    {
        self.bytes[self.len] = byte;
        self.len += 1;
    }

    pub fn push_word(&mut self, word: &[u8])
        requires { length self.old + length word.now ≤ N }
        ensures text { self.new ≡ self.old ++ word.now }
        ensures len { length self.new ≡ length self.old + length word.now }
    {
        let end = self.len + word.len();
        let bytes = &mut self.bytes[..];
        bytes[self.len..end].copy_from_slice(word);
        self.len = end;
    }

    // A number in decimal: the digits before the last, then the last.
    pub fn push_number(&mut self, v: u32)
        requires { length self.old + 10 ≤ N }
        ensures { Appends 10 self.old (number v) self.new }
    {
        if v < 10 {
            return self.push((48 + v) as u8);
        }
        self.push_number(v / 10);
        self.push((48 + v % 10) as u8);
    }

    // A space and a number.
    pub fn push_spaced(&mut self, v: u32)
        requires { length self.old + 11 ≤ N }
        ensures { Appends 11 self.old (spaced v) self.new }
    {
        self.push(b' ');
        self.push_number(v);
    }

    // Two numbers, with words before, between and after them.
    pub fn push_pair(&mut self, first: &[u8], a: u32, between: &[u8], b: u32, last: &[u8])
        requires { length self.old + length first.now + length between.now + length last.now + 20 ≤ N }
        ensures { Appends (length first.now + length between.now + length last.now + 20) self.old (pair first.now a between.now b last.now) self.new }
    {
        self.push_word(first);
        self.push_number(a);
        self.push_word(between);
        self.push_number(b);
        self.push_word(last);
    }
}
