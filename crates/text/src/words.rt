// The lines of a text and the words of a line, as slices of it.
ghost use Rattle.std.specs.Prelude.{◌≡◌, Bool, ℕ, ◌+◌, ◌≤◌, length, drop};
ghost use Rattle.std.specs.Iterator.{YieldsFirstRef, item_count};
ghost use Rattle.text.specs.Words.{Tests, is_byte, is_space, ahead, next_word, nth_word, begins, word_count, lines_of};

// A word of a line: where it starts and where it ends. Not std's `Range`, which is no `Copy`.
#[derive(Clone, Copy)]
pub struct Word {
    pub from: usize,
    pub to: usize,
}

pub fn is_space(byte: u8) -> bool
    ensures { result ≡ is_space byte }
{
    matches!(byte, b' ' | b'\t' | b'\r')
}

// The first place from `at` on whose byte passes a test; the end if there is none.
pub fn find<F: Fn(u8) -> bool>(s: &[u8], at: usize, stop: F) -> usize
    requires bounds { at ≤ length s.now }
    requires callable { F.IsAlwaysCallable stop }
    ensures bounds { (at ≤ result) × (result ≤ length s.now) }
    ensures first { (p : ℕ → Bool) → Tests (F.post stop) p → result ≡ at + ahead p (drop at s.now) }
{
    s[at..]
        .iter()
        .position(|byte| stop(*byte))
        .map_or(s.len(), |k| at + k)
}

// The first word from `at` on; an empty one where there is none. No Option here and in `nth_word`: an empty
// word is no name, no number and no float, so each reader would turn None into the empty word again.
pub fn next_word(s: &[u8], at: usize) -> Word
    requires { at ≤ length s.now }
    ensures { (at ≤ result.from) × (result.from ≤ result.to) × (result.to ≤ length s.now) × (result ≡ next_word s.now at) }
{
    let from = find(s, at, |byte| !is_space(byte));
    let to = find(s, from, is_space);
    Word { from, to }
}

// Word k of a line, from 0; an empty one where there are fewer.
pub fn nth_word(line: &[u8], k: usize) -> &[u8]
    ensures { result.now ≡ nth_word k line.now }
{
    let mut at = 0;
    for _ in 0..k {
        let passed = next_word(line, at);
        at = passed.to;
    }
    let found = next_word(line, at);
    &line[found.from..found.to]
}

// One more if a byte that is no space starts a word.
fn begins(inside: bool, space: bool) -> usize
    ensures { (result ≡ begins inside space) × (result ≤ 1) }
{
    usize::from(!(inside | space))
}

// How many words a line has. A loop, not `split` and `filter`: the definition counts where words begin, byte
// by byte, and has no pieces of a line.
pub fn word_count(line: &[u8]) -> usize
    ensures { result ≡ word_count line.now }
{
    let mut count = 0;
    let mut inside = false;
    for byte in line {
        let space = is_space(*byte);
        count += begins(inside, space);
        inside = !space;
    }
    count
}

// The lines of a text, each without its line feed.
#[derive(Clone, Copy)]
pub struct Lines<'a> {
    pub rest: &'a [u8],
}

impl<'a> Lines<'a> {
    pub fn new(text: &'a [u8]) -> Self
        ensures { result.rest.now ≡ text.now }
    {
        Lines { rest: text }
    }
}

impl<'a> Iterator for Lines<'a> {
    type Item = &'a [u8];

    ghost next_gives = { YieldsFirstRef (λ s. lines_of s.rest.now) };

    ghost remaining = { item_count (λ s. lines_of s.rest.now) };

    fn next(&mut self) -> Option<&'a [u8]> {
        if self.rest.is_empty() {
            return None;
        }
        let rest = self.rest;
        let end = find(rest, 0, |byte| byte == b'\n');
        let next = (end + 1).min(rest.len());
        self.rest = &rest[next..];
        Some(&rest[..end])
    }
}
