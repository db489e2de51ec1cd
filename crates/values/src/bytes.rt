// Little-endian numbers in lent bytes. A board is read at byte offsets; memory and sample blocks are
// read and written as 4-byte words, and their contracts speak of the list of words, `words mem.now`.
ghost use Rattle.std.specs.Prelude.{◌≡◌, ◌+◌, ◌*◌, ◌^◌, ◌≤◌, ◌<◌, length, get_or, set};
ghost use Rattle.std.proofs.lemmas.List.Edits.{sets};
ghost use Rattle.values.specs.Bytes.{u16_at, u24_at, u32_at, u16_bytes, u24_bytes, u32_bytes};
ghost use Rattle.values.specs.Words.{words};

// That a number lies within the bytes is asked of each function: what is lent is a slice, whose type has
// no more than its length. No two stores share a slice and a place. One function for each of the language's
// types, whose methods give the bytes; 24 bits have no type.

// The 16-bit number at byte `at`.
pub fn u16_at(s: &[u8], at: usize) -> u16
    requires { at + 2 ≤ length s.now }
    ensures { result ≡ u16_at s.now at }
{
    u16::from_le_bytes([s[at], s[at + 1]])
}

// The 24-bit number at byte `at`.
pub fn u24_at(s: &[u8], at: usize) -> u32
    requires { at + 3 ≤ length s.now }
    ensures { (result ≡ u24_at s.now at) × (result < 2 ^ 24) }
{
    u32::from_le_bytes([s[at], s[at + 1], s[at + 2], 0])
}

// The 32-bit number at byte `at`.
pub fn u32_at(s: &[u8], at: usize) -> u32
    requires { at + 4 ≤ length s.now }
    ensures { result ≡ u32_at s.now at }
{
    u32::from_le_bytes([s[at], s[at + 1], s[at + 2], s[at + 3]])
}

// Stores v in the two bytes at `at`, the lowest first.
pub fn put_u16(s: &mut [u8], at: usize, v: u16)
    requires { at + 2 ≤ length s.old }
    ensures { s.new ≡ sets s.old at (u16_bytes v) }
{
    s[at..at + 2].copy_from_slice(&v.to_le_bytes());
}

// Stores v in the three bytes at `at`, the lowest first.
pub fn put_u24(s: &mut [u8], at: usize, v: u32)
    requires { at + 3 ≤ length s.old }
    ensures { s.new ≡ sets s.old at (u24_bytes v) }
{
    s[at..at + 3].copy_from_slice(&v.to_le_bytes()[..3]);
}

// Stores v in the four bytes at `at`, the lowest first.
pub fn put_u32(s: &mut [u8], at: usize, v: u32)
    requires { at + 4 ≤ length s.old }
    ensures { s.new ≡ sets s.old at (u32_bytes v) }
{
    s[at..at + 4].copy_from_slice(&v.to_le_bytes());
}

// The word at k, counted in words.
pub fn word_at(mem: &[u8], k: usize) -> u32
    requires { 4 * k + 4 ≤ length mem.now }
    ensures { result ≡ get_or (words mem.now) k 0 }
{
    u32_at(mem, 4 * k)
}

// Stores v as the word at k.
pub fn put_word(mem: &mut [u8], k: usize, v: u32)
    requires { 4 * k + 4 ≤ length mem.old }
    ensures { words mem.new ≡ set (words mem.old) k v }
{
    put_u32(mem, 4 * k, v);
}
