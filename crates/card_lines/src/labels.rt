// The names that a card gives its nodes, as `echo: delay 300ms`. A name is found by reading the text's
// lines again: there is no table of names.
ghost use Rattle.std.specs.Prelude.{◌≡◌, true, false, ◌≤◌, MatchOption};
ghost use Rattle.text.specs.Words.{nth_word, lines_of};
ghost use Rattle.card_lines.specs.Labels.{is_letter, is_inner, all_inner, starts_name, good_name, bare, is_label, label_of, body_of, is_node, nodes_in, node_of, end_of, unmarked};

use crate::names::{Name, named};
use decimals::number::whole_of;
use text::words::{Lines, find, next_word, nth_word};

fn is_letter(byte: u8) -> bool
    ensures { result ≡ is_letter byte }
{
    matches!(byte, b'A'..=b'Z' | b'a'..=b'z')
}

// Whether a byte may follow the first of a name.
fn is_inner(byte: u8) -> bool
    ensures { result ≡ is_inner byte }
{
    is_letter(byte) || matches!(byte, b'0'..=b'9' | b'_' | b'-' | b'.')
}

// Whether a word starts as a name does, and no number.
pub fn starts_name(word: &[u8]) -> bool
    ensures { result ≡ starts_name word.now }
{
    match word {
        [] => false,
        [first, ..] => is_letter(*first),
    }
}

fn all_inner(name: &[u8]) -> bool
    ensures { result ≡ all_inner name.now }
{
    name.iter().all(|byte| is_inner(*byte))
}

pub fn good_name(name: &[u8]) -> bool
    ensures { result ≡ good_name name.now }
{
    starts_name(name) && all_inner(name)
}

// A line up to its comment.
pub fn bare(line: &[u8]) -> &[u8]
    ensures { result.now ≡ bare line.now }
{
    let end = find(line, 0, |byte| byte == b'#');
    &line[..end]
}

// The name that a line gives its node: its first word, up to the colon that ends it.
pub fn label_of(line: &[u8]) -> Option<&[u8]>
    ensures { MatchOption result (is_label (nth_word 0 line.now) ≡ false) (λ name. (is_label (nth_word 0 line.now) ≡ true) × (name.now ≡ label_of line.now)) }
{
    nth_word(line, 0).strip_suffix(b":")
}

// A line without the name before it.
pub fn body_of(line: &[u8]) -> &[u8]
    ensures { result.now ≡ body_of line.now }
{
    if label_of(line).is_none() {
        return line;
    }
    let passed = next_word(line, 0);
    &line[passed.to..]
}

// Whether a line with this name says a node.
fn is_node(name: Option<Name>) -> bool
    ensures { result ≡ is_node name }
{
    matches!(name, Some(Name::Node(_)))
}

// How many nodes a line says.
fn nodes_in(line: &[u8]) -> usize
    ensures { (result ≤ 1) × (result ≡ nodes_in line.now) }
{
    let word = nth_word(body_of(line), 0);
    // Asked here too, and not left to `named`: each name that is looked up reads the card's lines again, and
    // most may be blank or a comment, which then cost no call.
    if word.is_empty() {
        return 0;
    }
    usize::from(is_node(named(word)))
}

// The first node with a name.
pub fn node_named(text: &[u8], name: &[u8]) -> Option<u16>
    ensures { result ≡ node_of (lines_of text.now) name.now }
{
    let mut k: usize = 0;
    for line in Lines::new(text) {
        let line = bare(line);
        // A line that gives no name counts as one with the empty name, as the definition has it.
        if label_of(line).unwrap_or_default() == name {
            return u16::try_from(k).ok();
        }
        k += nodes_in(line);
    }
    None
}

// The node that a word stands for, by its name or its number.
pub fn end_of(text: &[u8], word: &[u8]) -> Option<u16>
    ensures { result ≡ end_of (lines_of text.now) word.now }
{
    if starts_name(word) {
        return node_named(text, word);
    }
    let number = whole_of(word, 65535)?;
    Some(number as u16)
}

// A text without a byte-order mark at its start. Ruled out, and tried by a must-fail edit: two of the mark's
// three bytes taken for it (mark_half_taken).
pub fn unmarked(text: &[u8]) -> &[u8]
    ensures { result.now ≡ unmarked text.now }
{
    text.strip_prefix(b"\xef\xbb\xbf").unwrap_or(text)
}
