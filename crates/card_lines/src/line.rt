// One line of a card: the record that it says, or what is wrong with it.
ghost use Rattle.std.specs.Prelude.{◌≡◌};
ghost use Rattle.decimals.specs.Number.{whole_of};
ghost use Rattle.text.specs.Words.{nth_word, lines_of};
ghost use Rattle.card_lines.specs.Labels.{end_of};
ghost use Rattle.card_lines.specs.Line.{no_end, ended, head_line, wire_line, float_line, node_line, record_line, plain_line, is_other, labelled_line, line_of, said_of};
ghost use Rattle.card_lines.specs.Names.{named};

use crate::labels::{bare, body_of, end_of, good_name, label_of, node_named, starts_name};
use crate::lengths::length_of;
use crate::names::{Name, named};
use crate::reason::Reason;
use decimals::number::{float_of, whole_of};
use kinds::types::Kind;
use text::words::{nth_word, word_count};

// What a line says. A node has its type, its whole number and its float's bits.
#[derive(Clone, Copy)]
pub enum Line {
    Blank,
    Head(u16, u16),
    Node(Kind, u32, u32),
    Wire(u16, u16),
}

// What is wrong with a word that stands for no node.
fn no_end(word: &[u8]) -> Reason
    ensures { result ≡ no_end word.now }
{
    if starts_name(word) {
        Reason::Missing
    } else {
        Reason::Whole
    }
}

// The node that a word stands for.
fn ended(text: &[u8], word: &[u8]) -> Result<u16, Reason>
    ensures { result ≡ ended (end_of (lines_of text.now) word.now) word.now }
{
    end_of(text, word).ok_or_else(|| no_end(word))
}

// The word between the head's numbers.
const INPUT: &[u8] = b"input";

// block N input I
fn head_line(text: &[u8], line: &[u8]) -> Result<Line, Reason>
    ensures { result ≡ head_line (whole_of (nth_word 1 line.now) 65535) (nth_word 2 line.now) (ended (end_of (lines_of text.now) (nth_word 3 line.now)) (nth_word 3 line.now)) }
{
    let size = whole_of(nth_word(line, 1), 65535).ok_or(Reason::Whole)?;
    if nth_word(line, 2) != INPUT {
        return Err(Reason::Name);
    }
    let input = ended(text, nth_word(line, 3))?;
    Ok(Line::Head(size as u16, input))
}

// wire SOURCE TARGET
fn wire_line(text: &[u8], line: &[u8]) -> Result<Line, Reason>
    ensures { result ≡ wire_line (ended (end_of (lines_of text.now) (nth_word 1 line.now)) (nth_word 1 line.now)) (ended (end_of (lines_of text.now) (nth_word 2 line.now)) (nth_word 2 line.now)) }
{
    let source = ended(text, nth_word(line, 1))?;
    let target = ended(text, nth_word(line, 2))?;
    Ok(Line::Wire(source, target))
}

// A node with the whole number n, and a word as its float if its type has one.
fn float_line(word: &[u8], kind: Kind, n: u32) -> Result<Line, Reason>
    ensures { result ≡ float_line kind n word.now }
{
    if !kind.has_float() {
        return Ok(Line::Node(kind, n, 0));
    }
    let f = float_of(word)?;
    Ok(Line::Node(kind, n, f))
}

// A node: its length if its type has one, then its float if it has one.
fn node_line(line: &[u8], kind: Kind) -> Result<Line, Reason>
    ensures { result ≡ node_line kind (nth_word 1 line.now) (nth_word 2 line.now) }
{
    if !kind.has_whole() {
        return float_line(nth_word(line, 1), kind, 0);
    }
    let n = length_of(kind, nth_word(line, 1))?;
    float_line(nth_word(line, 2), kind, n)
}

// The record of a line with this name.
fn record_line(text: &[u8], line: &[u8], name: Name) -> Result<Line, Reason>
    ensures { result ≡ record_line (lines_of text.now) line.now name }
{
    match name {
        Name::Head => head_line(text, line),
        Name::Node(kind) => node_line(line, kind),
        Name::Wire => wire_line(text, line),
    }
}

// What a line says that has no comment and no name before it.
fn plain_line(text: &[u8], line: &[u8]) -> Result<Line, Reason>
    ensures { result ≡ plain_line (lines_of text.now) line.now }
{
    let word = nth_word(line, 0);
    if word.is_empty() {
        return Ok(Line::Blank);
    }
    let name = named(word).ok_or(Reason::Name)?;
    if word_count(line) != name.words_wanted() {
        return Err(Reason::Fields);
    }
    record_line(text, line, name)
}

// Whether no node follows a name: nothing, or the head or a wire.
fn is_other(word: &[u8]) -> bool
    ensures { result ≡ is_other word.now (named word.now) }
{
    word.is_empty() || matches!(named(word), Some(Name::Head | Name::Wire))
}

// What `body` says behind a name, after `nodes` nodes. The name is this node's if no node before has it.
fn labelled_line(text: &[u8], nodes: usize, name: &[u8], body: &[u8]) -> Result<Line, Reason>
    ensures { result ≡ labelled_line (lines_of text.now) nodes name.now body.now }
{
    if !good_name(name) {
        return Err(Reason::Label);
    }
    if is_other(nth_word(body, 0)) {
        return Err(Reason::NoNode);
    }
    let first = node_named(text, name).unwrap_or(0);
    if usize::from(first) != nodes {
        return Err(Reason::Twice);
    }
    plain_line(text, body)
}

// What a line without its comment says.
fn line_of(text: &[u8], nodes: usize, line: &[u8]) -> Result<Line, Reason>
    ensures { result ≡ line_of (lines_of text.now) nodes line.now }
{
    let Some(name) = label_of(line) else {
        return plain_line(text, line);
    };
    labelled_line(text, nodes, name, body_of(line))
}

// What a line of a text says, after `nodes` nodes.
pub fn said(text: &[u8], nodes: usize, line: &[u8]) -> Result<Line, Reason>
    ensures { result ≡ said_of (lines_of text.now) nodes line.now }
{
    line_of(text, nodes, bare(line))
}
