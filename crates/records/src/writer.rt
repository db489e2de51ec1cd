// The record writer: each function stores one record's bytes, the head's at the start and any other's at
// the place `at`, and leaves the other bytes as they are.
// Bytes and place stay two parameters: wiring writes single records into the middle
// of a board, so that a writer that moves on would be made anew for each.
ghost use Rattle.std.specs.Prelude.{◌≡◌, ◌++◌, ◌+◌, ◌≤◌, length};
ghost use Rattle.std.proofs.lemmas.List.Edits.{sets};
ghost use Rattle.values.specs.Bytes.{u16_bytes};
ghost use Rattle.reading.specs.Order.{wire};
ghost use Rattle.records.specs.Write.{head_bytes, node_bytes, wire_bytes, end_bytes};

use values::bytes::{put_u16, put_u32};

// Two numbers.
fn put_two(board: &mut [u8], at: usize, a: u16, b: u16)
    requires { at + 4 ≤ length board.old }
    ensures { board.new ≡ sets board.old at (u16_bytes a ++ u16_bytes b) }
{
    put_u16(board, at, a);
    put_u16(board, at + 2, b);
}

// A record of two numbers. Kinds and types are numbers here, as they are stored.
fn put_four(board: &mut [u8], at: usize, kind: u16, a: u16, b: u16)
    requires { at + 8 ≤ length board.old }
    ensures { board.new ≡ sets board.old at (u16_bytes 8 ++ u16_bytes kind ++ u16_bytes a ++ u16_bytes b) }
{
    put_two(board, at, 8, kind);
    put_two(board, at + 4, a, b);
}

pub fn put_head(board: &mut [u8], size: u16, input: u16)
    requires { 8 ≤ length board.old }
    ensures { board.new ≡ sets board.old 0 (head_bytes size input) }
{
    put_four(board, 0, 1, size, input);
}

pub fn put_node(board: &mut [u8], at: usize, kind: u16, whole: u32, float: u32)
    requires { at + 14 ≤ length board.old }
    ensures { board.new ≡ sets board.old at (node_bytes (record { type = kind; n = whole; f = float })) }
{
    put_two(board, at, 14, 2);
    put_u16(board, at + 4, kind);
    put_u32(board, at + 6, whole);
    put_u32(board, at + 10, float);
}

pub fn put_wire(board: &mut [u8], at: usize, source: u16, target: u16)
    requires { at + 8 ≤ length board.old }
    ensures { board.new ≡ sets board.old at (wire_bytes (wire source target)) }
{
    put_four(board, at, 3, source, target);
}

pub fn put_end(board: &mut [u8], at: usize)
    requires { at + 4 ≤ length board.old }
    ensures { board.new ≡ sets board.old at end_bytes }
{
    put_two(board, at, 4, 4);
}
