// The records of a board, read in three parts: the head, the nodes, the wires. Each part is read once
// and gives what it read and where the next record stands, or the refusal that ended it. Bytes and offset
// stay two parameters, and that the offset lies within the bytes a clause: the loops move the offset, and a
// struct of both would be made anew for each record.
ghost use Rattle.std.specs.Prelude.{◌≡◌, [], ◌+◌, ◌*◌, ◌≤◌, ◌<◌, length};
ghost use Rattle.values.specs.Bytes.{u16_at};
ghost use Rattle.records.specs.declared.record.Found.{Found};
ghost use Rattle.records.specs.Record.{found_at};
ghost use Rattle.boards.specs.Board.{Parsed, going, headed, placed, node_fits, wire_fits, head_by, end_by, step_of};
ghost use Rattle.boards.specs.BoardParts.{Decides, starts_with, node_read, is_wire, nodes_end, wires_end, HeadRead, NodesRead, WiresRead};
ghost use Rattle.sources.specs.Sources.{Tabled};
ghost use Rattle.boards.specs.Wires.{wires_of};

use crate::board::{Head, Wires, wire_fits};
use crate::nodes::Nodes;
use kinds::cell::SAMPLES;
use kinds::kind::{NodeKind, NodeRecord, bounds_of, channels_of, is_destination, line_of, rule_of};
use records::answer::Answer;
use records::reader::read_record;
use records::record::{Found, found_at};
use sources::sources::Sources;
use values::bytes::{u16_at, u32_at};

// Whether a record of this length and kind, with all its bytes, stands at `at`, which is not past the
// end. Numbers, as the bytes have them: both are compared at once.
fn starts_with(s: &[u8], at: usize, size: u16, kind: u16) -> bool
    requires { (at ≤ length s.now) × (4 ≤ size) }
    ensures { result ≡ starts_with s.now at size kind }
{
    if s.len() - at < usize::from(size) {
        return false;
    }
    u32_at(s, at) == u32::from(size) + u32::from(kind) * 65536
}

// The head's body: the block size is from 1 to 128.
fn head_body(s: &[u8]) -> Result<Head, Answer>
    requires { 8 ≤ length s.now }
    ensures { HeadRead (head_by 0 (u16_at s.now 4) (u16_at s.now 6)) result }
{
    let size = u16_at(s, 4);
    let input = u16_at(s, 6);
    if 1 <= size && size <= 128 {
        Ok(Head {
            size: usize::from(size),
            input: usize::from(input),
        })
    } else {
        Err(Answer::new(3, 0))
    }
}

// The head, which alone may stand at offset 0. A match of both arms, here and where a part ends: `map_err`
// with `?` would be as long.
pub fn read_head(s: &[u8]) -> Result<Head, Answer>
    ensures { HeadRead (step_of s.now (going 0 0 (headed 0 0))) result }
{
    match found_at(s, 0, 0) {
        Ok(_) => head_body(s),
        Err(why) => Err(Answer::new(why.number(), 0)),
    }
}

// Whether a node of kind k may be node i.
fn placed(i: usize, k: NodeKind) -> bool
    ensures { result ≡ placed i k }
{
    is_destination(k) == (i == 0)
}

// Whether a node of kind k may follow i nodes with so many line values. That a sum so far is small is
// asked of three functions: it is a local of `read_nodes`, and a struct around it would be taken apart in
// each turn.
fn node_fits(i: usize, lines: usize, k: NodeKind) -> bool
    requires { lines ≤ 262144 }
    ensures { result ≡ node_fits i lines k }
{
    i < 64 && placed(i, k) && lines + line_of(k) <= 262144
}

// The body of the node record at `at`, as node i, with so many line values before it.
fn node_body(s: &[u8], at: usize, i: usize, lines: usize) -> Result<Option<NodeKind>, Answer>
    requires { (at + 14 ≤ length s.now) × (at < 4294967296) × (lines ≤ 262144) }
    ensures { result ≡ node_read s.now at i lines (Ok Found.Node) }
{
    let t = u16_at(s, at + 4);
    let n = u32_at(s, at + 6);
    let f = u32_at(s, at + 10);
    match rule_of(t, n, f) {
        Some(k) => {
            if node_fits(i, lines, k) {
                Ok(Some(k))
            } else {
                Err(Answer::new(4, at))
            }
        }
        None => Err(Answer::new(4, at)),
    }
}

// What ends the nodes at `at`, where no node stands that may follow: the next part, or a refusal.
// `read_record`, though nothing reads on: `found_at` was tried here, and a board is read 4% slower.
fn nodes_end(s: &[u8], at: usize) -> Result<Option<NodeKind>, Answer>
    requires { at < 4294967296 }
    ensures { result ≡ nodes_end at (found_at s.now at 2) }
{
    let mut next = at;
    match read_record(s, &mut next, 2) {
        Ok(_) => Ok(None),
        Err(why) => Err(Answer::new(why.number(), at)),
    }
}

// What the record at `at` says: a node, nothing where the next part follows, or its refusal. A node,
// which may follow the head as it may follow a node, is known by its first four bytes.
fn node_read(s: &[u8], at: usize, i: usize, lines: usize) -> Result<Option<NodeKind>, Answer>
    requires { (lines ≤ 262144) × (at ≤ length s.now) × (at < 4294967296) }
    ensures { result ≡ node_read s.now at i lines (found_at s.now at 2) }
{
    if starts_with(s, at, 14, 2) {
        node_body(s, at, i, lines)
    } else {
        nodes_end(s, at)
    }
}

// The nodes after a head with this block size, into room that is lent for them: each that hands them on
// copies them. Each cell starts where those before it end. Locals count, and are stored once, whether the next
// part or a refusal ends the nodes: faster, since a store into an array could change a count beside it. A
// `loop`: a turn passes a record, and the first that is no node ends it.
// Ruled out, and tried by a must-fail edit: the nodes before a refusal told for another block size
// (refused_nodes_miscounted).
pub fn read_nodes(s: &[u8], size: usize, nodes: &mut Nodes) -> Result<(), Answer>
    requires { (size ≤ 128) × (8 ≤ length s.now) }
    ensures { NodesRead s.now size nodes.new result }
{
    let mut count = 0;
    let mut lines = 0;
    let mut values = 0;
    let mut next = 8;
    let read = loop {
        match node_read(s, next, count, lines) {
            Ok(Some(kind)) => {
                let channels = channels_of(kind);
                let line = line_of(kind);
                nodes.nodes[count] = NodeRecord {
                    kind,
                    channels,
                    cell: values as u32,
                };
                nodes.bounds[count] = bounds_of(kind);
                count += 1;
                lines += line;
                values += SAMPLES + size * usize::from(channels) + line;
                next += 14;
            }
            Ok(None) => break Ok(()),
            Err(refused) => break Err(refused),
        }
    };
    nodes.count = count;
    nodes.values = values;
    nodes.next = next;
    read
}

// Whether the record at `at` is a wire that may follow w wires, on a board of i nodes.
fn is_wire(s: &[u8], at: usize, i: usize, w: usize) -> bool
    requires { at ≤ length s.now }
    ensures { result ≡ is_wire s.now at i w (found_at s.now at 3) }
{
    starts_with(s, at, 8, 3) && wire_fits(i, w, u16_at(s, at + 4), u16_at(s, at + 6))
}

// What ends the wires at `at`, where no wire stands that may follow: the end record, or a refusal.
// `read_record`, as above.
fn wires_end(s: &[u8], at: usize) -> Result<(), Answer>
    requires { at < 4294967296 }
    ensures { result ≡ wires_end at (found_at s.now at 3) }
{
    let mut next = at;
    match read_record(s, &mut next, 3) {
        Ok(Found::Wire) => Err(Answer::new(5, at)),
        Ok(_) => Ok(()),
        Err(why) => Err(Answer::new(why.number(), at)),
    }
}

// The wires from the offset `start` on, on a board of i nodes, and the table of each node's sources,
// gathered as they are read; the offset of the end record. A local counts, and is stored at the end, as
// in `read_nodes`: a store into the list could change a count beside it. A `while`: a turn passes a
// record, and the first that is no wire ends it.
// Ruled out, and tried by must-fail edits: a repeated wire that counts twice (sources,
// repeat_counts), sources from the newest wire on (sources, newest_wire_first).
pub fn read_wires(
    s: &[u8],
    start: usize,
    i: usize,
    wires: &mut Wires,
    sources: &mut Sources,
) -> Result<usize, Answer>
    requires i_bound { (i ≤ 64) × (start ≤ 904) × (start ≤ length s.now) }
    requires tabled { Tabled [] sources.old.counts sources.old.lists sources.old.seconds }
    ensures read { WiresRead s.now start i wires.new result }
    ensures table { Tabled (wires_of wires.new.list wires.new.count) sources.new.counts sources.new.lists sources.new.seconds }
{
    let mut ins = [0u8; 64];
    let mut count = 0;
    let mut next = start;
    while is_wire(s, next, i, count) {
        let source = s[next + 4];
        let byte = s[next + 6];
        let target = usize::from(byte);
        wires.list[count] = (source, byte);
        count += 1;
        sources.add(target, ins[target], source);
        ins[target] += 1;
        next += 8;
    }
    wires.count = count;
    wires_end(s, next)?;
    Ok(next)
}

// The end record at `next`, which is the board's last.
pub fn read_end(s: &[u8], next: usize) -> Result<(), Answer>
    requires { next ≤ 1928 }
    ensures { (p : Parsed) → Decides (end_by s.now next p) p result }
{
    if next + 4 == s.len() {
        Ok(())
    } else {
        Err(Answer::new(1, next + 4))
    }
}
