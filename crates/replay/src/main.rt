// Replays the list of answers on standard input (oracle/README.md, "The list of answers") and counts
// its records and those that the library answers otherwise.
#![tactic(auto)]

ghost use Rattle.std.specs.Prelude.{◌≤◌, ◌≡◌, length, IfOk};

mod hash;
mod record;

use input::{read_full, room};
use record::{Current, Reply, answered};
use std::io;
use values::bytes::u32_at;

// The number of the end record: no call, so it is none of `Call`.
const END: u32 = 0;

// The answer that a record's head of 20 bytes expects; none where all bits are set, as for a record
// that cannot be replayed.
fn expected_of(head: &[u8]) -> Option<Reply>
    requires { length head.now ≡ 20 }
{
    let expected = Reply {
        number: u32_at(head, 8),
        place: u32_at(head, 12),
        check: u32_at(head, 16),
    };
    let none = Reply {
        number: u32::MAX,
        place: u32::MAX,
        check: u32::MAX,
    };
    (expected != none).then_some(expected)
}

fn show(rt: &impl Print, records: usize, differences: usize) -> io::Result<()> {
    println!(rt; "{records} records, {differences} differences")
}

// 1 for a record that is answered otherwise, which is named, and else 0.
fn differs(
    rt: &impl Print,
    record: usize,
    found: Option<Reply>,
    expected: Option<Reply>,
) -> io::Result<usize>
    ensures { IfOk result (λ n. n ≤ 1) }
{
    if found == expected {
        return Ok(0);
    }
    println!(rt; "record {record} differs")?;
    Ok(1)
}

// The records in order, until the end record.
fn replay(rt: &impl Print, s: &[u8], memory: &mut [u8]) -> io::Result<()> {
    let mut current = Current {
        board: &[],
        room: 0,
    };
    let mut records = 0;
    let mut differences = 0;
    let mut rest = s;
    // A `while`: a turn passes as many bytes as the record has.
    while 20 <= rest.len() {
        let (head, behind) = rest.split_at(20);
        let number = u32_at(head, 0);
        let expected = expected_of(head);
        if number == END && u32_at(head, 8) as usize == records && behind.is_empty() {
            return show(rt, records, differences);
        }
        let size = u32_at(head, 4) as usize;
        if behind.len() < size {
            break;
        }
        let (body, next) = behind.split_at(size);
        let found = answered(number, body, &mut current, memory);
        differences += differs(rt, records, found, expected)?;
        records += 1;
        rest = next;
    }
    println!(rt; "no end record")
}

// The bytes of the longest list.
const LIST: usize = 1048576;

// The memory of each board that is replayed: the plate's at N 128 is the longest, 236,392 + 212 x 128
// bytes. (The longest of any board is 1,114,880.)
const LENT: usize = 263528;

fn main(rt: HostRuntime) -> io::Result<()> {
    let mut bytes = room::<LIST>();
    let mut memory = room::<LENT>();
    let n = read_full(&mut rt.stdin(), &mut bytes)?;
    replay(&rt, &bytes[..n], &mut memory)
}
