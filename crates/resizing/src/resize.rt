// A board carried to another block size, with the one line corrected that makes it sound the same.
ghost use Rattle.std.specs.Prelude.{◌≡◌, List, ℕ, ◌≤◌, ◌<◌, Ok, length};
ghost use Rattle.boards.specs.Board.{lines_of};
ghost use Rattle.graph.specs.Late.{late_wires, Placed};
ghost use Rattle.boards.specs.Read.{parsed_of};
ghost use Rattle.boards.specs.Wires.{wires_of};
ghost use Rattle.memory.specs.Memory.{kind_at, listed};
ghost use Rattle.memory.specs.Fine.{Fine};
ghost use Rattle.resizing.specs.declared.resize.NotCarried.TheVariants.{Refused};
ghost use Rattle.resizing.specs.Resize.{delay_of, line_by, plan_of, resized_of, bytes_after};
ghost use Rattle.resizing.specs.Planning.{Lates, Whole, Room};

use boards::board::{Board, Wires};
use boards::judge::read_board;
use graph::graph::{Places, visiting_list};
use kinds::kind::{NodeKind, NodeRecord, line_of};
use records::answer::Answer;
use values::bytes::{put_u16, put_u32};

// Why a board is not carried to another block size.
#[derive(Clone, Copy)]
pub enum NotCarried {
    // The judge refuses it.
    Refused(Answer),
    // A block size is 1 to 128.
    NoSize,
    // So many wires are late, and one line corrects one.
    ManyLate(u32),
    // The late wire leads into this node, which is no delay.
    NoDelay(u32),
    // It leads into this delay, of so many samples: less than one would be left,
    TooShort(u32, u32),
    // it would have more than 132,300,
    TooLong(u32, u32),
    // or all lines together more than 262,144.
    TooMuch(u32, u32),
}

impl From<Answer> for NotCarried {
    ghost from_gives = { λ a r. r ≡ Refused a };

    fn from(refused: Answer) -> NotCarried {
        NotCarried::Refused(refused)
    }
}

// What became of a board that was to be at another block size.
#[derive(Clone, Copy)]
pub enum Resized {
    // It is at that size already.
    Same,
    // No wire is late: the size alone has changed.
    Size,
    // The size has changed, and this node's line, from so many samples to so many.
    Line(u32, u32, u32),
}

// The values of all lines together.
fn lines_of(nodes: &[NodeRecord]) -> usize
    requires { length nodes.now ≤ 64 }
    ensures { result ≡ lines_of nodes.now }
{
    nodes.iter().map(|node| line_of(node.kind)).sum()
}

// The late wires: how many there are, and the last one's target.
#[derive(Clone, Copy)]
struct Late {
    count: u32,
    target: Option<usize>,
}

// The late wires among these, by the places of a list. Not graph's `late_count`: one pass finds the last
// one's target too.
fn late_among(wires: &Wires, places: &Places) -> Late
    ensures { (l : List ℕ) → length l ≡ places.now.count → Placed l places.now.at
        → Lates (late_wires l (wires_of wires.now.list wires.now.count)) result.count result.target }
{
    let mut late = Late {
        count: 0,
        target: None,
    };
    for &(source, target) in wires.listed() {
        let target = usize::from(target);
        if places.is_late(usize::from(source), target) {
            late = Late {
                count: late.count + 1,
                target: Some(target),
            };
        }
    }
    late
}

// The line of the late wire's target, node k, at blocks of the given size.
fn corrected(board: &Board, k: usize, size: u32) -> Result<Resized, NotCarried>
    requires { Fine (parsed_of board.now) × (k < board.now.count) }
    ensures { result ≡ line_by (parsed_of board.now) size k (delay_of (kind_at (parsed_of board.now) k)) }
{
    let node = k as u32;
    let NodeKind::Delay(n) = board.nodes[k].kind else {
        return Err(NotCarried::NoDelay(node));
    };
    let size = size as usize;
    let long = n as usize + board.size;
    if long <= size {
        return Err(NotCarried::TooShort(node, n));
    }
    if 132300 + size < long {
        return Err(NotCarried::TooLong(node, n));
    }
    if 262144 + size < lines_of(board.listed()) + board.size {
        return Err(NotCarried::TooMuch(node, n));
    }
    Ok(Resized::Line(node, n, (long - size) as u32))
}

// The late wires of an accepted board.
fn board_late(board: &Board) -> Late
    requires { Whole board.now }
    ensures { Lates (late_wires (listed (parsed_of board.now)) (parsed_of board.now).wires) result.count result.target }
{
    let order = visiting_list(&board.sources);
    late_among(&board.wires, &order.places())
}

// What is to be done to an accepted board.
fn planned(board: &Board, size: u32) -> Result<Resized, NotCarried>
    requires { Whole board.now }
    ensures { result ≡ plan_of (parsed_of board.now) size }
{
    if (size < 1) | (128 < size) {
        return Err(NotCarried::NoSize);
    }
    if size as usize == board.size {
        return Ok(Resized::Same);
    }
    let late = board_late(board);
    if 1 < late.count {
        return Err(NotCarried::ManyLate(late.count));
    }
    let Some(k) = late.target else {
        return Ok(Resized::Size);
    };
    corrected(board, k, size)
}

// Stores what has changed in the board's bytes.
fn put_resized(bytes: &mut [u8], size: u32, resized: Resized)
    requires { Room size (length bytes.old) resized }
    ensures { bytes.new ≡ bytes_after bytes.old size (Ok resized) }
{
    match resized {
        Resized::Same => {}
        Resized::Size => put_u16(bytes, 4, size as u16),
        Resized::Line(k, _, m) => {
            put_u16(bytes, 4, size as u16);
            put_u32(bytes, 14 * k as usize + 14, m);
        }
    }
}

// Carries the board in `bytes` to blocks of the given size, where that keeps its sound; or says why it
// cannot, and every byte is as found. What it makes is accepted and sounds the same (`settled`), no
// board that document 02 speaks of is left out (`complete`), and the way back leads to the same bytes
// (`returns`).
// Ruled out, and tried by must-fail edits: one that changes the size alone though a wire is late
// (line_not_corrected), one that takes a board with two late wires (two_late_wires) or corrects an
// all-pass (all_pass_corrected), one that stores the line in the next node (next_node_corrected).
pub fn resize(bytes: &mut [u8], size: u32) -> Result<Resized, NotCarried>
    ensures { (result ≡ resized_of bytes.old size) × (bytes.new ≡ bytes_after bytes.old size result) }
{
    let board = read_board(bytes)?;
    let resized = planned(&board, size)?;
    put_resized(bytes, size, resized);
    Ok(resized)
}
