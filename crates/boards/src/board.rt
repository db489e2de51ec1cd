// A board as the code holds it: its head, its nodes, its wires.
ghost use Rattle.std.specs.Prelude.{◌≡◌, ◌≤◌, ◌<◌, length, take};
ghost use Rattle.sources.specs.Sources.{Tabled};
ghost use Rattle.boards.specs.Board.{wire_fits, cells_of};
ghost use Rattle.boards.specs.Wires.{Joined, wires_of};

use kinds::kind::NodeRecord;
use sources::sources::Sources;

// The head: block size and input node.
#[derive(Clone, Copy)]
pub struct Head {
    pub size: usize,
    pub input: usize,
}

// The first `count` wires: an array, since libraries have no heap, and a Copy value as the board is, which
// the kit's `ArrayVec` is not. A wire is a pair of bytes, a source and a
// target, as in the table of sources; records and C have 16 bits, and a walk has indices.
#[derive(Clone, Copy)]
pub struct Wires {
    pub list: [(u8, u8); 128],
    pub count: usize,
    pub ghost few: { count ≤ 128 },
    pub ghost long: { length list ≡ 128 },
    pub ghost joined: { Joined 64 list count },
}

impl Wires {
    // None yet: room to read them into.
    // Ruled out, and tried by a must-fail edit: one that counts (no_wires_counted).
    pub fn none() -> Wires
        ensures { result.count ≡ 0 }
    {
        Wires {
            list: [(0, 0); 128],
            count: 0,
        }
    }

    // The wires.
    // Ruled out, and tried by a must-fail edit: the whole array (wires_listed_all).
    pub fn listed(&self) -> &[(u8, u8)]
        ensures { result.now ≡ take self.now.count self.now.list }
    {
        &self.list[..self.count]
    }
}

// The board as read. `values` are those of all cells; `sources` is the table of each node's sources. What
// holds of every board that was read: its numbers are as small as document 01 has them, its wires join
// its nodes, and the table is that of its wires.
#[derive(Clone, Copy)]
pub struct Board {
    pub size: usize,
    pub input: usize,
    pub count: usize,
    pub nodes: [NodeRecord; 64],
    pub values: usize,
    pub wires: Wires,
    pub sources: Sources,
    pub ghost few: { count ≤ 64 },
    pub ghost long: { length nodes ≡ 64 },
    pub ghost small: { size ≤ 128 },
    pub ghost near: { input < 65536 },
    pub ghost sum: { values ≡ cells_of size (take count nodes) },
    pub ghost held: { values ≤ 278720 },
    pub ghost joined: { Joined count wires.list wires.count },
    pub ghost table: { Tabled (wires_of wires.list wires.count) sources.counts sources.lists sources.seconds },
}

impl Board {
    // The nodes.
    // Ruled out, and tried by a must-fail edit: the whole array (listed_all).
    pub fn listed(&self) -> &[NodeRecord]
        ensures { result.now ≡ take self.now.count self.now.nodes }
    {
        &self.nodes[..self.count]
    }
}

// Whether a wire from a to t may follow w wires, on a board of i nodes. `&` in place of `&&` leaves no
// branches, and is faster.
pub fn wire_fits(i: usize, w: usize, a: u16, t: u16) -> bool
    ensures { result ≡ wire_fits i w a t }
{
    (w < 128) & (usize::from(a) < i) & (usize::from(t) < i) & (a != t)
}
