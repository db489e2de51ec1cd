// The nodes of a board, as they are read.
ghost use Rattle.std.specs.Prelude.{◌≡◌, ◌≤◌, length};

use kinds::kind::{Bounds, NodeKind, NodeRecord};

// The nodes: how many, each as read, the bounds of its sources' number, the values of their cells
// together, and the next offset. Counts stand beside arrays, since libraries have no heap and a board is a Copy value; the bounds
// have an array of their own, so that several are compared with the counts at once.
#[derive(Clone, Copy)]
pub struct Nodes {
    pub count: usize,
    pub nodes: [NodeRecord; 64],
    pub bounds: [Bounds; 64],
    pub values: usize,
    pub next: usize,
    pub ghost few: { count ≤ 64 },
    pub ghost long: { length nodes ≡ 64 },
    pub ghost wide: { length bounds ≡ 64 },
}

impl Nodes {
    // None yet: room to read them into.
    // Ruled out, and tried by a must-fail edit: one that counts (no_nodes_counted).
    pub fn none() -> Nodes
        ensures { (result.count ≡ 0) × (result.values ≡ 0) × (result.next ≡ 8) }
    {
        let blank = NodeRecord {
            kind: NodeKind::Pass,
            channels: 0,
            cell: 0,
        };
        Nodes {
            count: 0,
            nodes: [blank; 64],
            bounds: [Bounds { few: 0, many: 0 }; 64],
            values: 0,
            next: 8,
        }
    }
}
