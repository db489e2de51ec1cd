// The visiting list of a board, and its late wires.
ghost use Rattle.std.specs.Prelude.{◌≡◌, List, ℕ, ◌+◌, ◌<◌, ◌≤◌, Some, None, cond, ltb, length, get_or, take, set};
ghost use Rattle.reading.specs.Order.{Wire, wire};
ghost use Rattle.boards.specs.Wires.{Within, wires_of};
ghost use Rattle.graph.specs.Visit.{visiting_list, Lists};
ghost use Rattle.graph.specs.Walking.{Table, Gathered, Ready, Visited};
ghost use Rattle.graph.specs.Late.{is_late, late_wires, Placed};

use boards::board::Wires;
use sources::sources::Sources;

// A visiting list: the first `count` entries of `nodes`. An array, since libraries have no heap, in a Copy
// value, which the kit's `ArrayVec` is not.
#[derive(Clone, Copy)]
pub struct Order {
    pub nodes: [u8; 64],
    pub count: usize,
    pub ghost long: { length nodes ≡ 64 },
    pub ghost fits: { count ≤ 64 },
    pub ghost below: { Within 64 nodes count },
}

impl Order {
    // The listed nodes.
    // Ruled out, and tried by a must-fail edit: the whole array (listed_all).
    pub fn listed(&self) -> &[u8]
        ensures { result.now ≡ take self.now.count self.now.nodes }
    {
        &self.nodes[..self.count]
    }

    // One node more, at the end.
    // Ruled out, and tried by a must-fail edit: a node over the first one (push_over_first).
    pub fn push(&mut self, node: usize)
        requires { (self.old.count < 64) × (node < 64) }
        ensures nodes { self.new.nodes ≡ set self.old.nodes self.old.count node }
        ensures count { self.new.count ≡ self.old.count + 1 }
    {
        self.nodes[self.count] = node as u8;
        self.count += 1;
    }

    // Each node's place in the list. Backwards, so that a node's first place stays. An index. Tried as
    // `enumerate().rev()`: the proof of which items that gives didn't close (the library has it of a
    // slice's `rev` alone).
    pub fn places(&self) -> Places
        ensures size { result.count ≡ self.now.count }
        ensures placed { Placed (take self.now.count self.now.nodes) result.at }
    {
        let mut at = [self.count as u8; 64];
        for i in (0..self.count).rev() {
            at[usize::from(self.nodes[i])] = i as u8;
        }
        Places {
            at,
            count: self.count,
        }
    }
}

// Each node's place in a list of `count` nodes; `count` for a node that is not in it, so that a place is one
// byte, as the definition counts it (`Placed`): `place_of` says it as an Option.
#[derive(Clone, Copy)]
pub struct Places {
    pub at: [u8; 64],
    pub count: usize,
    pub ghost long: { length at ≡ 64 },
}

impl Places {
    // The node's place, none if it is not in the list.
    // Ruled out, and tried by a must-fail edit: a place for each node (place_of_each).
    pub fn place_of(&self, node: usize) -> Option<usize>
        requires { node < 64 }
        ensures { result ≡ cond (ltb (get_or self.now.at node 0) self.now.count) (Some (get_or self.now.at node 0)) None }
    {
        let place = usize::from(self.at[node]);
        (place < self.count).then_some(place)
    }

    // Whether a wire is late. Its ends are indices here, bytes in the table of wires and 16 bits in a record:
    // one struct of them would be converted at each border.
    // Ruled out, and tried by a must-fail edit: the plate's loop broken at fb2 to wet7
    // (plate_board, loop_elsewhere).
    pub fn is_late(&self, source: usize, target: usize) -> bool
        requires { (source < 64) × (target < 64) }
        ensures { (l : List ℕ) → length l ≡ self.now.count → Placed l self.now.at → result ≡ is_late l (wire source target) }
    {
        let s = usize::from(self.at[source]);
        let t = usize::from(self.at[target]);
        s < self.count && t < self.count && s >= t
    }

    // How many of the wires are late.
    pub fn late_count(&self, wires: &Wires) -> usize
        ensures { (l : List ℕ) → length l ≡ self.now.count → Placed l self.now.at → result ≡ length (late_wires l (wires_of wires.now.list wires.now.count)) }
    {
        let late = |&&(s, t): &&(u8, u8)| self.is_late(usize::from(s), usize::from(t));
        wires.listed().iter().filter(late).count()
    }
}

// The walk from `node`, which is not marked yet: marks it, goes to each of its sources that is not
// marked, then lists it.
fn visit(node: usize, sources: &Sources, marks: &mut [bool; 64], order: &mut Order)
    requires { Ready sources.now.counts sources.now.lists node marks.old order.old.nodes order.old.count }
    ensures { Visited sources.now.counts sources.now.lists node marks.old order.old.nodes order.old.count marks.new order.new.nodes order.new.count }
{
    marks[node] = true;
    for &source in sources.of(node) {
        let source = usize::from(source);
        if !marks[source] {
            visit(source, sources, marks, order);
        }
    }
    order.push(node);
}

// The visiting list of the wires whose sources are gathered.
// Ruled out, and tried by must-fail edits: a node listed before its sources (lists_before_sources), the
// newest wire first (sources, newest_wire_first).
pub fn visiting_list(sources: &Sources) -> Order
    requires { Table sources.now.counts sources.now.lists }
    ensures { (ws : List Wire) → Gathered ws sources.now.counts sources.now.lists → Lists (visiting_list ws) result.nodes result.count }
{
    let mut marks = [false; 64];
    let mut order = Order {
        nodes: [0; 64],
        count: 0,
    };
    visit(0, sources, &mut marks, &mut order);
    order
}
