// The visiting list of a board with a wire more, or a wire less, carried over from the old board's.
ghost use Rattle.std.specs.Prelude.{◌≡◌, ◌<◌, ◌≤◌, ◌&&◌, eqb, take};
ghost use Rattle.reading.specs.Order.{Once};
ghost use Rattle.graph.specs.Walking.{Table};
ghost use Rattle.carrying.specs.Skimming.{Room, LaidPart, AsksOf, SkimmedBy, Carries};

use graph::graph::{Order, Places};
use sources::sources::Sources;

// A wire from `source` to `target` is added, or else pulled. A flag, read by one `if`, not an enum of the
// two: the walk reads both ends at every step, whichever it is, and would match first to take the same two
// numbers out of either. Indices, as the walk goes by them; the table has bytes, a record 16 bits.
#[derive(Clone, Copy)]
pub struct Change {
    pub adding: bool,
    pub source: usize,
    pub target: usize,
}

impl Change {
    // Whether it is the wire from `source` to `target`.
    fn is(self, source: usize, target: usize) -> bool
        ensures { result ≡ (eqb target self.target && eqb source self.source) }
    {
        (target == self.target) & (source == self.source)
    }
}

// What stays the same on the way: the table of sources, which has the wire, the old list with each
// node's place there, and the change.
#[derive(Clone, Copy)]
struct Ground<'a> {
    sources: &'a Sources,
    old: &'a Order,
    places: &'a Places,
    change: Change,
}

// A carried walk under way: the mark of each node, the list so far, and from which place on the old list
// is still to come.
#[derive(Clone, Copy)]
struct Walk {
    marks: [bool; 64],
    order: Order,
    at: usize,
}

impl Walk {
    // Copies the old list's nodes that are still to come, up to the place `end`, and not marked yet.
    fn lay_part(&mut self, old: &Order, end: usize)
        requires { (self.old.at ≤ end) × (end ≤ old.now.count) × Room self.old.marks self.old.order.count }
        ensures { LaidPart old.now.nodes self.old.at end self.old.marks self.old.order.nodes self.old.order.count self.new.marks self.new.order.nodes self.new.order.count × (self.new.at ≡ end) }
    {
        for &node in &old.nodes[self.at..end] {
            let node = usize::from(node);
            if !self.marks[node] {
                self.marks[node] = true;
                self.order.push(node);
            }
        }
        self.at = end;
    }

    // The carried walk to `node`, which is not marked yet: copied from the old list where the change is
    // not on the way, and else walked.
    fn skim(&mut self, node: usize, ground: &Ground)
        requires { AsksOf ground.now node self.old }
        ensures { SkimmedBy ground.now node self.old self.new }
    {
        let change = ground.change;
        let size = ground.old.count;
        let place = usize::from(ground.places.at[node]);
        let goal = usize::from(ground.places.at[change.target]);
        // The tests run together: none is worth a branch.
        if ((self.at <= place) & (place < size))
            & (self.marks[change.target] | ((goal < self.at) | (place < goal)))
        {
            self.lay_part(ground.old, place + 1);
            return;
        }
        self.marks[node] = true;
        for &source in ground.sources.of(node) {
            let source = usize::from(source);
            if !self.marks[source] {
                if !change.is(source, node) {
                    self.skim(source, ground);
                } else if change.adding {
                    let rest = self.at;
                    self.at = size;
                    self.skim(source, ground);
                    self.at = rest;
                } else {
                    self.at = size;
                }
            }
        }
        self.order.push(node);
    }
}

// The visiting list of the board with a wire added or pulled, carried over from the old board's. The
// table of sources has the wire: it is the new board's when it is added, the old board's when it is
// pulled. Where a like wire stays, the list is the old one, and this is not called.
pub fn carried_list(sources: &Sources, old: &Order, change: Change) -> Order
    requires { Table sources.now.counts sources.now.lists × Once (take old.now.count old.now.nodes) × (change.source < 64) × (change.target < 64) }
    ensures { Carries sources.now.counts sources.now.lists old.now.nodes old.now.count change.adding change.source change.target result.nodes result.count }
{
    let places = old.places();
    let ground = Ground {
        sources,
        old,
        places: &places,
        change,
    };
    let mut walk = Walk {
        marks: [false; 64],
        order: Order {
            nodes: [0; 64],
            count: 0,
        },
        at: 0,
    };
    walk.skim(0, &ground);
    walk.order
}
