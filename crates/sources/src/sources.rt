// The table of each node's sources, filled wire by wire.
ghost use Rattle.std.specs.Prelude.{◌≡◌, [], ◌+◌, ◌*◌, ◌≤◌, ◌<◌, length, get_or, set, take, drop};
ghost use Rattle.sources.specs.Sources.{Tabled};
ghost use Rattle.sources.specs.Gather.{among, count_with, list_with, second_with, Added};

// How many distinct sources each node has, nine standing for more than eight; the first eight of them
// by first wire, those of node v from 8 * v on; and the source of each node's second wire. Arrays, since
// libraries have no heap, and a Copy value; the counts have one of their own, so that the judge compares
// several at once. That a node is below 64 is asked of each function, here and above: an index is read from
// a byte each time, and a type with the bound would be taken off at the next array.
#[derive(Clone, Copy)]
pub struct Sources {
    pub counts: [u8; 64],
    pub lists: [u8; 512],
    pub seconds: [u8; 64],
}

// Whether x is one of the n numbers from `start` on.
fn among(lists: &[u8; 512], start: usize, n: usize, x: u8) -> bool
    requires { start + n ≤ 512 }
    ensures { result ≡ among lists.now start n x }
{
    lists[start..start + n].contains(&x)
}

// Puts x into the list of a node that starts at `start` and has `count` sources; the new count.
// Ruled out, and tried by must-fail edits: a repeated source that counts again (repeat_counts), a ninth source
// that is told as the eighth (ninth_uncounted).
pub fn add_source(lists: &mut [u8; 512], start: usize, count: u8, x: u8) -> u8
    requires { (start + 8 ≤ 512) × (count ≤ 9) }
    ensures { (result ≡ count_with lists.old start count x) × (lists.new ≡ list_with lists.old start count x) }
{
    if 8 < count {
        return count;
    }
    let n = usize::from(count);
    if among(lists, start, n, x) {
        return count;
    }
    if n < 8 {
        lists[start + n] = x;
    }
    count + 1
}

// The source of a node's second wire, once x comes after n others.
// Ruled out, and tried by a must-fail edit: the first wire's (second_is_first).
pub fn second(n: u8, old: u8, x: u8) -> u8
    ensures { result ≡ second_with n old x }
{
    if n == 1 { x } else { old }
}

impl Sources {
    // The table of a board without wires.
    // Ruled out, and tried by a must-fail edit: one source of each node (none_counted).
    pub fn none() -> Sources
        ensures { Tabled [] result.counts result.lists result.seconds }
    {
        Sources {
            counts: [0; 64],
            lists: [0; 512],
            seconds: [0; 64],
        }
    }

    // The distinct sources of a node that has at most eight.
    // Ruled out, and tried by a must-fail edit: those of node 0 (sources_of_first).
    pub fn of(&self, node: usize) -> &[u8]
        requires { (node < 64) × (get_or self.now.counts node 0 ≤ 8) }
        ensures count { length result.now ≡ get_or self.now.counts node 0 }
        ensures items { result.now ≡ take (get_or self.now.counts node 0) (drop (8 * node) self.now.lists) }
    {
        let first = 8 * node;
        &self.lists[first..first + usize::from(self.counts[node])]
    }

    // One source more of a node that has fewer than eight, and not this one.
    // Ruled out, and tried by a must-fail edit: a source over the first one (push_over_first_source).
    pub fn push(&mut self, target: usize, source: u8)
        requires { (target < 64) × (get_or self.old.counts target 0 < 8) }
        ensures counts { self.new.counts ≡ set self.old.counts target (get_or self.old.counts target 0 + 1) }
        ensures lists { self.new.lists ≡ set self.old.lists (8 * target + get_or self.old.counts target 0) source }
    {
        let n = self.counts[target];
        self.lists[8 * target + usize::from(n)] = source;
        self.counts[target] = n + 1;
    }

    // One wire more, from `source` to `target`, into which `nth` wires lead already.
    pub fn add(&mut self, target: usize, nth: u8, source: u8)
        requires { (target < 64) × (get_or self.old.counts target 0 ≤ 9) }
        ensures { Added target nth source self.old self.new }
    {
        self.seconds[target] = second(nth, self.seconds[target], source);
        let count = self.counts[target];
        self.counts[target] = add_source(&mut self.lists, 8 * target, count, source);
    }
}
