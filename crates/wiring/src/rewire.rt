// A wire added to a board that plays, or pulled from it: the calls on lent bytes. Everything is judged
// before anything is written. A wire comes as source and target, two 16-bit numbers as C gives them: bytes
// in the board's table and indices in the walk, so that one struct of both would fit none of the three.
ghost use Rattle.std.specs.Prelude.{◌≡◌, ◌++◌, ◌+◌, ◌≤◌, min, ltb, length, take, map};
ghost use Rattle.std.proofs.lemmas.List.Edits.{sets};
ghost use Rattle.reading.specs.Order.{wire};
ghost use Rattle.boards.specs.Wires.{wire_of, Within};
ghost use Rattle.records.specs.Write.{wire_bytes, end_bytes};
ghost use Rattle.wiring.specs.Rewire.{wiring, refusal, closed_up, in_front, add_of, pull_of};
ghost use Rattle.wiring.specs.Rewiring.{newest_place, Adds, Pulls, Checked};

use boards::board::wire_fits;
use boards::judge::read_board;
use carrying::carried::{Change, carried_list};
use graph::graph::{Order, visiting_list};
use kinds::kind::sources_fit;
use records::answer::Answer;
use records::writer::{put_end, put_wire};

// What a change of wires gives back: number and place as every call, and the new board's visiting list,
// the first `count` bytes of `listed`, with zeros behind them. A refusal's list is empty. Numbers and an
// array with its length: C is handed it so.
#[repr(C)]
#[derive(Clone, Copy)]
pub struct Wiring {
    pub number: u32,
    pub place: u32,
    pub count: u32,
    pub listed: [u8; 64],
}

impl Wiring {
    // The same as success or refusal: the visiting list, or what is refused and where.
    // Ruled out, and tried by a must-fail edit: a refusal that passes (refusal_listed).
    pub fn checked(&self) -> Result<Order, Answer>
        requires { self.now.number ≡ 0 → (self.now.count ≤ 64) × Within 64 self.now.listed self.now.count }
        ensures { Checked self.now result }
    {
        if self.number != 0 {
            return Err(Answer {
                number: self.number,
                place: self.place,
            });
        }
        Ok(Order {
            nodes: self.listed,
            count: self.count as usize,
        })
    }
}

// A refusal, of an empty list.
// Ruled out, and tried by a must-fail edit: one that passes (refusal_passes).
impl From<Answer> for Wiring {
    ghost from_gives = { λ refused w. w ≡ refusal refused.number refused.place };

    fn from(refused: Answer) -> Wiring {
        Wiring {
            number: refused.number,
            place: refused.place,
            count: 0,
            listed: [0; 64],
        }
    }
}

// Whether fewer than n + more bytes are lent. No sum wraps, whatever n is.
fn too_short(lent: usize, n: usize, more: usize) -> bool
    ensures { result ≡ ltb lent (n + more) }
{
    lent < more || lent - more < n
}

// 15: the length needed, n + more, held at the largest place.
fn no_room(n: usize, more: usize) -> Wiring
    ensures { result ≡ refusal 15 (min (n + more) 4294967295) }
{
    let needed = n.saturating_add(more);
    Wiring::from(Answer::new(15, needed.min(u32::MAX as usize)))
}

// 0 and a visiting list. Not `From`: a list alone is no answer.
fn listing(order: &Order) -> Wiring
    ensures { result ≡ wiring 0 0 (take order.now.count order.now.nodes) }
{
    let mut listed = [0; 64];
    listed[..order.count].copy_from_slice(order.listed());
    Wiring {
        number: 0,
        place: 0,
        count: order.count as u32,
        listed,
    }
}

// The place of the newest of these wires from `source` to `target`.
fn newest(wires: &[(u8, u8)], source: usize, target: usize) -> Option<usize>
    ensures { result ≡ newest_place (map wire_of wires.now) source target }
{
    wires.iter().rposition(|w| usize::from(w.0) == source && usize::from(w.1) == target)
}

// The visiting list with a wire added. Check 6 of the changed board can only fail at the target: the
// other nodes have the sources they had. If there is a like wire already, nothing changes. Else the
// table of sources has one entry more.
fn added(s: &[u8], source: u16, target: u16) -> Result<Order, Answer>
    ensures { Adds s.now source target result }
{
    let board = read_board(s)?;
    let wires = &board.wires;
    if !wire_fits(board.count, wires.count, source, target) {
        // Its record would stand where the end record does.
        return Err(Answer::new(5, s.len() - 4));
    }
    let from = usize::from(source);
    let to = usize::from(target);
    if to == board.input {
        return Err(Answer::new(6, to));
    }
    let was = visiting_list(&board.sources);
    if newest(wires.listed(), from, to).is_some() {
        return Ok(was);
    }
    let n = board.sources.of(to).len();
    let kind = board.nodes[to].kind;
    if !sources_fit(kind, n + 1) {
        return Err(Answer::new(6, to));
    }
    let mut sources = board.sources;
    sources.push(to, source as u8);
    let change = Change {
        adding: true,
        source: from,
        target: to,
    };
    Ok(carried_list(&sources, &was, change))
}

// The visiting list with a wire pulled, and where its record stands. Check 6 of the changed board can
// only fail at the target. If an older like wire stays, nothing changes.
fn pulled(s: &[u8], source: u16, target: u16) -> Result<(Order, usize), Answer>
    ensures { Pulls s.now source target result }
{
    let board = read_board(s)?; // Its refusals, 1 to 6, come before 16.
    let wires = board.wires.listed();
    let from = usize::from(source);
    let to = usize::from(target);
    let Some(place) = newest(wires, from, to) else {
        return Err(Answer::new(16, to));
    };
    // The head has 8 bytes, a node 14, a wire 8.
    let at = 8 + 14 * board.count + 8 * place;
    let was = visiting_list(&board.sources);
    if newest(&wires[..place], from, to).is_some() {
        return Ok((was, at));
    }
    let n = board.sources.of(to).len();
    let kind = board.nodes[to].kind;
    if !sources_fit(kind, n - 1) {
        return Err(Answer::new(6, to));
    }
    let change = Change {
        adding: false,
        source: from,
        target: to,
    };
    Ok((carried_list(&board.sources, &was, change), at))
}

// A wire record and the end record behind it.
fn put_last(bytes: &mut [u8], at: usize, source: u16, target: u16)
    requires { at + 12 ≤ length bytes.old }
    ensures { bytes.new ≡ sets bytes.old at (wire_bytes (wire source target) ++ end_bytes) }
{
    put_wire(bytes, at, source, target);
    put_end(bytes, at + 8);
}

// The first n bytes without the 8 from `at` on; those behind the new end are left alone.
fn close_bytes(bytes: &mut [u8], at: usize, n: usize)
    requires { (at + 8 ≤ n) × (n ≤ length bytes.old) }
    ensures { bytes.new ≡ in_front (closed_up at (take n bytes.old)) bytes.old }
{
    bytes.copy_within(at + 8..n, at);
}

// Adds a wire to the board that the first n bytes are, since C lends the spare bytes behind it too: its record comes before the end record, into the
// spare bytes behind. Answers 0 and the new board's visiting list; or 15, 1 to 6, or 5 or 6 of the
// changed board, and every byte is as found.
// Ruled out, and tried by must-fail edits: a length that wraps (length_wraps), a list found from the old
// wires (list_of_old_wires).
pub fn add_wire(bytes: &mut [u8], n: usize, source: u16, target: u16) -> Wiring
    ensures answered { result ≡ (add_of bytes.old n source target).0 }
    ensures bytes { bytes.new ≡ (add_of bytes.old n source target).1 }
{
    if too_short(bytes.len(), n, 8) {
        return no_room(n, 8);
    }
    match added(&bytes[..n], source, target) {
        Ok(order) => {
            put_last(bytes, n - 4, source, target);
            listing(&order)
        }
        Err(refused) => Wiring::from(refused),
    }
}

// Pulls the newest wire from `source` to `target` of the board that the first n bytes are, and closes up.
// Answers 0 and the new board's visiting list; or 15, 1 to 6, 16, or 6 of the changed board, and every
// byte is as found.
// Ruled out, and tried by must-fail edits: the oldest wire pulled (carrying, oldest_pulled), the bytes
// behind the new end cleared (spare_bytes_cleared), 16 before 1 to 6 (sixteen_first).
pub fn pull_wire(bytes: &mut [u8], n: usize, source: u16, target: u16) -> Wiring
    ensures answered { result ≡ (pull_of bytes.old n source target).0 }
    ensures bytes { bytes.new ≡ (pull_of bytes.old n source target).1 }
{
    if bytes.len() < n {
        return no_room(n, 0);
    }
    match pulled(&bytes[..n], source, target) {
        Ok((order, at)) => {
            close_bytes(bytes, at, n);
            listing(&order)
        }
        Err(refused) => Wiring::from(refused),
    }
}
