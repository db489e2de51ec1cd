// The board judge: check 6, with the table of sources, and the board that all calls work on.
ghost use Rattle.std.specs.Prelude.{◌≡◌, [], true, ◌&&◌, ◌<◌, not, length, take, fold, position};
ghost use Rattle.boards.specs.Board.{Parsed};
ghost use Rattle.boards.specs.Judge.{pass_at, check_sources, check_six, read_board, judge_of};
ghost use Rattle.boards.specs.BoardParts.{Decides, Counts, fits, beside};
ghost use Rattle.boards.specs.Read.{Read, PartsRead};
ghost use Rattle.sources.specs.Sources.{Tabled};

use crate::board::{Board, Head, Wires};
use crate::nodes::Nodes;
use crate::read::{read_end, read_head, read_nodes, read_wires};
use kinds::kind::is_pass;
use records::answer::Answer;
use sources::sources::Sources;

// Whether each of the nodes has as many sources as its type takes. All are looked at, so that several
// go at once.
fn all_fit(nodes: &Nodes, counts: &[u8; 64]) -> bool
    ensures { result ≡ fold (λ all p. all && fits p) true (beside nodes.now.bounds counts.now nodes.now.count) }
{
    let bounds = nodes.bounds[..nodes.count].iter();
    bounds
        .zip(counts)
        .fold(true, |all, (b, n)| all & b.allow(*n))
}

// The lowest node with a wrong number of sources.
fn first_unfit(nodes: &Nodes, counts: &[u8; 64]) -> Option<usize>
    ensures { result ≡ position (λ p. not (fits p)) (beside nodes.now.bounds counts.now nodes.now.count) }
{
    let bounds = nodes.bounds[..nodes.count].iter();
    bounds.zip(counts).position(|(b, n)| !b.allow(*n))
}

// The lowest node with a wrong number of sources is refused.
fn sources_judged(nodes: &Nodes, counts: &[u8; 64]) -> Result<(), Answer>
    ensures { (p : Parsed) → length p.nodes ≡ nodes.now.count → Counts p nodes.now.bounds counts.now → Decides (check_sources p 0 p.nodes) p result }
{
    match first_unfit(nodes, counts) {
        Some(i) => Err(Answer::new(6, i)),
        None => Ok(()),
    }
}

// Whether node i is one of the nodes and a pass.
fn pass_at(nodes: &Nodes, i: usize) -> bool
    ensures { result ≡ pass_at (take nodes.now.count nodes.now.nodes) i }
{
    i < nodes.count && is_pass(nodes.nodes[i].kind)
}

// Check 6: there is a node 0, then the input node, which is a pass without wires in, then the sources
// of each node.
fn check_six(nodes: &Nodes, input: usize, counts: &[u8; 64]) -> Result<(), Answer>
    requires { input < 65536 }
    ensures { (p : Parsed) → p.nodes ≡ take nodes.now.count nodes.now.nodes → p.input ≡ input
        → Counts p nodes.now.bounds counts.now → Decides (check_six p) p result }
{
    if nodes.count == 0 {
        return Err(Answer::new(6, 0));
    }
    if !pass_at(nodes, input) {
        return Err(Answer::new(6, input));
    }
    if counts[input] != 0 {
        return Err(Answer::new(6, input));
    }
    if all_fit(nodes, counts) {
        Ok(())
    } else {
        sources_judged(nodes, counts)
    }
}

// The parts of the board that the bytes hold, or the first refusal: checks 1 to 6. The parts are read
// into room that is lent for them, since each function that hands them on copies them.
fn read_parts(
    s: &[u8],
    nodes: &mut Nodes,
    wires: &mut Wires,
    sources: &mut Sources,
) -> Result<Head, Answer>
    requires { Tabled [] sources.old.counts sources.old.lists sources.old.seconds }
    ensures { PartsRead (read_board s.now) nodes.new wires.new sources.new result }
{
    let head = read_head(s)?;
    read_nodes(s, head.size, nodes)?;
    let end = read_wires(s, nodes.next, nodes.count, wires, sources)?;
    read_end(s, end)?;
    check_six(nodes, head.input, &sources.counts)?;
    Ok(head)
}

// The board that the bytes hold, or the first refusal: checks 1 to 6. One function puts the parts
// together, since each that hands a board on copies it.
// Ruled out, and tried by must-fail edits: one that refuses every board (refuses_all), one that takes
// the second distinct source for the second wire's (sources, second_distinct).
pub fn read_board(s: &[u8]) -> Result<Board, Answer>
    ensures { Read (read_board s.now) result }
{
    let mut nodes = Nodes::none();
    let mut wires = Wires::none();
    let mut sources = Sources::none();
    let head = read_parts(s, &mut nodes, &mut wires, &mut sources)?;
    Ok(Board {
        size: head.size,
        input: head.input,
        count: nodes.count,
        nodes: nodes.nodes,
        values: nodes.values,
        wires,
        sources,
    })
}

// The board judge: a refusal, or 0 and the memory's length. Not by `read_board`, which copies the board.
// Ruled out: a memory length that is not the sum of the cells (memory_invented), a count of
// wires and not of distinct sources (sources, repeat_counts).
pub fn judge(s: &[u8]) -> Answer
    ensures { result ≡ judge_of s.now }
{
    let mut nodes = Nodes::none();
    let mut wires = Wires::none();
    let mut sources = Sources::none();
    match read_parts(s, &mut nodes, &mut wires, &mut sources) {
        Ok(_) => Answer::new(0, 4 * nodes.values),
        Err(refusal) => refusal,
    }
}
