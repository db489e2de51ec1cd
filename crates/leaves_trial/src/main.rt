// Runs the leaves on the questions on standard input and writes a line with two words for each. A
// question is four words: which leaf, and what it is asked. `tools/leaves_vectors.py` writes the
// questions, and the lines by its own reading of the documents.
#![tactic(auto)]

ghost use Rattle.std.specs.Prelude.{◌≡◌, length};

use input::read_full;
use leaves::noise::Noise;
use leaves::onepole::OnePole;
use std::{fmt, io};
use values::bytes::u32_at;
use values::float::{finite, of_bits, to_bits, within};

// The words of a line.
#[derive(Clone, Copy)]
struct Words(u32, u32);

// Where the leaf may not be asked: words that the stored answers hold.
const OUTSIDE: Words = Words(0xffff_ffff, 0);

impl fmt::Display for Words {
    fn fmt<W: fmt::Write>(&self, f: &mut fmt::Formatter<W>) -> fmt::Result {
        write!(f, "{:08x} {:08x}", self.0, self.1)
    }
}

fn sine(phase: f32) -> Words {
    if within(phase, 1.0) {
        Words(
            to_bits(leaves::sine::sine(leaves::sine::phase_units(phase))),
            0,
        )
    } else {
        OUTSIDE
    }
}

// A line's length; or the number that stands for none, 12.
fn length(samples: Option<u32>) -> Words {
    samples.map_or(Words(12, 0), |n| Words(0, n))
}

fn position(m: f32, n: u32) -> Words {
    if n <= 132300 {
        let p = leaves::position::split(leaves::position::position(m, n));
        Words(p.index, to_bits(p.rest))
    } else {
        OUTSIDE
    }
}

fn phase(p: f32, f: f32) -> Words {
    let by = leaves::phase::increment(f);
    Words(to_bits(by), to_bits(leaves::phase::advance(p, by)))
}

fn pole(b: f32, y1: f32, x: f32) -> Words {
    let p = OnePole::new(b, y1);
    let q = p.step(x);
    Words(to_bits(p.a), to_bits(q.y1))
}

fn range(x: f32, most: f32) -> Words {
    Words(u32::from(finite(x)), u32::from(within(x, most)))
}

// A converter's word going in.
fn word_in(word: u32) -> Words {
    if word < 0x100_0000 {
        Words(to_bits(leaves::converter::of_word(word)), 0)
    } else {
        OUTSIDE
    }
}

// Noise: the state and its sample, so many steps after a start.
fn noise(start: u32, steps: u32) -> Words {
    let mut noise = Noise::from_start(start);
    for _ in 0..steps {
        noise.step();
    }
    Words(noise.state(), to_bits(noise.sample()))
}

// What a question asks, by its first word.
#[derive(Clone, Copy)]
enum Leaf {
    Bits,
    Range,
    Sine,
    DelayLength,
    AllPassLength,
    Position,
    Phase,
    Pole,
    Constants,
    WordIn,
    WordOut,
    Noise,
}

// A number that no leaf has.
#[derive(Clone, Copy)]
struct NoLeaf;

impl TryFrom<u32> for Leaf {
    type Error = NoLeaf;

    fn try_from(number: u32) -> Result<Self, NoLeaf> {
        match number {
            0 => Ok(Leaf::Bits),
            1 => Ok(Leaf::Range),
            2 => Ok(Leaf::Sine),
            3 => Ok(Leaf::DelayLength),
            4 => Ok(Leaf::AllPassLength),
            5 => Ok(Leaf::Position),
            6 => Ok(Leaf::Phase),
            7 => Ok(Leaf::Pole),
            8 => Ok(Leaf::Constants),
            9 => Ok(Leaf::WordIn),
            10 => Ok(Leaf::WordOut),
            11 => Ok(Leaf::Noise),
            _ => Err(NoLeaf),
        }
    }
}

// The answer to a question. A match: each leaf takes other numbers.
fn answer(question: &[u8]) -> Words
    requires { length question.now ≡ 16 }
{
    let Ok(leaf) = Leaf::try_from(u32_at(question, 0)) else {
        return OUTSIDE;
    };
    let a = u32_at(question, 4);
    let b = u32_at(question, 8);
    let c = u32_at(question, 12);
    match leaf {
        Leaf::Bits => Words(to_bits(of_bits(a)), 0),
        Leaf::Range => range(of_bits(a), of_bits(b)),
        Leaf::Sine => sine(of_bits(a)),
        Leaf::DelayLength => length(leaves::lengths::delay_length(of_bits(a))),
        Leaf::AllPassLength => length(leaves::lengths::all_pass_length(of_bits(a))),
        Leaf::Position => position(of_bits(a), b),
        Leaf::Phase => phase(of_bits(a), of_bits(b)),
        Leaf::Pole => pole(of_bits(a), of_bits(b), of_bits(c)),
        Leaf::Constants => Words(
            leaves::onepole::B_SEVEN_FIFTHS,
            leaves::onepole::B_ONE_FIFTH,
        ),
        Leaf::WordIn => word_in(a),
        Leaf::WordOut => Words(leaves::converter::to_word(a), 0),
        Leaf::Noise => noise(a, b),
    }
}

// A line for each whole question.
fn answer_all(rt: &impl Print, s: &[u8]) -> io::Result<()> {
    for question in s.chunks_exact(16) {
        println!(rt; "{}", answer(question))?;
    }
    Ok(())
}

// Two calls over a buffer, as in judge_run: a function of both would be as long, and take a closure.
fn main(rt: HostRuntime) -> io::Result<()> {
    let mut questions = [0u8; 65536];
    let n = read_full(&mut rt.stdin(), &mut questions)?;
    answer_all(&rt, &questions[..n])
}
