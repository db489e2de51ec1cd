// The noise of the end-of-line rig: the 32-bit xorshift generator of Marsaglia's paper "Xorshift RNGs", and a
// sample a step.
ghost use Rattle.std.specs.Prelude.{◌≡◌, ◌<◌, ◌/◌, ◌%◌, ℕ, length};
ghost use Rattle.leaves.specs.Noise.{default_start, start_of, xorshift, state_after, sample_of, noise_block};

use std::marker::Model;
use values::float::store;

// A generator. Contracts see it as its state, which is never zero: from zero no step leads away.
#[derive(Drop)]
pub struct Noise {
    state: u32,
}

impl Model for Noise {
    ghost Value = { ℕ };

    ghost view = { λ a. a.state };

    ghost invariant = { λ a. 0 < a.state };
}

impl Noise {
    // The paper's start.
    pub const DEFAULT_START: u32 = 2463534242;

    // From the default start.
    pub fn new() -> Self
        ensures { result ≡ default_start }
    {
        Noise {
            state: Self::DEFAULT_START,
        }
    }

    // From a start given by the caller; zero means the default.
    // Ruled out, and tried by a must-fail edit: a start of zero that is kept (zero_start_kept).
    pub fn from_start(start: u32) -> Self
        ensures { result ≡ start_of start }
    {
        if start == 0 {
            Self::new()
        } else {
            Noise { state: start }
        }
    }

    // The state: a generator started from it goes on as this one does.
    pub fn state(&self) -> u32
        ensures { result ≡ self.now }
    {
        self.state
    }

    // A step.
    // Ruled out, and tried by must-fail edits: the shifts in another order (shifts_exchanged), the one to the right
    // with the sign drawn in (right_shift_signed).
    pub fn step(&mut self)
        ensures { self.new ≡ xorshift self.old }
    {
        let mut s = self.state;
        s ^= s << 13;
        s ^= s >> 17;
        s ^= s << 5;
        self.state = s;
    }

    // The sample of the state as it is: its upper 24 bits, less 2^23, over 2^23, with nothing lost.
    // Ruled out, and tried by a must-fail edit: the lower 24 bits (lower_bits).
    pub fn sample(&self) -> f32
        ensures { result ≡ sample_of self.now }
    {
        let upper = (self.state / 0x100) as i32;
        (upper - 0x80_0000) as f32 / 8388608.0
    }

    // A step, and its sample.
    // Ruled out, and tried by a must-fail edit: the sample taken before the step (sample_before_step).
    pub fn next_sample(&mut self) -> f32
        ensures state { self.new ≡ xorshift self.old }
        ensures sample { result ≡ sample_of self.new }
    {
        self.step();
        self.sample()
    }

    // The next samples, as a float block.
    pub fn fill(&mut self, block: &mut [u8])
        requires { length block.old % 4 ≡ 0 }
        ensures block { block.new ≡ noise_block (length block.old / 4) self.old }
        ensures state { self.new ≡ state_after (length block.old / 4) self.old }
    {
        for i in 0..block.len() / 4 {
            store(block, i, self.next_sample());
        }
    }
}
