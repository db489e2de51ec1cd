// The oscillator's phase, from one sample to the next.
ghost use Rattle.std.specs.Prelude.{◌≡◌};
ghost use Rattle.leaves.specs.Phase.{increment, advance};

use values::float::SAMPLE_RATE;

// How far a frequency moves the phase: a block divides once.
pub fn increment(f: f32) -> f32
    ensures { result ≡ increment f }
{
    f / SAMPLE_RATE
}

// A phase of exactly 1 stays 1: only what is above it is turned back.
pub fn advance(phase: f32, by: f32) -> f32
    ensures { result ≡ advance phase by }
{
    let next = phase + by;
    if next > 1.0 { next - 1.0 } else { next }
}
