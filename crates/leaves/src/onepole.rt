// The one-pole: three floats that travel together, stepped once per sample.
ghost use Rattle.std.specs.Prelude.{◌≡◌};
ghost use Rattle.leaves.specs.OnePole.{one_pole_of, one_pole_step};

// The plate's b, as patterns: the floats nearest e^(-7π/5) and e^(-π/5) (specs/Exponential).
pub const B_SEVEN_FIFTHS: u32 = 0x3c49_8223;

pub const B_ONE_FIFTH: u32 = 0x3f08_92ad;

#[derive(Clone, Copy)]
pub struct OnePole {
    pub a: f32,
    pub b: f32,
    pub y1: f32,
}

impl OnePole {
    pub fn new(b: f32, y1: f32) -> Self
        ensures { result ≡ one_pole_of b y1 }
    {
        OnePole { a: 1.0 - b, b, y1 }
    }

    pub fn step(self, x: f32) -> Self
        ensures { result ≡ one_pole_step self x }
    {
        OnePole {
            a: self.a,
            b: self.b,
            y1: x * self.a + self.b * self.y1,
        }
    }
}
