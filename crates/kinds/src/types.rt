// The ten node types by name, and their numbers in a board's bytes.
ghost use Rattle.std.specs.Prelude.{◌≡◌, ◌⊎◌, ◌<◌, MatchResult};
ghost use Rattle.std.specs.Result.{result_ok};
ghost use Rattle.kinds.specs.Types.{type_number, type_at, has_whole, has_float};

// A node's type, without what a node of it holds.
#[derive(Clone, Copy, PartialEq, Eq)]
pub enum Kind {
    Pass,
    Sum,
    Destination,
    Balance,
    Mul,
    Add,
    Delay,
    AllPass,
    OnePole,
    Sine,
}

// The number that stands for it in a node record.
impl From<Kind> for u16 {
    ghost from_gives = { λ k t. t ≡ type_number k };

    fn from(kind: Kind) -> u16 {
        match kind {
            Kind::Pass => 1,
            Kind::Sum => 2,
            Kind::Destination => 3,
            Kind::Balance => 4,
            Kind::Mul => 5,
            Kind::Add => 6,
            Kind::Delay => 7,
            Kind::AllPass => 8,
            Kind::OnePole => 9,
            Kind::Sine => 10,
        }
    }
}

// A number that no type has.
#[derive(Clone, Copy)]
pub struct NoKind;

// The type that a node record's number stands for.
impl TryFrom<u16> for Kind {
    type Error = NoKind;

    ghost try_from_gives = { λ t r. (result_ok r ≡ type_at t) × MatchResult r (λ k. type_number k ≡ t) (λ _. (t ≡ 0) ⊎ (10 < t)) };

    fn try_from(t: u16) -> Result<Self, NoKind> {
        match t {
            1 => Ok(Kind::Pass),
            2 => Ok(Kind::Sum),
            3 => Ok(Kind::Destination),
            4 => Ok(Kind::Balance),
            5 => Ok(Kind::Mul),
            6 => Ok(Kind::Add),
            7 => Ok(Kind::Delay),
            8 => Ok(Kind::AllPass),
            9 => Ok(Kind::OnePole),
            10 => Ok(Kind::Sine),
            _ => Err(NoKind),
        }
    }
}

impl Kind {
    // Whether a node of it has a whole number: a line's length.
    pub fn has_whole(self) -> bool
        ensures { result ≡ has_whole self }
    {
        matches!(self, Kind::Delay | Kind::AllPass)
    }

    // Whether a node of it has a float: a number, a coefficient or a frequency.
    pub fn has_float(self) -> bool
        ensures { result ≡ has_float self }
    {
        matches!(
            self,
            Kind::Mul | Kind::Add | Kind::AllPass | Kind::OnePole | Kind::Sine
        )
    }
}
