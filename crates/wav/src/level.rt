// What a sound's samples may have that is worth telling: those that are infinite or NaN, and those above
// full scale, counted from block to block.
ghost use Rattle.std.specs.Prelude.{◌≡◌, ◌+◌, ◌/◌, ◌<◌, ◌≤◌, ◌^◌, Bool, Float, length, None, true};
ghost use Rattle.values.specs.Words.{words};
ghost use Rattle.wav.specs.Level.{not_finite_f, loud_f, more, counted, Tells};

use values::float::{finite, load};

// How many samples were found, and the place of the first.
#[derive(Clone, Copy, Debug, PartialEq, Eq)]
pub struct Count {
    pub count: usize,
    pub first: Option<usize>,
}

// What was found among some samples: infinite or NaN, and above full scale.
#[derive(Clone, Copy, Debug, PartialEq, Eq)]
pub struct Levels {
    pub bad: Count,
    pub loud: Count,
}

// Infinite or NaN.
pub fn not_finite(x: f32) -> bool
    ensures { result ≡ not_finite_f x }
{
    !finite(x)
}

// Finite, and above 1 or below -1.
#[tactic(auto, unfolding(crate::specs::Level::loud_f))]
pub fn loud(x: f32) -> bool
    ensures { result ≡ loud_f x }
{
    finite(x) & ((x > 1.0) | (x < -1.0))
}

impl Count {
    pub fn none() -> Count
        ensures count { result.count ≡ 0 }
        ensures first { result.first ≡ None }
    {
        Count {
            count: 0,
            first: None,
        }
    }

    // One sample more, at a place.
    fn with(self, at: usize) -> Count
        requires { self.count < 2 ^ 40 }
        ensures { result ≡ more true at self }
    {
        Count {
            count: self.count + 1,
            first: self.first.or(Some(at)),
        }
    }
}

// What was found before, and those of some 4-byte values that the test takes; the first of these stands
// at the place `from`. Ruled out: the place of the last found for that of the first (last_place).
pub fn count_faults<F: Fn(f32) -> bool>(
    values: &[u8],
    is_fault: F,
    from: usize,
    before: Count,
) -> Count
    requires callable { F.IsAlwaysCallable is_fault }
    requires room { (before.count ≤ from) × (from + length values.now / 4 ≤ 2 ^ 40) }
    ensures counted { (faulty : Float → Bool) → Tells (F.post is_fault) faulty (words values.now) (length values.now / 4)
        → result ≡ counted faulty (words values.now) from before (length values.now / 4) }
    ensures few { result.count ≤ from + length values.now / 4 }
{
    let mut c = before;
    // An index: it is told where a fault is the first, and `load` takes it for the value.
    for i in 0..values.len() / 4 {
        if is_fault(load(values, i)) {
            c = c.with(from + i);
        }
    }
    c
}

impl Levels {
    pub fn none() -> Levels
        ensures bad { (result.bad.count ≡ 0) × (result.bad.first ≡ None) }
        ensures loud { (result.loud.count ≡ 0) × (result.loud.first ≡ None) }
    {
        Levels {
            bad: Count::none(),
            loud: Count::none(),
        }
    }

    // What was found before, and what some 4-byte values have; the first of these stands at the place
    // `from`. Ruled out: an infinity that counts as loud (infinity_loud).
    pub fn with(self, values: &[u8], from: usize) -> Levels
        requires { (self.bad.count ≤ from) × (self.loud.count ≤ from) × (from + length values.now / 4 ≤ 2 ^ 40) }
        ensures bad { result.bad ≡ counted not_finite_f (words values.now) from self.bad (length values.now / 4) }
        ensures loud { result.loud ≡ counted loud_f (words values.now) from self.loud (length values.now / 4) }
        ensures few { (result.bad.count ≤ from + length values.now / 4) × (result.loud.count ≤ from + length values.now / 4) }
    {
        Levels {
            bad: count_faults(values, not_finite, from, self.bad),
            loud: count_faults(values, loud, from, self.loud),
        }
    }
}
