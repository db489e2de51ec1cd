// Whole numbers below 2^512.
ghost use Rattle.std.specs.Prelude.{◌≡◌, ◌+◌, ◌*◌, ◌^◌, ◌<◌, MatchOption};
ghost use Rattle.decimals.specs.Big.{value_of, limit};

// A number in words of 32 bits, the lowest first: an array of fixed length, since libraries have no heap.
#[derive(Clone, Copy)]
pub struct Big {
    pub words: [u32; 16],
}

// A small number.
pub fn small(word: u32) -> Big
    ensures { value_of result ≡ word }
{
    let mut words = [0u32; 16];
    words[0] = word;
    Big { words }
}

// a times m, plus c.
pub fn times(a: Big, m: u32, c: u32) -> Big
    requires { value_of a * m + c < limit }
    ensures { value_of result ≡ value_of a * m + c }
{
    let mut words = [0u32; 16];
    let mut carry = u64::from(c);
    // An index: a word's place is its weight, which the invariant speaks of. Tried with `iter_mut().zip`, which
    // gives the invariant no place: it stayed open.
    for i in 0..16 {
        let sum = u64::from(a.words[i]) * u64::from(m) + carry;
        words[i] = (sum % 0x1_0000_0000) as u32;
        carry = sum / 0x1_0000_0000;
    }
    Big { words }
}

// a less b, if a is not the less. Inlined, so that a caller who asks only whether there is a rest makes none.
#[inline(always)]
pub fn minus(a: Big, b: Big) -> Option<Big>
    ensures { MatchOption result (value_of a < value_of b) (λ rest. value_of rest + value_of b ≡ value_of a) }
{
    let mut words = [0u32; 16];
    let mut borrow: u64 = 0;
    // An index: as in `times`.
    for i in 0..16 {
        let left = u64::from(a.words[i]) + 0x1_0000_0000 - u64::from(b.words[i]) - borrow;
        words[i] = (left % 0x1_0000_0000) as u32;
        borrow = 1 - left / 0x1_0000_0000;
    }
    if borrow == 0 {
        Some(Big { words })
    } else {
        None
    }
}

// a times m, k times over.
pub fn raised(a: Big, m: u32, k: u32) -> Big
    requires { (0 < m) × (value_of a * m ^ k < limit) }
    ensures { value_of result ≡ value_of a * m ^ k }
{
    let mut made = a;
    for _ in 0..k {
        made = times(made, m, 0);
    }
    made
}
