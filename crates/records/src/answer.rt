// What a call gives back.
ghost use Rattle.std.specs.Prelude.{◌≡◌, ◌<◌};
ghost use Rattle.records.specs.Answer.{answer, checked, told};

// A number, 0 for success, and a place. Refusals stay numbers: document 01 numbers them ("Answers by
// number"), and the calls hand them to C as they are.
#[repr(C)]
#[derive(Clone, Copy)]
pub struct Answer {
    pub number: u32,
    pub place: u32,
}

impl Answer {
    pub fn new(number: u32, place: usize) -> Self
        requires { place < 4294967296 }
        ensures { result ≡ answer number place }
    {
        Answer {
            number,
            place: place as u32,
        }
    }

    // The same for `?`: a refusal is an error.
    // Ruled out, and tried by a must-fail edit: a refusal that passes (refusal_passed).
    pub fn checked(self) -> Result<(), Answer>
        ensures { result ≡ checked self }
    {
        if self.number == 0 { Ok(()) } else { Err(self) }
    }
}

// A call's answer: 0 where it was done, or its refusal.
// Ruled out, and tried by a must-fail edit: a refusal told as done (refusal_told_as_done).
impl From<Result<(), Answer>> for Answer {
    ghost from_gives = { λ done a. a ≡ told done };

    fn from(done: Result<(), Answer>) -> Answer {
        match done {
            Ok(()) => Answer {
                number: 0,
                place: 0,
            },
            Err(refused) => refused,
        }
    }
}
