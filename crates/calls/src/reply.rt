// What a call answers.
ghost use Rattle.std.specs.Prelude.{◌≡◌, ◌<◌};
ghost use Rattle.calls.specs.Engine.Parts.{replied, Fits};

use crate::refusal::Refusal;

// Stays: a number, a place and a length, since the contracts of the calls and the C interface name these three.
#[derive(Clone, Copy)]
pub struct Reply {
    pub number: u8,
    pub place: u16,
    pub length: u16,
}

impl Reply {
    // Of a call that is done, with the length of what it wrote, or refused.
    pub fn of(answer: Result<usize, Refusal>) -> Reply
        requires { Fits answer }
        ensures { result ≡ replied answer }
    {
        match answer {
            Ok(length) => Reply {
                number: 0,
                place: 0,
                length: length as u16,
            },
            Err(refusal) => Reply {
                number: refusal.number(),
                place: refusal.place() as u16,
                length: 0,
            },
        }
    }
}
