// How an answer is shown.
ghost use Rattle.std.specs.Prelude.{◌≡◌, Some};
ghost use Rattle.wire.specs.Refusals.{refusal_number, refusal_place};
ghost use Rattle.text.specs.Messages.{refused_text, outcome_text};

use std::fmt;
use wire::Refusal;

// Of a call that was refused.
#[derive(Clone, Copy, Debug, PartialEq, Eq)]
pub struct Refused {
    pub number: u8,
    pub place: u32,
}

impl From<Refusal> for Refused {
    ghost from_gives = { λ x r. r ≡ record { number = refusal_number x; place = refusal_place x } };

    fn from(refusal: Refusal) -> Refused {
        Refused {
            number: refusal.number(),
            place: refusal.place(),
        }
    }
}

impl fmt::Display for Refused {
    ghost output = { λ x. Some (refused_text x.number x.place) };

    fn fmt<W: fmt::Write>(&self, f: &mut fmt::Formatter<W>) -> fmt::Result {
        let Refused { number, place } = *self;
        write!(f, "refused {number} at {place}")
    }
}

// Of a call that is answered with nothing more than that it is done.
#[derive(Clone, Copy, Debug, PartialEq, Eq)]
pub struct Outcome(pub Result<(), Refusal>);

impl fmt::Display for Outcome {
    ghost output = { λ x. Some (outcome_text x.0) };

    fn fmt<W: fmt::Write>(&self, f: &mut fmt::Formatter<W>) -> fmt::Result {
        match self.0 {
            Ok(()) => f.write_str("done"),
            Err(refusal) => write!(f, "{}", Refused::from(refusal)),
        }
    }
}
