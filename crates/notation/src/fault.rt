// What is wrong with a text that is to be tokens.
ghost use Rattle.std.specs.Prelude.{◌≡◌, Some};
ghost use Rattle.notation.specs.declared.fault.Fault.TheVariants.{NoMemory};
ghost use Rattle.notation.specs.Messages.{fault_text};

use std::alloc::AllocError;
use std::error::Error;
use std::fmt;

#[derive(Clone, Copy, Debug, PartialEq, Eq)]
pub enum Fault {
    // a backslash that begins no token
    NoToken,
    // a number above 255
    TooLarge,
    // a brace that belongs to no note and no command
    OpensNothing,
    ClosesNothing,
    // the text ends in a note or a command
    Unclosed,
    // the text may be right
    NoMemory,
}

impl Fault {
    pub fn message(self) -> &'static str
        ensures { result.now ≡ fault_text self }
    {
        match self {
            Fault::NoToken => "a backslash begins no token",
            Fault::TooLarge => "a token's number is too large",
            Fault::OpensNothing => "a brace opens nothing",
            Fault::ClosesNothing => "a brace closes nothing",
            Fault::Unclosed => "a brace is not closed",
            Fault::NoMemory => "there is no memory left",
        }
    }
}

impl fmt::Display for Fault {
    ghost output = { λ x. Some (fault_text x) };

    fn fmt<W: fmt::Write>(&self, f: &mut fmt::Formatter<W>) -> fmt::Result {
        f.write_str(self.message())
    }
}

impl Error for Fault {}

impl From<AllocError> for Fault {
    ghost from_gives = { λ _ r. r ≡ NoMemory };

    fn from(_error: AllocError) -> Fault {
        Fault::NoMemory
    }
}
