// What is wrong with a line.
ghost use Rattle.std.specs.Prelude.{◌≡◌, Some};
ghost use Rattle.text.specs.declared.fault.Fault.TheVariants.{NoMemory};
ghost use Rattle.text.specs.Messages.{fault_text, fault_in};

use std::alloc::{AllocError, AllocFailed};
use std::error::Error;
use std::fmt;

#[derive(Clone, Copy, Debug, PartialEq, Eq)]
pub enum Fault {
    Unknown,
    OutOfPlace,
    NumberMissing,
    NoNumber,
    TooLarge,
    NoLetter,
    NoByte,
    TooMuch,
    Notation(notation::Fault),
    NoMemory,
}

impl Fault {
    fn message(self) -> &'static str
        ensures { result.now ≡ fault_text self }
    {
        match self {
            Fault::Unknown => "no such line",
            Fault::OutOfPlace => "this line is not due here",
            Fault::NumberMissing => "a number is missing",
            Fault::NoNumber => "a number is due here",
            Fault::TooLarge => "a number is too large",
            Fault::NoLetter => "a letter, space or others is due here",
            Fault::NoByte => "two hexadecimal digits are due here",
            Fault::TooMuch => "the line goes on where it should end",
            Fault::Notation(fault) => fault.message(),
            Fault::NoMemory => "there is no memory left",
        }
    }
}

impl fmt::Display for Fault {
    ghost output = { λ x. Some (fault_text x) };

    fn fmt<W: fmt::Write>(&self, f: &mut fmt::Formatter<W>) -> fmt::Result {
        f.write_str(self.message())
    }
}

impl Error for Fault {}

impl From<notation::Fault> for Fault {
    ghost from_gives = { λ x r. r ≡ fault_in x };

    fn from(fault: notation::Fault) -> Fault {
        match fault {
            notation::Fault::NoMemory => Fault::NoMemory,
            _ => Fault::Notation(fault),
        }
    }
}

impl From<AllocError> for Fault {
    ghost from_gives = { λ _ r. r ≡ NoMemory };

    fn from(_error: AllocError) -> Fault {
        Fault::NoMemory
    }
}

impl<T: Drop> From<AllocFailed<T>> for Fault {
    ghost from_gives = { λ _ r. r ≡ NoMemory };

    fn from(_refused: AllocFailed<T>) -> Fault {
        Fault::NoMemory
    }
}
