// Why there is no book.
use crate::book::Denied;
use std::alloc::AllocError;
use std::{fmt, io};
use text::Fault;

// What the input says that is refused.
#[derive(Clone, Copy)]
pub(crate) enum Part {
    Opening,
    Definition,
    Paragraph,
}

impl fmt::Display for Part {
    fn fmt<W: fmt::Write>(&self, f: &mut fmt::Formatter<W>) -> fmt::Result {
        f.write_str(match self {
            Part::Opening => "opening",
            Part::Definition => "definition",
            Part::Paragraph => "paragraph",
        })
    }
}

#[derive(Clone, Copy)]
pub(crate) enum Why {
    Fault(Fault),
    NoText,
    Denied(Part, Denied),
}

impl From<Fault> for Why {
    fn from(fault: Fault) -> Why {
        Why::Fault(fault)
    }
}

impl From<AllocError> for Why {
    fn from(error: AllocError) -> Why {
        Why::Fault(Fault::from(error))
    }
}

impl fmt::Display for Why {
    fn fmt<W: fmt::Write>(&self, f: &mut fmt::Formatter<W>) -> fmt::Result {
        match self {
            Why::Fault(fault) => write!(f, "{fault}"),
            Why::NoText => f.write_str("the line text is missing"),
            Why::Denied(part, _) => write!(f, "the {part} is refused"),
        }
    }
}

// With the line of the input that is at fault.
#[derive(Clone, Copy)]
pub(crate) struct Failure {
    line: u64,
    why: Why,
}

impl Why {
    pub(crate) fn at(self, line: u64) -> Failure {
        Failure { line, why: self }
    }
}

impl fmt::Display for Failure {
    fn fmt<W: fmt::Write>(&self, f: &mut fmt::Formatter<W>) -> fmt::Result {
        write!(f, "line {}: {}", self.line, self.why)
    }
}

impl Failure {
    // What is answered, where the book can be read.
    pub(crate) fn answer(&self) -> Option<Denied> {
        match self.why {
            Why::Denied(_, denied) => Some(denied),
            _ => None,
        }
    }

    // The error is to end the program.
    pub(crate) fn tell(&self, rt: &HostRuntime) -> io::Result<()> {
        eprintln!(rt; "{self}")?;
        if let Some(denied) = self.answer() {
            rt.println(denied)?;
        }
        Err(io::Error::from(io::ErrorKind::InvalidData))
    }
}
