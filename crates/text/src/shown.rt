// Answers as text.
ghost use Rattle.std.specs.Prelude.{◌≡◌, Some};
ghost use Rattle.meaning.specs.Calls.{done};
ghost use Rattle.text.specs.Shown.{exactly, refused_of, numbers_of, answer_in, shown_text, heard};

use crate::call::Question;
use crate::outcome::Refused;
use crate::rows::Rows;
use std::fmt;
use wire::AnswerKind;

// What an answer says.
#[derive(Clone, Copy, Debug, PartialEq, Eq)]
pub enum Heard<'a> {
    Done,
    Refused(Refused),
    Rows(Rows<'a>),
    Numbers(u32, u32),
}

fn hear_done(bytes: &[u8]) -> Option<Heard<'_>>
    ensures { heard result ≡ exactly 0 bytes.now done }
{
    bytes.is_empty().then_some(Heard::Done)
}

// `exports` takes the same bytes apart to tell C their number; one reader in `wire` for both would have a contract longer than either.
fn hear_refused(bytes: &[u8]) -> Option<Heard<'_>>
    ensures { heard result ≡ refused_of bytes.now }
{
    let (number, place) = bytes.split_first()?;
    let refused = Refused {
        number: *number,
        place: u32::from_be_bytes(place.try_into().ok()?),
    };
    Some(Heard::Refused(refused))
}

fn hear_numbers(bytes: &[u8]) -> Option<Heard<'_>>
    ensures { heard result ≡ numbers_of bytes.now }
{
    let (a, b) = bytes.split_first_chunk()?;
    let b = b.try_into().ok()?;
    Some(Heard::Numbers(u32::from_be_bytes(*a), u32::from_be_bytes(b)))
}

// None where bytes are no answer.
#[tactic(auto, unfolding(crate::specs::Shown::answer_in))]
pub fn hear(bytes: &[u8]) -> Option<Heard<'_>>
    ensures { heard result ≡ answer_in bytes.now }
{
    let (kind, fields) = bytes.split_first()?;
    match AnswerKind::try_from(*kind).ok()? {
        AnswerKind::Done => hear_done(fields),
        AnswerKind::Refused => hear_refused(fields),
        AnswerKind::Rows => Some(Heard::Rows(Rows::of(fields)?)),
        AnswerKind::Numbers => hear_numbers(fields),
    }
}

// The bytes of an answer to a question, as text.
#[derive(Clone, Copy, Debug, PartialEq, Eq)]
pub struct Shown<'a> {
    pub question: Question,
    pub bytes: &'a [u8],
}

impl fmt::Display for Shown<'_> {
    ghost output = { λ x. Some (shown_text x.question x.bytes.now) };

    fn fmt<W: fmt::Write>(&self, f: &mut fmt::Formatter<W>) -> fmt::Result {
        match hear(self.bytes) {
            Some(Heard::Done) => f.write_str("done"),
            Some(Heard::Refused(refused)) => write!(f, "{refused}"),
            Some(Heard::Rows(rows)) => write!(f, "{rows}"),
            Some(Heard::Numbers(a, b)) => match self.question {
                Question::Page => write!(f, "page {a}"),
                Question::Pages if b == 1 => write!(f, "pages {a} at rest"),
                Question::Pages => write!(f, "pages {a} not at rest"),
                Question::Change | Question::Rows => f.write_str("no answer"),
            },
            None => f.write_str("no answer"),
        }
    }
}
