// Answers as bytes: one that is no rows is written from the start of the lent bytes, and what rows are made of is given part by part.
ghost use Rattle.std.specs.Prelude.{◌≡◌, ◌≤◌, [], ◌∷◌, length};
ghost use Rattle.wire.specs.Bytes.{two, four, over};
ghost use Rattle.wire.specs.Answers.{answer_form, outcome};

use crate::kind::AnswerKind;
use crate::refusal::Refusal;

// A letter with its place takes so many bytes of an answer.
pub const LETTER_BYTES: usize = 5;

// Rows of letters are not here: they are written one by one as they are set.
#[derive(Clone, Copy, Debug, PartialEq, Eq)]
pub enum Answer {
    Done,
    Refused(Refusal),
    Numbers(u32, u32),
}

impl From<Result<(), Refusal>> for Answer {
    ghost from_gives = { λ made answer. answer ≡ outcome made };

    fn from(made: Result<(), Refusal>) -> Answer {
        match made {
            Ok(()) => Answer::Done,
            Err(why) => Answer::Refused(why),
        }
    }
}

// How many bytes were written.
#[tactic(auto, unfolding(crate::specs::Bytes::answer_bytes))]
pub fn write_answer(out: &mut [u8], answer: Answer) -> usize
    requires { 9 ≤ length out.old }
    ensures value { result ≡ length (answer_form answer) }
    ensures after { out.new ≡ over (answer_form answer) out.old }
{
    match answer {
        Answer::Done => {
            out[0] = u8::from(AnswerKind::Done);
            1
        }
        Answer::Refused(why) => {
            out[0] = u8::from(AnswerKind::Refused);
            out[1] = why.number();
            out[2..6].copy_from_slice(&why.place().to_be_bytes());
            6
        }
        Answer::Numbers(a, b) => {
            out[0] = u8::from(AnswerKind::Numbers);
            out[1..5].copy_from_slice(&a.to_be_bytes());
            out[5..9].copy_from_slice(&b.to_be_bytes());
            9
        }
    }
}

// What rows begin with: how many they are.
pub fn rows_start(count: u8) -> [u8; 2]
    ensures { result ≡ 2 ∷ (count ∷ []) }
{
    [u8::from(AnswerKind::Rows), count]
}

// What a row begins with: how many letters it has.
pub fn row_start(letters: u16) -> [u8; 2]
    ensures { result ≡ two letters }
{
    letters.to_be_bytes()
}

pub fn letter_bytes(letter: u8, place: u32) -> [u8; LETTER_BYTES]
    ensures { result ≡ letter ∷ four place }
{
    let [p0, p1, p2, p3] = place.to_be_bytes();
    [letter, p0, p1, p2, p3]
}
