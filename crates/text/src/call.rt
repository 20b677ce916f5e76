// Calls, one to a line, and their bytes.
ghost use Rattle.std.specs.Prelude.{◌≡◌, ◌∷◌};
ghost use Rattle.meaning.specs.Calls.{show};
ghost use Rattle.wire.specs.Bytes.{two, call_bytes};
ghost use Rattle.wire.specs.Kinds.{call_byte};
ghost use Rattle.text.specs.Calls.{verb_of, question_of, with_tokens, put_line, cut_line, show_line, where_line, how_line, call_of, Gives, Made};
ghost use Rattle.text.specs.Words.{words};

use crate::fault::Fault;
use crate::hex::read_bytes;
use crate::word::{Words, next_word, number_and_text};
use notation::read_tokens;
use std::alloc::Global;
use wire::CallKind;

// What a call asks, which says how its answer is shown.
#[derive(Clone, Copy, Debug, PartialEq, Eq)]
pub enum Question {
    Change,
    Rows,
    Page,
    Pages,
}

impl Question {
    // By the first byte of the call. It takes bytes and no kind, since it has an answer for bytes that are no call too.
    pub fn of(call: &[u8]) -> Question
        ensures { result ≡ question_of call.now }
    {
        let [kind, ..] = call else {
            return Question::Change;
        };
        match CallKind::try_from(*kind) {
            Ok(CallKind::Show) => Question::Rows,
            Ok(CallKind::WhereIs) => Question::Page,
            Ok(CallKind::HowMany) => Question::Pages,
            _ => Question::Change,
        }
    }
}

// What a line begins with that is a call.
#[derive(Clone, Copy, Debug, PartialEq, Eq)]
pub enum Verb {
    Put,
    Define,
    Cut,
    Show,
    Where,
    How,
    Bytes,
}

impl Verb {
    // None and no error where no call begins with the word: the line may still open a book.
    #[tactic(auto, unfolding(crate::specs::Calls::verb_of))]
    pub fn named(word: &[u8]) -> Option<Verb>
        ensures { result ≡ verb_of word.now }
    {
        match word {
            b"put" => Some(Verb::Put),
            b"define" => Some(Verb::Define),
            b"cut" => Some(Verb::Cut),
            b"show" => Some(Verb::Show),
            b"where" => Some(Verb::Where),
            b"how" => Some(Verb::How),
            b"bytes" => Some(Verb::Bytes),
            _ => None,
        }
    }
}

// A call's kind and a number in two bytes.
fn begun(heap: Global, kind: CallKind, k: u16) -> Result<Vec<u8>, Fault>
    ensures { Made (call_byte kind ∷ two k) result }
{
    let [high, low] = k.to_be_bytes();
    Ok(Vec::from_slice(heap, &[kind.into(), high, low])?)
}

// A number, a space, and tokens to the end.
fn with_tokens(heap: Global, kind: CallKind, text: &[u8]) -> Result<Vec<u8>, Fault>
    ensures { Gives (with_tokens (call_byte kind) text.now) result }
{
    let (k, tokens) = number_and_text(text)?;
    let mut bytes = begun(heap, kind, k)?;
    read_tokens(&mut bytes, tokens)?;
    Ok(bytes)
}

fn read_put(heap: Global, text: &[u8]) -> Result<Vec<u8>, Fault>
    ensures { Gives (put_line text.now) result }
{
    match next_word(text) {
        Some((b"in", rest)) => with_tokens(heap, CallKind::PutIn, rest),
        _ => with_tokens(heap, CallKind::Put, text),
    }
}

#[tactic(auto, using(crate::proofs::Giving::gives_made), unfolding(wire::specs::Bytes::call_bytes))]
fn read_cut(heap: Global, text: &[u8]) -> Result<Vec<u8>, Fault>
    ensures { Gives (cut_line (words text.now)) result }
{
    begun(heap, CallKind::Cut, Words(text).last_number()?)
}

#[tactic(auto, using(crate::proofs::Fields::two_bytes, crate::proofs::Fields::four_bytes), unfolding(wire::specs::Bytes::call_bytes))]
fn show(heap: Global, page: u32, row: u16, count: u16) -> Result<Vec<u8>, Fault>
    ensures { Made (call_bytes (show page row count)) result }
{
    let mut bytes = Vec::from_slice(heap, &[CallKind::Show.into()])?;
    bytes.extend_from_slice(&page.to_be_bytes())?;
    bytes.extend_from_slice(&row.to_be_bytes())?;
    bytes.extend_from_slice(&count.to_be_bytes())?;
    Ok(bytes)
}

fn read_show(heap: Global, text: &[u8]) -> Result<Vec<u8>, Fault>
    ensures { Gives (show_line (words text.now)) result }
{
    let mut words = Words(text);
    let page = words.number()?;
    let row = words.number()?;
    show(heap, page, row, words.last_number()?)
}

#[tactic(auto, using(crate::proofs::Giving::gives_made), unfolding(wire::specs::Bytes::call_bytes))]
fn read_where(heap: Global, text: &[u8]) -> Result<Vec<u8>, Fault>
    ensures { Gives (where_line (words text.now)) result }
{
    let mut words = Words(text);
    words.due(b"is")?;
    begun(heap, CallKind::WhereIs, words.last_number()?)
}

#[tactic(auto, using(crate::proofs::Giving::gives_made), unfolding(wire::specs::Bytes::call_bytes))]
fn read_how(heap: Global, text: &[u8]) -> Result<Vec<u8>, Fault>
    ensures { Gives (how_line (words text.now)) result }
{
    let mut words = Words(text);
    words.due(b"many")?;
    words.end()?;
    Ok(Vec::from_slice(heap, &[CallKind::HowMany.into()])?)
}

// The bytes of a call, from what stands behind the line's first word.
pub fn read_call(heap: Global, verb: Verb, text: &[u8]) -> Result<Vec<u8>, Fault>
    ensures { Gives (call_of verb text.now) result }
{
    match verb {
        Verb::Put => read_put(heap, text),
        Verb::Define => with_tokens(heap, CallKind::Define, text),
        Verb::Cut => read_cut(heap, text),
        Verb::Show => read_show(heap, text),
        Verb::Where => read_where(heap, text),
        Verb::How => read_how(heap, text),
        Verb::Bytes => read_bytes(heap, text),
    }
}
