// How far the lines of a file have come. Four lines open a book, in their order, and a file may hold several books.
ghost use Rattle.std.specs.Prelude.{◌≡◌};
ghost use Rattle.std.specs.Option.{option_map};
ghost use Rattle.text.specs.declared.reader.State.TheVariants.{Start, Refused};
ghost use Rattle.text.specs.Calls.{call_of};
ghost use Rattle.text.specs.Reading.{begins_book, passed_over, entered, called, said, both_said, Says, step_of, state_after};

use crate::call::{Question, Verb, read_call};
use crate::entry::{Entry, read_entry};
use crate::fault::Fault;
use crate::word::first_word;
use std::alloc::Global;
use store::{Limits, Looks, Opening};
use wire::LETTERS;

// What a line asks for.
#[derive(Drop)]
pub enum Step {
    Open(Opening),
    // the bytes of a call, and what is asked by it
    Call(Question, Vec<u8>),
}

// What has been read of a book.
#[derive(Clone, Copy)]
enum State {
    Start,
    AfterLimits(Limits),
    AfterWidths(Limits, [u8; LETTERS]),
    AfterWidth(Limits, [u8; LETTERS], u32),
    Opened,
    // the opening was refused, so the book's other lines don't count
    Refused,
}

#[tactic(auto, unfolding(crate::specs::Reading::begins_book))]
fn begins_book(line: &[u8]) -> bool
    ensures { result ≡ begins_book line.now }
{
    matches!(first_word(line), (b"limits", _))
}

impl State {
    fn passes_over(&self, line: &[u8]) -> bool
        ensures { result ≡ passed_over self.now line.now }
    {
        matches!(self, State::Refused) && !begins_book(line)
    }

    fn enter(self, entry: Entry) -> Result<(State, Option<Step>), Fault>
        ensures { both_said result ≡ entered self entry }
    {
        let state = match (entry, self) {
            (Entry::Limits(limits), State::Start | State::Opened | State::Refused) => {
                State::AfterLimits(limits)
            }
            (Entry::Widths(widths), State::AfterLimits(limits)) => {
                State::AfterWidths(limits, widths)
            }
            (Entry::Width(width), State::AfterWidths(limits, widths)) => {
                State::AfterWidth(limits, widths, width)
            }
            (Entry::Rows(rows), State::AfterWidth(limits, widths, width)) => {
                let looks = Looks {
                    widths,
                    width,
                    rows,
                };
                let step = Step::Open(Opening { limits, looks });
                return Ok((State::Opened, Some(step)));
            }
            (_, State::Opened) => return Err(Fault::Unknown),
            _ => return Err(Fault::OutOfPlace),
        };
        Ok((state, None))
    }

    // Only an opened book is asked anything.
    fn call(&self, heap: Global, verb: Verb, text: &[u8]) -> Result<Step, Fault>
        ensures { Says said result (called self.now (call_of verb text.now)) }
    {
        if !matches!(self, State::Opened) {
            return Err(Fault::OutOfPlace);
        }
        let bytes = read_call(heap, verb, text)?;
        Ok(Step::Call(Question::of(&bytes), bytes))
    }
}

#[derive(Drop)]
pub struct Reader {
    state: State,
}

impl Reader {
    pub fn new() -> Reader
        ensures { result.state ≡ Start }
    {
        Reader {
            state: State::Start,
        }
    }

    // A line at fault, and one for which there is no memory, leaves the reader as it was.
    pub fn read(&mut self, heap: Global, line: &[u8]) -> Result<Option<Step>, Fault>
        ensures value { Says (option_map said) result (step_of self.old.state line.now) }
        ensures after { self.new.state ≡ state_after self.old.state line.now }
    {
        if self.state.passes_over(line) {
            return Ok(None);
        }
        let (word, rest) = first_word(line);
        if let Some(verb) = Verb::named(word) {
            return Ok(Some(self.state.call(heap, verb, rest)?));
        }
        let Some(entry) = read_entry(line)? else {
            return Ok(None);
        };
        let (state, step) = self.state.enter(entry)?;
        self.state = state;
        Ok(step)
    }

    // To be called where the book could not be opened.
    pub fn refused(&mut self)
        ensures { self.new.state ≡ Refused }
    {
        self.state = State::Refused;
    }
}
