// A book in memory from the heap, and what is asked of it.
use session::{Asked, Looks, Opening, PageShape, ROOM, call, open, page_shape};
use std::alloc::{AllocError, Global};
use std::fmt;
use text::{Heard, Refused, Rows, hear};
use wire::{CallKind, Refusal};

// The answer is another than the one that is due.
#[derive(Clone, Copy)]
pub(crate) enum Denied {
    Refused(Refused),
    NoAnswer,
}

impl From<Refusal> for Denied {
    fn from(refusal: Refusal) -> Denied {
        Denied::Refused(Refused::from(refusal))
    }
}

impl fmt::Display for Denied {
    fn fmt<W: fmt::Write>(&self, f: &mut fmt::Formatter<W>) -> fmt::Result {
        match self {
            Denied::Refused(refused) => write!(f, "{refused}"),
            Denied::NoAnswer => f.write_str("no answer"),
        }
    }
}

// The lent memory, and room for an answer. The program answer has the like: a library would need contracts on vectors for these few lines.
#[derive(Drop)]
pub(crate) struct Book {
    pub(crate) looks: Looks,
    tokens: Vec<u8>,
    rest: Vec<u64>,
    out: Vec<u8>,
}

impl Book {
    // Not open yet. There is no memory for limits and looks that are out of range.
    pub(crate) fn new(heap: Global, opening: &Opening) -> Result<Book, AllocError> {
        let asked = Asked::of(opening).unwrap_or_default();
        Ok(Book {
            looks: opening.looks,
            tokens: vec![in heap; 0u8; asked.tokens]?,
            rest: vec![in heap; 0u64; asked.rest]?,
            out: vec![in heap; 0u8; ROOM]?,
        })
    }

    pub(crate) fn open(&mut self, opening: &Opening) -> Result<(), Denied> {
        Ok(open(&mut self.tokens, &mut self.rest, opening)?)
    }

    // There is always room for the answer.
    fn ask(&mut self, bytes: &[u8]) -> Result<Heard<'_>, Denied> {
        let written = call(&mut self.tokens, &mut self.rest, bytes, &mut self.out);
        let answer = self.out.get(..written.unwrap_or(0)).unwrap_or_default();
        match hear(answer) {
            Some(Heard::Refused(refused)) => Err(Denied::Refused(refused)),
            heard => heard.ok_or(Denied::NoAnswer),
        }
    }

    // By the bytes of a call that is answered with nothing more than that it is done.
    pub(crate) fn change(&mut self, call: &[u8]) -> Result<(), Denied> {
        match self.ask(call)? {
            Heard::Done => Ok(()),
            _ => Err(Denied::NoAnswer),
        }
    }

    // How many pages there are, and whether the book is at rest.
    pub(crate) fn count_pages(&mut self) -> Result<(u32, bool), Denied> {
        match self.ask(&[CallKind::HowMany.into()])? {
            Heard::Numbers(pages, rest) => Ok((pages, rest != 0)),
            _ => Err(Denied::NoAnswer),
        }
    }

    // How many lines and rows a page has, from 0 on. No call asks for that.
    pub(crate) fn shape(&mut self, page: u32) -> Result<PageShape, Denied> {
        Ok(page_shape(&self.tokens, &mut self.rest, page)?)
    }

    // Of a page, from 0 on, so many rows from one on.
    pub(crate) fn show(&mut self, page: u32, row: u16, count: u16) -> Result<Rows<'_>, Denied> {
        let [a, b, c, d] = page.to_be_bytes();
        let [e, f] = row.to_be_bytes();
        let [g, h] = count.to_be_bytes();
        match self.ask(&[CallKind::Show.into(), a, b, c, d, e, f, g, h])? {
            Heard::Rows(rows) => Ok(rows),
            _ => Err(Denied::NoAnswer),
        }
    }
}
