// The memory of a book, from the heap, and what is asked of it.
use crate::{BULK, WIDTH, widths};
use session::{Asked, Limits, Looks, Opening, ROOM, call, open};
use std::alloc::{AllocError, Global};
use text::{Heard, hear};
use wire::CallKind;

// The largest book, with pages of 40 rows.
fn opening() -> Opening {
    Opening {
        limits: Limits {
            paragraphs: 4096,
            tokens: 65536,
            definitions: 0,
            bulk: BULK as u32,
        },
        looks: Looks {
            widths: widths(),
            width: WIDTH as u32,
            rows: 40,
        },
    }
}

// The program answer has the like: a library would need contracts on vectors for these few lines.
#[derive(Drop)]
pub(crate) struct Memory {
    tokens: Vec<u8>,
    rest: Vec<u64>,
    out: Vec<u8>,
}

impl Memory {
    pub(crate) fn new(heap: Global) -> Result<Memory, AllocError> {
        let asked = Asked::of(&opening()).unwrap_or_default();
        Ok(Memory {
            tokens: vec![in heap; 0u8; asked.tokens]?,
            rest: vec![in heap; 0u64; asked.rest]?,
            out: vec![in heap; 0u8; ROOM]?,
        })
    }

    // There is always room for the answer.
    fn ask(&mut self, bytes: &[u8]) -> Option<Heard<'_>> {
        let written = call(&mut self.tokens, &mut self.rest, bytes, &mut self.out)?;
        hear(self.out.get(..written)?)
    }

    // None where the call is refused.
    pub(crate) fn put(&mut self, call: &[u8]) -> Option<()> {
        matches!(self.ask(call)?, Heard::Done).then_some(())
    }

    // Opens a book, and puts paragraphs into it.
    pub(crate) fn hold(&mut self, puts: &[Vec<u8>]) -> Option<()> {
        open(&mut self.tokens, &mut self.rest, &opening()).ok()?;
        for put in puts {
            self.put(put)?;
        }
        Some(())
    }

    pub(crate) fn count_pages(&mut self) -> Option<u32> {
        match self.ask(&[CallKind::HowMany.into()])? {
            Heard::Numbers(pages, _) => Some(pages),
            _ => None,
        }
    }
}
