// A paragraph of the text, gathered line by line.
use crate::lines::Line;
use notation::read_tokens;
use std::alloc::{AllocError, Global};
use text::Fault;
use wire::CallKind;

// Its lines, with a space for the end of each but the last.
#[derive(Drop)]
pub(crate) struct Paragraph {
    text: Vec<u8>,
    // the number of the line on which it begins
    pub(crate) begins: u64,
    // which paragraph of the book it is to be
    k: u16,
}

impl Paragraph {
    pub(crate) fn new(heap: Global) -> Paragraph {
        Paragraph {
            text: Vec::new(heap),
            begins: 0,
            k: 0,
        }
    }

    pub(crate) fn is_empty(&self) -> bool {
        self.text.is_empty()
    }

    // A book has far fewer paragraphs than k can count.
    pub(crate) fn begin_next(&mut self) {
        self.text.clear();
        self.k = self.k.saturating_add(1);
    }

    // A line with something on it.
    pub(crate) fn add(&mut self, line: Line<'_>) -> Result<(), AllocError> {
        if self.text.is_empty() {
            self.begins = line.number;
        } else {
            self.text.push(b' ')?;
        }
        self.text.extend_from_slice(line.text)
    }

    // The bytes of the call that puts it.
    pub(crate) fn call(&self, heap: Global) -> Result<Vec<u8>, Fault> {
        let [high, low] = self.k.to_be_bytes();
        let mut bytes = Vec::from_slice(heap, &[CallKind::Put.into(), high, low])?;
        read_tokens(&mut bytes, &self.text)?;
        Ok(bytes)
    }
}
