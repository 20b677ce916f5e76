// The lines of broken slots, one behind another.
ghost use Rattle.std.specs.Prelude.{◌≡◌, ℕ, ◌≤◌, ◌/◌, List, length};
ghost use Rattle.std.specs.Iterator.{YieldsFirst, item_count};
ghost use Rattle.std.specs.declared.ops.Range.{Range};
ghost use Rattle.linebreak.specs.Lines.{lines_from, lines_of, LinesLead};

use crate::{SLOT, WORDS};
use std::marker::Model;
use std::ops::Range;

// From slot to slot, seen as the list of the lines that are left, each as the places of its words.
// A slot that says of its line that it has no word, or more than there are, ends them.
#[derive(Drop)]
pub struct Lines<'a> {
    slots: &'a [u64],
    // the first word of the next line
    first: usize,
}

impl<'a> Model for Lines<'a> {
    ghost Value = { List (Range ℕ) };

    ghost view = { λ it. lines_from (length it.slots.now / 8) it.slots.now it.first };

    ghost invariant = { λ it. it.first ≤ length it.slots.now / 8 };
}

impl<'a> Lines<'a> {
    // Of just the slots that were broken.
    pub fn of(slots: &'a [u64]) -> Lines<'a>
        ensures { result ≡ lines_of slots.now }
    {
        Lines { slots, first: 0 }
    }
}

impl<'a> Iterator for Lines<'a> {
    type Item = Range<usize>;

    ghost next_gives = { YieldsFirst (λ rest. rest) };

    ghost remaining = { item_count (λ rest. rest) };

    fn next(&mut self) -> Option<Range<usize>> {
        let first = self.first;
        let words = *self.slots.get(SLOT * first + WORDS)?;
        let left = self.slots.len() / SLOT - first;
        if words == 0 || words > left as u64 {
            return None;
        }
        self.first += words as usize;
        Some(first..self.first)
    }
}
