// The paragraphs of a book, one after another.
ghost use Rattle.std.specs.Prelude.{◌≡◌, ℕ, length, false, slice_get, MatchOption};
ghost use Rattle.std.specs.Iterator.{item_count};
ghost use Rattle.std.specs.Option.{option_map};
ghost use Rattle.store.specs.Kept.{is_open};
ghost use Rattle.store.specs.Changes.{paragraph_at};
ghost use Rattle.store.specs.Paragraphs.{paragraphs_in, paragraphs_left, GivesParagraph};

use crate::kept::{Entry, open_book};

// Each paragraph's token bytes: as many as its entry says, one paragraph behind another. It ends where there are fewer.
// It is Copy, so that a walk can remember where it was: a clone may fail.
#[derive(Clone, Copy)]
pub struct Paragraphs<'t, 'e> {
    tokens: &'t [u8],
    entries: &'e [Entry],
}

impl<'t, 'e> Paragraphs<'t, 'e> {
    pub fn new(tokens: &'t [u8], entries: &'e [Entry]) -> Paragraphs<'t, 'e>
        ensures { paragraphs_left result ≡ paragraphs_in tokens.now entries.now }
    {
        Paragraphs { tokens, entries }
    }

    // Those of a book; None where memory is no open book.
    pub fn of(tokens: &'t [u8], rest: &'e [u64]) -> Option<Paragraphs<'t, 'e>>
        ensures { MatchOption result (is_open (length tokens.now) rest.now ≡ false) (λ it. (k : ℕ) → slice_get (paragraphs_left it) k ≡ paragraph_at tokens.now rest.now k) }
    {
        let (_, entries) = open_book(tokens, rest)?;
        Some(Paragraphs::new(tokens, entries))
    }
}

impl<'t, 'e> Iterator for Paragraphs<'t, 'e> {
    type Item = &'t [u8];

    ghost next_gives = { GivesParagraph };

    ghost remaining = { item_count paragraphs_left };

    fn next(&mut self) -> Option<&'t [u8]> {
        let ([bytes, ..], entries) = self.entries.split_first()?;
        let (paragraph, tokens) = self.tokens.split_at_checked(*bytes as usize)?;
        self.tokens = tokens;
        self.entries = entries;
        Some(paragraph)
    }
}

// The token bytes of paragraph k, as a part of `tokens`; None where it is not there, or memory is no open book.
pub fn paragraph<'a>(tokens: &'a [u8], rest: &[u64], k: u16) -> Option<&'a [u8]>
    ensures { option_map (λ p. p.now) result ≡ paragraph_at tokens.now rest.now k }
{
    Paragraphs::of(tokens, rest)?.nth(k as usize)
}
