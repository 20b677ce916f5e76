// Rows of letters, as an answer has them in bytes, and as text.
ghost use Rattle.std.specs.Prelude.{◌≡◌, true, length, is_some, Some, None, MatchOption};
ghost use Rattle.std.specs.Option.{option_map, option_and_then};
ghost use Rattle.std.specs.Iterator.{YieldsFirstBy, item_count, at_most};
ghost use Rattle.text.specs.Rows.{seen, letter_text, row_text, rows_text, letters_of, row_first, rows_in, rows_of, placed};

use std::fmt;
use wire::LETTER_BYTES;

// A letter and its place.
#[derive(Clone, Copy, Debug, PartialEq, Eq)]
pub struct Letter {
    pub what: u8,
    pub at: u32,
}

// A letter is shown as it is, and any other byte as a question mark.
fn seen(what: u8) -> char
    ensures { result ≡ seen what }
{
    match what {
        33..=126 => char::from(what),
        _ => '?',
    }
}

impl fmt::Display for Letter {
    ghost output = { λ x. Some (letter_text (placed x)) };

    fn fmt<W: fmt::Write>(&self, f: &mut fmt::Formatter<W>) -> fmt::Result {
        write!(f, "{} {}", seen(self.what), self.at)
    }
}

// The letters of a row, as bytes.
#[derive(Drop)]
pub struct Letters<'a>(pub &'a [u8]);

impl Iterator for Letters<'_> {
    type Item = Letter;

    ghost next_gives = { YieldsFirstBy placed (λ s. letters_of s.0.now) };

    ghost remaining = { item_count (λ s. letters_of s.0.now) };

    #[tactic(auto, unfolding(crate::specs::Rows::letters_of), using(crate::proofs::FiveByFive::letters_none, crate::proofs::FiveByFive::letters_more))]
    fn next(&mut self) -> Option<Letter> {
        let (what, rest) = self.0.split_first()?;
        let (at, rest) = rest.split_first_chunk()?;
        self.0 = rest;
        Some(Letter {
            what: *what,
            at: u32::from_be_bytes(*at),
        })
    }
}

impl fmt::Display for Letters<'_> {
    ghost output = { λ x. Some (row_text (letters_of x.0.now)) };

    fn fmt<W: fmt::Write>(&self, f: &mut fmt::Formatter<W>) -> fmt::Result {
        let mut letters = Letters(self.0);
        let Some(first) = letters.next() else {
            return Ok(());
        };
        write!(f, "{first}")?;
        for letter in letters {
            write!(f, " {letter}")?;
        }
        Ok(())
    }
}

// The rows that bytes begin with, one behind another.
#[derive(Drop)]
pub struct EachRow<'a>(pub &'a [u8]);

impl<'a> Iterator for EachRow<'a> {
    type Item = Letters<'a>;

    ghost next_gives = { λ s r t. MatchOption r ((row_first s.0.now ≡ None) × (t.0.now ≡ s.0.now)) (λ row. row_first s.0.now ≡ Some (row.0.now, t.0.now)) };

    ghost remaining = { λ s. at_most (length s.0.now) };

    #[tactic(auto, unfolding(crate::specs::Rows::row_first))]
    fn next(&mut self) -> Option<Letters<'a>> {
        let (len, rest) = self.0.split_first_chunk()?;
        let len = LETTER_BYTES * usize::from(u16::from_be_bytes(*len));
        let (letters, rest) = rest.split_at_checked(len)?;
        self.0 = rest;
        Some(Letters(letters))
    }
}

// Just so many rows. The count is read of the answer and shown as it is; with it in the slice, showing would have to split it off, and have a case for no bytes.
#[derive(Clone, Copy, Debug, PartialEq, Eq)]
pub struct Rows<'a> {
    pub count: u8,
    pub bytes: &'a [u8],
    ghost whole: { is_some (rows_in count bytes.now) ≡ true },
}

impl Rows<'_> {
    // The first byte says how many they are; None where they are not as many, or more stands behind them.
    pub fn of(bytes: &[u8]) -> Option<Rows<'_>>
        ensures { option_and_then (λ r. rows_in r.count r.bytes.now) result ≡ rows_of bytes.now }
    {
        let (count, bytes) = bytes.split_first()?;
        let mut rows = EachRow(bytes);
        for _ in 0..*count {
            rows.next()?;
        }
        if !rows.0.is_empty() {
            return None;
        }
        Some(Rows {
            count: *count,
            bytes,
        })
    }
}

impl fmt::Display for Rows<'_> {
    ghost output = { λ x. option_map rows_text (rows_in x.count x.bytes.now) };

    fn fmt<W: fmt::Write>(&self, f: &mut fmt::Formatter<W>) -> fmt::Result {
        write!(f, "rows {}", self.count)?;
        for row in EachRow(self.bytes) {
            write!(f, "\n{row}")?;
        }
        Ok(())
    }
}
