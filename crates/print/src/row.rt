// A row of letters as text.
use std::fmt;
use text::{Letter, Letters};
use wire::LETTERS;
use words::letter_width;

// How many dots a space stands for.
const DOTS: u32 = 4;

// So many blank dots.
#[derive(Clone, Copy)]
struct Blank(u32);

impl Blank {
    // What is too narrow for a space still parts two letters.
    fn spaces(self) -> u32 {
        match self.0 {
            0 => 0,
            dots => (dots / DOTS).max(1),
        }
    }
}

impl fmt::Display for Blank {
    fn fmt<W: fmt::Write>(&self, f: &mut fmt::Formatter<W>) -> fmt::Result {
        for _ in 0..self.spaces() {
            f.write_str(" ")?;
        }
        Ok(())
    }
}

#[derive(Drop)]
pub(crate) struct Row<'a> {
    pub(crate) letters: Letters<'a>,
    // of the letters from 32 on
    pub(crate) widths: &'a [u8; LETTERS],
}

impl Row<'_> {
    // Where a letter ends.
    fn end(&self, letter: Letter) -> u32 {
        let width = letter_width(self.widths, letter.what);
        letter.at.saturating_add(width as u32)
    }
}

impl fmt::Display for Row<'_> {
    fn fmt<W: fmt::Write>(&self, f: &mut fmt::Formatter<W>) -> fmt::Result {
        let mut end = 0;
        for letter in Letters(self.letters.0) {
            let blank = Blank(letter.at.saturating_sub(end));
            let what = char::from(letter.what);
            write!(f, "{blank}{what}")?;
            end = self.end(letter);
        }
        Ok(())
    }
}
