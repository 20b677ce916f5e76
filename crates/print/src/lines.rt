// The input line by line.
ghost use Rattle.std.specs.Prelude.{length};
ghost use Rattle.std.specs.Iterator.{at_most};

use text::without_end;

// A line without its end, with its number, from 1 on.
#[derive(Clone, Copy)]
pub(crate) struct Line<'a> {
    pub(crate) number: u64,
    pub(crate) text: &'a [u8],
}

// The lines that are left to be read.
#[derive(Drop)]
pub(crate) struct Lines<'a> {
    // of the line read last
    pub(crate) number: u64,
    rest: &'a [u8],
}

impl Lines<'_> {
    pub(crate) fn of(text: &[u8]) -> Lines<'_> {
        Lines {
            number: 0,
            rest: text,
        }
    }
}

impl<'a> Iterator for Lines<'a> {
    type Item = Line<'a>;

    ghost remaining = { λ s. at_most (length s.rest.now) };

    fn next(&mut self) -> Option<Line<'a>> {
        if self.rest.is_empty() {
            return None;
        }
        let end = self.rest.iter().position(|b| *b == b'\n');
        let (line, rest) = self.rest.split_at(end.map_or(self.rest.len(), |k| k + 1));
        self.rest = rest;
        self.number = self.number.saturating_add(1);
        Some(Line {
            number: self.number,
            text: without_end(line),
        })
    }
}
