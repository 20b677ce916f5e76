// The lines of a broken paragraph: walked over, or written as rows, and their notes' lines too.
ghost use Rattle.std.specs.Prelude.{◌≡◌, ◌+◌, ◌*◌, ◌<◌, ◌≤◌, [], ◌∷◌, length};
ghost use Rattle.meaning.specs.Calls.{letters_of};
ghost use Rattle.layout.specs.Walks.{searched, Small, Grown};
ghost use Rattle.layout.specs.Fills.{heights};
ghost use Rattle.layout.specs.Sheets.{looks_of, Noted};
ghost use Rattle.layout.specs.Found.{is_inside, passed_one, inside, passed};

use crate::line::Line;
use crate::paragraph::BrokenParagraph;
use crate::search::Search;

// Of a page the lines come first, and then their notes' lines.
#[derive(Clone, Copy, Debug, PartialEq, Eq)]
pub(crate) enum Part {
    Lines,
    Notes,
}

// Of lines, so many are passed over, and the next ones are of the page.
#[derive(Clone, Copy)]
pub(crate) struct Window {
    pub(crate) skip: usize,
    pub(crate) left: usize,
}

impl Window {
    fn is_inside(self) -> bool
        ensures { result ≡ is_inside self }
    {
        self.skip == 0 && self.left > 0
    }

    // Behind a line.
    fn passed(self) -> Window
        ensures { result ≡ passed_one self }
    {
        if self.skip == 0 {
            Window {
                skip: 0,
                left: self.left.saturating_sub(1),
            }
        } else {
            Window {
                skip: self.skip - 1,
                left: self.left,
            }
        }
    }
}

// The bytes of an answer, and where they end so far: so many rows are still to be passed over, and so many to be written.
// There is room for these, of 4,096 letters each. `out` is not cut shorter on the way: the field has to keep the reference that was lent.
#[derive(Drop)]
pub(crate) struct RowWriter<'a> {
    pub(crate) out: &'a mut [u8],
    pub(crate) skip: usize,
    pub(crate) left: usize,
    pub(crate) end: usize,
    ghost room: { end + 20482 * left ≤ length out.now },
}

impl RowWriter<'_> {
    ghost use Rattle.layout.specs.Paragraphs.{line_row};
    ghost use Rattle.layout.specs.Finishes.{TakesAll};

    // One line more, if rows are wanted.
    pub(crate) fn take_line(&mut self, line: &Line)
        ensures { TakesAll self.old self.new (line_row line.now.paragraph line.now.words ∷ []) }
    {
        if self.left == 0 {
            return;
        }
        if self.skip > 0 {
            self.skip -= 1;
            return;
        }
        self.end += line.write(&mut self.out[self.end..]);
        self.left -= 1;
    }
}

impl BrokenParagraph<'_> {
    ghost use Rattle.layout.specs.Paragraphs.{broken_words, broken_lines, part_rows};
    ghost use Rattle.layout.specs.Finishes.{TakesAll};

    // A walk over the lines, as far as lines are sought; the notes are broken in a part of their own.
    pub(crate) fn search(&self, search: Search, notes: &mut [u64]) -> Search
        requires { (Small search.walk) × (8 * length self.now.row.now ≤ length notes.old) }
        ensures value { result ≡ searched self.now.sheet.now.looks.rows (heights (looks_of self.now.sheet.now) (broken_lines self.now)) search }
        ensures grown { Grown (length (broken_words self.now)) search.walk result.walk }
        ensures rows { result.walk.rows ≤ 1099511627776 }
        ensures notes { Noted (length self.now.row.now) notes.old notes.new }
    {
        let mut search = search;
        for words in self.lines() {
            if search.done {
                break;
            }
            let line = Line {
                paragraph: *self,
                words,
            };
            search = search.line(line.height(notes), self.sheet.looks.rows as usize);
        }
        search
    }

    // The lines that a window lets through, or their notes' lines, as far as rows are wanted; the window behind them all.
    pub(crate) fn take_lines(
        &self,
        part: Part,
        window: Window,
        rows: &mut RowWriter,
        notes: &mut [u64],
    ) -> Window
        requires { 8 * length self.now.row.now ≤ length notes.old }
        ensures value { result ≡ passed window (length (broken_lines self.now)) }
        ensures rows { TakesAll rows.old rows.new (part_rows part (looks_of self.now.sheet.now) (inside window (broken_lines self.now))) }
        ensures notes { Noted (length self.now.row.now) notes.old notes.new }
    {
        let mut window = window;
        for words in self.lines() {
            let line = Line {
                paragraph: *self,
                words,
            };
            if window.is_inside() {
                line.take(part, rows, notes);
            }
            window = window.passed();
        }
        window
    }

    // All lines, as far as rows are wanted.
    pub(crate) fn take_all(&self, rows: &mut RowWriter)
        ensures { TakesAll rows.old rows.new (letters_of (broken_lines self.now)) }
    {
        for words in self.lines() {
            rows.take_line(&Line {
                paragraph: *self,
                words,
            });
        }
    }
}
