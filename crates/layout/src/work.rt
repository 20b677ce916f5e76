// One paragraph after another, broken into lines in the working part of its book.
ghost use Rattle.std.specs.Prelude.{◌≡◌, ◌≤◌, length};
ghost use Rattle.layout.specs.Walks.{searched, Small, Grown};
ghost use Rattle.layout.specs.Fills.{heights};
ghost use Rattle.layout.specs.Sheets.{looks_of, working, taken_words, lines_by, paragraph_words, paragraph_lines, Broken, Works};
ghost use Rattle.layout.specs.Found.{inside, passed};
ghost use Rattle.layout.specs.Paragraphs.{part_rows};
ghost use Rattle.layout.specs.Finishes.{TakesAll};

use crate::book::Book;
use crate::paragraph::BrokenParagraph;
use crate::rows::{Part, RowWriter, Window};
use crate::search::Search;
use crate::sheet::Sheet;
use store::Looks;
use words::{Taken, break_into_lines};

// The walk over the lines of what was broken in the working part. This is no method: its parts can't be lent from a field.
fn search_broken(sheet: &Sheet, work: &mut [u64], taken: Taken, search: Search) -> Search
    requires broken { Broken sheet.now (taken_words sheet.now work.old taken) work.old taken }
    requires small { (Small search.walk) × (working sheet.now.bulk ≤ length work.old) }
    ensures value { result ≡ searched sheet.now.looks.rows (heights (looks_of sheet.now) (lines_by sheet.now (taken_words sheet.now work.old taken))) search }
    ensures grown { Grown 4096 search.walk result.walk }
    ensures rows { result.walk.rows ≤ 1099511627776 }
    ensures same { Works sheet.now work.old work.new }
{
    let (front, notes) = work.split_at_mut(9 * sheet.bulk);
    BrokenParagraph::of(sheet, front, taken).search(search, notes)
}

// Its lines that a window lets through, or their notes' lines, as far as rows are wanted; the window behind them.
fn take_broken(
    sheet: &Sheet,
    work: &mut [u64],
    taken: Taken,
    part: Part,
    window: Window,
    rows: &mut RowWriter,
) -> Window
    requires broken { Broken sheet.now (taken_words sheet.now work.old taken) work.old taken }
    requires room { working sheet.now.bulk ≤ length work.old }
    ensures value { result ≡ passed window (length (lines_by sheet.now (taken_words sheet.now work.old taken))) }
    ensures rows { TakesAll rows.old rows.new (part_rows part (looks_of sheet.now) (inside window (lines_by sheet.now (taken_words sheet.now work.old taken)))) }
    ensures same { Works sheet.now work.old work.new }
{
    let (front, notes) = work.split_at_mut(9 * sheet.bulk);
    BrokenParagraph::of(sheet, front, taken).take_lines(part, window, rows, notes)
}

impl Book<'_, '_, '_> {
    ghost use Rattle.layout.specs.Keeping.{Keeps};

    // What it takes of the working part. A paragraph that can't be read, which no call leaves in a book, has no words.
    fn break_paragraph(&mut self, tokens: &[u8]) -> Taken
        ensures lines { Broken self.old.sheet (paragraph_words self.old.sheet tokens.now) self.new.work.now result }
        ensures same { Keeps self.old self.new }
    {
        let sheet = self.sheet;
        let work = &mut *self.work;
        let (row, slots) = work.split_at_mut(sheet.bulk);
        let Looks { widths, width, .. } = sheet.looks;
        let nothing = Taken {
            numbers: 0,
            words: 0,
        };
        break_into_lines(tokens, row, slots, &widths, u64::from(width)).unwrap_or(nothing)
    }

    // A walk over the lines of a paragraph, as far as lines are sought.
    pub(crate) fn search_paragraph(&mut self, tokens: &[u8], search: Search) -> Search
        requires { Small search.walk }
        ensures value { result ≡ searched self.old.sheet.looks.rows (heights (looks_of self.old.sheet) (paragraph_lines self.old.sheet tokens.now)) search }
        ensures grown { Grown 4096 search.walk result.walk }
        ensures rows { result.walk.rows ≤ 1099511627776 }
        ensures same { Keeps self.old self.new }
    {
        let taken = self.break_paragraph(tokens);
        let sheet = self.sheet;
        let work = &mut *self.work;
        search_broken(&sheet, work, taken, search)
    }

    // The lines of a paragraph that a window lets through, or their notes' lines, as far as rows are wanted; the window behind them.
    pub(crate) fn take_paragraph(
        &mut self,
        tokens: &[u8],
        part: Part,
        window: Window,
        rows: &mut RowWriter,
    ) -> Window
        ensures value { result ≡ passed window (length (paragraph_lines self.old.sheet tokens.now)) }
        ensures rows { TakesAll rows.old rows.new (part_rows part (looks_of self.old.sheet) (inside window (paragraph_lines self.old.sheet tokens.now))) }
        ensures same { Keeps self.old self.new }
    {
        let taken = self.break_paragraph(tokens);
        let sheet = self.sheet;
        let work = &mut *self.work;
        take_broken(&sheet, work, taken, part, window, rows)
    }
}
