// A paragraph or a note in its best lines.
ghost use Rattle.std.specs.Prelude.{◌≡◌, ◌*◌, ◌≤◌, true, length};
ghost use Rattle.meaning.specs.Promise.{all_below};
ghost use Rattle.linebreak.specs.Lines.{lines_of};
ghost use Rattle.layout.specs.Rows.{words_of};
ghost use Rattle.layout.specs.Sheets.{row_of, slots_of, taken_words, InLines, Broken, NoteBroken};

use crate::sheet::Sheet;
use linebreak::{Lines, SLOT};
use store::Looks;
use words::{Taken, break_row};

// Its atoms, just the slots of its words, and what its lines are set with.
#[derive(Clone, Copy)]
pub(crate) struct BrokenParagraph<'a> {
    pub(crate) sheet: &'a Sheet,
    pub(crate) row: &'a [u64],
    pub(crate) slots: &'a [u64],
    ghost lines: { InLines sheet.now (words_of row.now slots.now) row.now slots.now },
}

impl<'a> BrokenParagraph<'a> {
    // What stands there takes so much of both parts, which the front of the working part is.
    pub(crate) fn of(sheet: &'a Sheet, front: &'a [u64], taken: Taken) -> BrokenParagraph<'a>
        requires { Broken sheet.now (taken_words sheet.now front.now taken) front.now taken }
        ensures sheet { result.sheet.now ≡ sheet.now }
        ensures row { result.row.now ≡ row_of taken front.now }
        ensures slots { result.slots.now ≡ slots_of sheet.now taken front.now }
    {
        let (row, slots) = front.split_at(sheet.bulk);
        BrokenParagraph {
            sheet,
            row: &row[..taken.numbers],
            slots: &slots[..SLOT * taken.words],
        }
    }

    pub(crate) fn lines(&self) -> Lines<'a>
        ensures { result ≡ lines_of self.now.slots.now }
    {
        Lines::of(self.slots)
    }
}

impl Sheet {
    // How many words a note has, each in its slot.
    pub(crate) fn break_note(&self, text: &[u64], slots: &mut [u64]) -> usize
        requires fits { self.now.looks.width ≤ 1000 }
        requires text { (all_below 256 text.now ≡ true) × ((length text.now ≤ 4096) × (8 * length text.now ≤ length slots.old)) }
        ensures { NoteBroken self.now text.now slots.old slots.new result }
    {
        let Looks { widths, width, .. } = self.looks;
        break_row(text, slots, &widths, u64::from(width))
    }
}
