// The notes of a line: each is set as a paragraph of its own, in the same width.
ghost use Rattle.std.specs.Prelude.{◌≡◌, suc, ◌*◌, ◌≤◌, length};
ghost use Rattle.meaning.specs.Pages.{all_feet};
ghost use Rattle.meaning.specs.Calls.{letters_of};
ghost use Rattle.layout.specs.Sheets.{looks_of, Noted};
ghost use Rattle.layout.specs.Paragraphs.{line_notes, line_part_rows};

use crate::line::Line;
use crate::paragraph::BrokenParagraph;
use crate::rows::{Part, RowWriter};
use linebreak::SLOT;
use words::{Atom, Atoms};

impl Line<'_> {
    ghost use Rattle.layout.specs.Finishes.{TakesAll};

    // How many rows it takes with its notes.
    pub(crate) fn height(&self, notes: &mut [u64]) -> usize
        requires { 8 * length self.now.paragraph.row.now ≤ length notes.old }
        ensures value { result ≡ suc (length (all_feet (looks_of self.now.paragraph.sheet.now) (line_notes self.now.paragraph self.now.words))) }
        ensures few { result ≤ 4097 }
        ensures notes { Noted (length self.now.paragraph.row.now) notes.old notes.new }
    {
        let sheet = self.paragraph.sheet;
        let mut rows = 1;
        for atom in Atoms(self.atoms()) {
            if let Atom::Note(text) = atom {
                let words = sheet.break_note(text, notes);
                let note = BrokenParagraph {
                    sheet,
                    row: text,
                    slots: &notes[..SLOT * words],
                };
                rows += note.lines().count();
            }
        }
        rows
    }

    // Its notes' lines, as far as rows are wanted.
    fn take_notes(&self, rows: &mut RowWriter, notes: &mut [u64])
        requires { 8 * length self.now.paragraph.row.now ≤ length notes.old }
        ensures rows { TakesAll rows.old rows.new (letters_of (all_feet (looks_of self.now.paragraph.sheet.now) (line_notes self.now.paragraph self.now.words))) }
        ensures notes { Noted (length self.now.paragraph.row.now) notes.old notes.new }
    {
        let sheet = self.paragraph.sheet;
        let atoms = self.atoms();
        for atom in Atoms(atoms) {
            if rows.left == 0 {
                break;
            }
            if let Atom::Note(text) = atom {
                let words = sheet.break_note(text, notes);
                let note = BrokenParagraph {
                    sheet,
                    row: text,
                    slots: &notes[..SLOT * words],
                };
                note.take_all(rows);
            }
        }
    }

    // The line itself, or its notes' lines.
    pub(crate) fn take(&self, part: Part, rows: &mut RowWriter, notes: &mut [u64])
        requires { 8 * length self.now.paragraph.row.now ≤ length notes.old }
        ensures rows { TakesAll rows.old rows.new (line_part_rows part self.now.paragraph self.now.words) }
        ensures notes { Noted (length self.now.paragraph.row.now) notes.old notes.new }
    {
        match part {
            Part::Lines => rows.take_line(self),
            Part::Notes => self.take_notes(rows, notes),
        }
    }
}
