// A line as a row of placed letters, in bytes.
ghost use Rattle.std.specs.Prelude.{◌≡◌, ℕ, ◌+◌, ◌-◌, ◌*◌, ◌/◌, ◌^◌, ◌<◌, ◌≤◌, length, nat_lt, slice_index};
ghost use Rattle.meaning.specs.Text.{pick};
ghost use Rattle.meaning.specs.Lines.{place_letters, place_words};
ghost use Rattle.wire.specs.Bytes.{letters_bytes, over};
ghost use Rattle.meaning.specs.Promise.{letters_of};
ghost use Rattle.words.specs.Atoms.{decoded};
ghost use Rattle.words.specs.Slots.{wide_by};
ghost use Rattle.words.specs.Lined.{line_part};
ghost use Rattle.layout.specs.Rows.{letters_in, shares, behind_first};
ghost use Rattle.layout.specs.Paragraphs.{line_words, line_widths, is_last, line_bytes, Within, SlotsOf};

use crate::paragraph::BrokenParagraph;
use linebreak::SLOT;
use std::ops::Range;
use wire::{LETTER_BYTES, LETTERS, letter_bytes, row_start};
use words::{Atom, Atoms, Word, letter_width};

// How much wider than a space gaps are: each by so much, and so many of them, the first ones, by one more.
#[derive(Clone, Copy, Default)]
struct Gaps {
    each: usize,
    extra: usize,
}

impl Gaps {
    // The room is shared among so many gaps.
    fn sharing(room: usize, gaps: usize) -> Gaps
        ensures { result ≡ shares room gaps }
    {
        if gaps == 0 {
            return Gaps::default();
        }
        Gaps {
            each: room / gaps,
            extra: room % gaps,
        }
    }

    // By how much the first one is wider.
    fn first(self) -> usize
        requires { self.each ≤ 1000 }
        ensures { result ≡ self.each + pick (nat_lt 0 self.extra) 1 0 }
    {
        self.each + usize::from(self.extra > 0)
    }

    // Those behind the first one.
    fn others(self) -> Gaps
        ensures { result ≡ behind_first self }
    {
        Gaps {
            extra: self.extra.saturating_sub(1),
            ..self
        }
    }
}

// A word's letters next to each other, the first one at x; how many there are. Its marks and notes have no place on the line.
// The bytes are reached by place: of a loop over parts of them it is not known what it leaves there.
fn write_word(out: &mut [u8], part: &[u64], widths: &[u8; LETTERS], x: usize) -> usize
    requires { (5 * length (letters_of (decoded part.now)) ≤ length out.old) × (x + 255 * length (letters_of (decoded part.now)) < 2 ^ 32) }
    ensures value { result ≡ length (letters_of (decoded part.now)) }
    ensures after { out.new ≡ over (letters_bytes (place_letters (wide_by widths.now) x (letters_of (decoded part.now)))) out.old }
{
    let mut letters = 0;
    let mut place = x;
    for atom in Atoms(part) {
        if let Atom::Letter(letter) = atom {
            let at = LETTER_BYTES * letters;
            out[at..at + LETTER_BYTES].copy_from_slice(&letter_bytes(letter, place as u32));
            letters += 1;
            place += letter_width(widths, letter);
        }
    }
    letters
}

// Of a paragraph, the places of a line's words.
#[derive(Drop)]
pub(crate) struct Line<'a> {
    pub(crate) paragraph: BrokenParagraph<'a>,
    pub(crate) words: Range<usize>,
    ghost within: { Within paragraph words },
}

impl<'a> Line<'a> {
    // The slots of its words.
    fn slots(&self) -> &'a [[u64; SLOT]]
        ensures { SlotsOf self.now.paragraph self.now.words result.now }
    {
        &self.paragraph.slots.as_chunks().0[self.words.start..self.words.end]
    }

    // The numbers of its atoms, from its first word to its last one.
    pub(crate) fn atoms(&self) -> &'a [u64]
        ensures { result.now ≡ line_part self.now.paragraph.row.now self.now.paragraph.slots.now self.now.words.start self.now.words.end }
    {
        let BrokenParagraph { row, slots, .. } = self.paragraph;
        let (slots, _) = slots.as_chunks();
        let first = Word::from(&slots[self.words.start]);
        let last = Word::from(&slots[self.words.end - 1]);
        &row[first.first..last.first + last.numbers]
    }

    // How wide its words are together.
    fn width(&self) -> usize
        ensures { result ≡ line_widths self.now.paragraph self.now.words }
    {
        let mut width = 0;
        for slot in self.slots() {
            width += Word::from(slot).width;
        }
        width
    }

    // The words, apart by a space and what the gaps are wider; how many letters they have.
    fn write_words(&self, out: &mut [u8], gaps: Gaps) -> usize
        requires { (gaps.each ≤ 1000) × (5 * letters_in (line_words self.now.paragraph self.now.words) ≤ length out.old) }
        ensures value { result ≡ letters_in (line_words self.now.paragraph self.now.words) }
        ensures after { out.new ≡ over (letters_bytes (place_words (wide_by self.now.paragraph.sheet.now.looks.widths) 0 (line_words self.now.paragraph self.now.words) gaps.each gaps.extra)) out.old }
    {
        let BrokenParagraph { sheet, row, .. } = self.paragraph;
        let space = usize::from(sheet.space());
        let mut letters = 0;
        let mut x = 0;
        let mut left = gaps;
        for slot in self.slots() {
            let word = Word::from(slot);
            letters += write_word(
                &mut out[LETTER_BYTES * letters..],
                &row[word.first..word.first + word.numbers],
                &sheet.looks.widths,
                x,
            );
            x += word.width + space + left.first();
            left = left.others();
        }
        letters
    }

    // What is left of the width: nothing is to be shared on a last line.
    fn room(&self, width: usize) -> usize
        requires { width ≤ 4096 * 1048576 }
        ensures { result ≡ pick (is_last self.now.paragraph self.now.words) 0 (self.now.paragraph.sheet.now.looks.width - (width + (self.now.words.end - self.now.words.start - 1) * wide_by self.now.paragraph.sheet.now.looks.widths 32)) }
    {
        let BrokenParagraph { sheet, slots, .. } = self.paragraph;
        if self.words.end == slots.len() / SLOT {
            return 0;
        }
        let space = usize::from(sheet.space());
        let natural = width + self.words.len().saturating_sub(1) * space;
        (sheet.looks.width as usize).saturating_sub(natural)
    }

    // The row that a line is; how many bytes it takes.
    #[tactic(auto, using(crate::proofs::SetLines::letters_few))]
    pub(crate) fn write(&self, out: &mut [u8]) -> usize
        requires { 20482 ≤ length out.old }
        ensures value { result ≡ length (line_bytes self.now.paragraph self.now.words) }
        ensures after { out.new ≡ over (line_bytes self.now.paragraph self.now.words) out.old }
    {
        let room = self.room(self.width());
        let gaps = Gaps::sharing(room, self.words.len().saturating_sub(1));
        let letters = self.write_words(&mut out[2..], gaps);
        out[..2].copy_from_slice(&row_start(letters as u16));
        2 + LETTER_BYTES * letters
    }
}
