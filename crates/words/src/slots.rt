// Words, each in a slot of eight numbers.
ghost use Rattle.std.specs.Prelude.{◌≡◌, ◌+◌, ◌^◌, ◌<◌, ◌≤◌, length, ◌==◌};
ghost use Rattle.meaning.specs.Text.{pick};
ghost use Rattle.words.specs.Atoms.{numbers_of, atom_of};
ghost use Rattle.words.specs.Slots.{slot_place, slot_numbers, slot_word, with_slot, with_atom, wide_by};

use crate::atoms::Atom;
use crate::split::letter_width;
use linebreak::SLOT;
use wire::LETTERS;

// A word's atoms have so many numbers in a row, from the first on; its width is that of its letters together.
#[derive(Clone, Copy, Debug, Default, PartialEq, Eq)]
pub struct Word {
    pub first: usize,
    pub numbers: usize,
    pub width: usize,
}

impl Word {
    // What is no letter is no wider than nothing.
    pub(crate) fn with_atom(self, atom: Atom<'_>, widths: &[u8; LETTERS]) -> Word
        requires { (self.numbers + length (numbers_of (atom_of atom)) < 2 ^ 64) × (self.width + 255 < 2 ^ 64) }
        ensures value { result ≡ with_atom (wide_by widths.now) self (atom_of atom.entry) }
        ensures narrow { result.width ≤ self.width + 255 }
    {
        let width = match atom {
            Atom::Letter(c) => letter_width(widths, c),
            Atom::Gap | Atom::Mark(_) | Atom::Note(_) => 0,
        };
        Word {
            numbers: self.numbers + atom.numbers(),
            width: self.width + width,
            ..self
        }
    }
}

impl From<&[u64; SLOT]> for Word {
    ghost from_gives = { λ slot word. word ≡ slot_word slot.now };

    fn from(slot: &[u64; SLOT]) -> Word {
        let [first, numbers, width, ..] = *slot;
        Word {
            first: first as usize,
            numbers: numbers as usize,
            width: width as usize,
        }
    }
}

impl From<Word> for [u64; SLOT] {
    ghost from_gives = { λ word slot. slot ≡ slot_numbers word };

    fn from(word: Word) -> [u64; SLOT] {
        let Word {
            first,
            numbers,
            width,
        } = word;
        [first as u64, numbers as u64, width as u64, 0, 0, 0, 0, 0]
    }
}

// How many words there are then: one without atoms is none.
pub(crate) fn close_word(slots: &mut [u64], k: usize, word: Word) -> usize
    requires { ((0 < word.numbers → slot_place (k + 1) ≤ length slots.old)) × (k ≤ 4096) }
    ensures value { result ≡ pick (word.numbers == 0) k (k + 1) }
    ensures after { slots.new ≡ pick (word.numbers == 0) slots.old (with_slot slots.old k word) }
{
    if word.numbers == 0 {
        return k;
    }
    let at = SLOT * k;
    slots[at..at + SLOT].copy_from_slice(&<[u64; SLOT]>::from(word));
    k + 1
}
