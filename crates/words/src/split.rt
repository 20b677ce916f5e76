// The words of atoms: what stands between gaps.
ghost use Rattle.std.specs.Prelude.{◌≡◌, ℕ, ◌*◌, ◌<◌, ◌≤◌, length};
ghost use Rattle.words.specs.Slots.{word_in, wide_by, Splits};

use crate::atoms::{Atom, Atoms};
use crate::slots::{Word, close_word};
use wire::LETTERS;

// The table begins with a space, 32; what it has not is 1 wide.
pub fn letter_width(widths: &[u8; LETTERS], letter: u8) -> usize
    ensures value { result ≡ wide_by widths.now letter }
    ensures small { result ≤ 255 }
{
    let k = letter.saturating_sub(32) as usize;
    widths.get(k).map_or(1, |width| usize::from(*width))
}

// How many words there are, each in its slot.
pub fn split_words(row: &[u64], slots: &mut [u64], widths: &[u8; LETTERS]) -> usize
    requires { (length row.now ≤ 4096) × (8 * length row.now ≤ length slots.old) }
    ensures words { Splits (wide_by widths.now) row.now slots.old slots.new result }
    ensures narrow { (k : ℕ) → k < result → (word_in slots.new k).width ≤ 1048576 }
{
    let mut words = 0;
    let mut word = Word::default();
    // where the next atom begins
    let mut at = 0;
    for atom in Atoms(row) {
        at += atom.numbers();
        match atom {
            Atom::Gap => {
                words = close_word(slots, words, word);
                word = Word {
                    first: at,
                    ..Word::default()
                };
            }
            _ => word = word.with_atom(atom, widths),
        }
    }
    close_word(slots, words, word)
}
