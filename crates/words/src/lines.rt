// Atoms broken into the best lines of their words.
ghost use Rattle.std.specs.Prelude.{◌≡◌, ◌*◌, ◌≤◌, length};
ghost use Rattle.words.specs.Reads.{found_within};
ghost use Rattle.words.specs.Slots.{wide_by};
ghost use Rattle.words.specs.Lined.{BreaksRow, BreaksInto};

use crate::read::read_atoms;
use crate::split::split_words;
use linebreak::{SLOT, break_lines};
use wire::LETTERS;

// How many words there are, each in its slot.
pub fn break_row(row: &[u64], slots: &mut [u64], widths: &[u8; LETTERS], width: u64) -> usize
    requires { (length row.now ≤ 4096) × ((8 * length row.now ≤ length slots.old) × (width ≤ 1000)) }
    ensures { BreaksRow (wide_by widths.now) width row.now slots.old slots.new result }
{
    let words = split_words(row, slots, widths);
    break_lines(&mut slots[..SLOT * words], u64::from(widths[0]), width);
    words
}

// What a broken paragraph takes: so many numbers for its atoms, and so many slots.
#[derive(Clone, Copy, Debug, PartialEq, Eq)]
pub struct Taken {
    pub numbers: usize,
    pub words: usize,
}

// A paragraph's tokens, read and broken; None where they are not read, and then all numbers are 0 and no slot is written.
pub fn break_into_lines(
    tokens: &[u8],
    row: &mut [u64],
    slots: &mut [u64],
    widths: &[u8; LETTERS],
    width: u64,
) -> Option<Taken>
    requires { (length row.old ≤ 4096) × ((8 * length row.old ≤ length slots.old) × (width ≤ 1000)) }
    ensures { BreaksInto (wide_by widths.now) width (found_within (length row.old) tokens.now) row.old row.new slots.old slots.new result }
{
    let numbers = read_atoms(tokens, row)?;
    let words = break_row(&row[..numbers], slots, widths, width);
    Some(Taken { numbers, words })
}
