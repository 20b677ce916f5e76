// How many lines a paragraph has.
ghost use Rattle.std.specs.Prelude.{◌≡◌, ◌*◌, ◌≤◌, length, take, replicate};
ghost use Rattle.words.specs.Atoms.{cleared};
ghost use Rattle.words.specs.Reads.{found_within};
ghost use Rattle.words.specs.Slots.{wide_by};
ghost use Rattle.speed.specs.Counts.{lines_in, used};

use linebreak::{Lines, SLOT};
use wire::LETTERS;
use words::break_into_lines;

// None where there is no room for all atoms, or the stage has no atom for a token. What was used of both rows is 0 again.
pub fn count_lines(
    tokens: &[u8],
    atoms: &mut [u64],
    slots: &mut [u64],
    widths: &[u8; LETTERS],
    width: u64,
) -> Option<usize>
    requires { (length atoms.old ≤ 4096) × ((8 * length atoms.old ≤ length slots.old) × (width ≤ 1000)) }
    ensures value { result ≡ lines_in (wide_by widths.now) width (found_within (length atoms.old) tokens.now) }
    ensures atoms { atoms.new ≡ replicate (length atoms.old) 0 }
    ensures slots { slots.new ≡ cleared (used (found_within (length atoms.old) tokens.now)) slots.old }
    ensures same { take (8 * length atoms.old) slots.old ≡ replicate (8 * length atoms.old) 0 → slots.new ≡ slots.old }
{
    let taken = break_into_lines(tokens, atoms, slots, widths, width)?;
    atoms.fill(0);
    let used = &mut slots[..SLOT * taken.words];
    let lines = Lines::of(used).count();
    used.fill(0);
    Some(lines)
}
