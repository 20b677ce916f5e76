// Atoms as numbers, one behind another in a row, and read from there.
ghost use Rattle.std.specs.Prelude.{◌≡◌, ◌^◌, ◌<◌, length};
ghost use Rattle.std.specs.Iterator.{at_most};
ghost use Rattle.words.specs.Atoms.{numbers_of, atom_at, atom_of, TakesAtom};

// A gap has the number that the letter 32 would have, which no word has.
pub(crate) const GAP: u64 = 32;

// A mark has 256 and its name, and a note 512 and how many letters and gaps it has, which follow as one number each.
pub(crate) const MARK: u64 = 256;

pub(crate) const NOTE: u64 = 512;

#[derive(Clone, Copy, Debug, PartialEq, Eq)]
pub enum Atom<'a> {
    Letter(u8),
    Gap,
    Mark(u8),
    Note(&'a [u64]),
}

impl<'a> Atom<'a> {
    // By its first number, and what follows where it is a note.
    fn of(number: u64, text: &'a [u64]) -> Atom<'a>
        ensures { atom_of result ≡ atom_at number text.now }
    {
        match number {
            GAP => Atom::Gap,
            0..MARK => Atom::Letter(number as u8),
            MARK..NOTE => Atom::Mark((number - MARK) as u8),
            _ => Atom::Note(text),
        }
    }

    // How many it has in a row.
    pub(crate) fn numbers(self) -> usize
        requires { length (numbers_of (atom_of self)) < 2 ^ 64 }
        ensures { result ≡ length (numbers_of (atom_of self.entry)) }
    {
        match self {
            Atom::Letter(_) | Atom::Gap | Atom::Mark(_) => 1,
            Atom::Note(text) => 1 + text.len(),
        }
    }
}

// The atoms of a row, one behind another; they end where a note has not as many numbers as it says.
#[derive(Drop)]
pub struct Atoms<'a>(pub &'a [u64]);

impl<'a> Iterator for Atoms<'a> {
    type Item = Atom<'a>;

    ghost next_gives = { λ s r t. TakesAtom s.0.now r t.0.now };

    ghost remaining = { λ s. at_most (length s.0.now) };

    fn next(&mut self) -> Option<Atom<'a>> {
        let (number, rest) = self.0.split_first()?;
        let (text, rest) = rest.split_at_checked(number.saturating_sub(NOTE) as usize)?;
        self.0 = rest;
        Some(Atom::of(*number, text))
    }
}
