// The widths of letters, as a line gives them in pairs.
ghost use Rattle.std.specs.Prelude.{◌≡◌, IfOk};
ghost use Rattle.text.specs.Widths.{key_of, HasWidth, blank, put, filled, widths_of};
ghost use Rattle.text.specs.Words.{words};

use crate::fault::Fault;
use crate::word::Words;
use wire::LETTERS;

// Whose width it is.
#[derive(Clone, Copy)]
enum Key {
    Letter(u8),
    Others,
}

impl TryFrom<&[u8]> for Key {
    type Error = Fault;

    ghost try_from_gives = { λ word key. (key ≡ key_of word.now) × IfOk key HasWidth };

    // Any letter but the space stands for itself.
    fn try_from(word: &[u8]) -> Result<Self, Fault> {
        match word {
            b"space" => Ok(Key::Letter(b' ')),
            b"others" => Ok(Key::Others),
            [letter @ 33..=126] => Ok(Key::Letter(*letter)),
            _ => Err(Fault::NoLetter),
        }
    }
}

// What the pairs so far give.
#[derive(Drop)]
struct Table {
    letters: [Option<u8>; LETTERS],
    others: u8,
}

impl Table {
    fn new() -> Table
        ensures { result ≡ blank }
    {
        Table {
            letters: [None; LETTERS],
            others: 0,
        }
    }

    // Over what an earlier pair of the same key gave.
    fn put(&mut self, key: Key, width: u8)
        requires { HasWidth key }
        ensures { self.new ≡ put self.old key width }
    {
        match key {
            Key::Letter(letter) => self.letters[usize::from(letter) - 32] = Some(width),
            Key::Others => self.others = width,
        }
    }

    fn widths(&self) -> [u8; LETTERS]
        ensures { result ≡ filled self.now }
    {
        self.letters.map(|width| width.unwrap_or(self.others))
    }
}

pub fn read_widths(text: &[u8]) -> Result<[u8; LETTERS], Fault>
    ensures { result ≡ widths_of (words text.now) }
{
    let mut table = Table::new();
    let mut words = Words(text);
    while let Some(name) = words.next() {
        let key = Key::try_from(name)?;
        table.put(key, words.number()?);
    }
    Ok(table.widths())
}
