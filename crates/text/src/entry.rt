// The lines that open a book, each by itself.
ghost use Rattle.std.specs.Prelude.{◌≡◌};
ghost use Rattle.text.specs.Entries.{keyword_of, limits_of, entry_of};
ghost use Rattle.text.specs.Words.{words};

use crate::fault::Fault;
use crate::widths::read_widths;
use crate::word::{Words, first_word};
use store::Limits;
use wire::LETTERS;

#[derive(Clone, Copy, Debug, PartialEq, Eq)]
pub enum Entry {
    Limits(Limits),
    // of the letters 32 to 126
    Widths([u8; LETTERS]),
    Width(u32),
    Rows(u32),
}

#[derive(Clone, Copy)]
enum Keyword {
    Limits,
    Widths,
    Width,
    Rows,
}

impl TryFrom<&[u8]> for Keyword {
    type Error = Fault;

    ghost try_from_gives = { λ word keyword. keyword ≡ keyword_of word.now };

    #[tactic(auto, unfolding(crate::specs::Entries::keyword_of))]
    fn try_from(word: &[u8]) -> Result<Self, Fault> {
        match word {
            b"limits" => Ok(Keyword::Limits),
            b"widths" => Ok(Keyword::Widths),
            b"width" => Ok(Keyword::Width),
            b"rows" => Ok(Keyword::Rows),
            _ => Err(Fault::Unknown),
        }
    }
}

fn read_limits(text: &[u8]) -> Result<Limits, Fault>
    ensures { result ≡ limits_of (words text.now) }
{
    let mut words = Words(text);
    Ok(Limits {
        paragraphs: words.number()?,
        tokens: words.number()?,
        definitions: words.number()?,
        bulk: words.last_number()?,
    })
}

// None of an empty line, and of a remark.
pub fn read_entry(line: &[u8]) -> Result<Option<Entry>, Fault>
    ensures { result ≡ entry_of line.now }
{
    if let [] | [b'#', ..] = line {
        return Ok(None);
    }
    let (word, rest) = first_word(line);
    let entry = match Keyword::try_from(word)? {
        Keyword::Limits => Entry::Limits(read_limits(rest)?),
        Keyword::Widths => Entry::Widths(read_widths(rest)?),
        Keyword::Width => Entry::Width(Words(rest).last_number()?),
        Keyword::Rows => Entry::Rows(Words(rest).last_number()?),
    };
    Ok(Some(entry))
}
