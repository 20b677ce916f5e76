// A book is opened: how much memory its limits ask for, and what it holds at first.
ghost use Rattle.std.specs.Prelude.{◌≡◌};
ghost use Rattle.store.specs.Opened.{all_within, limits_in_range, page_in_range, looks_in_range, limits_of, tokens_asked, rest_asked, asking, Opens, InRangeGood, OpenedSound};

use crate::header::{HEADER, header_of};
use wire::{LETTERS, Refusal};

// The most that a book may have. In range: 4,096 paragraphs, 65,536 tokens, 1,024 definitions, and 4,096 for a paragraph's bulk.
#[derive(Clone, Copy, Debug, PartialEq, Eq)]
pub struct Limits {
    pub paragraphs: u32,
    pub tokens: u32,
    pub definitions: u32,
    pub bulk: u32,
}

// In range: widths of the letters 32 to 126 from 1 to 63, a line width from 1 to 1,000, and 1 to 255 rows to a page.
#[derive(Clone, Copy, Debug, PartialEq, Eq)]
pub struct Looks {
    pub widths: [u8; LETTERS],
    pub width: u32,
    pub rows: u32,
}

// What a book is opened with.
#[derive(Clone, Copy, Debug, PartialEq, Eq)]
pub struct Opening {
    pub limits: Limits,
    pub looks: Looks,
}

// How many bytes and numbers are to be lent, at the least.
#[derive(Clone, Copy, Debug, Default, PartialEq, Eq)]
pub struct Asked {
    pub tokens: usize,
    pub rest: usize,
}

impl Limits {
    pub(crate) fn in_range(&self) -> bool
        ensures { result ≡ limits_in_range self.now }
    {
        self.paragraphs <= 4096
            && self.tokens <= 65536
            && self.definitions <= 1024
            && self.bulk <= 4096
    }

    pub(crate) fn bytes_asked(&self) -> usize
        ensures { result ≡ tokens_asked (limits_of self.now) }
    {
        4 * self.tokens as usize
    }

    pub(crate) fn rest_asked(&self) -> usize
        ensures { result ≡ rest_asked (limits_of self.now) }
    {
        let all = self.paragraphs as usize + self.tokens as usize + self.definitions as usize;
        8 * all + 32 * self.bulk as usize + 4096
    }
}

fn widths_in_range(widths: &[u8; LETTERS]) -> bool
    ensures { result ≡ all_within 1 63 widths.now }
{
    widths.iter().all(|w| (1..=63).contains(w))
}

impl Looks {
    // Of the looks, those that a header tells as they are.
    pub(crate) fn page_in_range(&self) -> bool
        ensures { result ≡ page_in_range self.now.width self.now.rows }
    {
        (1..=1000).contains(&self.width) && (1..=255).contains(&self.rows)
    }

    fn in_range(&self) -> bool
        ensures { result ≡ looks_in_range self.now }
    {
        self.page_in_range() && widths_in_range(&self.widths)
    }
}

impl Asked {
    // None where limits or looks are out of range.
    pub fn of(opening: &Opening) -> Option<Asked>
        ensures { result ≡ asking opening.now.limits opening.now.looks }
    {
        let Opening { limits, looks } = opening;
        let asked = Asked {
            tokens: limits.bytes_asked(),
            rest: limits.rest_asked(),
        };
        (limits.in_range() && looks.in_range()).then_some(asked)
    }
}

// What is out of range is refused first, then too few bytes for tokens, then too few numbers; a refusal leaves both slices as they were.
pub fn open(tokens: &mut [u8], rest: &mut [u64], opening: &Opening) -> Result<(), Refusal>
    ensures { Opens opening.now.limits opening.now.looks tokens.old rest.old tokens.new rest.new result }
{
    let asked = Asked::of(opening).ok_or(Refusal::BadOpening)?;
    if tokens.len() < asked.tokens {
        return Err(Refusal::ShortTokens);
    }
    if rest.len() < asked.rest {
        return Err(Refusal::ShortRest);
    }
    tokens[..asked.tokens].fill(0);
    rest[..asked.rest].fill(0);
    rest[..HEADER].copy_from_slice(&header_of(opening));
    Ok(())
}

// What a book can be opened with is good for the meaning, and what it then holds is as large as was asked for.
pub fn opening_is_sound()
    ensures good { InRangeGood }
    ensures sound { OpenedSound }
{}
