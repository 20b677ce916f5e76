// Why something is turned away: the first case that applies, in the order of their numbers.
ghost use Rattle.std.specs.Prelude.{◌≡◌, Some};
ghost use Rattle.wire.specs.Refusals.{refusal_number, refusal_place, unreadable, unreadable_text};

use std::error::Error;
use std::fmt;

#[derive(Clone, Copy, PartialEq, Eq, Debug)]
pub enum Refusal {
    // 1: bytes that are no call, from this byte on
    Unreadable(u32),
    // 2: a letter, name, command, depth or row count out of range, or what the stage can't do
    Unfit,
    // 3: at opening, too few bytes lent for tokens
    ShortTokens,
    // 3: at opening, too few numbers lent for the rest
    ShortRest,
    // 3: at opening, limits, widths, line width or rows out of range
    BadOpening,
    // 4: no paragraph has this number
    NoParagraph(u32),
    // 5: no page has this number
    NoPage(u32),
    // 5: the page ends before the rows asked for, of which this is the first
    NoRows(u32),
    // 6: afterwards there would be more than the limits allow
    TooMuch,
}

// An answer's bytes, and what C is given, tell a refusal by these two numbers.
impl Refusal {
    pub fn number(self) -> u8
        ensures { result ≡ refusal_number self }
    {
        match self {
            Refusal::Unreadable(_) => 1,
            Refusal::Unfit => 2,
            Refusal::ShortTokens | Refusal::ShortRest | Refusal::BadOpening => 3,
            Refusal::NoParagraph(_) => 4,
            Refusal::NoPage(_) | Refusal::NoRows(_) => 5,
            Refusal::TooMuch => 6,
        }
    }

    pub fn place(self) -> u32
        ensures { result ≡ refusal_place self }
    {
        match self {
            Refusal::Unfit | Refusal::ShortTokens | Refusal::TooMuch => 0,
            Refusal::ShortRest => 1,
            Refusal::BadOpening => 2,
            Refusal::Unreadable(place)
            | Refusal::NoParagraph(place)
            | Refusal::NoPage(place)
            | Refusal::NoRows(place) => place,
        }
    }
}

// Bytes that are no call, from this byte on; where they end too early, it is their length.
#[derive(Clone, Copy, PartialEq, Eq, Debug)]
pub struct Unreadable {
    pub at: usize,
}

impl fmt::Display for Unreadable {
    ghost output = { λ x. Some (unreadable_text x) };

    fn fmt<W: fmt::Write>(&self, f: &mut fmt::Formatter<W>) -> fmt::Result {
        write!(f, "no call from byte {} on", self.at)
    }
}

impl Error for Unreadable {}

// A place that is longer than four bytes can tell is told as the last that they can.
impl From<Unreadable> for Refusal {
    ghost from_gives = { λ stop why. why ≡ unreadable stop };

    fn from(stop: Unreadable) -> Refusal {
        Refusal::Unreadable(u32::try_from(stop.at).unwrap_or(u32::MAX))
    }
}
