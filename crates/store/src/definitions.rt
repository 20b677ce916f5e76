// The definitions of a book, one after another.
ghost use Rattle.std.specs.Prelude.{◌≡◌};
ghost use Rattle.std.specs.Iterator.{item_count};
ghost use Rattle.store.specs.Defined.{defined_in, definitions_left, GivesDefinition};

use crate::kept::Entry;

// What a number is defined as, in token bytes.
#[derive(Clone, Copy)]
pub struct Defined<'t> {
    pub number: u8,
    pub tokens: &'t [u8],
}

// Each definition's number and token bytes: as many as its entry says, one definition behind another. An entry is [bytes, size, number, 0].
// It ends where there are fewer bytes, or a number is no byte. It is Copy, so that it can be gone through again and again.
#[derive(Clone, Copy)]
pub struct Definitions<'t, 'e> {
    tokens: &'t [u8],
    entries: &'e [Entry],
}

impl<'t, 'e> Definitions<'t, 'e> {
    pub fn new(tokens: &'t [u8], entries: &'e [Entry]) -> Definitions<'t, 'e>
        ensures { definitions_left result ≡ defined_in tokens.now entries.now }
    {
        Definitions { tokens, entries }
    }
}

impl<'t, 'e> Iterator for Definitions<'t, 'e> {
    type Item = Defined<'t>;

    ghost next_gives = { GivesDefinition };

    ghost remaining = { item_count definitions_left };

    fn next(&mut self) -> Option<Defined<'t>> {
        let ([bytes, _, number, ..], entries) = self.entries.split_first()?;
        let (definition, tokens) = self.tokens.split_at_checked(*bytes as usize)?;
        let Ok(number) = u8::try_from(*number) else {
            return None;
        };
        self.tokens = tokens;
        self.entries = entries;
        Some(Defined {
            number,
            tokens: definition,
        })
    }
}
