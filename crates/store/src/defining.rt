// A command's definition: it stands behind all others, and the one that its number had before goes.
ghost use Rattle.std.specs.Prelude.{◌≡◌};
ghost use Rattle.std.specs.List.{position_or_len};
ghost use Rattle.store.specs.Defines.{has_number, entry_defined, Defines};
ghost use Rattle.store.specs.Definitions.{defining_by, Redefines};

use crate::header::DEFINITIONS;
use crate::kept::{Counts, ENTRY, Entry, Kept, look};
use crate::splice::put_last;
use wire::Refusal;

// What a command stands for: its tokens, and their size.
#[derive(Clone, Copy, Debug, PartialEq, Eq)]
pub struct Definition<'a> {
    pub number: u8,
    pub bytes: &'a [u8],
    pub size: usize,
}

// Where the definition of a number stands, or behind the last.
fn place(entries: &[Entry], number: u8) -> usize
    ensures { result ≡ position_or_len (has_number number) entries.now }
{
    let found = entries
        .iter()
        .position(|entry| entry[2] == u64::from(number));
    found.unwrap_or(entries.len())
}

impl Definition<'_> {
    fn entry(&self) -> Entry
        ensures { result ≡ entry_defined (defining_by self.now) }
    {
        [
            self.bytes.len() as u64,
            self.size as u64,
            u64::from(self.number),
            0,
        ]
    }
}

// What there is afterwards is told by what stands before the place and by what goes.
fn put(
    tokens: &mut [u8],
    rest: &mut [u64],
    kept: Kept,
    before: Counts,
    gone: Counts,
    definition: Definition<'_>,
) -> Result<(), Refusal>
    requires { Redefines tokens.old rest.old kept before gone definition }
    ensures { Defines (defining_by definition.entry) tokens.old rest.old tokens.new rest.new result }
{
    let counts = kept.definitions;
    let after = Counts {
        entries: counts.entries - gone.entries + 1,
        size: (counts.size - gone.size).saturating_add(definition.size),
        bytes: counts.bytes - gone.bytes + definition.bytes.len(),
    };
    let kept_then = Kept {
        definitions: after,
        ..kept
    };
    if !kept_then.within_limits() {
        return Err(Refusal::TooMuch);
    }
    // The first half of the bytes is the paragraphs'.
    let half = 2 * kept.limits.tokens as usize;
    let start = half + before.bytes;
    put_last(
        tokens,
        start..start + gone.bytes,
        half + counts.bytes,
        definition.bytes,
        0,
    );
    let front = kept.front();
    let start = front + ENTRY * before.entries;
    put_last(
        rest,
        start..start + ENTRY * gone.entries,
        front + ENTRY * counts.entries,
        &definition.entry(),
        0,
    );
    after.write(rest.first_chunk_mut().unwrap(), DEFINITIONS);
    Ok(())
}

// A refusal leaves memory as it was.
pub fn define(
    tokens: &mut [u8],
    rest: &mut [u64],
    definition: Definition<'_>,
) -> Result<(), Refusal>
    ensures { Defines (defining_by definition.entry) tokens.old rest.old tokens.new rest.new result }
{
    let kept = look(tokens, rest).ok_or(Refusal::BadOpening)?;
    let entries = kept.defined(rest);
    let at = place(entries, definition.number);
    let gone = usize::from(at < entries.len());
    let before = Counts::of(&entries[..at]);
    let gone = Counts::of(&entries[at..at + gone]);
    put(tokens, rest, kept, before, gone, definition)
}
