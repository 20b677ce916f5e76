// What is kept of an open book: its limits and looks, how much it holds, and an entry of four numbers for each paragraph and definition.
ghost use Rattle.std.specs.Prelude.{◌≡◌, ◌+◌, ◌*◌, ◌^◌, ◌<◌, ◌≤◌, length, drop, false, Some, None, MatchOption};
ghost use Rattle.std.specs.Simd.{first_chunks};
ghost use Rattle.meaning.specs.Text.{pick};
ghost use Rattle.store.specs.Opened.{limits_of, kept_asked};
ghost use Rattle.store.specs.Kept.{kept_at, counts_within, is_open};
ghost use Rattle.store.specs.Counted.{counts_in, OpenBook};

use crate::header::HEADER;
use crate::opening::{Limits, Looks};

#[derive(Clone, Copy, Debug, PartialEq, Eq)]
pub struct Kept {
    pub limits: Limits,
    pub looks: Looks,
    pub paragraphs: Counts,
    pub definitions: Counts,
}

// How many paragraphs or definitions there are, of what size in tokens and of how many bytes together.
#[derive(Clone, Copy, Debug, Default, PartialEq, Eq)]
pub struct Counts {
    pub entries: usize,
    pub size: usize,
    pub bytes: usize,
}

// How many numbers an entry has.
pub(crate) const ENTRY: usize = 4;

// How many bytes its tokens have, their size, of a definition its number, and 0.
pub type Entry = [u64; ENTRY];

// Where the entry of paragraph k begins.
pub(crate) fn entry_start(k: usize) -> usize
    requires { k < 2 ^ 32 }
    ensures { result ≡ 64 + 4 * k }
{
    HEADER + ENTRY * k
}

impl Counts {
    // Sums that are too large to tell stay at the largest number, which no open book has.
    pub(crate) fn of(entries: &[Entry]) -> Counts
        ensures { result ≡ counts_in entries.now }
    {
        let mut size = 0usize;
        let mut bytes = 0usize;
        for [its_bytes, its_size, ..] in entries {
            bytes = bytes.saturating_add(*its_bytes as usize);
            size = size.saturating_add(*its_size as usize);
        }
        Counts {
            entries: entries.len(),
            size,
            bytes,
        }
    }
}

impl Kept {
    // Sizes may be any numbers here, and a sum that is too large to tell is too much.
    pub(crate) fn within_limits(&self) -> bool
        ensures { result ≡ counts_within self.now.paragraphs self.now.definitions self.now.limits }
    {
        let Kept {
            limits,
            paragraphs,
            definitions,
            ..
        } = self;
        let tokens = limits.tokens as usize;
        paragraphs.entries <= limits.paragraphs as usize
            && definitions.entries <= limits.definitions as usize
            && paragraphs.size.saturating_add(definitions.size) <= tokens
            && paragraphs.bytes <= 2 * tokens
            && definitions.bytes <= 2 * tokens
    }

    // How many numbers the header and the paragraphs' entries have at most.
    pub fn front(&self) -> usize
        ensures { result ≡ kept_asked (limits_of self.now.limits) }
    {
        entry_start(self.limits.paragraphs as usize)
    }

    // The paragraphs' entries, behind the header.
    pub fn entries<'a>(&self, front: &'a [u64]) -> &'a [Entry]
        requires { 64 + 4 * self.now.paragraphs.entries ≤ length front.now }
        ensures { result.now ≡ first_chunks 4 self.now.paragraphs.entries (drop 64 front.now) }
    {
        let (entries, _) = front[HEADER..].as_chunks();
        &entries[..self.paragraphs.entries]
    }

    // The definitions' entries, behind those of all paragraphs that there may be.
    pub fn defined<'a>(&self, front: &'a [u64]) -> &'a [Entry]
        requires { 64 + 4 * self.now.limits.paragraphs + 4 * self.now.definitions.entries ≤ length front.now }
        ensures { result.now ≡ first_chunks 4 self.now.definitions.entries (drop (64 + 4 * self.now.limits.paragraphs) front.now) }
    {
        let (entries, _) = front[self.front()..].as_chunks();
        &entries[..self.definitions.entries]
    }
}

// What is kept of the book, and its paragraphs' entries, if memory is an open book.
// This and `Kept::of` go into each caller, so that one which needs no looks has no widths unpacked.
#[inline(always)]
pub(crate) fn open_book<'a>(tokens: &[u8], rest: &'a [u64]) -> Option<(Kept, &'a [Entry])>
    ensures { MatchOption result (is_open (length tokens.now) rest.now ≡ false) (λ p. OpenBook tokens.now rest.now p.0 p.1.now) }
{
    let kept = Kept::of(rest.first_chunk()?)?;
    let limits = kept.limits;
    if tokens.len() < limits.bytes_asked() || rest.len() < limits.rest_asked() {
        return None;
    }
    if !kept.within_limits() {
        return None;
    }
    let entries = kept.entries(rest);
    if Counts::of(entries) != kept.paragraphs {
        return None;
    }
    if Counts::of(kept.defined(rest)) != kept.definitions {
        return None;
    }
    Some((kept, entries))
}

// What is kept of the book, if memory is an open book.
pub fn look(tokens: &[u8], rest: &[u64]) -> Option<Kept>
    ensures { result ≡ pick (is_open (length tokens.now) rest.now) (Some (kept_at rest.now)) None }
{
    let (kept, _) = open_book(tokens, rest)?;
    Some(kept)
}
