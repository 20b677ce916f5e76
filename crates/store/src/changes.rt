// The changes to a book: a paragraph is put, put in or cut. What stands behind it in memory follows, and what is freed is 0.
ghost use Rattle.std.specs.Prelude.{◌≡◌, ◌≤◌, length, slice_set};
ghost use Rattle.store.specs.Changes.{Changes};
ghost use Rattle.store.specs.Edits.{edit_by, replacement_by, edit_in, entry_with, bytes_come, bulk_come, counts_come, entry_come, Replaces};

use crate::header::PARAGRAPHS;
use crate::kept::{Counts, Entry, Kept, entry_start, open_book};
use crate::splice::splice;
use wire::Refusal;

// The tokens of a paragraph, their size, and how much the paragraph is.
#[derive(Clone, Copy, Debug, PartialEq, Eq)]
pub struct Content<'a> {
    pub bytes: &'a [u8],
    pub size: usize,
    pub bulk: usize,
}

impl From<Content<'_>> for Entry {
    ghost from_gives = { λ content entry. entry ≡ entry_with content };

    fn from(content: Content<'_>) -> Entry {
        [content.bytes.len() as u64, content.size as u64, 0, 0]
    }
}

impl From<Content<'_>> for Counts {
    ghost from_gives = { λ content counts. counts ≡ record { entries = 1; size = content.size; bytes = length content.bytes.now } };

    fn from(content: Content<'_>) -> Counts {
        Counts {
            entries: 1,
            size: content.size,
            bytes: content.bytes.len(),
        }
    }
}

#[derive(Clone, Copy, Debug, PartialEq, Eq)]
pub enum Edit<'a> {
    // the paragraph with this number becomes these tokens; the one after the last is new
    Put(u16, Content<'a>),
    // a new paragraph before the one with this number, or last
    PutIn(u16, Content<'a>),
    Cut(u16),
}

// From paragraph `at` on so many go, none or one, and a new one may come there. What goes is a count and no flag: places and numbers of entries are reckoned with it.
#[derive(Clone, Copy)]
struct Replacement<'a> {
    at: usize,
    gone: usize,
    new: Option<Content<'a>>,
}

impl<'a> Edit<'a> {
    // In a book of so many paragraphs.
    fn replacement(self, paragraphs: usize) -> Replacement<'a>
        ensures { result ≡ replacement_by self.entry paragraphs }
    {
        match self {
            Edit::Put(k, content) => {
                let at = k as usize;
                Replacement {
                    at,
                    gone: usize::from(at < paragraphs),
                    new: Some(content),
                }
            }
            Edit::PutIn(k, content) => Replacement {
                at: k as usize,
                gone: 0,
                new: Some(content),
            },
            Edit::Cut(k) => Replacement {
                at: k as usize,
                gone: 1,
                new: None,
            },
        }
    }
}

impl<'a> Replacement<'a> {
    fn bytes(self) -> &'a [u8]
        ensures { result.now ≡ bytes_come self.entry }
    {
        self.new.map_or(&[], |content| content.bytes)
    }

    fn bulk(self) -> usize
        ensures { result ≡ bulk_come self.entry }
    {
        self.new.map_or(0, |content| content.bulk)
    }

    fn entry(self) -> Option<Entry>
        ensures { result ≡ entry_come self.entry }
    {
        self.new.map(Entry::from)
    }

    fn come(self) -> Counts
        ensures { result ≡ counts_come self.entry }
    {
        self.new.map(Counts::from).unwrap_or_default()
    }
}

// What there is afterwards is told by what stands before the place and by what goes.
fn make(
    tokens: &mut [u8],
    rest: &mut [u64],
    kept: Kept,
    before: Counts,
    gone: Counts,
    replacement: Replacement<'_>,
) -> Result<(), Refusal>
    requires { Replaces tokens.old rest.old kept before gone replacement }
    ensures { Changes (edit_in replacement.entry) tokens.old rest.old tokens.new rest.new result }
{
    if replacement.bulk() > kept.limits.bulk as usize {
        return Err(Refusal::TooMuch);
    }
    let come = replacement.come();
    let counts = kept.paragraphs;
    // Field by field: an `Add` of counts would have no place to say that its sums fit. A size that is too large to tell is too much.
    let after = Counts {
        entries: counts.entries - gone.entries + come.entries,
        size: (counts.size - gone.size).saturating_add(come.size),
        bytes: counts.bytes - gone.bytes + come.bytes,
    };
    let kept_then = Kept {
        paragraphs: after,
        ..kept
    };
    if !kept_then.within_limits() {
        return Err(Refusal::TooMuch);
    }
    splice(
        tokens,
        before.bytes..before.bytes + gone.bytes,
        counts.bytes,
        replacement.bytes(),
        0,
    );
    // The entries of paragraphs behind what goes follow.
    let entry = replacement.entry();
    splice(
        rest,
        entry_start(before.entries)..entry_start(before.entries + gone.entries),
        entry_start(counts.entries),
        entry.as_slice().as_flattened(),
        0,
    );
    after.write(rest.first_chunk_mut().unwrap(), PARAGRAPHS);
    Ok(())
}

// A refusal leaves memory as it was.
pub fn change(tokens: &mut [u8], rest: &mut [u64], edit: Edit<'_>) -> Result<(), Refusal>
    ensures { Changes (edit_by edit.entry rest.old) tokens.old rest.old tokens.new rest.new result }
{
    let (kept, entries) = open_book(tokens, rest).ok_or(Refusal::BadOpening)?;
    let replacement = edit.replacement(kept.paragraphs.entries);
    let Replacement { at, gone, .. } = replacement;
    if at + gone > kept.paragraphs.entries {
        return Err(Refusal::NoParagraph(at as u32));
    }
    let before = Counts::of(&entries[..at]);
    let gone = Counts::of(&entries[at..at + gone]);
    make(tokens, rest, kept, before, gone, replacement)
}
