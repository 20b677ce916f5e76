// The header, with which the numbers begin: each part is written and read in one place.
ghost use Rattle.std.specs.Prelude.{◌≡◌, ◌+◌, ◌-◌, ◌≤◌, [], ◌∷◌, ◌&&◌, length, take, drop, slice_index, slice_index_or, slice_set, Some, None};
ghost use Rattle.meaning.specs.Text.{pick};
ghost use Rattle.store.specs.Opened.{page_in_range, packed_widths, header_of};
ghost use Rattle.store.specs.Kept.{limits_at, limits_kept, unpacked, widths_at, looks_kept, kept_at};

use crate::kept::{Counts, Kept};
use crate::opening::{Limits, Looks, Opening};
use std::array;
use wire::LETTERS;

pub(crate) const HEADER: usize = 64;

// Where the parts begin. Behind the widths there is nothing.
const LIMITS: usize = 0;

pub(crate) const PARAGRAPHS: usize = 4;

pub(crate) const DEFINITIONS: usize = 7;

const PAGE: usize = 10;

const WIDTHS: usize = 12;

fn part<const N: usize>(header: &[u64; HEADER], at: usize) -> &[u64; N]
    requires { at + N ≤ 64 }
    ensures { result.now ≡ take N (drop at header.now) }
{
    header[at..].first_chunk().unwrap()
}

impl From<&Limits> for [u64; 4] {
    ghost from_gives = { λ limits numbers. numbers ≡ limits.now.paragraphs ∷ (limits.now.tokens ∷ (limits.now.definitions ∷ (limits.now.bulk ∷ []))) };

    fn from(limits: &Limits) -> [u64; 4] {
        [
            limits.paragraphs,
            limits.tokens,
            limits.definitions,
            limits.bulk,
        ]
        .map(u64::from)
    }
}

// No `TryFrom` on the way back: out of range is no error here, such memory is just no open book.
impl Limits {
    // None where they are out of range.
    fn of(numbers: &[u64; 4]) -> Option<Limits>
        ensures { result ≡ pick (limits_kept numbers.now) (Some (limits_at numbers.now)) None }
    {
        let [paragraphs, tokens, definitions, bulk] = *numbers;
        let limits = Limits {
            paragraphs: u32::try_from(paragraphs).ok()?,
            tokens: u32::try_from(tokens).ok()?,
            definitions: u32::try_from(definitions).ok()?,
            bulk: u32::try_from(bulk).ok()?,
        };
        limits.in_range().then_some(limits)
    }
}

impl From<Counts> for [u64; 3] {
    ghost from_gives = { λ counts numbers. numbers ≡ counts.entries ∷ (counts.size ∷ (counts.bytes ∷ [])) };

    fn from(counts: Counts) -> [u64; 3] {
        [
            counts.entries as u64,
            counts.size as u64,
            counts.bytes as u64,
        ]
    }
}

impl From<&[u64; 3]> for Counts {
    ghost from_gives = { λ numbers counts. counts ≡ record { entries = slice_index numbers.now 0; size = slice_index numbers.now 1; bytes = slice_index numbers.now 2 } };

    fn from(numbers: &[u64; 3]) -> Counts {
        let [entries, size, bytes] = *numbers;
        Counts {
            entries: entries as usize,
            size: size as usize,
            bytes: bytes as usize,
        }
    }
}

impl Counts {
    // Of paragraphs or definitions, where the header has them.
    pub(crate) fn write(self, header: &mut [u64; HEADER], at: usize)
        requires { at + 3 ≤ 64 }
        ensures { header.new ≡ slice_set (slice_set (slice_set header.old at self.entries) (at + 1) self.size) (at + 2) self.bytes }
    {
        header[at..at + 3].copy_from_slice(&<[u64; 3]>::from(self));
    }
}

// Eight letters to a number, the first in the lowest byte. The letter 127, which no text has, is 1 wide.
fn pack(widths: &[u8; LETTERS]) -> [u64; 12]
    ensures { result ≡ packed_widths (λ c. slice_index_or widths.now (c - 32) 1) }
{
    let mut all = [1; 96];
    all[..LETTERS].copy_from_slice(widths);
    let (eights, _) = all.as_chunks::<8>();
    array::from_fn(|k| u64::from_le_bytes(eights[k]))
}

fn unpack(packed: &[u64; 12]) -> [u8; LETTERS]
    ensures { result ≡ unpacked (λ i. slice_index packed.now i) }
{
    array::from_fn(|k| packed[k / 8].to_le_bytes()[k % 8])
}

// The widths of the letters from 32 on, as the header has them, which the numbers begin with.
pub fn widths(rest: &[u64]) -> [u8; LETTERS]
    requires { 64 ≤ length rest.now }
    ensures { result ≡ widths_at rest.now }
{
    let header = rest.first_chunk().unwrap();
    unpack(part(header, WIDTHS))
}

impl Looks {
    fn page(&self) -> [u64; 2]
        ensures { result ≡ self.now.width ∷ (self.now.rows ∷ []) }
    {
        [self.width, self.rows].map(u64::from)
    }

    // None where the page is out of range, and no error, as for `Limits`.
    fn of(page: &[u64; 2], packed: &[u64; 12]) -> Option<Looks>
        ensures { result ≡ pick (page_in_range (slice_index page.now 0) (slice_index page.now 1)) (Some (record { widths = unpacked (λ i. slice_index packed.now i); width = slice_index page.now 0; rows = slice_index page.now 1 })) None }
    {
        let [width, rows] = *page;
        let looks = Looks {
            widths: unpack(packed),
            width: u32::try_from(width).ok()?,
            rows: u32::try_from(rows).ok()?,
        };
        looks.page_in_range().then_some(looks)
    }
}

impl Kept {
    // What a header tells, where its limits and looks are in range; None and no error else, as for these.
    #[inline(always)]
    pub(crate) fn of(header: &[u64; HEADER]) -> Option<Kept>
        ensures { result ≡ pick (limits_kept header.now && looks_kept header.now) (Some (kept_at header.now)) None }
    {
        Some(Kept {
            limits: Limits::of(part(header, LIMITS))?,
            looks: Looks::of(part(header, PAGE), part(header, WIDTHS))?,
            paragraphs: Counts::from(part(header, PARAGRAPHS)),
            definitions: Counts::from(part(header, DEFINITIONS)),
        })
    }
}

// That of a book that was just opened.
pub(crate) fn header_of(opening: &Opening) -> [u64; HEADER]
    ensures { result ≡ header_of opening.now.limits opening.now.looks }
{
    let Opening { limits, looks } = opening;
    let mut header = [0; HEADER];
    header[LIMITS..LIMITS + 4].copy_from_slice(&<[u64; 4]>::from(limits));
    header[PAGE..PAGE + 2].copy_from_slice(&looks.page());
    header[WIDTHS..WIDTHS + 12].copy_from_slice(&pack(&looks.widths));
    header
}
