// The book in memory, set from nothing: how many pages it has, and how many rows and which rows a page has.
// `tokens` and `rest` are the two slices that are lent, and stay apart here as in `store`.
ghost use Rattle.std.specs.Prelude.{◌≡◌, ◌+◌, ◌*◌, ◌≤◌, length, false, is_ok, if◌then◌else◌, MatchResult};
ghost use Rattle.meaning.specs.Text.{pick};
ghost use Rattle.wire.specs.Bytes.{over};
ghost use Rattle.wire.specs.declared.refusal.Refusal.TheVariants.{BadOpening};
ghost use Rattle.words.specs.Atoms.{cleared};
ghost use Rattle.store.specs.Kept.{is_open};
ghost use Rattle.store.specs.Paragraphs.{paragraphs_left};
ghost use Rattle.layout.specs.Sheets.{looks_of, working, SheetFits};
ghost use Rattle.layout.specs.Paragraphs.{part_rows};
ghost use Rattle.layout.specs.Finishes.{TakesAll};
ghost use Rattle.layout.specs.Books.{sheet_at, paragraphs_at, lines_in, pages_by, worked, LookedAt, InFront};
ghost use Rattle.layout.specs.Found.{goal_of, FoundBy, window_of, inside};
ghost use Rattle.layout.specs.Asked.{counting_pages, shape_of, shaping, shown_of, showing, shown_bytes, bytes_of_rows};

use crate::rows::{Part, RowWriter, Window};
use crate::search::{Goal, Search};
use crate::sheet::Sheet;
use crate::walk::Walk;
use linebreak::SLOT;
use store::{Kept, Paragraphs, look};
use wire::{Refusal, rows_start};

// Of a page, from 0 on, so many rows from one on.
#[derive(Clone, Copy, Debug, PartialEq, Eq)]
pub struct Wanted {
    pub page: u32,
    pub row: u16,
    pub count: u8,
}

impl Wanted {
    // A page's notes stand behind its lines: all of it has to be seen where it has no more lines than that.
    fn goal(self) -> Goal
        ensures { result ≡ goal_of self }
    {
        Goal {
            page: self.page as usize,
            lines: self.row as usize + self.count as usize,
        }
    }
}

// How many lines a page has, and how many rows with their notes' lines.
#[derive(Clone, Copy, Debug, PartialEq, Eq)]
pub struct PageShape {
    pub lines: usize,
    pub rows: usize,
}

// The paragraphs from a place on, and how many lines there are before it.
#[derive(Clone, Copy)]
struct Place<'t, 'e> {
    paragraphs: Paragraphs<'t, 'e>,
    lines: usize,
}

// Where the walk ended, and a place before the page's first line, as near as a paragraph's beginning is.
#[derive(Clone, Copy)]
struct Found<'t, 'e> {
    walk: Walk,
    from: Place<'t, 'e>,
}

// How many numbers of the working part a paragraph takes for each that it may be: one for its atoms, and a slot for its words and for a note's.
const WORKING: usize = 1 + 2 * SLOT;

// An open book: its looks, its paragraphs, and the working part, in which one paragraph after another is broken into lines.
// What a method leaves as it was (Keeps), it says itself: a ghost field tells of the book at one time, and of no earlier one.
#[derive(Drop)]
pub(crate) struct Book<'t, 'e, 'w> {
    pub(crate) sheet: Sheet,
    paragraphs: Paragraphs<'t, 'e>,
    pub(crate) work: &'w mut [u64],
    ghost fits: { SheetFits sheet },
    ghost room: { working sheet.bulk ≤ length work.now },
    ghost few: { length (paragraphs_left paragraphs) ≤ 4096 },
}

impl<'t, 'e, 'w> Book<'t, 'e, 'w> {
    ghost use Rattle.layout.specs.Keeping.{Keeps};

    // The header and the entries are in front of the working part.
    fn of(kept: &Kept, tokens: &'t [u8], front: &'e [u64], work: &'w mut [u64]) -> Book<'t, 'e, 'w>
        requires { (InFront tokens.now front.now kept.now) × (working kept.now.limits.bulk ≤ length work.old) }
        ensures sheet { result.sheet ≡ sheet_at front.now }
        ensures work { result.work.now ≡ work.old }
        ensures lent { result.work.ghost_name ≡ work.entry.ghost_name }
        ensures paragraphs { paragraphs_left result.paragraphs ≡ paragraphs_at tokens.now front.now }
    {
        let sheet = Sheet {
            looks: kept.looks,
            bulk: kept.limits.bulk as usize,
        };
        Book {
            sheet,
            paragraphs: Paragraphs::new(tokens, kept.entries(front)),
            work,
        }
    }

    // What a paragraph can need of the working part is 0 again.
    fn clean(&mut self)
        ensures zeros { self.new.work.now ≡ cleared (working self.old.sheet.bulk) self.old.work.now }
        ensures same { Keeps self.old self.new }
    {
        self.work[..WORKING * self.sheet.bulk].fill(0);
    }

    // The walk over one paragraph after another, as far as lines are sought.
    fn seek(&mut self, goal: Goal) -> Found<'t, 'e>
        ensures found { FoundBy self.old.sheet (lines_in self.old.sheet (paragraphs_left self.old.paragraphs)) goal result }
        ensures same { Keeps self.old self.new }
    {
        let mut search = Search::begin(goal);
        let mut behind = self.paragraphs;
        let mut from = Place {
            paragraphs: behind,
            lines: 0,
        };
        // No `for`: the iterator itself is remembered before each paragraph.
        while !search.done {
            let walk = search.walk;
            if walk.pages <= goal.page {
                from = Place {
                    paragraphs: behind,
                    lines: walk.before + walk.lines,
                };
            }
            let Some(bytes) = behind.next() else {
                return Found { walk, from };
            };
            search = self.search_paragraph(bytes, search);
        }
        Found {
            walk: search.walk,
            from,
        }
    }

    // The lines of the page, or their notes' lines, as far as rows are wanted.
    fn write(&mut self, part: Part, found: Found<'t, 'e>, rows: &mut RowWriter)
        requires { found.from.lines ≤ found.walk.before }
        ensures rows { TakesAll rows.old rows.new (part_rows part (looks_of self.old.sheet) (inside (window_of found.entry) (lines_in self.old.sheet (paragraphs_left found.entry.from.paragraphs)))) }
        ensures same { Keeps self.old self.new }
    {
        let Found { walk, from } = found;
        let mut window = Window {
            skip: walk.before - from.lines,
            left: walk.lines,
        };
        for bytes in from.paragraphs {
            if window.left == 0 || rows.left == 0 {
                break;
            }
            window = self.take_paragraph(bytes, part, window, rows);
        }
    }

    // How many lines and rows a page has, where it is there.
    fn shape(&mut self, page: u32) -> Result<PageShape, Refusal>
        ensures value { result ≡ shape_of (pages_by self.old.sheet (paragraphs_left self.old.paragraphs)) page }
        ensures same { Keeps self.old self.new }
    {
        // No page has so many lines, so that the walk sees all of it.
        let whole = Goal {
            page: page as usize,
            lines: usize::MAX,
        };
        let found = self.seek(whole);
        if found.walk.pages <= page as usize {
            return Err(Refusal::NoPage(page));
        }
        Ok(PageShape {
            lines: found.walk.lines,
            rows: found.walk.rows,
        })
    }

    // Rows of a page written behind their count, where they are there.
    fn show(&mut self, wanted: Wanted, out: &mut [u8]) -> Result<usize, Refusal>
        requires { 2 + 20482 * wanted.count ≤ length out.old }
        ensures value { result ≡ shown_of (pages_by self.old.sheet (paragraphs_left self.old.paragraphs)) wanted.page wanted.row wanted.count }
        ensures after { out.new ≡ (if is_ok result then over (bytes_of_rows (pages_by self.old.sheet (paragraphs_left self.old.paragraphs)) wanted.page wanted.row wanted.count) out.old else out.old) }
        ensures same { Keeps self.old self.new }
    {
        let found = self.seek(wanted.goal());
        let row = wanted.row as usize;
        let count = wanted.count as usize;
        if found.walk.pages <= wanted.page as usize {
            return Err(Refusal::NoPage(wanted.page));
        }
        if found.walk.rows < row + count {
            return Err(Refusal::NoRows(wanted.row as u32));
        }
        out[..2].copy_from_slice(&rows_start(wanted.count));
        let mut rows = RowWriter {
            out,
            skip: row,
            left: count,
            end: 2,
        };
        self.write(Part::Lines, found, &mut rows);
        self.write(Part::Notes, found, &mut rows);
        Ok(rows.end)
    }
}

// What is kept of the book, where memory is an open one.
fn looked_at(tokens: &[u8], rest: &[u64]) -> Result<Kept, Refusal>
    ensures { MatchResult result (λ kept. LookedAt tokens.now rest.now kept) (λ why. (why ≡ BadOpening) × (is_open (length tokens.now) rest.now ≡ false)) }
{
    look(tokens, rest).ok_or(Refusal::BadOpening)
}

// How many pages there are.
// This, `page_shape` and `show_rows` split `rest` and clean the book, each for itself. Tried: around a closure that is asked between, a proof does not know what it left in the
// `out` that it captured, and with `out` handed through, the contract is longer than two of the functions. And a function that made the book of `rest` could not
// tell its caller which part of it the book holds.
pub fn count_pages(tokens: &[u8], rest: &mut [u64]) -> Result<u32, Refusal>
    ensures value { result ≡ counting_pages tokens.now rest.old }
    ensures after { rest.new ≡ (if is_ok result then worked rest.old else rest.old) }
{
    let kept = looked_at(tokens, rest)?;
    let (front, work) = rest.split_at_mut(kept.front());
    let mut book = Book::of(&kept, tokens, front, work);
    // No book has this page, so that the walk goes over all lines.
    let none = Goal {
        page: u32::MAX as usize,
        lines: 0,
    };
    let found = book.seek(none);
    book.clean();
    Ok(found.walk.pages as u32)
}

// How many lines and rows a page has, from 0 on; the page that is not there is told.
pub fn page_shape(tokens: &[u8], rest: &mut [u64], page: u32) -> Result<PageShape, Refusal>
    ensures value { result ≡ shaping tokens.now rest.old page }
    ensures after { rest.new ≡ pick (is_open (length tokens.now) rest.old) (worked rest.old) rest.old }
{
    let kept = looked_at(tokens, rest)?;
    let (front, work) = rest.split_at_mut(kept.front());
    let mut book = Book::of(&kept, tokens, front, work);
    let shape = book.shape(page);
    book.clean();
    shape
}

// The rows that are wanted, as the bytes of an answer; how many bytes. The page and the row that are not there are told.
pub fn show_rows(
    tokens: &[u8],
    rest: &mut [u64],
    wanted: Wanted,
    out: &mut [u8],
) -> Result<usize, Refusal>
    requires { 2 + 20482 * wanted.count ≤ length out.old }
    ensures value { result ≡ showing tokens.now rest.old wanted.page wanted.row wanted.count }
    ensures written { out.new ≡ (if is_ok result then over (shown_bytes tokens.now rest.old wanted.page wanted.row wanted.count) out.old else out.old) }
    ensures after { rest.new ≡ pick (is_open (length tokens.now) rest.old) (worked rest.old) rest.old }
{
    let kept = looked_at(tokens, rest)?;
    let (front, work) = rest.split_at_mut(kept.front());
    let mut book = Book::of(&kept, tokens, front, work);
    let shown = book.show(wanted, out);
    book.clean();
    shown
}
