// Breaks paragraphs of letters and spaces into lines, and counts the pages of books; says how many there are, and on demand how long it took.
#![tactic(auto)]

use linebreak::SLOT;
use lines::count_lines;
use memory::Memory;
use paragraphs::{Dice, Paragraph, Text};
use std::alloc::{AllocError, Global};
use std::time::Instant;
use std::{env, io};
use wire::LETTERS;

mod lines;
mod memory;
mod paragraphs;

const HELP: &str = "\
speed [time | text]

Breaks three sets of paragraphs into lines, 360 wide, and says for each set how many letters and spaces and how many lines it has.
Opens books of 8,192 to 65,536 letters and spaces, with pages of 40 rows, and says how many pages each has, counted from nothing.
    time    says also how long it took in microseconds, and the putting of one paragraph, each the best of 20 runs
    text    prints the text of the largest book instead, an empty line behind each paragraph";

// As many letters and spaces as a paragraph may have.
const BULK: usize = 4096;

// Those of a slot for each word.
const NUMBERS: usize = SLOT * BULK;

const WIDTH: u64 = 360;

const RUNS: usize = 20;

// The books: how many letters and spaces, in how many paragraphs.
const BOOKS: [(usize, usize); 4] = [(8192, 50), (16384, 100), (32768, 200), (65536, 400)];

// How long a run takes in microseconds, the best of some.
fn best_time<F: FnMut()>(rt: &HostRuntime, mut run: F) -> io::Result<u128>
    requires { F.IsAlwaysCallable run }
{
    let mut best = u128::MAX;
    for _ in 0..RUNS {
        let start = Instant::now(rt)?;
        run();
        best = best.min(start.elapsed(rt)?.as_micros());
    }
    Ok(best)
}

// What lines are counted with: the widths of the letters, and room for atoms and for words, which is too much for a small stack.
#[derive(Drop)]
struct Desk {
    widths: [u8; LETTERS],
    atoms: Vec<u64>,
    slots: Vec<u64>,
}

impl Desk {
    fn new(heap: Global) -> Result<Desk, AllocError> {
        Ok(Desk {
            widths: widths(),
            atoms: vec![in heap; 0u64; BULK]?,
            slots: vec![in heap; 0u64; NUMBERS]?,
        })
    }

    // None where the paragraph can't be read.
    fn count_lines(&mut self, paragraph: &Paragraph) -> Option<usize> {
        let atoms: &mut [u64; BULK] = self.atoms.first_chunk_mut()?;
        let slots: &mut [u64; NUMBERS] = self.slots.first_chunk_mut()?;
        count_lines(&paragraph.tokens, atoms, slots, &self.widths, WIDTH)
    }
}

#[derive(Drop)]
struct Set {
    name: &'static str,
    text: Text,
}

impl Set {
    // None where a paragraph can't be read.
    fn count_lines(&self, desk: &mut Desk) -> Option<usize> {
        self.text
            .paragraphs
            .iter()
            .try_fold(0usize, |lines, paragraph| {
                Some(lines.saturating_add(desk.count_lines(paragraph)?))
            })
    }
}

// A table of the letters from 32 on, the space. The program samples has the same five lines: a library for them would have more, and `text` would read them
// from words, with a fault to be handled that can't be.
fn widths() -> [u8; LETTERS] {
    let mut widths = [6; LETTERS];
    widths[0] = 4;
    widths[(b'i' - 32) as usize] = 3;
    widths[(b'l' - 32) as usize] = 3;
    widths
}

fn sets(heap: Global) -> Result<[Set; 3], AllocError> {
    let mut dice = Dice::new();
    let normal = Set {
        name: "a paragraph of normal words",
        text: Text::of_words(heap, BULK, 1, &mut dice)?,
    };
    let wide = Set {
        name: "2,000 words, the last too wide",
        text: Text::too_wide(heap)?,
    };
    let many = Set {
        name: "400 paragraphs",
        text: Text::of_words(heap, 60857, 400, &mut dice)?,
    };
    Ok([normal, wide, many])
}

fn report_set(rt: &HostRuntime, set: &Set, desk: &mut Desk, timed: bool) -> io::Result<()> {
    let name = set.name;
    let size = set.text.size();
    let Some(lines) = set.count_lines(desk) else {
        return println!(rt; "{name}: can't be read");
    };
    println!(rt; "{name}: {size} letters and spaces, {lines} lines")?;
    if timed {
        let best = best_time(rt, || {
            set.count_lines(desk);
        })?;
        println!(rt; "    {best} microseconds, the best of {RUNS} runs")?;
    }
    Ok(())
}

fn report_sets(rt: &HostRuntime, timed: bool) -> io::Result<()> {
    let mut desk = Desk::new(rt.alloc())?;
    for set in &sets(rt.alloc())? {
        report_set(rt, set, &mut desk, timed)?;
    }
    Ok(())
}

// Of the book in memory, into which this call puts a paragraph.
fn report_times(rt: &HostRuntime, memory: &mut Memory, put: &[u8]) -> io::Result<()> {
    let counted = best_time(rt, || {
        memory.count_pages();
    })?;
    let took = best_time(rt, || {
        memory.put(put);
    })?;
    println!(rt;
        "    counted in {counted} microseconds, one paragraph put in {took}, the best of {RUNS} runs"
    )
}

// Without the times.
fn report_pages(
    rt: &HostRuntime,
    memory: &mut Memory,
    text: &Text,
    puts: &[Vec<u8>],
) -> io::Result<()> {
    let size = text.size();
    let paragraphs = text.paragraphs.len();
    let pages = memory.hold(puts).and_then(|()| memory.count_pages());
    match pages {
        Some(pages) => println!(rt;
            "{size} letters and spaces in {paragraphs} paragraphs: {pages} pages"
        ),
        None => println!(rt; "{size} letters and spaces in {paragraphs} paragraphs: refused"),
    }
}

fn report_books(rt: &HostRuntime, timed: bool) -> io::Result<()> {
    let heap = rt.alloc();
    let mut memory = Memory::new(heap)?;
    for (size, paragraphs) in BOOKS {
        let text = Text::of_words(heap, size, paragraphs, &mut Dice::new())?;
        let puts = text.put_calls(heap)?;
        report_pages(rt, &mut memory, &text, &puts)?;
        if let (true, Some(put)) = (timed, puts.first()) {
            report_times(rt, &mut memory, put)?;
        }
    }
    Ok(())
}

fn report_all(rt: &HostRuntime, timed: bool) -> io::Result<()> {
    report_sets(rt, timed)?;
    report_books(rt, timed)
}

fn print_text(rt: &HostRuntime) -> io::Result<()> {
    let [.., (size, paragraphs)] = BOOKS;
    let text = Text::of_words(rt.alloc(), size, paragraphs, &mut Dice::new())?;
    for paragraph in &text.paragraphs {
        println!(rt; "{paragraph}\n")?;
    }
    Ok(())
}

fn main(rt: HostRuntime) -> io::Result<()> {
    let mut args = env::args(&rt)?;
    args.next();
    let word = args.next();
    match word.as_deref() {
        None => report_all(&rt, false),
        Some("time") => report_all(&rt, true),
        Some("text") => print_text(&rt),
        Some("--help") => println!(rt; "{HELP}"),
        Some(_) => {
            eprintln!(rt; "{HELP}")?;
            Err(io::Error::from(io::ErrorKind::InvalidInput))
        }
    }
}
