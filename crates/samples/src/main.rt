// Sets small texts from nothing, and prints their pages.
#![tactic(auto)]

use layout::{Wanted, count_pages, show_rows};
use notation::Piece;
use std::alloc::{AllocError, Global};
use std::{fmt, io};
use store::{Asked, Content, Edit, Limits, Looks, Opening, change, open};
use text::{Letters, Outcome};
use wire::{LETTERS, Refusal};

// Enough for each of the texts.
const LIMITS: Limits = Limits {
    paragraphs: 2,
    tokens: 32,
    definitions: 0,
    bulk: 32,
};

// What one row can take, with what stands before it.
const ROOM: usize = 20484;

// Why there is no book: it was refused, or there was no memory for it.
#[derive(Drop)]
enum Failure {
    Refused(Refusal),
    NoMemory(AllocError),
}

impl From<Refusal> for Failure {
    fn from(refusal: Refusal) -> Failure {
        Failure::Refused(refusal)
    }
}

impl From<AllocError> for Failure {
    fn from(error: AllocError) -> Failure {
        Failure::NoMemory(error)
    }
}

// A text, and what its pages look like. A note stands in braces.
#[derive(Clone, Copy)]
struct Sample {
    paragraphs: &'static [&'static str],
    width: u32,
    rows: u32,
}

const SAMPLES: [Sample; 9] = [
    Sample {
        paragraphs: &["ab cd ef"],
        width: 30,
        rows: 3,
    },
    // The rest of the room goes to the first gaps.
    Sample {
        paragraphs: &["a b c d e f g h i j"],
        width: 32,
        rows: 2,
    },
    // A word that sticks out.
    Sample {
        paragraphs: &["abcdef a"],
        width: 10,
        rows: 2,
    },
    Sample {
        paragraphs: &[],
        width: 30,
        rows: 3,
    },
    Sample {
        paragraphs: &[""],
        width: 30,
        rows: 3,
    },
    Sample {
        paragraphs: &["   "],
        width: 30,
        rows: 3,
    },
    // The second paragraph begins on a page and ends on the next.
    Sample {
        paragraphs: &["ab cd ef", "gh ij kl"],
        width: 30,
        rows: 3,
    },
    // Lines with as many words as fit would not be the best.
    Sample {
        paragraphs: &["the sun is up and birds sing"],
        width: 60,
        rows: 4,
    },
    // A note goes to the foot of the page.
    Sample {
        paragraphs: &["a{x y} b c"],
        width: 40,
        rows: 2,
    },
];

// A table of the letters from 32 on, the space. The program speed has the same five lines: a library for them would have more, and `text` would read them
// from words, with a fault to be handled that can't be.
fn widths() -> [u8; LETTERS] {
    let mut widths = [6; LETTERS];
    widths[0] = 4;
    widths[(b'i' - 32) as usize] = 3;
    widths[(b'l' - 32) as usize] = 3;
    widths
}

impl Sample {
    fn opening(&self) -> Opening {
        let looks = Looks {
            widths: widths(),
            width: self.width,
            rows: self.rows,
        };
        Opening {
            limits: LIMITS,
            looks,
        }
    }
}

impl fmt::Display for Sample {
    fn fmt<W: fmt::Write>(&self, f: &mut fmt::Formatter<W>) -> fmt::Result {
        if self.paragraphs.is_empty() {
            f.write_str("nothing ")?;
        }
        for text in self.paragraphs {
            write!(f, "\"{text}\" ")?;
        }
        let width = self.width;
        let rows = self.rows;
        write!(f, "at {width}, {rows} rows")
    }
}

fn piece_of(letter: u8) -> Piece {
    match letter {
        b' ' => Piece::Space,
        b'{' => Piece::Note,
        b'}' => Piece::Close,
        letter => Piece::Letter(letter),
    }
}

// The tokens of a text.
fn tokens_of(heap: Global, text: &str) -> Result<Vec<u8>, AllocError> {
    let mut tokens = Vec::new(heap);
    for letter in text.bytes() {
        piece_of(letter).write(&mut tokens)?;
    }
    Ok(tokens)
}

// What a text counts against the limits: in tokens a note is two, and in a paragraph one, besides what is in it.
fn content_of<'a>(text: &str, tokens: &'a [u8]) -> Content<'a> {
    let closed = text.bytes().filter(|b| *b == b'}').count();
    Content {
        bytes: tokens,
        size: text.len(),
        bulk: text.len().saturating_sub(closed),
    }
}

// A book in memory, and room for a row. The program answer has the like: a library would need contracts on vectors for these few lines.
#[derive(Drop)]
struct Book {
    tokens: Vec<u8>,
    rest: Vec<u64>,
    out: [u8; ROOM],
}

impl Book {
    // Not open yet. There is no memory for looks that are out of range.
    fn new(heap: Global, opening: &Opening) -> Result<Book, AllocError> {
        let asked = Asked::of(opening).unwrap_or_default();
        Ok(Book {
            tokens: vec![in heap; 0u8; asked.tokens]?,
            rest: vec![in heap; 0u64; asked.rest]?,
            out: [0; ROOM],
        })
    }

    fn open(&mut self, opening: &Opening) -> Result<(), Refusal> {
        open(&mut self.tokens, &mut self.rest, opening)
    }

    fn put(&mut self, k: u16, content: Content<'_>) -> Result<(), Refusal> {
        change(&mut self.tokens, &mut self.rest, Edit::Put(k, content))
    }

    fn count_pages(&mut self) -> Result<u32, Refusal> {
        count_pages(&self.tokens, &mut self.rest)
    }

    // Before a row's letters stand what kind of an answer it is, how many rows, and how many letters.
    fn row(&mut self, page: u32, row: u16) -> Result<Letters<'_>, Refusal> {
        let wanted = Wanted {
            page,
            row,
            count: 1,
        };
        let end = show_rows(&self.tokens, &mut self.rest, wanted, &mut self.out)?;
        Ok(Letters(self.out.get(4..end).unwrap_or_default()))
    }
}

// The book with the text in it.
fn book_of(heap: Global, sample: &Sample) -> Result<Book, Failure> {
    let opening = sample.opening();
    let mut book = Book::new(heap, &opening)?;
    book.open(&opening)?;
    for (k, text) in (0..u16::MAX).zip(sample.paragraphs) {
        let tokens = tokens_of(heap, text)?;
        book.put(k, content_of(text, &tokens))?;
    }
    Ok(book)
}

fn print_refusal(rt: &HostRuntime, refusal: Refusal) -> io::Result<()> {
    rt.println(Outcome(Err(refusal)))
}

// The rows of a page, and what is answered to the one behind them.
fn print_page(rt: &HostRuntime, book: &mut Book, page: u32) -> io::Result<()> {
    println!(rt; "page {page}")?;
    for row in 0..u16::MAX {
        match book.row(page, row) {
            Ok(letters) => rt.println(letters)?,
            Err(refusal) => return print_refusal(rt, refusal),
        }
    }
    Ok(())
}

// All pages, and what is answered to the one behind them.
fn print_pages(rt: &HostRuntime, book: &mut Book, pages: u32) -> io::Result<()> {
    for page in 0..=pages {
        print_page(rt, book, page)?;
    }
    Ok(())
}

fn print_book(rt: &HostRuntime, book: &mut Book, sample: &Sample) -> io::Result<()> {
    let pages = match book.count_pages() {
        Ok(pages) => pages,
        Err(refusal) => return print_refusal(rt, refusal),
    };
    let noun = if pages == 1 { "page" } else { "pages" };
    println!(rt; "{sample}: {pages} {noun}")?;
    print_pages(rt, book, pages)
}

fn print_sample(rt: &HostRuntime, sample: &Sample) -> io::Result<()> {
    match book_of(rt.alloc(), sample) {
        Ok(mut book) => print_book(rt, &mut book, sample),
        Err(Failure::Refused(refusal)) => print_refusal(rt, refusal),
        Err(Failure::NoMemory(error)) => Err(io::Error::from(error)),
    }
}

fn main(rt: HostRuntime) -> io::Result<()> {
    for sample in &SAMPLES {
        print_sample(&rt, sample)?;
    }
    Ok(())
}
