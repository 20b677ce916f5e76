// From the input to the book: the lines that open it, its definitions, and its text.
use crate::book::Book;
use crate::failure::{Failure, Part, Why};
use crate::lines::Lines;
use crate::paragraph::Paragraph;
use session::Opening;
use std::alloc::Global;
use text::{Fault, Reader, Step};

fn is_text(line: &[u8]) -> bool {
    line.trim_ascii_end() == b"text".as_slice()
}

fn is_passed_over(line: &[u8]) -> bool {
    line.is_empty() || line.starts_with(b"#")
}

// It is missing on the line behind the last.
fn no_text(lines: &Lines<'_>) -> Failure {
    Why::NoText.at(lines.number.saturating_add(1))
}

fn open_book(heap: Global, opening: &Opening) -> Result<Book, Why> {
    let mut book = Book::new(heap, opening)?;
    book.open(opening)
        .map_err(|denied| Why::Denied(Part::Opening, denied))?;
    Ok(book)
}

// One of the four lines of the opening; with the last there is a book.
fn read_entry(heap: Global, reader: &mut Reader, line: &[u8]) -> Result<Option<Book>, Why> {
    if is_text(line) {
        return Err(Why::Fault(Fault::OutOfPlace));
    }
    match reader.read(heap, line)? {
        Some(Step::Open(opening)) => Ok(Some(open_book(heap, &opening)?)),
        _ => Ok(None),
    }
}

fn read_opening(heap: Global, reader: &mut Reader, lines: &mut Lines<'_>) -> Result<Book, Failure> {
    while let Some(line) = lines.next() {
        match read_entry(heap, reader, line.text) {
            Ok(Some(book)) => return Ok(book),
            Ok(None) => {}
            Err(why) => return Err(why.at(line.number)),
        }
    }
    Err(no_text(lines))
}

// The reader takes any call, and another book, but only definitions are due.
fn read_definition(
    heap: Global,
    reader: &mut Reader,
    book: &mut Book,
    line: &[u8],
) -> Result<(), Why> {
    if is_passed_over(line) {
        return Ok(());
    }
    match reader.read(heap, line)? {
        Some(Step::Call(_, call)) if line.starts_with(b"define") => book
            .change(&call)
            .map_err(|denied| Why::Denied(Part::Definition, denied)),
        _ => Err(Why::Fault(Fault::OutOfPlace)),
    }
}

// Up to the line `text`.
fn read_definitions(
    heap: Global,
    reader: &mut Reader,
    book: &mut Book,
    lines: &mut Lines<'_>,
) -> Result<(), Failure> {
    while let Some(line) = lines.next() {
        if is_text(line.text) {
            return Ok(());
        }
        read_definition(heap, reader, book, line.text).map_err(|why| why.at(line.number))?;
    }
    Err(no_text(lines))
}

fn put(heap: Global, book: &mut Book, paragraph: &Paragraph) -> Result<(), Why> {
    let call = paragraph.call(heap)?;
    book.change(&call)
        .map_err(|denied| Why::Denied(Part::Paragraph, denied))
}

// What has been gathered goes into the book, and the next paragraph is begun.
fn end_paragraph(heap: Global, book: &mut Book, paragraph: &mut Paragraph) -> Result<(), Failure> {
    if !paragraph.is_empty() {
        put(heap, book, paragraph).map_err(|why| why.at(paragraph.begins))?;
        paragraph.begin_next();
    }
    Ok(())
}

// An empty line ends a paragraph, and so does the end.
fn read_text(heap: Global, book: &mut Book, lines: Lines<'_>) -> Result<(), Failure> {
    let mut paragraph = Paragraph::new(heap);
    for line in lines {
        if line.text.is_empty() {
            end_paragraph(heap, book, &mut paragraph)?;
        } else {
            paragraph
                .add(line)
                .map_err(|error| Why::from(error).at(line.number))?;
        }
    }
    end_paragraph(heap, book, &mut paragraph)
}

// The book that the input says.
pub(crate) fn read_book(heap: Global, input: &[u8]) -> Result<Book, Failure> {
    let mut lines = Lines::of(input);
    let mut reader = Reader::new();
    let mut book = read_opening(heap, &mut reader, &mut lines)?;
    read_definitions(heap, &mut reader, &mut book, &mut lines)?;
    read_text(heap, &mut book, lines)?;
    Ok(book)
}
