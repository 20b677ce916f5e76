// The pages of a book, printed one after another.
use crate::book::{Book, Denied};
use crate::row::Row;
use session::PageShape;
use std::io;
use text::{EachRow, Rows};
use wire::LETTERS;

// The most rows that a call may ask for.
const ROWS_AT_ONCE: u16 = 8;

// Shows what came in place of the answer that was due. The error is to end the program.
fn tell(rt: &HostRuntime, denied: Denied) -> io::Result<()> {
    rt.println(denied)?;
    Err(io::Error::from(io::ErrorKind::InvalidData))
}

fn print_rows(rt: &HostRuntime, rows: Rows<'_>, widths: &[u8; LETTERS]) -> io::Result<()> {
    for letters in EachRow(rows.bytes) {
        rt.println(Row { letters, widths })?;
    }
    Ok(())
}

fn print_blanks(rt: &HostRuntime, count: u16) -> io::Result<()> {
    for _ in 0..count {
        rt.println("")?;
    }
    Ok(())
}

// The rows of a page from one on and before another one.
fn print_part(rt: &HostRuntime, book: &mut Book, page: u32, from: u16, to: u16) -> io::Result<()> {
    let widths = book.looks.widths;
    for row in (from..to).step_by(ROWS_AT_ONCE.into()) {
        let count = to.saturating_sub(row).min(ROWS_AT_ONCE);
        match book.show(page, row, count) {
            Ok(rows) => print_rows(rt, rows, &widths)?,
            Err(denied) => return tell(rt, denied),
        }
    }
    Ok(())
}

// As a call has it. The most rows are those of one line with all notes of its paragraph, some thousands.
fn row_number(count: usize) -> u16 {
    u16::try_from(count).unwrap_or(u16::MAX)
}

// The lines first, blank rows until the page is full, and at the foot the notes' lines.
fn print_shape(rt: &HostRuntime, book: &mut Book, page: u32, shape: PageShape) -> io::Result<()> {
    let lines = row_number(shape.lines);
    let rows = row_number(shape.rows);
    let room = row_number(book.looks.rows as usize);
    print_part(rt, book, page, 0, lines)?;
    print_blanks(rt, room.saturating_sub(rows))?;
    print_part(rt, book, page, lines, rows)
}

fn print_page(rt: &HostRuntime, book: &mut Book, page: u32) -> io::Result<()> {
    let number = page.saturating_add(1);
    println!(rt; "page {number}")?;
    match book.shape(page) {
        Ok(shape) => print_shape(rt, book, page, shape),
        Err(denied) => tell(rt, denied),
    }
}

pub(crate) fn print_pages(rt: &HostRuntime, book: &mut Book) -> io::Result<()> {
    let (pages, at_rest) = match book.count_pages() {
        Ok(counted) => counted,
        Err(denied) => return tell(rt, denied),
    };
    for page in 0..pages {
        print_page(rt, book, page)?;
    }
    if !at_rest {
        rt.println("not at rest")?;
    }
    Ok(())
}
