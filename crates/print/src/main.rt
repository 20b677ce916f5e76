// Reads a book from a file, or from standard input, and prints its pages as rows of characters.
#![tactic(auto)]

use input::read_book;
use pages::print_pages;
use std::io::Read;
use std::{env, fs, io};

mod book;
mod failure;
mod input;
mod lines;
mod pages;
mod paragraph;
mod row;
#[cfg(test)]
mod tests;

const HELP: &str = "\
print [FILE]

Reads a book from FILE, or from standard input, and prints its pages as rows of characters.
A book begins with the four lines
    limits PARAGRAPHS TOKENS DEFINITIONS BULK
    widths space 4 i 3 l 3 others 6
    width WIDTH
    rows ROWS
and then come lines
    define C TOKENS
if there are any, and a line that says only
    text
So far, empty lines and lines that begin with # are passed over.
All that follows is the text. The end of a line is a space, and an empty line ends a paragraph.
A paragraph with nothing in it is written \\none.

An example:
    limits 10 1000 0 500
    widths space 4 i 3 l 3 others 6
    width 150
    rows 4
    text
    A BILL to provide for the
    printing of bills.

    1. Bills shall be printed.

Each page is printed as a line with its number and then its rows: the lines first, blank rows until
the page is full, and at the foot the notes' lines. Four blank dots are a space.
A last line says `not at rest` where page numbers in the text could not be made right.
What can't be read, or is refused, ends the program with status 1, and its line is told on standard error.";

fn print_book(rt: &HostRuntime, input: &[u8]) -> io::Result<()> {
    match read_book(rt.alloc(), input) {
        Ok(mut book) => print_pages(rt, &mut book),
        Err(failure) => failure.tell(rt),
    }
}

fn print_input(rt: &HostRuntime) -> io::Result<()> {
    let mut input = Vec::new(rt.alloc());
    rt.stdin().read_to_end(&mut input)?;
    print_book(rt, &input)
}

fn print_file(rt: &HostRuntime, path: &str) -> io::Result<()> {
    match fs::read(rt, path) {
        Ok(input) => print_book(rt, &input),
        Err(error) => {
            eprintln!(rt; "{path}: {error}")?;
            Err(error)
        }
    }
}

fn main(rt: HostRuntime) -> io::Result<()> {
    let mut args = env::args(&rt)?;
    args.next();
    let Some(arg) = args.next() else {
        return print_input(&rt);
    };
    match arg.as_str() {
        "--help" => println!(rt; "{HELP}"),
        path => print_file(&rt, path),
    }
}
