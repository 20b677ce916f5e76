// Reads a file of calls, or standard input, and answers each line before the next is read.
#![tactic(auto)]

use session::{Asked, Opening, ROOM, call, open};
use std::alloc::Global;
use std::io::{BufRead, BufReader};
use std::{env, fs, io};
use text::{Outcome, Reader, Shown, Step, without_end};
use wire::Refusal;

const HELP: &str = "\
answer [FILE]

Reads calls from FILE, or from standard input, one to a line, and writes an answer to each.
A book begins with the four lines
    limits PARAGRAPHS TOKENS DEFINITIONS BULK
    widths space 4 i 3 l 3 others 6
    width WIDTH
    rows ROWS
and then come the calls
    put K TOKENS    put in K TOKENS    cut K    define C TOKENS
    show PAGE ROW COUNT    where is NAME    how many    bytes 00 00 00
A file may hold several books. Empty lines and lines that begin with # are passed over.
A line that can't be read ends the program with status 1, and is told on standard error.";

// The lent memory of a book, and room for an answer. The programs print, samples and speed have the like: a library would need contracts on vectors for these
// few lines.
#[derive(Drop)]
struct Memory {
    tokens: Vec<u8>,
    rest: Vec<u64>,
    out: Vec<u8>,
}

impl Memory {
    // Before a book is opened.
    fn none(heap: Global) -> io::Result<Memory> {
        Ok(Memory {
            tokens: Vec::new(heap),
            rest: Vec::new(heap),
            out: vec![in heap; 0u8; ROOM]?,
        })
    }

    // What the limits ask for; nothing where they or the looks are out of range.
    fn lend(&mut self, heap: Global, opening: &Opening) -> io::Result<()> {
        let asked = Asked::of(opening).unwrap_or_default();
        self.tokens = vec![in heap; 0u8; asked.tokens]?;
        self.rest = vec![in heap; 0u64; asked.rest]?;
        Ok(())
    }

    fn open(&mut self, opening: &Opening) -> Result<(), Refusal> {
        open(&mut self.tokens, &mut self.rest, opening)
    }

    // The answer's bytes. There is always room for them.
    fn call(&mut self, bytes: &[u8]) -> &[u8] {
        let written = call(&mut self.tokens, &mut self.rest, bytes, &mut self.out);
        let n = written.unwrap_or(0).min(self.out.len());
        &self.out[..n]
    }
}

fn answer_step(
    rt: &HostRuntime,
    reader: &mut Reader,
    memory: &mut Memory,
    step: Step,
) -> io::Result<()> {
    match step {
        Step::Open(opening) => {
            memory.lend(rt.alloc(), &opening)?;
            let outcome = memory.open(&opening);
            if outcome.is_err() {
                reader.refused();
            }
            rt.println(Outcome(outcome))
        }
        Step::Call(question, bytes) => {
            let bytes = memory.call(&bytes);
            rt.println(Shown { question, bytes })
        }
    }
}

fn answer_all<B: BufRead + Drop>(rt: &HostRuntime, mut input: B) -> io::Result<()> {
    let mut reader = Reader::new();
    let mut memory = Memory::none(rt.alloc())?;
    let mut line = Vec::new(rt.alloc());
    // A loop over input needs a bound, and no input has so many lines.
    for n in 1..u64::MAX {
        line.clear();
        if input.read_until(b'\n', &mut line)? == 0 {
            break;
        }
        match reader.read(rt.alloc(), without_end(&line)) {
            Ok(Some(step)) => answer_step(rt, &mut reader, &mut memory, step)?,
            Ok(None) => {}
            Err(fault) => {
                eprintln!(rt; "line {n}: {fault}")?;
                return Err(io::Error::from(io::ErrorKind::InvalidData));
            }
        }
    }
    Ok(())
}

fn answer_file(rt: &HostRuntime, path: &str) -> io::Result<()> {
    match fs::open(rt, path) {
        Ok(file) => answer_all(rt, BufReader::new(rt.alloc(), file)?),
        Err(error) => {
            eprintln!(rt; "{path}: {error}")?;
            Err(error)
        }
    }
}

fn main(rt: HostRuntime) -> io::Result<()> {
    let mut args = env::args(&rt)?;
    args.next();
    let Some(arg) = args.next() else {
        return answer_all(&rt, BufReader::new(rt.alloc(), rt.stdin())?);
    };
    match arg.as_str() {
        "--help" => println!(rt; "{HELP}"),
        path => answer_file(&rt, path),
    }
}
