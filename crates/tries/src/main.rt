// Breaks small paragraphs in every way, and sees that no way is better than the one that break_lines finds.
#![tactic(auto)]

ghost use Rattle.std.specs.Prelude.{◌<◌, ◌≤◌, length};

use linebreak::{COST, Lines, SLOT, WIDTH, break_lines};
use std::ops::AddAssign;
use std::{array, fmt, io};

const SPACE: u8 = 1;

// The better way is the smaller one. A way's ends have a bit for each word, the last word's the lowest, which is 1 where a line ends with the word.
// So of two ways at the same cost the smaller one has the longer first line, or after equal lines the longer next one.
#[derive(Clone, Copy, PartialEq, Eq, PartialOrd, Ord)]
struct Way {
    cost: u64,
    ends: u32,
}

// How wide each word is, and the lines.
#[derive(Clone, Copy)]
struct Paragraph<'a> {
    words: &'a [u8],
    width: u8,
    ghost some: { 0 < length words.now },
    ghost few: { length words.now ≤ 8 },
}

#[derive(Clone, Copy, Default)]
struct Tally {
    paragraphs: u64,
    ways: u64,
    better: u64,
    earlier: u64,
    agreed: u64,
}

fn cost_of_line(natural: u64, width: u8, is_last: bool) -> u64
    requires { natural ≤ 4096 }
    ensures { result ≤ 10000004096 }
{
    match u64::from(width).checked_sub(natural) {
        None => 10_000_000_000 + natural - u64::from(width),
        Some(_) if is_last => 0,
        Some(room) => room * room,
    }
}

impl Paragraph<'_> {
    // Line by line, from the first word on.
    fn way(self, ends: u32) -> Way {
        let mut cost = 0;
        let mut natural = 0;
        let mut bit = 1u32 << self.words.len();
        for w in self.words {
            bit >>= 1;
            natural += u64::from(*w);
            if ends & bit != 0 {
                cost += cost_of_line(natural, self.width, bit == 1);
                natural = 0;
            } else {
                natural += u64::from(SPACE);
            }
        }
        Way { cost, ends }
    }

    // The slots are filled by place: of arrays that a closure makes, flattened into a row, the proof that each width is small didn't close.
    fn found(self) -> Way {
        let words = self.words.len();
        let mut slots = [0; 8 * SLOT];
        for (k, w) in self.words.iter().enumerate() {
            slots[SLOT * k + WIDTH] = u64::from(*w);
        }
        let used = &mut slots[..SLOT * words];
        break_lines(used, u64::from(SPACE), u64::from(self.width));
        let ends = Lines::of(used).fold(0, |ends, line| {
            ends | 1u32 << words.saturating_sub(line.end)
        });
        Way {
            cost: slots[COST],
            ends,
        }
    }
}

impl AddAssign for Tally {
    fn add_assign(&mut self, more: Tally) {
        self.paragraphs = self.paragraphs.saturating_add(more.paragraphs);
        self.ways = self.ways.saturating_add(more.ways);
        self.better = self.better.saturating_add(more.better);
        self.earlier = self.earlier.saturating_add(more.earlier);
        self.agreed = self.agreed.saturating_add(more.agreed);
    }
}

impl Tally {
    // One way, held against the one that was found.
    fn of_way(way: Way, found: Way) -> Tally {
        let better = way.cost < found.cost;
        Tally {
            ways: 1,
            better: u64::from(better),
            earlier: u64::from(way < found && !better),
            agreed: u64::from(way == found),
            ..Tally::default()
        }
    }

    // All ways to break one paragraph. The last word ends a line.
    fn of_paragraph(paragraph: Paragraph<'_>) -> Tally {
        let found = paragraph.found();
        let mut tally = Tally {
            paragraphs: 1,
            ..Tally::default()
        };
        for ends in 0..1u32 << (paragraph.words.len() - 1) {
            tally += Tally::of_way(paragraph.way(ends << 1 | 1), found);
        }
        tally
    }

    // All paragraphs of one to eight words.
    fn of_width(width: u8) -> Tally {
        let mut tally = Tally::default();
        for n in 1..=8usize {
            for nr in 0..1u32 << (2 * n) {
                let words = &words_of(nr)[..n];
                tally += Tally::of_paragraph(Paragraph { words, width });
            }
        }
        tally
    }
}

impl fmt::Display for Tally {
    fn fmt<W: fmt::Write>(&self, f: &mut fmt::Formatter<W>) -> fmt::Result {
        let Tally {
            paragraphs,
            ways,
            better,
            earlier,
            agreed,
        } = self;
        writeln!(
            f,
            "paragraphs {paragraphs}, ways {ways}, better {better}, equal but earlier {earlier}"
        )?;
        write!(f, "found again among the ways, at the same cost: {agreed}")
    }
}

// Four widths, by the digits of a number in base 4, the lowest first.
fn words_of(nr: u32) -> [u8; 8] {
    array::from_fn(|k| [3, 6, 10, 17][(nr >> (2 * k) & 3) as usize])
}

fn main(rt: HostRuntime) -> io::Result<()> {
    let mut tally = Tally::default();
    for width in [5, 10, 17, 24, 40] {
        tally += Tally::of_width(width);
    }
    println!(rt; "{tally}")
}
