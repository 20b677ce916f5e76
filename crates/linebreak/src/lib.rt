// The best lines of a paragraph, over a row of slots, one for each word.
#![tactic(auto)]

ghost use Rattle.std.specs.Prelude.{◌≡◌, ◌+◌, ◌-◌, ◌*◌, ◌/◌, ◌<◌, ◌≤◌, length};
ghost use Rattle.linebreak.specs.Slots.{Bounds, Breaks, Leaves, line_costs, cost_from, LinesFollow};
ghost use Rattle.linebreak.specs.Ways.{dearest, SmallFrom, IsBest};
ghost use Rattle.linebreak.specs.Lines.{LinesLead};

mod lines;

pub use lines::Lines;

// A slot has eight numbers: 0 where the word begins in a row of atoms, 1 how many numbers it has there, 2 its width,
// 3 the least cost from this word to the end, 4 how many words the first line of that best way has, and 5 to 7 for later.
pub const SLOT: usize = 8;

pub const WIDTH: usize = 2;

pub const COST: usize = 3;

const WORDS: usize = 4;

// What a line costs that is too wide, besides by how much it is.
const STICKS_OUT: u64 = 10_000_000_000;

// At most 4,096 words stand on a line, each with its space at most 1,048,831 wide.
fn line_cost(width: u64, natural: u64, is_last: bool) -> u64
    requires { (width ≤ 1000) × (natural ≤ 4096 * 1048831) }
    ensures { result ≡ line_costs width natural is_last }
{
    if natural > width {
        STICKS_OUT + (natural - width)
    } else if is_last {
        0
    } else {
        (width - natural) * (width - natural)
    }
}

// The least cost from word k to the end, as its slot has it.
fn cost_from(slots: &[u64], k: usize) -> u64
    requires { length slots.now / 8 ≤ 4096 }
    ensures { result ≡ cost_from slots.now (length slots.now / 8) k }
{
    if k < slots.len() / SLOT {
        slots[SLOT * k + COST]
    } else {
        0
    }
}

// Of the ways from a word to the end, the best: what it costs, and how many words its first line has.
#[derive(Clone, Copy)]
struct Way {
    cost: u64,
    words: usize,
}

impl Way {
    // From word i on, over all its first lines. Where a line is too wide and the best so far is not, no longer line is better.
    // The loop goes over places: a line is as long as they are apart.
    fn best_from(slots: &[u64], i: usize, space: u64, width: u64) -> Way
        requires bounds { Bounds slots.now (length slots.now / 8) space width }
        requires later { (i < length slots.now / 8) × SmallFrom slots.now (length slots.now / 8) (i + 1) }
        ensures small { (result.cost ≤ dearest * (length slots.now / 8 - i)) × (result.words ≤ length slots.now / 8 - i) }
        ensures best { IsBest slots.now (length slots.now / 8) space width i result }
    {
        let n = slots.len() / SLOT;
        let mut natural = slots[SLOT * i + WIDTH];
        let mut cost = line_cost(width, natural, i + 1 == n) + cost_from(slots, i + 1);
        let mut words = 1;
        for j in i + 1..n {
            natural += space + slots[SLOT * j + WIDTH];
            if natural > width && cost < STICKS_OUT {
                break;
            }
            let with = line_cost(width, natural, j + 1 == n) + cost_from(slots, j + 1);
            if with <= cost {
                cost = with;
                words = j + 1 - i;
            }
        }
        Way { cost, words }
    }
}

// The best way from each word on, from the last word back to the first.
// The slots are reached by their places: those behind a slot are read when it is written, and after `as_chunks_mut` a proof knows nothing of the row.
pub fn break_lines(slots: &mut [u64], space: u64, width: u64)
    requires { Bounds slots.old (length slots.old / 8) space width }
    ensures after { Breaks slots.old slots.new (length slots.old / 8) space width }
    ensures same { Leaves slots.old slots.new (length slots.old / 8) }
{
    let n = slots.len() / SLOT;
    for i in (0..n).rev() {
        let Way { cost, words } = Way::best_from(slots, i, space, width);
        slots[SLOT * i + COST] = cost;
        slots[SLOT * i + WORDS] = words as u64;
    }
}

// Slots with the best lines lead from line to line through the best way.
pub fn lines_follow()
    ensures { LinesFollow }
{}

// So the lines that they give are those of the best way.
pub fn lines_lead()
    ensures { LinesLead }
{}
