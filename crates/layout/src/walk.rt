// Pages filled line by line.
ghost use Rattle.std.specs.Prelude.{◌≡◌, ◌+◌, ◌^◌, ◌<◌};
ghost use Rattle.layout.specs.Fills.{WalkFills};
ghost use Rattle.layout.specs.Walks.{stepped};

// Where the walk is: how many pages are begun, how many lines are on those before the last of them, and of that one how many lines it has and
// how many rows they take with their notes.
#[derive(Clone, Copy, Debug, Default, PartialEq, Eq)]
pub struct Walk {
    pub pages: usize,
    pub before: usize,
    pub lines: usize,
    pub rows: usize,
}

impl Walk {
    // One line more, which takes so many rows with its notes, where a page has so many. A first line always goes on the page.
    pub fn step(self, height: usize, rows: usize) -> Walk
        requires { (self.pages + 1 < 2 ^ 64) × ((self.before + self.lines + 1 < 2 ^ 64) × (self.rows + height < 2 ^ 64)) }
        ensures { result ≡ stepped rows self height }
    {
        if self.lines == 0 || self.rows + height > rows {
            Walk {
                pages: self.pages + 1,
                before: self.before + self.lines,
                lines: 1,
                rows: height,
            }
        } else {
            Walk {
                lines: self.lines + 1,
                rows: self.rows + height,
                ..self
            }
        }
    }
}

// What the walk tells is how pages are filled.
pub fn walk_fills()
    ensures { WalkFills }
{}
