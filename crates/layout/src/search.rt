// A walk over the lines of a book that seeks lines of a page.
ghost use Rattle.std.specs.Prelude.{◌≡◌, ◌+◌, ◌^◌, ◌<◌};
ghost use Rattle.layout.specs.Walks.{begun, goes_past, has_lines, found_line};

use crate::walk::Walk;

// So many lines of a page: there is no need to walk on.
#[derive(Clone, Copy)]
pub(crate) struct Goal {
    pub(crate) page: usize,
    pub(crate) lines: usize,
}

impl Goal {
    // Whether the walk is on a later page.
    fn is_passed_by(self, walk: Walk) -> bool
        ensures { result ≡ goes_past self walk }
    {
        walk.pages > self.page && walk.pages - self.page > 1
    }

    fn is_reached_by(self, walk: Walk) -> bool
        ensures { result ≡ has_lines self walk }
    {
        walk.pages > self.page && walk.lines >= self.lines
    }
}

// It is done when the page has as many lines as are wanted, or is full; then the walk stays where it is on that page.
#[derive(Clone, Copy)]
pub(crate) struct Search {
    pub(crate) goal: Goal,
    pub(crate) walk: Walk,
    pub(crate) done: bool,
}

impl Search {
    pub(crate) fn begin(goal: Goal) -> Search
        ensures { result ≡ begun goal }
    {
        Search {
            goal,
            walk: Walk::default(),
            done: false,
        }
    }

    // One line more, which takes so many rows with its notes, where a page has so many.
    pub(crate) fn line(self, height: usize, rows: usize) -> Search
        requires { (self.walk.pages + 1 < 2 ^ 64) × ((self.walk.before + self.walk.lines + 1 < 2 ^ 64) × (self.walk.rows + height < 2 ^ 64)) }
        ensures { result ≡ found_line rows self height }
    {
        if self.done {
            return self;
        }
        let walk = self.walk.step(height, rows);
        if self.goal.is_passed_by(walk) {
            return Search { done: true, ..self };
        }
        Search {
            walk,
            done: self.goal.is_reached_by(walk),
            ..self
        }
    }
}
