// What tokens count, whatever is given to them. Numbers stop past a limit: sums and products of stopped ones stop where the true ones do.
ghost use Rattle.std.specs.Prelude.{◌≡◌, ◌+◌, ◌*◌};
ghost use Rattle.meaning.specs.Sizes.{stop, stopped, together, footed, given_to};
ghost use Rattle.expand.specs.Forms.{meant};

#[derive(Clone, Copy, Debug, Default, PartialEq, Eq)]
pub struct Form {
    // what counts whatever is given
    pub own: u64,
    // how many times all that is given counts, and how many times what a note would have of it
    pub given: u64,
    pub noted: u64,
    // the same in a note, where marks and notes are left out
    pub text: u64,
    pub text_given: u64,
}

// The first number past the limit stands for all past it.
fn stop(number: u64, most: u32) -> u64
    ensures { result ≡ stop most number }
{
    number.min(u64::from(most) + 1)
}

// What is more than 64 bits hold is past any limit.
fn sum(a: u64, b: u64, most: u32) -> u64
    ensures { result ≡ stop most (a + b) }
{
    stop(a.saturating_add(b), most)
}

fn product(a: u64, b: u64, most: u32) -> u64
    ensures { result ≡ stop most (a * b) }
{
    stop(a.saturating_mul(b), most)
}

impl Form {
    // A letter or a space.
    pub(crate) const LETTER: Form = Form {
        own: 1,
        given: 0,
        noted: 0,
        text: 1,
        text_given: 0,
    };

    // A page number, which may have eight digits.
    pub(crate) const PAGE_NUMBER: Form = Form {
        own: 8,
        given: 0,
        noted: 0,
        text: 8,
        text_given: 0,
    };

    pub(crate) const MARK: Form = Form {
        own: 1,
        given: 0,
        noted: 0,
        text: 0,
        text_given: 0,
    };

    // Just what is given.
    pub(crate) const GIVEN: Form = Form {
        own: 0,
        given: 1,
        noted: 0,
        text: 0,
        text_given: 1,
    };

    pub(crate) fn stopped(self, most: u32) -> Form
        ensures { meant result ≡ stopped most (meant self) }
    {
        Form {
            own: stop(self.own, most),
            given: stop(self.given, most),
            noted: stop(self.noted, most),
            text: stop(self.text, most),
            text_given: stop(self.text_given, most),
        }
    }

    // One token behind another.
    pub(crate) fn together(self, other: Form, most: u32) -> Form
        ensures { meant result ≡ stopped most (together (meant self) (meant other)) }
    {
        Form {
            own: sum(self.own, other.own, most),
            given: sum(self.given, other.given, most),
            noted: sum(self.noted, other.noted, most),
            text: sum(self.text, other.text, most),
            text_given: sum(self.text_given, other.text_given, most),
        }
    }

    // A note with this in it, which a note around it leaves out.
    pub(crate) fn footed(self, most: u32) -> Form
        ensures { meant result ≡ stopped most (footed (meant self)) }
    {
        Form {
            own: sum(1, self.text, most),
            given: 0,
            noted: stop(self.text_given, most),
            text: 0,
            text_given: 0,
        }
    }

    // What a command counts that this is given to.
    pub(crate) fn given_to(self, command: Form, most: u32) -> Form
        ensures { meant result ≡ stopped most (given_to (meant command) (meant self)) }
    {
        let all = product(command.given, self.own, most);
        let in_notes = product(command.noted, self.text, most);
        let all_noted = product(command.given, self.noted, most);
        let notes_given = product(command.noted, self.text_given, most);
        let text = product(command.text_given, self.text, most);
        Form {
            own: sum(sum(command.own, all, most), in_notes, most),
            given: product(command.given, self.given, most),
            noted: sum(all_noted, notes_given, most),
            text: sum(command.text, text, most),
            text_given: product(command.text_given, self.text_given, most),
        }
    }
}
