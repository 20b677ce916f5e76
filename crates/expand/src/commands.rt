// The forms of all commands, by their definitions.
ghost use Rattle.std.specs.Prelude.{◌≡◌, ◌<◌, ◌≢◌, ℕ, suc, List, length, drop};
ghost use Rattle.meaning.specs.Text.{Definition};
ghost use Rattle.meaning.specs.Sizes.{form_of, stopped, stopped_at};
ghost use Rattle.wire.specs.Bytes.{tokens_of};
ghost use Rattle.expand.specs.Forms.{meant, row_form, AllRows, RowsAt};
ghost use Rattle.expand.specs.Commands.{all_definitions, TwiceAllRows};

use crate::count::{command_form, question_mark};
use crate::form::Form;
use crate::rows::{ROWS, set_row};
use store::{Defined, Definitions};

// How deep commands go in one another.
const DEPTH: usize = 16;

// The rows of all commands become this.
fn fill(forms: &mut [u64], form: Form)
    requires { AllRows forms.old }
    ensures long { length forms.new ≡ length forms.old }
    ensures rows { (k : ℕ) → k < 256 → row_form forms.new k ≡ meant form }
{
    for command in 0..=u8::MAX {
        set_row(forms, command, form);
    }
}

// A command's row becomes that of its definition, with commands in it that count as the rows of now say.
fn define(definition: Defined<'_>, now: &[u64], next: &mut [u64], most: u32)
    requires now { AllRows now.now }
    requires next { AllRows next.old }
    ensures long { length next.new ≡ length next.old }
    ensures here { (n : ℕ) (ds : List Definition) → RowsAt most n ds now.now → row_form next.new definition.entry.number ≡ stopped most (form_of (tokens_of definition.entry.tokens.now) (stopped_at most n ds)) }
    ensures others { (k : ℕ) → k ≢ definition.entry.number → row_form next.new k ≡ row_form next.old k }
{
    let form = command_form(Some(definition.tokens), now, most);
    set_row(next, definition.number, form);
}

// The rows for one level more than those of now. Of the definitions of a command the last counts, as it is written last.
fn deeper(
    definitions: Definitions<'_, '_>,
    new: Option<Defined<'_>>,
    now: &[u64],
    next: &mut [u64],
    most: u32,
)
    requires now { AllRows now.now }
    requires next { AllRows next.old }
    ensures long { length next.new ≡ length next.old }
    ensures deeper { (n : ℕ) → RowsAt most n (all_definitions definitions.entry new.entry) now.now → RowsAt most (suc n) (all_definitions definitions.entry new.entry) next.new }
{
    fill(next, command_form(None, now, most));
    for definition in definitions {
        define(definition, now, next, most);
    }
    if let Some(definition) = new {
        define(definition, now, next, most);
    }
}

// From rows to rows and back, a level each way.
fn all_levels(
    definitions: Definitions<'_, '_>,
    new: Option<Defined<'_>>,
    rows: &mut [u64],
    spare: &mut [u64],
    most: u32,
)
    requires rows { AllRows rows.old }
    requires spare { AllRows spare.old }
    ensures long { length rows.new ≡ length rows.old }
    ensures spare { length spare.new ≡ length spare.old }
    ensures rows { RowsAt most 16 (all_definitions definitions.entry new.entry) rows.new }
{
    fill(rows, question_mark(most));
    for _ in 0..DEPTH / 2 {
        deeper(definitions, new, rows, spare, most);
        deeper(definitions, new, spare, rows, most);
    }
}

// The rows of all commands, with a new definition behind the others. The numbers for as many rows again are worked in.
pub fn command_rows(
    definitions: Definitions<'_, '_>,
    new: Option<Defined<'_>>,
    forms: &mut [u64],
    most: u32,
)
    requires { TwiceAllRows forms.old }
    ensures long { length forms.new ≡ length forms.old }
    ensures rows { RowsAt most 16 (all_definitions definitions.entry new.entry) forms.new }
    ensures behind { drop 2560 forms.new ≡ drop 2560 forms.old }
{
    let (front, _) = forms.split_at_mut(2 * ROWS);
    let (rows, spare) = front.split_at_mut(ROWS);
    all_levels(definitions, new, rows, spare, most);
}
