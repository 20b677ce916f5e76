// The forms of all commands, one row of five numbers behind another.
ghost use Rattle.std.specs.Prelude.{◌≡◌, ◌≢◌, ◌≤◌, ℕ, length};
ghost use Rattle.expand.specs.Forms.{meant, row_form, AllRows};

use crate::form::Form;

const ROW: usize = 5;

// How many numbers the rows of all commands are, which have a byte for a name.
pub const ROWS: usize = 256 * ROW;

pub(crate) fn row(forms: &[u64], command: u8) -> Form
    requires { AllRows forms.now }
    ensures { meant result ≡ row_form forms.now command }
{
    let at = ROW * usize::from(command);
    Form {
        own: forms[at],
        given: forms[at + 1],
        noted: forms[at + 2],
        text: forms[at + 3],
        text_given: forms[at + 4],
    }
}

// A command's row becomes this, and all other rows stay as they were.
pub fn set_row(forms: &mut [u64], command: u8, form: Form)
    requires { AllRows forms.old }
    ensures long { length forms.new ≡ length forms.old }
    ensures here { row_form forms.new command ≡ meant form }
    ensures others { (k : ℕ) → k ≢ command → row_form forms.new k ≡ row_form forms.old k }
{
    let at = ROW * usize::from(command);
    forms[at] = form.own;
    forms[at + 1] = form.given;
    forms[at + 2] = form.noted;
    forms[at + 3] = form.text;
    forms[at + 4] = form.text_given;
}
