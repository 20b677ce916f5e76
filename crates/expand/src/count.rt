// What tokens count, under the forms of commands.
ghost use Rattle.std.specs.Prelude.{◌≡◌, ℕ, List, nat_le};
ghost use Rattle.meaning.specs.Text.{Definition, atoms};
ghost use Rattle.meaning.specs.Calls.{bulk};
ghost use Rattle.meaning.specs.Sizes.{form_one, form_of, stopped, stopped_at, eight_digits};
ghost use Rattle.wire.specs.Bytes.{tokens_of};
ghost use Rattle.wire.specs.Cut.{token_of};
ghost use Rattle.expand.specs.Forms.{meant, row_form, AllRows, tokens_defined, RowsAt};

use crate::form::Form;
use crate::rows::row;
use wire::{Token, Tokens};

#[cycle(token_form_tokens_form)]
fn token_form(token: Token<'_>, forms: &[u64], most: u32) -> Form
    requires { AllRows forms.now }
    ensures { meant result ≡ stopped most (form_one (token_of token.entry) (row_form forms.now)) }
{
    match token {
        Token::Letter(_) | Token::Space => Form::LETTER.stopped(most),
        Token::Mark(_) => Form::MARK.stopped(most),
        Token::PageOf(_) => Form::PAGE_NUMBER.stopped(most),
        Token::Note(inside) => tokens_form(inside, forms, most).footed(most),
        Token::Command(name, inside) => {
            tokens_form(inside, forms, most).given_to(row(forms, name), most)
        }
        Token::Given => Form::GIVEN.stopped(most),
    }
}

// What the tokens that bytes begin with count, with commands that count as their rows say.
#[cycle(token_form_tokens_form)]
pub fn tokens_form(tokens: &[u8], forms: &[u64], most: u32) -> Form
    requires { AllRows forms.now }
    ensures counted { meant result ≡ stopped most (form_of (tokens_of tokens.now) (row_form forms.now)) }
    ensures at_depth { (n : ℕ) (ds : List Definition) → RowsAt most n ds forms.now → meant result ≡ stopped most (form_of (tokens_of tokens.now) (stopped_at most n ds)) }
{
    let mut form = Form::default();
    for token in Tokens(tokens) {
        form = form.together(token_form(token, forms, most), most);
    }
    form
}

// What a command counts that stands deeper than commands go: it is a question mark.
pub fn question_mark(most: u32) -> Form
    ensures { (ds : List Definition) (k : ℕ) → meant result ≡ stopped_at most 0 ds k }
{
    Form::LETTER.stopped(most)
}

// What a command counts, with commands in it that count as their rows say. One that is not defined stands for what is given.
pub fn command_form(definition: Option<&[u8]>, forms: &[u64], most: u32) -> Form
    requires { AllRows forms.now }
    ensures counted { meant result ≡ stopped most (form_of (tokens_defined definition.entry) (row_form forms.now)) }
    ensures at_depth { (n : ℕ) (ds : List Definition) → RowsAt most n ds forms.now → meant result ≡ stopped most (form_of (tokens_defined definition.entry) (stopped_at most n ds)) }
{
    match definition {
        Some(tokens) => tokens_form(tokens, forms, most),
        None => Form::GIVEN.stopped(most),
    }
}

// Whether a paragraph is within the limit when its commands are gone, by the rows of commands at the depth to which they go.
pub fn paragraph_fits(tokens: &[u8], forms: &[u64], most: u32) -> bool
    requires { AllRows forms.now }
    ensures counted { result ≡ nat_le (stopped most (form_of (tokens_of tokens.now) (row_form forms.now))).own most }
    ensures within { (ds : List Definition) → RowsAt most 16 ds forms.now → result ≡ nat_le (bulk (atoms ds eight_digits (tokens_of tokens.now))) most }
{
    tokens_form(tokens, forms, most).own <= u64::from(most)
}
