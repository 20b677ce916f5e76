// How much a paragraph would be when its commands are gone, counted without writing it out: tokens as five numbers, under those of each command.
#![tactic(auto)]

mod commands;
mod count;
mod form;
mod rows;

pub use commands::command_rows;
pub use count::{command_form, paragraph_fits, question_mark, tokens_form};
pub use form::Form;
pub use rows::{ROWS, set_row};
