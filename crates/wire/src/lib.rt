// What goes in and out of a session as bytes: calls, and answers to them.
#![tactic(auto)]

mod answer;
mod call;
mod fit;
mod kind;
mod laws;
mod refusal;
mod token;

pub use answer::{Answer, LETTER_BYTES, letter_bytes, row_start, rows_start, write_answer};
pub use call::{Call, read_call};
pub use fit::{Measure, tokens_measure};
pub use kind::{AnswerKind, CallKind, NoKind, TokenKind};
pub use laws::{only_read, read_back, stops_right, written_once};
pub use refusal::{Refusal, Unreadable};
pub use token::{LETTERS, Token, Tokens, next_token};
