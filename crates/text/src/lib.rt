// What files of calls and answers say as text: lines that open a book and lines that are calls are read, and answers are heard and shown.
#![tactic(auto)]

mod call;
mod entry;
mod fault;
mod hex;
mod laws;
mod line;
mod outcome;
mod reader;
mod rows;
mod shown;
mod widths;
mod word;

pub use call::Question;
pub use entry::{Entry, read_entry};
pub use fault::Fault;
pub use laws::{answers_shown, lines_formed};
pub use line::without_end;
pub use outcome::{Outcome, Refused};
pub use reader::{Reader, Step};
pub use rows::{EachRow, Letter, Letters, Rows};
pub use shown::{Heard, Shown, hear};
