// The atoms of a paragraph, in one part of lent memory, and its words in their best lines, in another.
// The two parts go side by side: in a struct of two `&mut` each method would have to promise that the fields keep their references.
#![tactic(auto)]

mod atoms;
mod laws;
mod lines;
mod read;
mod slots;
mod split;

pub use atoms::{Atom, Atoms};
pub use laws::{good_are_read, read_back};
pub use lines::{Taken, break_into_lines, break_row};
pub use read::read_atoms;
pub use slots::Word;
pub use split::{letter_width, split_words};
