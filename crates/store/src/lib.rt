// The book in lent memory: bytes for its tokens, and numbers for all the rest.
// The two slices go through the functions side by side, as the C interface lends them: in a struct of two `&mut` each method would have to promise
// that the fields keep their references.
#![tactic(auto)]

mod changes;
mod defining;
mod definitions;
mod header;
mod kept;
mod opening;
mod paragraphs;
mod splice;

pub use changes::{Content, Edit, change};
pub use defining::{Definition, define};
pub use definitions::{Defined, Definitions};
pub use header::widths;
pub use kept::{Counts, Entry, Kept, look};
pub use opening::{Asked, Limits, Looks, Opening, open, opening_is_sound};
pub use paragraphs::{Paragraphs, paragraph};
