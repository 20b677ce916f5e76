// A session with a book in lent memory: it is opened, and calls are answered, bytes in and bytes out.
// The two slices go side by side through every function, as the C interface lends them.
#![tactic(auto)]

mod answering;
mod promise;

pub use answering::{ROOM, call};
pub use layout::{PageShape, page_shape};
pub use promise::session_is_right;
pub use store::{Asked, Limits, Looks, Opening, open};
