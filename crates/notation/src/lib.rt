// Tokens as text, and the text read into the tokens' form as bytes.
#![tactic(auto)]

mod fault;
mod laws;
mod number;
mod piece;
mod reading;

pub use fault::Fault;
pub use laws::notes_tokens;
pub use number::digits_value;
pub use piece::Piece;
pub use reading::read_tokens;
