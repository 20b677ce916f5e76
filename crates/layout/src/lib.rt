// Lines set as rows of placed letters, and pages filled with them.
#![tactic(auto)]

mod book;
mod line;
mod notes;
mod paragraph;
mod rows;
mod search;
mod sheet;
mod walk;
mod work;

pub use book::{PageShape, Wanted, count_pages, page_shape, show_rows};
pub use walk::{Walk, walk_fills};
