//! The explanation of a fault: its words, the line of the source with a caret, and the position at which an open quote
//! or bracket begins.
//!
//! An explanation has only characters that are shown as they are. The crate knows faults and positions, but no reader.
#![tactic(auto)]

mod classes;
mod explained;
mod look;
mod opened;
mod page;
mod position;
mod source;

pub use classes::columns_of;
pub use explained::{explain, page_at, page_of_words, push_line};
pub use page::Page;
