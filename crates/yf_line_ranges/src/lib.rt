//! Lines of a text by their numbers, and how a text writes them: `3-7,12`.
//!
//! A text of ranges is read exactly, or refused. The crate knows no text that has these lines.
#![tactic(auto)]

pub mod number;
pub mod range;
pub mod read;
