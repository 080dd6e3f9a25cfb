//! Runs that first decide whether a text is data: the verdict on a text, the formatting of a text that is data, and a
//! check that also reports why a text is no data.
//!
//! The crate knows no command line. Its caller decides which texts are judged.
#![tactic(auto)]

pub mod check;
pub mod findings;
pub mod formatting;
pub mod held;
pub mod judge;
pub mod lines;
pub mod read;
