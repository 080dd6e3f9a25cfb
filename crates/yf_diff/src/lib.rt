//! Unified diffs of two texts, with three lines of context.
//!
//! The output is the notation of an edit script from the lines of one text to the lines of the other. So applying it
//! to the old text gives the new one, whichever script was chosen. The crate knows no YAML.
#![tactic(auto)]

pub mod diff;
pub mod fate;
pub mod guide;
pub mod hashed_line;
pub mod hunks;
pub mod laws;
pub mod script;
pub mod search;
pub mod single_lines;
pub mod step;
