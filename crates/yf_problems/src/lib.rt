//! What a finding or a refusal says to people and to editors.
//!
//! `problems_in` returns the findings of all rules, or the only refusal. `foldable_parts` returns the parts that an
//! editor may fold, and `outline_parts` those of its outline. The crate knows no command line, no files and no output
//! streams.
#![tactic(auto)]

mod comment_rows;
pub mod expected_columns;
pub mod finding_words;
pub mod folds;
pub mod outlines;
pub mod problems;
mod repeated_keys;
mod values;
