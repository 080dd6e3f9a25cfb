//! The problems of a text that a report lists: one for each finding of a check, with the range that is at fault and a
//! message, or one for the refusal of the text. A text that is no data has one more.
//!
//! The list has exactly the findings of the check, in order, and each range lies in the text. The crate writes the
//! forms for people, for example a line for each finding.
#![tactic(auto)]

pub mod baselines;
pub mod changes;
mod columns;
pub mod differences;
mod ends;
mod excerpt;
pub mod files;
mod full;
mod full_changes;
pub mod guards;
mod lines;
pub mod listing;
mod located;
pub mod owned;
mod pieces;
pub mod printed;
pub mod reading;
pub mod refusals;
pub mod rule_words;
pub mod selection;
mod starts;
pub mod statistics;
pub mod texts;
