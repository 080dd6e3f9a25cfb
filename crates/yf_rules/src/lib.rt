//! The trait of rules, the check of a text by several rules, the formatting of a text, and the runs, which print
//! events, findings and a formatted text.
//!
//! A run prints exactly what its relation says, or fails with a cause. The crate knows no command line and no file.
#![tactic(auto)]

pub mod action;
pub mod asked;
pub mod check;
pub mod check_all;
pub mod compare;
pub mod diff;
pub mod finding;
pub mod format;
pub mod headline;
pub mod input;
pub mod quoted;
pub mod rule;
pub mod rules;
pub mod run;
pub mod with_rules;
