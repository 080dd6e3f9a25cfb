//! Baselines. A baseline lists the findings that a team has accepted, so that a check reports only new ones.
//!
//! An entry of it is a finding without its position: the file, the rule, a hash of the text of its line, and the number
//! of earlier findings of the file with this rule and this hash. So an entry still matches when other lines change. The
//! crate knows no YAML and no rule. docs/FORMATS.md describes the file for users.
#![tactic(auto)]

pub mod baseline;
pub mod counts;
pub mod entries;
pub mod entry;
pub mod laws;
pub mod line;
pub mod listed;
pub mod read;
pub mod refusal;
