//! Reports of the problems that a run found, in the formats that continuous integration and editors read.
//!
//! A report lists exactly the given problems, in order. The crate knows no YAML and no rule, and it fails only if
//! memory is refused. docs/FORMATS.md describes each format for users.
#![tactic(auto)]

pub mod checkstyle;
pub mod code_quality;
pub mod junit;
pub mod members;
pub mod problem;
pub mod problems_json;
pub mod reports;
pub mod sarif;
pub mod workflow_commands;
mod xml;
