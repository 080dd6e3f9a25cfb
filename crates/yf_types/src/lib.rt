//! The types of plain scalars: by the core schema of YAML 1.2, and by YAML 1.1 as PyYAML reads it.
//!
//! A text is read by two sets of patterns, with the values that each gives. The crate knows no nodes.
#![tactic(auto)]

pub mod agreement;
mod classes;
pub mod form;
pub mod meaning;
mod newer;
mod older;
mod sixties;
mod texts;
mod timestamps;
mod words;
