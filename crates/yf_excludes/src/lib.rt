//! Which files a list of patterns excludes, by the rules of gitignore(5): patterns, their meaning, and paths.
//!
//! The meaning is stated over the grammar of patterns, and the functions return exactly this meaning. The crate opens no
//! file.
#![tactic(auto)]

pub mod atom;
pub mod excluded;
pub mod laws;
pub mod located;
mod parts;
pub mod path;
pub mod pattern;
pub mod read_class;
pub mod read_pattern;
pub mod read_segment;
pub mod spans;
