//! Lines and positions of a text, the faults that all crates return, texts that borrow from their source, texts as
//! messages show them, and readers and writers that remember a failure.
//!
//! Positions are exact, counted in characters. The crate reads no nodes.
#![tactic(auto)]

pub mod basic;
pub mod contexts;
pub mod fault;
mod feeds;
pub mod fold;
pub mod invisible;
pub mod line;
pub mod output;
pub mod packed_lines;
pub mod place;
pub mod quotes;
pub mod shown;
pub mod slices;
pub mod source_text;
pub mod steady;
pub mod table;
pub mod text;
pub mod values;
pub mod watched;
