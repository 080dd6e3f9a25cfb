//! Whole streams (YAML 1.2.2, chapter 9): documents, their markers and directives, and what must hold in each of them.
//!
//! `read_stream` returns the one reading of a text, or why and at which offset there is none. The crate reads nodes
//! only through yf_block, and knows no style.
#![tactic(auto)]

mod anchors;
mod between;
mod breaches;
mod declarations;
mod directives;
mod documents;
mod leaf_lines;
mod prefixes;
mod resolve;
pub mod stream;
