//! Prints a normal reading in one pass over its events, from measures and forms of its nodes.
//!
//! The output is the layout of the reading, byte for byte. The crate decides nothing and knows no rule.
#![tactic(auto)]

pub(crate) mod bare;
pub(crate) mod comment_texts;
pub mod layout;
pub(crate) mod leaf_trails;
pub(crate) mod leaves;
pub(crate) mod looks;
pub mod open_blocks;
pub mod output;
pub mod printer;
pub mod source_columns;
pub mod trails;
