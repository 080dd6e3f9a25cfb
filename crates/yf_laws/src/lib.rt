//! The laws of reading and formatting, for every text and every style, and the definitions that they name.
//!
//! A function here does nothing: its contract is a law. A caller gets the law, and its proof loads only the statement.
//! The crate knows no run, no reader and no writer.
#![tactic(auto)]

pub mod every_text;
pub mod passes;
