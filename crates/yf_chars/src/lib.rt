//! Characters: the classes of YAML 1.2.2, escapes, the check that bytes are UTF-8, and the one way in which the crates
//! above read a character at a byte offset.
//!
//! Each test is exact: it holds for the characters of its class and for no other. The crate knows no lines and no
//! nodes.
#![tactic(auto)]

pub mod classes;
mod common;
pub mod context;
pub mod error;
pub mod escapes;
pub mod hidden;
pub mod lanes;
pub mod nb_runs;
pub mod runs;
pub mod text;
pub mod utf8;
