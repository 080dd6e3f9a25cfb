//! The promises of yamlfmt, over the productions of YAML 1.2.2 with our reading rules.
//!
//! `Promises` is a statement for readers: it names no layout and no rule's set. No other crate uses it, and it must not
//! depend on the program.
#![tactic(auto)]

pub mod promises;
