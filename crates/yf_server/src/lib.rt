//! The part of an editor server that needs no YAML: life cycle, documents and requests of the Language Server Protocol
//! 3.17.
//!
//! `step` responds to each request once, and the edits that it sends give the text that its analysis returns. The crate
//! reads and writes no stream.
#![tactic(auto)]

pub mod actions;
pub mod analysis;
pub mod diagnostics;
pub mod documents;
pub mod edits;
pub mod folds;
pub mod handshake;
pub mod laws;
pub mod lifecycle;
pub mod loss;
pub mod notify;
pub mod parameters;
pub mod publish;
pub mod query;
pub mod respond;
pub mod selections;
pub mod step;
pub mod symbols;
