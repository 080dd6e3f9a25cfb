//! Flow nodes (YAML 1.2.2, chapter 7): flow collections, the scalars and aliases in them, and implicit keys, read in
//! one forward pass.
//!
//! The readers return exactly the events that the grammar of yf_grammar derives, or at which offset and why it derives
//! none. The crate knows no block nodes.
#![tactic(auto)]

pub(crate) mod entries;
pub(crate) mod entry_ends;
pub mod flow;
pub mod frame;
pub(crate) mod gap;
pub(crate) mod json;
pub(crate) mod leaf;
pub mod look;
pub mod node;
pub mod nodes;
