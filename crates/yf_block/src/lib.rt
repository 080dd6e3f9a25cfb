//! Block nodes (YAML 1.2.2, chapter 8): block collections, block scalars, and flow nodes in block collections, read in
//! one forward pass.
//!
//! The readers return exactly the events that the grammar of yf_grammar derives, or at which offset and why it derives
//! none. The crate reads flow nodes only through yf_flow, and knows no documents.
#![tactic(auto)]

pub mod block;
pub(crate) mod content;
pub(crate) mod entry;
pub(crate) mod frame;
pub(crate) mod halt;
pub(crate) mod inline;
pub(crate) mod line;
pub mod look;
pub mod nodes;
pub(crate) mod properties;
pub(crate) mod resume;
pub(crate) mod scalar;
