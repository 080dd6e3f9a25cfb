//! Positions in a document as the Language Server Protocol 3.17 counts them, and changes of a document.
//!
//! A changed document has exactly the text that the protocol defines, in each encoding. The crate knows no YAML and no
//! message.
#![tactic(auto)]

pub mod change;
pub mod columns;
pub mod document;
pub mod encoding;
pub mod laws;
pub mod line_starts;
pub mod position;
pub mod text_edit;
