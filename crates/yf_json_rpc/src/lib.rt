//! JSON-RPC messages in the base protocol of the Language Server Protocol 3.17: a header section, and then the
//! content.
//!
//! What is framed reads back as the same list of messages, and in one way only. The crate knows no method and no
//! document.
#![tactic(auto)]

pub mod error_code;
pub mod frame;
pub mod laws;
pub mod message;
