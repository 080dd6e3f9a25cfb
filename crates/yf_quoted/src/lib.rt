//! Single- and double-quoted scalars (YAML 1.2.2, sections 7.3.1 and 7.3.2), read and written.
//!
//! The readers return what the productions derive, and the writer's text is derived with the content that it was
//! given. The crate knows no other node.
#![tactic(auto)]

pub mod double;
pub mod filled;
pub mod gap;
mod own;
mod simple;
pub mod single;
pub mod write;
