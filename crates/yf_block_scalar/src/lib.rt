//! Literal and folded block scalars (YAML 1.2.2, section 8.1), read and written.
//!
//! The reader returns what the productions derive, and the writer's text is derived with the content that it was
//! given. The crate knows no other node and no collection.
#![tactic(auto)]

pub mod body;
mod body_lines;
pub mod content;
pub mod header;
pub mod header_reader;
mod indent;
pub mod lines;
pub mod read;
pub mod reader;
mod trail;
pub mod write;
