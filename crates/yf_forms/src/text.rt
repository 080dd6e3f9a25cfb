//! The text of single nodes: its style, its width and its characters.

pub mod block;
pub mod content_start;
pub mod limit;
pub mod wanted;
pub mod width;
pub mod written;
