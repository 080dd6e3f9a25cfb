//! Files that a formatter rewrites.
//!
//! At any moment, a file holds its whole old text or its whole formatting, even if the machine fails. The crate knows
//! no YAML: its caller passes the formatter and the file system.
#![tactic(auto)]

mod file_system;
mod logs;
mod memory;
mod replacing;
mod rewriting;

pub use file_system::{Failed, FileSystem, ReadError};
pub use logs::Moment;
pub use memory::{LINKS, MemoryFiles};
pub use replacing::ReplaceError;
pub use rewriting::{Formatter, RewriteError, rewrite};
