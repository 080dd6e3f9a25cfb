//! The system as the program sees it: inputs, output streams, files that are rewritten, and lines of faults.
//!
//! Each fault has one line and one status, and a rewritten file has its old text or exactly the new one. The crate
//! knows no task, no settings file, no findings and no server. Only `files`, `replacing` and `reserved` touch the
//! system.
#![tactic(auto)]

pub mod files;
pub mod guarded_text;
pub mod inputs;
pub mod left_alone;
pub mod memory;
pub mod memory_inputs;
pub mod named;
pub mod replacing;
pub mod report;
pub mod reserved;
pub mod sources;
pub mod streams;
