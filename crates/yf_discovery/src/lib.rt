//! Finds the settings file that a run takes if the command line names none: the nearest one at or above the current
//! folder.
//!
//! The result is exact for what the caller has seen of the file system. The crate opens nothing and knows no settings.
#![tactic(auto)]

pub mod folders;
pub mod laws;
pub mod nearest;
