//! Comments (YAML 1.2.2, section 6.6) and separation (section 6.7).
//!
//! The readers take the longest separation that the productions derive, with its comments and their offsets. The crate
//! knows no nodes.
#![tactic(auto)]

pub mod blank;
pub mod comment;
pub mod comments;
pub mod lines;
pub mod read;
pub mod separation;
