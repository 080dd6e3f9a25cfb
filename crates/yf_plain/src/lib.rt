//! Plain scalars (YAML 1.2.2, section 7.3.3): their reader, and which texts stay plain when they are written.
//!
//! The reader takes the longest plain scalar that the productions derive. A text stays plain only if it reads back as
//! itself. The crate knows no other node.
#![tactic(auto)]

mod ordinary;
pub mod plain;

pub use yf_lines::steady::is_steady;
