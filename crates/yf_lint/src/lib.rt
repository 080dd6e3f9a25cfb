//! Problems of data rather than of style: unused and repeated anchors, keys and items without a value, and plain
//! scalars that YAML 1.1 and YAML 1.2 read differently.
//!
//! The functions return the byte offsets at fault in a reading. No command calls them yet. The crate knows no settings
//! and no house style.
#![tactic(auto)]

pub mod ambiguous_plains;
pub mod anchors;
pub mod empty_values;
