//! Node properties: anchors and tags (YAML 1.2.2, section 6.9), aliases (7.1) and tag handles (6.8.2).
//!
//! The readers return what the productions derive, and tags are resolved exactly. The crate knows no node that has the
//! properties.
#![tactic(auto)]

pub mod alias;
pub mod handles;
pub mod properties;
pub mod props;
pub mod read;
pub mod resolved;
pub mod tag;
