//! Readings: the flat list of events with their offsets, its notation and its content.
//!
//! Content and notation are functions of the events. The crate uses no reader of scalars and knows no style.
#![tactic(auto)]

pub mod comments;
pub mod content;
pub mod directive;
pub mod document;
mod escapes;
pub mod event;
pub mod events;
pub mod leaves;
pub mod lists;
mod nesting;
pub mod notation;
mod packed;
mod packing;
pub mod part;
mod plain;
mod puts;
pub mod reading;
mod relined;
pub mod slices;
pub mod tags;
pub mod values;
