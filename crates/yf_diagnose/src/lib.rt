//! Finds at which offset and why a stream is refused: it reads the refused part again from a known offset.
//!
//! It never changes whether a text is refused. It returns an offset in the text and a cause, for people, and nothing
//! depends on which cause it is.
#![tactic(auto)]

mod brackets;
mod diagnosis;
mod gap;
mod guess;
mod joined;
mod keys;
mod leaves;
mod lines;
mod look;
mod plain;
mod property;
mod quoted;
mod reading;
mod rest;
mod standing;
mod why;

pub use diagnosis::Diagnosis;
pub use reading::diagnose;
pub use why::Why;
