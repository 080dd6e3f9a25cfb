//! The rules of style: for each, the set of its faults and the function that finds them.
//!
//! Each function returns exactly the offsets of its set. The crate gets readings: it uses no reader and no printer.
#![tactic(auto)]

pub mod facts;
pub mod rules;
