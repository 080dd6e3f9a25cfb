//! The outline of a text for editors: its entries, each with those in it.
#![tactic(auto)]

pub mod outline;
pub mod white_space;
