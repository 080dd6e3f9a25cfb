//! The 211 productions of YAML 1.2.2, chapters 5 to 9, letter by letter, by the standard's names, order and numbers,
//! in `specs/`; what a derivation means; and the laws that relate both to the readers.
//!
//! The productions derive a text as a stream if and only if the definitions of the crates below do. It has no code.
#![tactic(auto)]

pub mod laws;
