//! The nested productions of YAML 1.2.2, flow and block nodes, as one relation in `specs/`, with their lemmas.
//!
//! Each production has one outcome at an offset, in each context and indentation. Flow and block nodes call each other
//! in the grammar, and two crates read by this relation, so it is below both. It has no code.
#![tactic(auto)]
