//! The form of each node of a reading: its style and its text on one line, its measure, the decisions, and the normal
//! form.
//!
//! Measures, forms and decisions are exactly those of the definitions in `specs/`. The crate gets readings: it uses no
//! reader of nodes.
#![tactic(auto)]

pub mod form;
pub mod normal;
pub mod style;
pub mod text;
