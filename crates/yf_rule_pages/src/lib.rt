//! What `yamlfmt explain` prints: pages for people on the rules of style, on the refusals, and on texts that are not
//! formatted or that the program skips; and the list of these pages.
//!
//! A page is found by its name, exactly. The crate knows no YAML: `bench/rules.py` runs the examples in the pages.
#![tactic(auto)]

pub mod explanation;
pub mod page;
pub mod pages;
pub(crate) mod refusals;
pub(crate) mod rules;
