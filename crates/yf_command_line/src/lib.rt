//! The command line: the request that its words make, the text that they ask for, or why they are refused. The crate
//! reads no file and knows no rule: the caller passes the names of the rules and the pages on them.
#![tactic(auto)]

pub mod build;
pub(crate) mod check;
pub(crate) mod check_options;
pub mod command;
pub mod command_line;
pub(crate) mod explained;
mod fmt_formats;
pub(crate) mod formats;
pub(crate) mod inputs;
pub(crate) mod lines;
pub(crate) mod options;
pub(crate) mod part;
pub(crate) mod printing;
pub(crate) mod refused_words;
pub mod usage;
pub(crate) mod without;
pub(crate) mod words;
