//! The program as a library, from the words of a command line to the exit status.
//!
//! `answer` does what the words ask for, and nothing else, over any inputs, files and outputs of yf_host. The crate
//! does not touch the system.
#![tactic(auto)]

pub mod answer;
pub mod baseline_file;
pub mod each;
pub mod formatted;
pub mod further;
pub mod handling;
pub mod judged;
pub mod left;
pub mod left_over;
pub mod parts;
pub mod program;
pub mod report_inputs;
pub mod report_texts;
pub mod report_work;
pub mod reports;
pub mod rewrites;
pub mod scope;
pub mod search;
pub mod server;
pub mod settings_shown;
pub mod task;
pub mod terminal;
pub mod version;
pub mod with_settings;
