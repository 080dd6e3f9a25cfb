//! The work on an input.

use crate::terminal::Terminal;
use yf_forms::style::Style;
use yf_lines::text::OwnedText;
use yf_parts::run::PartTask;

/// The work on the text of an input.
#[derive(Drop)]
pub enum Work {
    /// Its events are printed.
    Events,
    /// The findings of the rules in it are printed. The rules with these names are left out.
    Check(Vec<OwnedText>),
    /// Its formatting is printed.
    Print,
    /// The first position at which it differs from its formatting is printed.
    Compare,
    /// The diff of it and its formatting is printed.
    Diff,
    /// Some of its lines are formatted, and the result is shown.
    Part(PartTask),
}

/// The work on an input, and how it is done.
#[derive(Drop)]
pub struct Task {
    /// The work.
    pub work: Work,
    /// The style of the task.
    pub style: Style,
    /// Whether each fault and each finding is explained.
    pub explain: bool,
}

/// What the command line says about the whole run.
#[derive(Drop)]
pub struct Flags {
    /// Whether each fault and each finding is explained.
    pub explain: bool,
    /// Whether texts that are no data are taken like any other.
    pub any_text: bool,
    /// Whether lines have the name of their input, even if there is only one.
    pub names: bool,
    /// The name of standard input.
    pub stdin_name: Option<OwnedText>,
    /// What is known of standard output and the environment.
    pub terminal: Terminal,
}
