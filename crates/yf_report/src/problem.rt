//! The parts of a problem that a report needs.
ghost use Rattle.std.specs.Prelude.{◌≡◌};
ghost use Rattle.yf_report.specs.Problems.{severity_name};

/// A part of a text. Lines and columns count from 1, and columns count characters. The end is exclusive.
#[derive(Clone, Copy)]
pub struct Range {
    /// The line of the first character.
    pub line: usize,
    /// The column of the first character.
    pub column: usize,
    /// The line of the character after the last one.
    pub end_line: usize,
    /// The column of the character after the last one.
    pub end_column: usize,
}

/// The severity of a problem.
#[derive(Clone, Copy)]
pub enum Severity {
    /// A refusal: the text was not read to its end.
    Error,
    /// A finding of a style rule.
    Warning,
}

/// Another range that belongs to a problem, such as the first of two equal keys.
#[derive(Clone, Copy)]
pub struct Related<'a> {
    pub range: Range,
    /// The message for this range.
    pub message: &'a str,
}

/// A part of a text, and the text that replaces it.
#[derive(Clone, Copy)]
pub struct Replacement<'a> {
    pub range: Range,
    pub text: &'a str,
}

/// A finding or a refusal.
#[derive(Clone, Copy)]
pub struct Problem<'a> {
    /// The file's name as the user wrote it, or `None` for standard input.
    pub file: Option<&'a str>,
    pub range: Range,
    /// A rule's id or a refusal's kind.
    pub rule: &'a str,
    pub severity: Severity,
    /// What is wrong, and what is expected.
    pub message: &'a str,
    /// Whether `fmt` fixes it.
    pub fixable: bool,
    pub related: Option<Related<'a>>,
    /// The parts of the file that other texts replace, all together, to fix the problem. They are in order and don't
    /// overlap. The list is empty if the report has no fix for the problem.
    pub fix: &'a [Replacement<'a>],
    /// The line of the text on which the range begins, or a front of it, without its line break.
    pub line_text: &'a str,
}

impl Severity {
    /// Returns the severity as JSON and most other formats write it.
    pub fn name(self) -> &'static str
        ensures { result.now ≡ severity_name self }
    {
        match self {
            Severity::Error => "error",
            Severity::Warning => "warning",
        }
    }
}
