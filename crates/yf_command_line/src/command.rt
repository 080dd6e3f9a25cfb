//! The request of a command line. A combination that the command line refuses has no value here.

use yf_line_ranges::range::LineRange;
use yf_lines::text::OwnedText;
use yf_report::reports::Format;

/// The source of a text.
#[derive(Drop)]
pub enum Input {
    /// Standard input.
    Standard,
    /// The file with this name.
    File(OwnedText),
}

/// At least one input, in order.
#[derive(Drop)]
pub struct InputList {
    /// The first input.
    pub first: Input,
    /// The inputs after it.
    pub rest: Vec<Input>,
}

/// The names of at least one file, in order.
#[derive(Drop)]
pub struct FileList {
    /// The name of the first file.
    pub first: OwnedText,
    /// The names of the files after it.
    pub rest: Vec<OwnedText>,
}

/// The task of `fmt`.
#[derive(Drop)]
pub enum Fmt {
    /// Prints the formatted text.
    Print(Input),
    /// Reports the inputs that are not in the house style (`--check`).
    Check {
        /// The inputs.
        inputs: InputList,
        /// How they are reported (`--format`). It is never `Output::Statistics`.
        output: Output,
    },
    /// Prints how the formatted texts differ from the inputs (`--diff`).
    Diff(InputList),
    /// Writes the formatted text to the file that was read (`--write`).
    Write(FileList),
    /// Formats only some lines (`--lines`).
    Part {
        /// The lines to format, in the order of the command line.
        lines: Vec<LineRange>,
        /// The text, and the task for it.
        what: Part,
    },
}

/// The task of `fmt --lines`.
#[derive(Drop)]
pub enum Part {
    /// Prints the text with these lines formatted.
    Print(Input),
    /// Reports whether a line would change (`--check`).
    Check(Input),
    /// Prints how the text would change (`--diff`).
    Diff(Input),
    /// Writes the text to the file that was read (`--write`).
    Write(OwnedText),
}

/// How problems are printed.
#[derive(Clone, Copy)]
pub enum Output {
    /// A line for each finding (`--format line`).
    Lines,
    /// For people: the message, the line of the text, and carets under the range (`--format full`).
    Full,
    /// The number of findings of each rule (`--statistics`).
    Statistics,
    /// A baseline of all inputs (`--format baseline`).
    Baseline,
    /// One report of all inputs, for programs.
    Report(Format),
}

/// When the output has colors (`--color`).
#[derive(Clone, Copy)]
pub enum Colors {
    /// Only if standard output is a terminal and the environment does not forbid colors.
    Auto,
    /// Always.
    Always,
    /// Never.
    Never,
}

/// How `check` prints its findings.
#[derive(Clone, Copy)]
pub struct Printing {
    /// The form, or `None` if the command line names none.
    pub output: Option<Output>,
    /// When the output has colors.
    pub colors: Colors,
    /// The greatest number of findings to print (`--max-findings`). Without it there is no limit.
    pub limit: Option<usize>,
}

/// The task of `check`.
#[derive(Drop)]
pub struct Check {
    /// The inputs to check.
    pub inputs: InputList,
    /// The names of the rules to leave out, in the order of the command line. Each is the name of a rule.
    pub without: Vec<OwnedText>,
    /// The lines to check (`--lines`), in the order of the command line. If there are none, all lines are checked.
    pub lines: Vec<LineRange>,
    /// The name of the file with the baseline, whose findings are left out (`--baseline`).
    pub baseline: Option<OwnedText>,
    /// How the findings are printed.
    pub printing: Printing,
}

/// A command with its inputs.
#[derive(Drop)]
pub enum Command {
    /// Prints the events of a stream.
    Events(Input),
    /// Prints the findings of each input.
    Check(Check),
    /// Formats.
    Fmt(Fmt),
    /// Serves an editor over standard input and standard output.
    Server,
}

/// The settings that the words of a command line ask for.
#[derive(Drop)]
pub enum Settings {
    /// Those of the nearest settings file, or the defaults if there is none.
    Nearest,
    /// Those of the settings file with this name (`--config FILE`).
    File(OwnedText),
    /// The defaults (`--no-config`).
    Defaults,
}

/// The request that the words of a command line make.
#[derive(Drop)]
pub struct Request {
    /// The settings.
    pub settings: Settings,
    /// Whether to print the settings in force and to do nothing else.
    pub shows_settings: bool,
    /// Whether to explain each fault and each finding.
    pub explain: bool,
    /// Whether to take any text, also one that is no data (`--any-text`).
    pub any_text: bool,
    /// Whether lines have the name of their input, even if there is only one (`--names`).
    pub names: bool,
    /// The name of standard input (`--stdin-name NAME`).
    pub stdin_name: Option<OwnedText>,
    /// The command.
    pub command: Command,
}
