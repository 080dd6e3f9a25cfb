//! Runs of commands, for the tests.

use std::alloc::{AllocError, Global};
use std::io;
use yf_events::reading::Reading;
use yf_forms::style::Style;
use yf_host::files::NewText;
use yf_host::guarded_text::GuardedText;
use yf_host::report::report;
use yf_host::streams::{Streams, in_memory};
use yf_lines::fault::Fault;
use yf_lines::watched::{Sink, Source, Watched};
use yf_program::program::run;
use yf_program::task::{Task, Work};
use yf_program::terminal::Terminal;
use yf_rules::format::format;
use yf_settings::settings::style_from_toml;
use yf_stream::stream::read_stream;

/// Standard output is no terminal.
pub const NO_TERMINAL: Terminal = Terminal {
    output: false,
    no_color: false,
};

/// A command over standard input.
#[derive(Clone, Copy)]
pub enum Asked {
    Events,
    Check,
    Fmt,
    /// `fmt --check`
    FmtCheck,
    /// `fmt --diff`
    FmtDiff,
}

/// The exit status of a command, and the bytes that it writes to the two streams.
#[derive(Drop)]
pub struct Answer {
    pub status: u8,
    pub output: Vec<u8>,
    pub line: Vec<u8>,
}

impl Answer {
    /// Returns whether the status is this one and the command wrote only this text. If the status is above 1, the text
    /// is on standard error, otherwise on standard output.
    pub fn is(&self, status: u8, text: &str) -> bool {
        let (written, other) = if status < 2 {
            (&self.output, &self.line)
        } else {
            (&self.line, &self.output)
        };
        self.status == status && written.as_slice() == text.as_bytes() && other.is_empty()
    }
}

/// Returns the task of a command in a style.
pub fn task(alloc: Global, asked: Asked, style: &Style) -> Task {
    let work = match asked {
        Asked::Events => Work::Events,
        Asked::Check => Work::Check(Vec::new(alloc)),
        Asked::Fmt => Work::Print,
        Asked::FmtCheck => Work::Compare,
        Asked::FmtDiff => Work::Diff,
    };
    Task {
        work,
        style: *style,
        explain: false,
    }
}

/// Returns the formatting in a style as the new text of a file.
pub fn whole_text(style: &Style) -> GuardedText<'_> {
    GuardedText {
        any_text: false,
        new_text: NewText::Formatted(style),
    }
}

/// Runs a command on an input and returns the results.
pub fn answer_to(alloc: Global, asked: Asked, style: &Style, input: &[u8]) -> Answer {
    answer_to_task(alloc, &task(alloc, asked, style), input)
}

/// Does a task with an input and returns the results.
pub fn answer_to_task(alloc: Global, task: &Task, input: &[u8]) -> Answer {
    let mut streams = in_memory(alloc);
    let status = run(alloc, task, "-", &mut Watched::new(input), &mut streams);
    let Streams { output, errors } = streams;
    Answer {
        status,
        output: output.into_inner(),
        line: errors.into_inner(),
    }
}

/// A command, the settings, the input, the exit status, and the text that the command writes. If the status is above 1,
/// the text is on standard error, otherwise on standard output.
pub type Run<'a> = (Asked, &'a str, &'a str, u8, &'a str);

/// Returns whether a run has the results of the row.
pub fn is_run(alloc: Global, row: &Run) -> bool {
    let (asked, settings, input, status, text) = *row;
    match &style_from_toml(alloc, settings) {
        Ok(style) => answer_to(alloc, asked, style, input.as_bytes()).is(status, text),
        Err(fault) => status == 3 && reports(alloc, fault, 3, text),
    }
}

/// Runs a command in the house style with a reader and a writer. Returns the exit status, the writer, and the text on
/// standard error.
pub fn answer_over<R: Source, W: Sink>(
    alloc: Global,
    asked: Asked,
    reader: &mut R,
    writer: W,
) -> (u8, W, Vec<u8>) {
    let mut streams = Streams {
        output: writer,
        errors: Watched::new(Vec::new(alloc)),
    };
    let status = run(
        alloc,
        &task(alloc, asked, &Style::house()),
        "-",
        reader,
        &mut streams,
    );
    let Streams { output, errors } = streams;
    (status, output, errors.into_inner())
}

/// Returns whether a fault is reported with this status and this line.
pub fn reports(alloc: Global, fault: &Fault, status: u8, line: &str) -> bool {
    let mut stream = Watched::new(Vec::new(alloc));
    report(fault, &mut stream) == status && stream.get_ref().as_slice() == line.as_bytes()
}

/// Returns the reading of a text, without the properties that the contract states.
pub fn reading_of(alloc: Global, text: &str) -> Result<Reading<'_>, Fault> {
    read_stream(alloc, text)
}

/// Returns the formatting of a text in a style, without the properties that the contract states.
pub fn formatted(alloc: Global, text: &str, style: &Style) -> Result<String, Fault> {
    format(alloc, text, style)
}

/// A text, then a part and how often it is repeated, then another part and how often it is repeated.
pub type Repeated = (&'static str, &'static str, usize, &'static str, usize);

/// Returns these parts as one text.
pub fn repeated(alloc: Global, parts: &Repeated) -> Result<String, AllocError> {
    let mut text = String::from_str(alloc, parts.0)?;
    for _ in 0..parts.2 {
        text.push_str(parts.1)?;
    }
    for _ in 0..parts.4 {
        text.push_str(parts.3)?;
    }
    Ok(text)
}

/// Returns the words of a command line, which are separated by spaces.
pub fn words_of(alloc: Global, line: &str) -> Result<Vec<String>, AllocError> {
    let mut words = Vec::new(alloc);
    for word in line.split(' ') {
        if !word.is_empty() {
            words.push(String::from_str(alloc, word)?)?;
        }
    }
    Ok(words)
}

/// Returns whether work on files succeeded with the result `true`.
pub fn is_true(answer: &io::Result<bool>) -> bool {
    matches!(answer, Ok(true))
}
