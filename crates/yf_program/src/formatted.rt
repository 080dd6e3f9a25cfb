//! The works that show the formatting of a text, if the text is judged first. The text is read once.
ghost use Rattle.std.specs.Prelude.{◌≡◌, [], IfErr, IfOk};
ghost use Rattle.std.specs.Str.{IsUtf8};
ghost use Rattle.yf_guarded.specs.Formatted.{HasFormatting, verdict_of};
ghost use Rattle.yf_parts.specs.Shown.{IsShown, NotShown, ShowBroke};
ghost use Rattle.yf_program.specs.Answer.{RanShown, shown_work};
ghost use Rattle.yf_program.specs.Guarded.{DoneAsJudged, RanJudged, formatting_shown, held, prints_text};
ghost use Rattle.yf_rules.specs.Headline.{Headline};
ghost use Rattle.yf_rules.specs.Runs.ByteStream.{stream_of};

use crate::further::report_input;
use crate::judged::{do_encrypted, do_no_data};
use crate::task::{Task, Work};
use std::alloc::Global;
use yf_command_line::command::Input;
use yf_guarded::formatting::{JudgedFormatting, read_judged_formatting};
use yf_host::report::{FINDINGS, GOOD};
use yf_host::streams::Streams;
use yf_lines::fault::Fault;
use yf_lines::watched::{Sink, Source};
use yf_parts::show::{Show, show_part};
use yf_rules::input::text_of;

/// Returns how the work shows the formatting of the whole text of an input. Returns `None` if it doesn't, or if the text
/// is not read before the work.
pub fn formatting_shown(work: &Work, input: &Input) -> Option<Show>
    ensures { result ≡ formatting_shown work.now input.now }
{
    match work {
        Work::Events => None,
        Work::Check(_) => None,
        Work::Print => text_of_standard(input),
        Work::Compare => Some(Show::Place),
        Work::Diff => Some(Show::Diff),
        Work::Part(_) => None,
    }
}

// Returns how the text of standard input is shown. The text of a file is not read before it is formatted.
fn text_of_standard(input: &Input) -> Option<Show>
    ensures { result ≡ formatting_shown Work.Print input.now }
{
    match input {
        Input::Standard => Some(Show::Text),
        Input::File(_) => None,
    }
}

/// Shows the formatting of the text of a reader. If the text is no data, the run says so. Returns the status.
pub fn show_past<R: Source, W: Sink, E: Sink>(
    alloc: Global,
    task: &Task,
    show: Show,
    name: &str,
    reader: &mut R,
    streams: &mut Streams<W, E>,
) -> u8
    ensures { RanJudged (shown_work show name.now task.now) result (stream_of R.remaining R.has_failed reader.old)
        (stream_of R.remaining R.has_failed reader.new) streams.old streams.new }
{
    let mut bytes = Vec::new(alloc);
    match read_judged_formatting(alloc, &task.style, reader, &mut bytes) {
        Ok(judged) => show_judged(alloc, task, show, name, &judged, bytes.as_slice(), streams),
        Err(fault) => report_input(
            alloc,
            task.explain,
            bytes.as_slice(),
            fault,
            &mut streams.errors,
        ),
    }
}

// Shows the formatting of a text that passes, or says that the text is no data. Returns the status.
fn show_judged<W: Sink, E: Sink>(
    alloc: Global,
    task: &Task,
    show: Show,
    name: &str,
    judged: &JudgedFormatting,
    bytes: &[u8],
    streams: &mut Streams<W, E>,
) -> u8
    requires { HasFormatting task.now.style bytes.now judged.now }
    ensures { DoneAsJudged (prints_text task.now.work) (RanShown show name.now task.now) (verdict_of judged.now)
        bytes.now result streams.old streams.new }
{
    match judged {
        JudgedFormatting::Passed(formatted) => {
            let formatted = formatted.as_str();
            show_formatting(alloc, task, show, name, formatted, bytes, streams)
        }
        JudgedFormatting::Encrypted => do_encrypted(task, bytes, streams),
        JudgedFormatting::NoData(finding) => do_no_data(task, finding, bytes, streams),
    }
}

// Shows the formatting of a text, and returns the status.
fn show_formatting<W: Sink, E: Sink>(
    alloc: Global,
    task: &Task,
    show: Show,
    name: &str,
    formatted: &str,
    bytes: &[u8],
    streams: &mut Streams<W, E>,
) -> u8
    requires { Headline bytes.now task.now.style formatted.now }
    ensures { RanShown show name.now task.now result (held bytes.now) (held []) streams.old streams.new }
{
    match show_bytes(alloc, show, name, bytes, formatted, &mut streams.output) {
        Ok(true) => GOOD,
        Ok(false) => FINDINGS,
        Err(fault) => report_input(alloc, task.explain, bytes, fault, &mut streams.errors),
    }
}

// Shows another text instead of the text with these bytes, as `show_part` does.
fn show_bytes<W: Sink>(
    alloc: Global,
    show: Show,
    name: &str,
    bytes: &[u8],
    formatted: &str,
    writer: &mut W,
) -> Result<bool, Fault>
    requires { IsUtf8 bytes.now }
    ensures shown { IfOk result (IsShown show name.now bytes.now formatted.now
        (stream_of W.contents W.has_failed writer.old) (stream_of W.contents W.has_failed writer.new)) }
    ensures refused { IfErr result (NotShown
        (ShowBroke show name.now bytes.now formatted.now (stream_of W.contents W.has_failed writer.old)
        (stream_of W.contents W.has_failed writer.new))
        (stream_of W.contents W.has_failed writer.old) (stream_of W.contents W.has_failed writer.new)) }
{
    match text_of(bytes) {
        Ok(text) => show_part(alloc, show, name, text, formatted, writer),
        Err(fault) => Err(fault),
    }
}
