//! The work on a reader of an input, over any reader and any two streams; and the beginning and the end of a run.
ghost use Rattle.std.specs.Prelude.{◌≡◌, true, IfErr, IfOk, IfSome, MatchResult, OnOk};
ghost use Rattle.yf_rules.specs.Runs.ByteStream.{stream_of};
ghost use Rattle.yf_rules.specs.Runs.Compare.{IsClean};
ghost use Rattle.yf_rules.specs.Runs.Diffed.{DiffRun, RefusedDiff};
ghost use Rattle.yf_rules.specs.Runs.Run.{Gave, Keeps};
ghost use Rattle.yf_program.specs.SettingsFile.{FileRefused, FileSets};
ghost use Rattle.yf_program.specs.Answer.{RanCheck, RanEvents, RanFmt, RanFmtCheck, RanFmtDiff, RanWork, UsageWritten, WrittenOut};
ghost use Rattle.yf_rules.specs.Quoted.{quoted};

use crate::further::{report_input, tell_findings};
use crate::parts::run_lines;
use crate::task::{Task, Work};
use std::alloc::Global;
use yf_chars::utf8::check_utf8;
use yf_command_line::usage::Usage;
use yf_forms::style::Style;
use yf_host::report::{FINDINGS, GOOD, report};
use yf_host::streams::Streams;
use yf_lines::fault::Fault;
use yf_lines::output::write_text;
use yf_lines::text::OwnedText;
use yf_lines::watched::{Sink, Source};
use yf_rules::compare::run_fmt_check;
use yf_rules::diff::run_fmt_diff;
use yf_rules::input::read_all;
use yf_rules::quoted::quoted;
use yf_rules::run::{INPUT_LIMIT, run_check_all, run_events, run_fmt};
use yf_settings::file_settings::{FileSettings, settings_from_toml};
use yf_settings::settings::no_key;

/// The status if the words on the command line are refused.
const USAGE: u8 = 3;

/// Does a task with a reader of the input with this name. Returns the status of the run, or that of the fault that was
/// reported on the stream of faults.
pub fn run<R: Source, W: Sink, E: Sink>(
    alloc: Global,
    task: &Task,
    name: &str,
    reader: &mut R,
    streams: &mut Streams<W, E>,
) -> u8
    ensures { RanWork task.now.work name.now task.now result (stream_of R.remaining R.has_failed reader.old)
        (stream_of R.remaining R.has_failed reader.new) streams.old streams.new }
{
    match &task.work {
        Work::Events => run_reader(alloc, task, reader, streams),
        Work::Check(without) => run_checker(alloc, task, without, reader, streams),
        Work::Print => run_writer(alloc, task, reader, streams),
        Work::Compare => run_comparer(alloc, task, reader, streams),
        Work::Diff => run_differ(alloc, task, name, reader, streams),
        Work::Part(part) => run_lines(alloc, task, part, name, reader, streams),
    }
}

// Prints the events, and returns the status.
fn run_reader<R: Source, W: Sink, E: Sink>(
    alloc: Global,
    task: &Task,
    reader: &mut R,
    streams: &mut Streams<W, E>,
) -> u8
    ensures { RanEvents task.now result (stream_of R.remaining R.has_failed reader.old)
        (stream_of R.remaining R.has_failed reader.new) streams.old streams.new }
{
    let mut bytes = Vec::new(alloc);
    match run_events(alloc, reader, &mut bytes, &mut streams.output) {
        Ok(()) => GOOD,
        Err(fault) => report_input(
            alloc,
            task.explain,
            bytes.as_slice(),
            fault,
            &mut streams.errors,
        ),
    }
}

// Prints the findings of all rules except those with these names, and returns the status.
fn run_checker<R: Source, W: Sink, E: Sink>(
    alloc: Global,
    task: &Task,
    without: &Vec<OwnedText>,
    reader: &mut R,
    streams: &mut Streams<W, E>,
) -> u8
    ensures { RanCheck without.now.items task.now result (stream_of R.remaining R.has_failed reader.old)
        (stream_of R.remaining R.has_failed reader.new) streams.old streams.new }
{
    let mut bytes = Vec::new(alloc);
    let mut found = Vec::new(alloc);
    match run_check_all(
        alloc,
        without.as_slice(),
        reader,
        &mut bytes,
        &mut found,
        &mut streams.output,
        &task.style,
    ) {
        Ok(false) => GOOD,
        Ok(true) => {
            tell_findings(
                alloc,
                task.explain,
                bytes.as_slice(),
                found.as_slice(),
                &task.style,
                &mut streams.errors,
            );
            FINDINGS
        }
        Err(fault) => report_input(
            alloc,
            task.explain,
            bytes.as_slice(),
            fault,
            &mut streams.errors,
        ),
    }
}

// Prints what formatting changes, with the name of the input, and returns the status.
fn run_differ<R: Source, W: Sink, E: Sink>(
    alloc: Global,
    task: &Task,
    name: &str,
    reader: &mut R,
    streams: &mut Streams<W, E>,
) -> u8
    ensures { RanFmtDiff name.now task.now result (stream_of R.remaining R.has_failed reader.old)
        (stream_of R.remaining R.has_failed reader.new) streams.old streams.new }
{
    let mut bytes = Vec::new(alloc);
    match print_diff(
        alloc,
        name,
        reader,
        &mut bytes,
        &mut streams.output,
        &task.style,
    ) {
        Ok(true) => GOOD,
        Ok(false) => FINDINGS,
        Err(fault) => report_input(
            alloc,
            task.explain,
            bytes.as_slice(),
            fault,
            &mut streams.errors,
        ),
    }
}

// Prints what formatting changes, with the name of the input in its heads, and returns whether that is nothing.
fn print_diff<R: Source, W: Sink>(
    alloc: Global,
    name: &str,
    reader: &mut R,
    kept: &mut Vec<u8>,
    writer: &mut W,
    style: &Style,
) -> Result<bool, Fault>
    ensures diffed { IfOk result (λ same. DiffRun style.now (quoted name.now)
        (stream_of R.remaining R.has_failed reader.old)
        (stream_of W.contents W.has_failed writer.old) (stream_of W.contents W.has_failed writer.new) same) }
    ensures clean { IfOk result (λ same. same ≡ true → IfSome (R.remaining reader.old) (IsClean style.now)) }
    ensures reader { OnOk result (R.has_failed reader.new ≡ R.has_failed reader.old) }
    ensures bytes { MatchResult result (λ _. Gave (R.remaining reader.old) kept.new.items)
        (Keeps (R.remaining reader.old) kept.new.items) }
    ensures refusals { IfErr result (λ fault. RefusedDiff style.now (quoted name.now)
        (stream_of R.remaining R.has_failed reader.old) (stream_of R.remaining R.has_failed reader.new)
        (stream_of W.contents W.has_failed writer.old) (stream_of W.contents W.has_failed writer.new) fault) }
{
    let quoted = match quoted(alloc, name) {
        Ok(quoted) => quoted,
        Err(_) => return Err(Fault::Memory),
    };
    match check_utf8(quoted.as_slice()) {
        Ok(name) => run_fmt_diff(alloc, name, reader, kept, writer, style),
        Err(_) => Err(Fault::Memory),
    }
}

// Prints whether formatting is needed, and returns the status.
fn run_comparer<R: Source, W: Sink, E: Sink>(
    alloc: Global,
    task: &Task,
    reader: &mut R,
    streams: &mut Streams<W, E>,
) -> u8
    ensures { RanFmtCheck task.now result (stream_of R.remaining R.has_failed reader.old)
        (stream_of R.remaining R.has_failed reader.new) streams.old streams.new }
{
    let mut bytes = Vec::new(alloc);
    match run_fmt_check(alloc, reader, &mut bytes, &mut streams.output, &task.style) {
        Ok(true) => GOOD,
        Ok(false) => FINDINGS,
        Err(fault) => report_input(
            alloc,
            task.explain,
            bytes.as_slice(),
            fault,
            &mut streams.errors,
        ),
    }
}

// Formats, and returns the status.
fn run_writer<R: Source, W: Sink, E: Sink>(
    alloc: Global,
    task: &Task,
    reader: &mut R,
    streams: &mut Streams<W, E>,
) -> u8
    ensures { RanFmt task.now result (stream_of R.remaining R.has_failed reader.old)
        (stream_of R.remaining R.has_failed reader.new) streams.old streams.new }
{
    let mut bytes = Vec::new(alloc);
    match run_fmt(alloc, reader, &mut bytes, &mut streams.output, &task.style) {
        Ok(()) => GOOD,
        Err(fault) => report_input(
            alloc,
            task.explain,
            bytes.as_slice(),
            fault,
            &mut streams.errors,
        ),
    }
}

/// Writes out the bytes that the writer holds back, unless it has failed, which was reported. Returns the status of the
/// run, or that of a write that fails and was reported on the stream of faults.
pub fn written_out<W: Sink, E: Sink>(status: u8, streams: &mut Streams<W, E>) -> u8
    ensures { WrittenOut status result streams.old streams.new }
{
    if streams.output.failed() {
        return status;
    }
    match streams.output.flush_watched() {
        Ok(()) => status,
        Err(_) => report(&Fault::WriteFailed, &mut streams.errors),
    }
}

/// Returns the settings that a settings file has, and keeps the bytes of the file. Fails with `Fault::Config` and an
/// empty key if the bytes are not UTF-8.
pub fn read_settings<R: Source>(
    alloc: Global,
    reader: &mut R,
    kept: &mut Vec<u8>,
) -> Result<FileSettings, Fault>
    ensures { MatchResult result (λ settings. FileSets (R.remaining reader.old) settings)
        (λ fault. FileRefused (stream_of R.remaining R.has_failed reader.old)
        (stream_of R.remaining R.has_failed reader.new) fault) }
{
    let bytes = read_all(alloc, reader, INPUT_LIMIT)?;
    *kept = bytes;
    let text = match check_utf8(kept.as_slice()) {
        Ok(text) => text,
        Err(_) => return Err(no_key(alloc)),
    };
    match settings_from_toml(alloc, text) {
        Ok(settings) => Ok(settings),
        Err(fault) => Err(fault),
    }
}

/// Writes help to the writer, or why words are refused to the stream of faults, and returns the status.
pub fn answer_usage<W: Sink, E: Sink>(usage: &Usage, streams: &mut Streams<W, E>) -> u8
    ensures { UsageWritten usage.now result streams.old streams.new }
{
    match usage {
        Usage::Help(text) => match write_text(&mut streams.output, text.as_str().as_bytes()) {
            Ok(()) => GOOD,
            Err(fault) => report(&fault, &mut streams.errors),
        },
        Usage::Wrong(text) => {
            let _ = write_text(&mut streams.errors, text.as_str().as_bytes());
            USAGE
        }
        Usage::Memory => report(&Fault::Memory, &mut streams.errors),
    }
}
