//! What is done with a reader of an input. The text of an input with a name is judged first: if it is no data, the run
//! says so.
ghost use Rattle.std.specs.Prelude.{◌≡◌, ◌&&◌, None, is_some, not, option_map};
ghost use Rattle.yf_host.specs.Ends.{AreTold};
ghost use Rattle.yf_program.specs.Answer.{Ran, RanCheckJudged, RanLeftOut, RanPast, RanWork, name_of};
ghost use Rattle.yf_program.specs.Guarded.{DoneAsJudged, DoneUnpassed, ShowsFinding, TellsLeft, is_judged, is_standard};
ghost use Rattle.yf_program.specs.Guarded.{left_line_of, names_without, prints_text, reads_first, shows_changes};
ghost use Rattle.yf_guard.specs.declared.guarded.Guarded.TheVariants.{Vault};
ghost use Rattle.yf_rules.specs.Runs.ByteStream.{stream_of};

use crate::each::name_of;
use crate::formatted::{formatting_shown, show_past};
use crate::further::{report_input, tell_findings};
use crate::program::run;
use crate::scope::{Scope, left_out_line};
use crate::task::{Task, Work};
use std::alloc::Global;
use yf_command_line::command::Input;
use yf_guard::guarded::Guarded;
use yf_guarded::check::run_check_judged;
use yf_guarded::held::Held;
use yf_guarded::lines::write_finding;
use yf_guarded::read::{Verdict, read_judged, read_text};
use yf_host::left_alone::{line_of, report_left};
use yf_host::memory::tell;
use yf_host::report::{FINDINGS, GOOD, report};
use yf_host::streams::Streams;
use yf_lines::text::OwnedText;
use yf_lines::watched::{Sink, Source};
use yf_parts::show::Show;
use yf_rules::finding::Finding;

/// Does a task with a reader of an input, and returns the status. If the input has a name, its text is judged first,
/// unless the run takes any text.
pub fn run_judged<R: Source, W: Sink, E: Sink>(
    alloc: Global,
    task: &Task,
    scope: &Scope,
    input: &Input,
    reader: &mut R,
    streams: &mut Streams<W, E>,
) -> u8
    ensures { Ran scope.now input.now task.now result (stream_of R.remaining R.has_failed reader.old)
        (stream_of R.remaining R.has_failed reader.new) streams.old streams.new }
{
    if is_judged(scope, input) {
        return run_past(alloc, task, scope, input, reader, streams);
    }
    run(alloc, task, name_of(scope, input), reader, streams)
}

/// Returns whether the text of an input is judged first.
pub fn is_judged(scope: &Scope, input: &Input) -> bool
    ensures { result ≡ is_judged scope.now input.now }
{
    match input {
        Input::Standard => is_standard_judged(scope),
        Input::File(_) => !scope.any_text,
    }
}

// Returns whether the text of standard input is judged first.
fn is_standard_judged(scope: &Scope) -> bool
    ensures { result ≡ not scope.now.any_text && is_some scope.now.stdin_name }
{
    !scope.any_text && scope.stdin_name.is_some()
}

// Does a task with a reader of an input, and judges the text of the input first.
fn run_past<R: Source, W: Sink, E: Sink>(
    alloc: Global,
    task: &Task,
    scope: &Scope,
    input: &Input,
    reader: &mut R,
    streams: &mut Streams<W, E>,
) -> u8
    ensures { RanPast (names_without task.now.work) scope.now input.now task.now result
        (stream_of R.remaining R.has_failed reader.old)
        (stream_of R.remaining R.has_failed reader.new) streams.old streams.new }
{
    match names_without(&task.work) {
        Some(without) => check_past(alloc, task, without, reader, streams),
        None => work_past(alloc, task, scope, input, reader, streams),
    }
}

// Returns the names of the rules to leave out, if the work is a check.
fn names_without(work: &Work) -> Option<&[OwnedText]>
    ensures { option_map (λ names. names.now) result ≡ names_without work.now }
{
    match work {
        Work::Check(without) => Some(without.as_slice()),
        Work::Events => None,
        Work::Print => None,
        Work::Compare => None,
        Work::Diff => None,
        Work::Part(_) => None,
    }
}

/// Returns whether a work prints a text in the house style.
pub fn prints_text(work: &Work) -> bool
    ensures { result ≡ prints_text work.now }
{
    match work {
        Work::Events => false,
        Work::Check(_) => false,
        Work::Print => true,
        Work::Compare => false,
        Work::Diff => false,
        Work::Part(part) => !shows_changes(part.show),
    }
}

// Returns whether an input is standard input.
fn is_standard(input: &Input) -> bool
    ensures { result ≡ is_standard input.now }
{
    match input {
        Input::Standard => true,
        Input::File(_) => false,
    }
}

// Returns whether a text is read before the work.
fn reads_first(work: &Work, input: &Input) -> bool
    ensures { result ≡ reads_first work.now input.now }
{
    match work {
        Work::Events => false,
        Work::Check(_) => true,
        Work::Print => is_standard(input),
        Work::Compare => true,
        Work::Diff => true,
        Work::Part(part) => shows_changes(part.show) || is_standard(input),
    }
}

fn shows_changes(show: Show) -> bool
    ensures { result ≡ shows_changes show }
{
    match show {
        Show::Text => false,
        Show::Place => true,
        Show::Diff => true,
    }
}

// Does a work that is no check with a reader of an input. A text that is no data gets a line, and the work is not done.
fn work_past<R: Source, W: Sink, E: Sink>(
    alloc: Global,
    task: &Task,
    scope: &Scope,
    input: &Input,
    reader: &mut R,
    streams: &mut Streams<W, E>,
) -> u8
    ensures { RanPast None scope.now input.now task.now result (stream_of R.remaining R.has_failed reader.old)
        (stream_of R.remaining R.has_failed reader.new) streams.old streams.new }
{
    match formatting_shown(&task.work, input) {
        Some(show) => {
            let name = name_of(scope, input);
            show_past(alloc, task, show, name, reader, streams)
        }
        None => judge_past(alloc, task, scope, input, reader, streams),
    }
}

// Does a work as `work_past` does. If the text passes, the work reads it itself.
fn judge_past<R: Source, W: Sink, E: Sink>(
    alloc: Global,
    task: &Task,
    scope: &Scope,
    input: &Input,
    reader: &mut R,
    streams: &mut Streams<W, E>,
) -> u8
    ensures { RanPast None scope.now input.now task.now result (stream_of R.remaining R.has_failed reader.old)
        (stream_of R.remaining R.has_failed reader.new) streams.old streams.new }
{
    let mut bytes = Vec::new(alloc);
    let reads = reads_first(&task.work, input);
    let name = name_of(scope, input);
    match read_judged(alloc, reads, reader, &mut bytes) {
        Ok(verdict) => do_as_judged(alloc, task, name, &verdict, bytes.as_slice(), streams),
        Err(fault) => report_input(
            alloc,
            task.explain,
            bytes.as_slice(),
            fault,
            &mut streams.errors,
        ),
    }
}

// Does a work with a text, or says why it isn't done.
fn do_as_judged<W: Sink, E: Sink>(
    alloc: Global,
    task: &Task,
    name: &str,
    verdict: &Verdict,
    bytes: &[u8],
    streams: &mut Streams<W, E>,
) -> u8
    ensures { DoneAsJudged (prints_text task.now.work) (RanWork task.now.work name.now task.now) verdict.now bytes.now
        result streams.old streams.new }
{
    match verdict {
        Verdict::Passed => {
            let mut held = Held { rest: bytes };
            run(alloc, task, name, &mut held, streams)
        }
        Verdict::Encrypted => do_encrypted(task, bytes, streams),
        Verdict::NoData(finding) => do_no_data(task, finding, bytes, streams),
    }
}

/// Says that a text is encrypted, and prints it as it is if the work prints texts. Returns the status.
pub fn do_encrypted<W: Sink, E: Sink>(task: &Task, bytes: &[u8], streams: &mut Streams<W, E>) -> u8
    ensures { DoneUnpassed (prints_text task.now.work) Verdict.Encrypted bytes.now result streams.old streams.new }
{
    let prints = prints_text(&task.work);
    if prints {
        return tell(GOOD, bytes, line_of(Guarded::Vault).as_bytes(), streams);
    }
    tell_left(streams)
}

/// Says that a text is no data, and prints it as it is if the work prints texts. Returns the status.
pub fn do_no_data<W: Sink, E: Sink>(
    task: &Task,
    finding: &Finding,
    bytes: &[u8],
    streams: &mut Streams<W, E>,
) -> u8
    ensures { DoneUnpassed (prints_text task.now.work) (Verdict.NoData finding.now) bytes.now result streams.old
        streams.new }
{
    let prints = prints_text(&task.work);
    if prints {
        return tell(FINDINGS, bytes, left_line_of(finding).as_bytes(), streams);
    }
    show_finding(finding, streams)
}

// Returns the line of a finding of the guard.
fn left_line_of(finding: &Finding) -> &'static str
    ensures { result.now ≡ left_line_of finding.now }
{
    if finding.id == "template" {
        return "left alone: template\n";
    }
    "left alone: no data\n"
}

/// Prints the text of a reader as it is, for an input that the settings leave out. Returns the status.
pub fn copy_text<R: Source, W: Sink, E: Sink>(
    alloc: Global,
    task: &Task,
    reader: &mut R,
    streams: &mut Streams<W, E>,
) -> u8
    ensures { RanLeftOut task.now result (stream_of R.remaining R.has_failed reader.old)
        (stream_of R.remaining R.has_failed reader.new) streams.old streams.new }
{
    let mut bytes = Vec::new(alloc);
    let line = left_out_line(task.explain);
    match read_text(alloc, reader, &mut bytes) {
        Ok(()) => tell(GOOD, bytes.as_slice(), line.as_bytes(), streams),
        Err(fault) => report_input(
            alloc,
            task.explain,
            bytes.as_slice(),
            fault,
            &mut streams.errors,
        ),
    }
}

// Says that a file is encrypted, and returns the status.
fn tell_left<W: Sink, E: Sink>(streams: &mut Streams<W, E>) -> u8
    ensures { TellsLeft Vault result streams.old streams.new }
{
    report_left(Guarded::Vault, &mut streams.errors)
}

// Writes the line of a finding, and returns the status.
fn show_finding<W: Sink, E: Sink>(finding: &Finding, streams: &mut Streams<W, E>) -> u8
    ensures { ShowsFinding finding.now result streams.old streams.new }
{
    match write_finding(finding, &mut streams.output) {
        Ok(()) => FINDINGS,
        Err(fault) => report(&fault, &mut streams.errors),
    }
}

// Prints the findings of all rules except those with these names, and why the text is no data. Returns the status.
fn check_past<R: Source, W: Sink, E: Sink>(
    alloc: Global,
    task: &Task,
    without: &[OwnedText],
    reader: &mut R,
    streams: &mut Streams<W, E>,
) -> u8
    ensures { RanCheckJudged without.now task.now result (stream_of R.remaining R.has_failed reader.old)
        (stream_of R.remaining R.has_failed reader.new) streams.old streams.new }
{
    let mut bytes = Vec::new(alloc);
    let mut found = Vec::new(alloc);
    match run_check_judged(
        alloc,
        without,
        reader,
        &mut bytes,
        &mut found,
        &mut streams.output,
        &task.style,
    ) {
        Ok(None) => report_left(Guarded::Vault, &mut streams.errors),
        Ok(Some(false)) => GOOD,
        Ok(Some(true)) => {
            tell_findings(
                alloc,
                task.explain,
                bytes.as_slice(),
                found.as_slice(),
                &task.style,
                &mut streams.errors,
            );
            FINDINGS
        }
        Err(fault) => report_input(
            alloc,
            task.explain,
            bytes.as_slice(),
            fault,
            &mut streams.errors,
        ),
    }
}
