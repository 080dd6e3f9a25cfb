//! The problems of an input, for a report.
ghost use Rattle.std.specs.Prelude.{◌≡◌, [], IfOk, OnErr, Some, option_map};
ghost use Rattle.yf_command_line.specs.declared.command.Input.TheVariants.{File};
ghost use Rattle.yf_findings.specs.Refusals.{RefusalProblem};
ghost use Rattle.yf_host.specs.Ends.{AnyLines, EndsTold};
ghost use Rattle.yf_program.specs.Reports.{AddsFile, GivesInput, GivesScoped, IsOnly, StopsAt, state_in};
ghost use Rattle.yf_host.specs.World.{StillKnown};
ghost use Rattle.yf_rules.specs.Runs.ByteStream.{NothingWritten, stream_of};

use crate::further::report_file;
use crate::judged::is_judged;
use crate::report_texts::{add_refusal, give_reader};
use crate::report_work::ReportWork;
use crate::scope::{Scope, is_left_out, tell_left_out};
use std::alloc::{AllocError, Global};
use yf_command_line::command::Input;
use yf_findings::files::FileProblems;
use yf_findings::printed::Form;
use yf_forms::style::Style;
use yf_host::inputs::Inputs;
use yf_host::report::GOOD;
use yf_lines::fault::Fault;
use yf_lines::watched::Sink;

/// How inputs are checked for a report.
#[derive(Drop)]
pub struct ReportTask {
    /// The work on each text.
    pub work: ReportWork,
    /// The style in which the inputs are checked.
    pub style: Style,
    /// The form of the report.
    pub form: Form,
    /// The greatest number of problems in the report. Without it there is no limit.
    pub limit: Option<usize>,
    /// Whether each fault is explained.
    pub explain: bool,
    /// Whether a line reports each input that the settings leave out.
    pub tells_left_out: bool,
}

/// Checks an input, unless the settings leave it out. Adds its problems, and returns its status.
pub fn give_scoped<I: Inputs, E: Sink>(
    alloc: Global,
    task: &ReportTask,
    scope: &Scope,
    input: &Input,
    inputs: &mut I,
    files: &mut Vec<FileProblems>,
    error_stream: &mut E,
) -> Result<u8, AllocError>
    ensures gives { IfOk result (λ status. GivesScoped (I.claim inputs.old) scope.now task.now input.now status
        (state_in I.opened inputs.old files.old.items (stream_of E.contents E.has_failed error_stream.old))
        (state_in I.opened inputs.new files.new.items (stream_of E.contents E.has_failed error_stream.new))) }
    ensures same { StillKnown (I.claim inputs.old) (I.claim inputs.new) }
    ensures gives_up { OnErr result (StopsAt (I.claim inputs.old) input.now
        (state_in I.opened inputs.old files.old.items (stream_of E.contents E.has_failed error_stream.old))
        (state_in I.opened inputs.new files.new.items (stream_of E.contents E.has_failed error_stream.new))) }
{
    match is_left_out(alloc, scope, input) {
        Ok(true) => {
            tell_left_out(task.tells_left_out, error_stream);
            Ok(GOOD)
        }
        Ok(false) => give_input(alloc, task, scope, input, inputs, files, error_stream),
        Err(AllocError) => Err(AllocError),
    }
}

// Checks an input. Adds its problems, and returns its status.
fn give_input<I: Inputs, E: Sink>(
    alloc: Global,
    task: &ReportTask,
    scope: &Scope,
    input: &Input,
    inputs: &mut I,
    files: &mut Vec<FileProblems>,
    error_stream: &mut E,
) -> Result<u8, AllocError>
    ensures gives { IfOk result (λ status. GivesInput (I.claim inputs.old) scope.now task.now input.now status
        (state_in I.opened inputs.old files.old.items (stream_of E.contents E.has_failed error_stream.old))
        (state_in I.opened inputs.new files.new.items (stream_of E.contents E.has_failed error_stream.new))) }
    ensures same { StillKnown (I.claim inputs.old) (I.claim inputs.new) }
    ensures gives_up { OnErr result (StopsAt (I.claim inputs.old) input.now
        (state_in I.opened inputs.old files.old.items (stream_of E.contents E.has_failed error_stream.old))
        (state_in I.opened inputs.new files.new.items (stream_of E.contents E.has_failed error_stream.new))) }
{
    match input {
        Input::Standard => {
            let judges = is_judged(scope, input);
            let name = standard_name(scope);
            let mut reader = inputs.open_standard();
            give_reader(alloc, task, judges, name, &mut reader, files, error_stream)
        }
        Input::File(name) => {
            give_file(
                alloc,
                task,
                scope,
                name.as_str(),
                inputs,
                files,
                error_stream,
            )
        }
    }
}

// Returns the name of standard input, if the command line gives one.
fn standard_name(scope: &Scope) -> Option<&str>
    ensures { option_map (λ n. n.now) result ≡ scope.now.stdin_name }
{
    match &scope.stdin_name {
        Some(name) => Some(name.as_str()),
        None => None,
    }
}

// Checks the file with this name. Adds its problems, and returns its status.
fn give_file<I: Inputs, E: Sink>(
    alloc: Global,
    task: &ReportTask,
    scope: &Scope,
    name: &str,
    inputs: &mut I,
    files: &mut Vec<FileProblems>,
    error_stream: &mut E,
) -> Result<u8, AllocError>
    ensures gives { IfOk result (λ status. GivesInput (I.claim inputs.old) scope.now task.now (File name.now) status
        (state_in I.opened inputs.old files.old.items (stream_of E.contents E.has_failed error_stream.old))
        (state_in I.opened inputs.new files.new.items (stream_of E.contents E.has_failed error_stream.new))) }
    ensures same { StillKnown (I.claim inputs.old) (I.claim inputs.new) }
    ensures gives_up { OnErr result (StopsAt (I.claim inputs.old) (File name.now)
        (state_in I.opened inputs.old files.old.items (stream_of E.contents E.has_failed error_stream.old))
        (state_in I.opened inputs.new files.new.items (stream_of E.contents E.has_failed error_stream.new))) }
{
    let judges = !scope.any_text;
    match inputs.open_file(name) {
        Ok(mut reader) => {
            give_reader(
                alloc,
                task,
                judges,
                Some(name),
                &mut reader,
                files,
                error_stream,
            )
        }
        Err(fault) => give_unopened(alloc, task, name, &fault, &*inputs, files, error_stream),
    }
}

// Adds the problem of a file that can't be opened, reports it, and returns its status.
fn give_unopened<I: Inputs, E: Sink>(
    alloc: Global,
    task: &ReportTask,
    name: &str,
    fault: &Fault,
    inputs: &I,
    files: &mut Vec<FileProblems>,
    error_stream: &mut E,
) -> Result<u8, AllocError>
    ensures gives { IfOk result (λ status. AddsFile (Some name.now) (IsOnly (RefusalProblem [] fault.now))
        files.old.items files.new.items × EndsTold task.now.explain AnyLines fault.now status
        (stream_of E.contents E.has_failed error_stream.old) (stream_of E.contents E.has_failed error_stream.new)) }
    ensures gives_up { OnErr result (NothingWritten (stream_of E.contents E.has_failed error_stream.old)
        (stream_of E.contents E.has_failed error_stream.new)) }
{
    match add_refusal(alloc, Some(name), &[], fault, files) {
        Ok(()) => Ok(report_file(alloc, task.explain, inputs, name, fault, error_stream)),
        Err(AllocError) => Err(AllocError),
    }
}
