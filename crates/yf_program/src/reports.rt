//! A check whose problems are printed as one report of all inputs.
ghost use Rattle.yf_command_line.specs.Requests.{all_inputs};
ghost use Rattle.yf_program.specs.Answer.{host_in};
ghost use Rattle.yf_program.specs.Reports.{DoesReport, EndsReport, GaveUp, GivesAll, GivesEach, GivesNamed};
ghost use Rattle.yf_program.specs.Reports.{ReportWritten, StopsAt, state_in};
ghost use Rattle.yf_host.specs.World.{StillKnown, world_in};
ghost use Rattle.yf_rules.specs.Runs.ByteStream.{stream_of};
ghost use Rattle.std.specs.Prelude.{IfOk, OnErr};

use crate::each::name_of;
use crate::left_over::{cut_to_limit, tell_left_over};
use crate::report_inputs::{ReportTask, give_scoped};
use crate::scope::Scope;
use std::alloc::{AllocError, Global};
use yf_command_line::command::{Input, InputList};
use yf_findings::files::FileProblems;
use yf_findings::printed::printed;
use yf_host::files::Links;
use yf_host::inputs::Inputs;
use yf_host::memory::tell_errors;
use yf_host::report::report;
use yf_host::sources::Sources;
use yf_host::streams::{Streams, stream_in_memory};
use yf_lines::fault::Fault;
use yf_lines::output::write_text;
use yf_lines::watched::Sink;

/// Checks all inputs that are not left out, writes one report of their problems, and returns the greatest status.
///
/// The line of each refusal is written to the stream of faults too, with the name of its input if there are several.
pub fn report_inputs<I: Inputs, S: Links, W: Sink, E: Sink>(
    alloc: Global,
    task: &ReportTask,
    scope: &Scope,
    list: &InputList,
    sources: &mut Sources<I, S>,
    streams: &mut Streams<W, E>,
) -> u8
    ensures { DoesReport (host_in I.claim S.tells S.state S.leads sources.old) scope.now task.now (all_inputs list.now)
        result (world_in I.opened sources.old streams.old) (world_in I.opened sources.new streams.new) }
{
    let mut files = Vec::new(alloc);
    match give_all(
        alloc,
        task,
        scope,
        list,
        &mut sources.inputs,
        &mut files,
        &mut streams.errors,
    ) {
        Ok(status) => write_report(alloc, task, files, status, streams),
        Err(AllocError) => report(&Fault::Memory, &mut streams.errors),
    }
}

// Writes the report of these files, and before it how many problems the limit leaves out. Returns the status.
fn write_report<W: Sink, E: Sink>(
    alloc: Global,
    task: &ReportTask,
    files: Vec<FileProblems>,
    status: u8,
    streams: &mut Streams<W, E>,
) -> u8
    ensures { ReportWritten task.now files.items status result streams.old streams.new }
{
    let mut shown = files;
    let count = match cut_to_limit(task.limit, &mut shown) {
        Ok(count) => count,
        Err(AllocError) => return report(&Fault::Memory, &mut streams.errors),
    };
    match printed(alloc, task.form, shown.as_slice()) {
        Ok(bytes) => {
            tell_left_over(count, &mut streams.errors);
            end_report(bytes.as_slice(), status, streams)
        }
        Err(AllocError) => report(&Fault::Memory, &mut streams.errors),
    }
}

// Writes a report, and returns the status.
fn end_report<W: Sink, E: Sink>(bytes: &[u8], status: u8, streams: &mut Streams<W, E>) -> u8
    ensures { EndsReport bytes.now status result streams.old streams.new }
{
    match write_text(&mut streams.output, bytes) {
        Ok(()) => status,
        Err(fault) => report(&fault, &mut streams.errors),
    }
}

// Checks the only input, or each of several, and returns the greatest status.
fn give_all<I: Inputs, E: Sink>(
    alloc: Global,
    task: &ReportTask,
    scope: &Scope,
    list: &InputList,
    inputs: &mut I,
    files: &mut Vec<FileProblems>,
    error_stream: &mut E,
) -> Result<u8, AllocError>
    ensures gives { IfOk result (λ status. GivesAll (I.claim inputs.old) scope.now task.now (all_inputs list.now) status
        (state_in I.opened inputs.old files.old.items (stream_of E.contents E.has_failed error_stream.old))
        (state_in I.opened inputs.new files.new.items (stream_of E.contents E.has_failed error_stream.new))) }
    ensures gives_up { OnErr result (GaveUp (I.claim inputs.old) scope.now task.now (all_inputs list.now)
        (state_in I.opened inputs.old files.old.items (stream_of E.contents E.has_failed error_stream.old))
        (state_in I.opened inputs.new files.new.items (stream_of E.contents E.has_failed error_stream.new))) }
{
    let is_named = scope.names;
    if is_named {
        return give_each(alloc, task, scope, list, inputs, files, error_stream);
    }
    if list.rest.is_empty() {
        return give_scoped(alloc, task, scope, &list.first, inputs, files, error_stream);
    }
    give_each(alloc, task, scope, list, inputs, files, error_stream)
}

// Checks each input, in order, and returns the greatest status.
fn give_each<I: Inputs, E: Sink>(
    alloc: Global,
    task: &ReportTask,
    scope: &Scope,
    list: &InputList,
    inputs: &mut I,
    files: &mut Vec<FileProblems>,
    error_stream: &mut E,
) -> Result<u8, AllocError>
    ensures gives { IfOk result (λ status. GivesEach (I.claim inputs.old) scope.now task.now
        (state_in I.opened inputs.old files.old.items (stream_of E.contents E.has_failed error_stream.old))
        (all_inputs list.now) status
        (state_in I.opened inputs.new files.new.items (stream_of E.contents E.has_failed error_stream.new))) }
    ensures gives_up { OnErr result (GaveUp (I.claim inputs.old) scope.now task.now (all_inputs list.now)
        (state_in I.opened inputs.old files.old.items (stream_of E.contents E.has_failed error_stream.old))
        (state_in I.opened inputs.new files.new.items (stream_of E.contents E.has_failed error_stream.new))) }
{
    let mut greatest = give_named(alloc, task, scope, &list.first, inputs, files, error_stream)?;
    for input in list.rest.as_slice() {
        let status = give_named(alloc, task, scope, input, inputs, files, error_stream)?;
        greatest = greatest.max(status);
    }
    Ok(greatest)
}

// Checks one of several inputs, and returns its status. Each line for the stream of faults begins with the name of the
// input.
fn give_named<I: Inputs, E: Sink>(
    alloc: Global,
    task: &ReportTask,
    scope: &Scope,
    input: &Input,
    inputs: &mut I,
    files: &mut Vec<FileProblems>,
    error_stream: &mut E,
) -> Result<u8, AllocError>
    ensures gives { IfOk result (λ status. GivesNamed (I.claim inputs.old) scope.now task.now input.now status
        (state_in I.opened inputs.old files.old.items (stream_of E.contents E.has_failed error_stream.old))
        (state_in I.opened inputs.new files.new.items (stream_of E.contents E.has_failed error_stream.new))) }
    ensures same { StillKnown (I.claim inputs.old) (I.claim inputs.new) }
    ensures gives_up { OnErr result (StopsAt (I.claim inputs.old) input.now
        (state_in I.opened inputs.old files.old.items (stream_of E.contents E.has_failed error_stream.old))
        (state_in I.opened inputs.new files.new.items (stream_of E.contents E.has_failed error_stream.new))) }
{
    let mut memory = stream_in_memory(alloc);
    let status = give_scoped(alloc, task, scope, input, inputs, files, &mut memory)?;
    Ok(tell_errors(alloc, name_of(scope, input), status, &memory, error_stream))
}
