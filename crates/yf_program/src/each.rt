//! A task with its inputs. If there are several, the task is done with each as if it were the only one.
ghost use Rattle.std.specs.Prelude.{◌≡◌};
ghost use Rattle.yf_command_line.specs.Requests.{all_inputs};
ghost use Rattle.yf_command_line.specs.declared.command.Input.TheVariants.{Standard};
ghost use Rattle.yf_program.specs.Answer.{DoesAll, DoesEach, DoesInput, DoesNamed, ScopedInput, SkipsInput, host_in};
ghost use Rattle.yf_program.specs.Answer.{CopiesInput, SkipsIf, name_of};
ghost use Rattle.yf_program.specs.Guarded.{prints_text};
ghost use Rattle.yf_host.specs.World.{StillKnown, world_in};

use crate::further::report_file;
use crate::judged::{copy_text, prints_text, run_judged};
use crate::scope::{Scope, is_left_out, tell_left_out};
use crate::task::Task;
use std::alloc::Global;
use yf_command_line::command::{Input, InputList};
use yf_host::files::Links;
use yf_host::inputs::Inputs;
use yf_host::memory::tell_memory;
use yf_host::report::{GOOD, report};
use yf_host::sources::Sources;
use yf_host::streams::{Streams, in_memory};
use yf_lines::fault::Fault;
use yf_lines::watched::Sink;

/// Does a task with its only input, or with each of several. Returns the status.
pub fn do_inputs<I: Inputs, S: Links, W: Sink, E: Sink>(
    alloc: Global,
    task: &Task,
    scope: &Scope,
    inputs: &InputList,
    sources: &mut Sources<I, S>,
    streams: &mut Streams<W, E>,
) -> u8
    ensures { DoesAll scope.now (ScopedInput (host_in I.claim S.tells S.state S.leads sources.old) scope.now task.now)
        (all_inputs inputs.now) result (world_in I.opened sources.old streams.old)
        (world_in I.opened sources.new streams.new) }
{
    let is_named = scope.names;
    if is_named {
        return do_each(alloc, task, scope, inputs, sources, streams);
    }
    if inputs.rest.is_empty() {
        return do_scoped(alloc, task, scope, &inputs.first, sources, streams);
    }
    do_each(alloc, task, scope, inputs, sources, streams)
}

// Does a task with each input, in order, and returns the greatest status. Each line that is not part of a diff begins
// with the name of its input.
fn do_each<I: Inputs, S: Links, W: Sink, E: Sink>(
    alloc: Global,
    task: &Task,
    scope: &Scope,
    inputs: &InputList,
    sources: &mut Sources<I, S>,
    streams: &mut Streams<W, E>,
) -> u8
    ensures { DoesEach scope.now.stdin_name
        (ScopedInput (host_in I.claim S.tells S.state S.leads sources.old) scope.now task.now)
        (world_in I.opened sources.old streams.old) (all_inputs inputs.now) result
        (world_in I.opened sources.new streams.new) }
{
    let mut greatest = do_named(alloc, task, scope, &inputs.first, sources, streams);
    for input in inputs.rest.as_slice() {
        let status = do_named(alloc, task, scope, input, sources, streams);
        greatest = greatest.max(status);
    }
    greatest
}

// Does a task with an input as if it were the only one, and writes the output with the input's name before each line
// that is not part of a diff. Returns the status.
fn do_named<I: Inputs, S: Links, W: Sink, E: Sink>(
    alloc: Global,
    task: &Task,
    scope: &Scope,
    input: &Input,
    sources: &mut Sources<I, S>,
    streams: &mut Streams<W, E>,
) -> u8
    ensures does { DoesNamed (name_of scope.now.stdin_name input.now)
        (ScopedInput (host_in I.claim S.tells S.state S.leads sources.old) scope.now task.now input.now) result
        (world_in I.opened sources.old streams.old) (world_in I.opened sources.new streams.new) }
    ensures same { StillKnown (I.claim sources.old.inputs) (I.claim sources.new.inputs) }
{
    let mut memory = in_memory(alloc);
    let status = do_scoped(alloc, task, scope, input, sources, &mut memory);
    tell_memory(alloc, name_of(scope, input), status, &memory, streams)
}

/// Returns the name of an input in messages.
pub fn name_of<'a>(scope: &'a Scope, input: &'a Input) -> &'a str
    ensures { result.now ≡ name_of scope.now.stdin_name input.now }
{
    match input {
        Input::Standard => standard_name(scope),
        Input::File(name) => name.as_str(),
    }
}

// Returns the name of standard input in messages.
fn standard_name(scope: &Scope) -> &str
    ensures { result.now ≡ name_of scope.now.stdin_name Standard }
{
    match &scope.stdin_name {
        Some(name) => name.as_str(),
        None => "-",
    }
}

/// Does a task with an input, unless the settings leave it out.
pub fn do_scoped<I: Inputs, S: Links, W: Sink, E: Sink>(
    alloc: Global,
    task: &Task,
    scope: &Scope,
    input: &Input,
    sources: &mut Sources<I, S>,
    streams: &mut Streams<W, E>,
) -> u8
    ensures does { ScopedInput (host_in I.claim S.tells S.state S.leads sources.old) scope.now task.now input.now result
        (world_in I.opened sources.old streams.old) (world_in I.opened sources.new streams.new) }
    ensures same { StillKnown (I.claim sources.old.inputs) (I.claim sources.new.inputs) }
{
    match is_left_out(alloc, scope, input) {
        Ok(true) => skip_input(alloc, task, input, sources, streams),
        Ok(false) => do_input(alloc, task, scope, input, sources, streams),
        Err(_) => report(&Fault::Memory, &mut streams.errors),
    }
}

// Handles an input that the settings exclude: prints its text as it is, or nothing.
fn skip_input<I: Inputs, S: Links, W: Sink, E: Sink>(
    alloc: Global,
    task: &Task,
    input: &Input,
    sources: &mut Sources<I, S>,
    streams: &mut Streams<W, E>,
) -> u8
    ensures does { SkipsInput (host_in I.claim S.tells S.state S.leads sources.old) task.now input.now result
        (world_in I.opened sources.old streams.old) (world_in I.opened sources.new streams.new) }
    ensures same { StillKnown (I.claim sources.old.inputs) (I.claim sources.new.inputs) }
{
    match input {
        Input::Standard => skip_standard(alloc, task, sources, streams),
        Input::File(_) => {
            tell_left_out(task.explain, &mut streams.errors);
            GOOD
        }
    }
}

// Handles standard input if the settings exclude it.
fn skip_standard<I: Inputs, S: Links, W: Sink, E: Sink>(
    alloc: Global,
    task: &Task,
    sources: &mut Sources<I, S>,
    streams: &mut Streams<W, E>,
) -> u8
    ensures does { SkipsIf (prints_text task.now.work) (host_in I.claim S.tells S.state S.leads sources.old) task.now
        Standard result (world_in I.opened sources.old streams.old) (world_in I.opened sources.new streams.new) }
    ensures same { StillKnown (I.claim sources.old.inputs) (I.claim sources.new.inputs) }
{
    let prints = prints_text(&task.work);
    if prints {
        return copy_standard(alloc, task, sources, streams);
    }
    tell_left_out(task.explain, &mut streams.errors);
    GOOD
}

// Prints the text of standard input as it is.
fn copy_standard<I: Inputs, S: Links, W: Sink, E: Sink>(
    alloc: Global,
    task: &Task,
    sources: &mut Sources<I, S>,
    streams: &mut Streams<W, E>,
) -> u8
    ensures does { CopiesInput (host_in I.claim S.tells S.state S.leads sources.old) task.now Standard result
        (world_in I.opened sources.old streams.old) (world_in I.opened sources.new streams.new) }
    ensures same { StillKnown (I.claim sources.old.inputs) (I.claim sources.new.inputs) }
{
    let mut reader = sources.inputs.open_standard();
    copy_text(alloc, task, &mut reader, streams)
}

// Does a task with an input.
fn do_input<I: Inputs, S: Links, W: Sink, E: Sink>(
    alloc: Global,
    task: &Task,
    scope: &Scope,
    input: &Input,
    sources: &mut Sources<I, S>,
    streams: &mut Streams<W, E>,
) -> u8
    ensures does { DoesInput (host_in I.claim S.tells S.state S.leads sources.old) scope.now task.now input.now result
        (world_in I.opened sources.old streams.old) (world_in I.opened sources.new streams.new) }
    ensures same { StillKnown (I.claim sources.old.inputs) (I.claim sources.new.inputs) }
{
    match input {
        Input::Standard => {
            let mut reader = sources.inputs.open_standard();
            run_judged(alloc, task, scope, input, &mut reader, streams)
        }
        Input::File(name) => match sources.inputs.open_file(name.as_str()) {
            Ok(mut reader) => run_judged(alloc, task, scope, input, &mut reader, streams),
            Err(fault) => report_file(
                alloc,
                task.explain,
                &sources.inputs,
                name.as_str(),
                &fault,
                &mut streams.errors,
            ),
        },
    }
}
