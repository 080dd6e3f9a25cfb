//! `fmt --lines`: formatting only some lines of a text.
ghost use Rattle.std.specs.Prelude.{◌∷◌, []};
ghost use Rattle.yf_rules.specs.Runs.ByteStream.{stream_of};
ghost use Rattle.yf_program.specs.Answer.{DoesAll, DoesIn, RanPart, ScopedInput, host_in};
ghost use Rattle.yf_host.specs.World.{world_in};

use crate::each::{do_inputs, do_scoped};
use crate::further::report_input;
use crate::rewrites::rewrite_files;
use crate::scope::Scope;
use crate::task::{Task, Work};
use std::alloc::Global;
use yf_command_line::command::{Command, FileList, Fmt, Input, InputList, Part};
use yf_forms::style::Style;
use yf_host::files::{Links, NewText};
use yf_host::guarded_text::GuardedText;
use yf_host::inputs::Inputs;
use yf_host::report::{FINDINGS, GOOD};
use yf_host::sources::Sources;
use yf_host::streams::Streams;
use yf_line_ranges::range::LineRange;
use yf_lines::watched::{Sink, Source};
use yf_parts::run::{PartTask, run_part};
use yf_parts::show::Show;

/// Formats some lines of a text in a style, and shows the result or writes it to the file. An input that the
/// settings leave out stays as it is.
pub fn do_part<I: Inputs, S: Links, W: Sink, E: Sink>(
    alloc: Global,
    lines: Vec<LineRange>,
    what: Part,
    scope: &Scope,
    explain: bool,
    style: Style,
    sources: &mut Sources<I, S>,
    streams: &mut Streams<W, E>,
) -> u8
    ensures { DoesIn (host_in I.claim S.tells S.state S.leads sources.old) (Command.Fmt (Fmt.Part lines what)) scope.now
        explain style result (world_in I.opened sources.old streams.old)
        (world_in I.opened sources.new streams.new) }
{
    match what {
        Part::Print(input) => {
            let task = Task {
                work: Work::Part(PartTask {
                    lines,
                    show: Show::Text,
                }),
                style,
                explain,
            };
            do_scoped(alloc, &task, scope, &input, sources, streams)
        }
        Part::Check(input) => {
            let task = Task {
                work: Work::Part(PartTask {
                    lines,
                    show: Show::Place,
                }),
                style,
                explain,
            };
            do_only(alloc, &task, scope, input, sources, streams)
        }
        Part::Diff(input) => {
            let task = Task {
                work: Work::Part(PartTask {
                    lines,
                    show: Show::Diff,
                }),
                style,
                explain,
            };
            do_only(alloc, &task, scope, input, sources, streams)
        }
        Part::Write(file) => {
            let new_text = GuardedText {
                any_text: scope.any_text,
                new_text: NewText::Part(&style, lines.as_slice()),
            };
            let files = FileList {
                first: file,
                rest: Vec::new(alloc),
            };
            rewrite_files(alloc, explain, &new_text, scope, &files, sources, streams)
        }
    }
}

// Does a task with its only input. Returns the status.
fn do_only<I: Inputs, S: Links, W: Sink, E: Sink>(
    alloc: Global,
    task: &Task,
    scope: &Scope,
    input: Input,
    sources: &mut Sources<I, S>,
    streams: &mut Streams<W, E>,
) -> u8
    ensures { DoesAll scope.now (ScopedInput (host_in I.claim S.tells S.state S.leads sources.old) scope.now task.now)
        (input ∷ []) result (world_in I.opened sources.old streams.old)
        (world_in I.opened sources.new streams.new) }
{
    let inputs = InputList {
        first: input,
        rest: Vec::new(alloc),
    };
    do_inputs(alloc, task, scope, &inputs, sources, streams)
}

/// Shows a text with some lines formatted, and returns the status.
pub fn run_lines<R: Source, W: Sink, E: Sink>(
    alloc: Global,
    task: &Task,
    part: &PartTask,
    name: &str,
    reader: &mut R,
    streams: &mut Streams<W, E>,
) -> u8
    ensures { RanPart part.now name.now task.now result (stream_of R.remaining R.has_failed reader.old)
        (stream_of R.remaining R.has_failed reader.new) streams.old streams.new }
{
    let mut bytes = Vec::new(alloc);
    match run_part(
        alloc,
        part,
        name,
        &task.style,
        reader,
        &mut bytes,
        &mut streams.output,
    ) {
        Ok(true) => GOOD,
        Ok(false) => FINDINGS,
        Err(fault) => report_input(
            alloc,
            task.explain,
            bytes.as_slice(),
            fault,
            &mut streams.errors,
        ),
    }
}
