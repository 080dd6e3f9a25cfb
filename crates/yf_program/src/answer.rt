//! The whole program, over whatever it reads and writes: from the words of the command line to the status.
ghost use Rattle.std.specs.Prelude.{map, string_bytes};
ghost use Rattle.yf_command_line.specs.Requests.{all_inputs};
ghost use Rattle.yf_program.specs.Answer.{DoesIn, host_in};
ghost use Rattle.yf_program.specs.Reports.{DoesReport, ReportsNew, report_task};
ghost use Rattle.yf_program.specs.Run.{ProgramRuns};
ghost use Rattle.yf_host.specs.World.{world_in};

use crate::baseline_file::{listed_by, report_untaken};
use crate::each::{do_inputs, do_scoped};
use crate::parts::do_part;
use crate::program::{answer_usage, written_out};
use crate::report_inputs::ReportTask;
use crate::report_work::ReportWork;
use crate::reports::report_inputs;
use crate::rewrites::rewrite_files;
use crate::scope::Scope;
use crate::server::do_server;
use crate::task::{Task, Work};
use crate::terminal::{
    Terminal, checks_at_once, explains_in, form_of, is_named, limit_in, writes_at_once,
};
use crate::with_settings::{do_request, name_or_empty};
use std::alloc::Global;
use yf_baseline::listed::Texts;
use yf_command_line::command::{Check, Colors, Command, Fmt, InputList, Output, Printing};
use yf_command_line::command_line::parse_line;
use yf_findings::printed::Form;
use yf_forms::style::Style;
use yf_host::files::{Links, NewText};
use yf_host::guarded_text::GuardedText;
use yf_host::inputs::Inputs;
use yf_host::sources::Sources;
use yf_host::streams::Streams;
use yf_lines::watched::Sink;
use yf_rule_pages::page::Page;
use yf_rules::asked::RULE_NAMES;

/// Does what the words after the program's name ask for, and returns the exit status. `explain` prints one of `pages`,
/// or their list. `terminal` decides the form of findings if the command line doesn't.
///
/// The settings are read first, and an input is opened only if they are accepted. `explain` reads no settings and opens
/// nothing. At the end the writer writes out what it holds back. `main` ends with this status, unless the reader of
/// standard output has left: then it ends with 141.
pub fn answer<I: Inputs, S: Links, W: Sink, E: Sink>(
    alloc: Global,
    words: &[String],
    pages: &[Page],
    terminal: Terminal,
    sources: &mut Sources<I, S>,
    streams: &mut Streams<W, E>,
) -> u8
    ensures { ProgramRuns (host_in I.claim S.tells S.state S.leads sources.old) pages.now (map string_bytes words.now)
        terminal result (world_in I.opened sources.old streams.old) (world_in I.opened sources.new streams.new) }
{
    match parse_line(alloc, words, &RULE_NAMES, pages) {
        Ok(request) => {
            let status = do_request(alloc, request, terminal, sources, streams);
            written_out(status, streams)
        }
        Err(usage) => {
            let status = answer_usage(&usage, streams);
            written_out(status, streams)
        }
    }
}

/// Does a command in a style, with the inputs that are not left out. Returns the status.
pub fn do_command<I: Inputs, S: Links, W: Sink, E: Sink>(
    alloc: Global,
    command: Command,
    scope: &Scope,
    explain: bool,
    style: Style,
    sources: &mut Sources<I, S>,
    streams: &mut Streams<W, E>,
) -> u8
    ensures { DoesIn (host_in I.claim S.tells S.state S.leads sources.old) command scope.now explain style result
        (world_in I.opened sources.old streams.old) (world_in I.opened sources.new streams.new) }
{
    match command {
        Command::Events(input) => {
            let task = Task {
                work: Work::Events,
                style,
                explain,
            };
            do_scoped(alloc, &task, scope, &input, sources, streams)
        }
        Command::Check(check) => do_check(alloc, check, scope, explain, style, sources, streams),
        Command::Fmt(fmt) => do_fmt(alloc, fmt, scope, explain, style, sources, streams),
        Command::Server => do_server(alloc, scope, &style, sources, streams),
    }
}

// Checks in a style.
fn do_check<I: Inputs, S: Links, W: Sink, E: Sink>(
    alloc: Global,
    check: Check,
    scope: &Scope,
    explain: bool,
    style: Style,
    sources: &mut Sources<I, S>,
    streams: &mut Streams<W, E>,
) -> u8
    ensures { DoesIn (host_in I.claim S.tells S.state S.leads sources.old) (Command.Check check) scope.now explain style
        result (world_in I.opened sources.old streams.old) (world_in I.opened sources.new streams.new) }
{
    let named = is_named(scope.names, &check.inputs);
    let form = form_of(check.printing, scope.terminal, named, explain);
    let at_once = checks_at_once(form, &check);
    if at_once {
        let Check {
            inputs,
            without,
            ..
        } = check;
        let task = Task {
            work: Work::Check(without),
            style,
            explain,
        };
        return do_inputs(alloc, &task, scope, &inputs, sources, streams);
    }
    report_new(alloc, check, form, scope, explain, style, sources, streams)
}

// Reads the baseline, if there is one, and reports the findings that it doesn't list.
fn report_new<I: Inputs, S: Links, W: Sink, E: Sink>(
    alloc: Global,
    check: Check,
    form: Form,
    scope: &Scope,
    explain: bool,
    style: Style,
    sources: &mut Sources<I, S>,
    streams: &mut Streams<W, E>,
) -> u8
    ensures { ReportsNew (host_in I.claim S.tells S.state S.leads sources.old) check scope.now explain style form result
        (world_in I.opened sources.old streams.old) (world_in I.opened sources.new streams.new) }
{
    match listed_by(alloc, &check.baseline, &mut sources.inputs) {
        Ok(listed) => report_unlisted(
            alloc, check, listed, form, scope, explain, style, sources, streams,
        ),
        Err(why) => report_untaken(
            alloc,
            explain,
            &sources.inputs,
            name_or_empty(&check.baseline),
            &why,
            &mut streams.errors,
        ),
    }
}

// Reports the findings that are not listed.
fn report_unlisted<I: Inputs, S: Links, W: Sink, E: Sink>(
    alloc: Global,
    check: Check,
    listed: Option<Texts>,
    form: Form,
    scope: &Scope,
    explain: bool,
    style: Style,
    sources: &mut Sources<I, S>,
    streams: &mut Streams<W, E>,
) -> u8
    ensures { DoesReport (host_in I.claim S.tells S.state S.leads sources.old) scope.now
        (report_task check listed explain style form) (all_inputs check.inputs) result
        (world_in I.opened sources.old streams.old) (world_in I.opened sources.new streams.new) }
{
    let Check {
        inputs,
        without,
        lines,
        printing,
        ..
    } = check;
    let task = ReportTask {
        work: ReportWork::Check {
            without,
            lines,
            baseline: listed,
        },
        style,
        form,
        limit: limit_in(form, printing.limit),
        explain: explains_in(form, explain),
        tells_left_out: explain,
    };
    report_inputs(alloc, &task, scope, &inputs, sources, streams)
}

// Compares inputs with their formatting in a style.
fn do_compare<I: Inputs, S: Links, W: Sink, E: Sink>(
    alloc: Global,
    inputs: InputList,
    output: Output,
    scope: &Scope,
    explain: bool,
    style: Style,
    sources: &mut Sources<I, S>,
    streams: &mut Streams<W, E>,
) -> u8
    ensures { DoesIn (host_in I.claim S.tells S.state S.leads sources.old) (Command.Fmt (Fmt.Check inputs output))
        scope.now explain style result (world_in I.opened sources.old streams.old)
        (world_in I.opened sources.new streams.new) }
{
    let printing = Printing {
        output: Some(output),
        colors: Colors::Auto,
        limit: None,
    };
    let named = is_named(scope.names, &inputs);
    let form = form_of(printing, scope.terminal, named, explain);
    let at_once = writes_at_once(form, &[], None);
    if at_once {
        let task = Task {
            work: Work::Compare,
            style,
            explain,
        };
        return do_inputs(alloc, &task, scope, &inputs, sources, streams);
    }
    let task = ReportTask {
        work: ReportWork::Compare,
        style,
        form,
        limit: None,
        explain: explains_in(form, explain),
        tells_left_out: explain,
    };
    report_inputs(alloc, &task, scope, &inputs, sources, streams)
}

// Formats in a style.
fn do_fmt<I: Inputs, S: Links, W: Sink, E: Sink>(
    alloc: Global,
    fmt: Fmt,
    scope: &Scope,
    explain: bool,
    style: Style,
    sources: &mut Sources<I, S>,
    streams: &mut Streams<W, E>,
) -> u8
    ensures { DoesIn (host_in I.claim S.tells S.state S.leads sources.old) (Command.Fmt fmt) scope.now explain style
        result (world_in I.opened sources.old streams.old) (world_in I.opened sources.new streams.new) }
{
    match fmt {
        Fmt::Print(input) => {
            let task = Task {
                work: Work::Print,
                style,
                explain,
            };
            do_scoped(alloc, &task, scope, &input, sources, streams)
        }
        Fmt::Check { inputs, output } => {
            do_compare(
                alloc, inputs, output, scope, explain, style, sources, streams,
            )
        }
        Fmt::Diff(inputs) => {
            let task = Task {
                work: Work::Diff,
                style,
                explain,
            };
            do_inputs(alloc, &task, scope, &inputs, sources, streams)
        }
        Fmt::Write(files) => {
            let new_text = GuardedText {
                any_text: scope.any_text,
                new_text: NewText::Formatted(&style),
            };
            rewrite_files(alloc, explain, &new_text, scope, &files, sources, streams)
        }
        Fmt::Part { lines, what } => {
            do_part(alloc, lines, what, scope, explain, style, sources, streams)
        }
    }
}
