//! `fmt --write`. If there are several files, each is rewritten as if it were the only one.
ghost use Rattle.std.specs.Prelude.{◌≡◌, map};
ghost use Rattle.yf_command_line.specs.Requests.{all_files};
ghost use Rattle.yf_command_line.specs.declared.command.Input.TheVariants.{File};
ghost use Rattle.yf_rules.specs.Runs.ByteStream.{stream_of};
ghost use Rattle.yf_program.specs.Answer.{AnyLines, DoesAll, DoesEach, DoesNamed, DoesRewrite, EndsRewriting, ScopedRewrite, TellsMore, host_in};
ghost use Rattle.yf_host.specs.Rewriting.{FileRewrite, claim_of};
ghost use Rattle.yf_host.specs.World.{world_in};

use crate::further::tell_file;
use crate::scope::{Scope, is_file_left_out, tell_left_out};
use std::alloc::Global;
use yf_command_line::command::FileList;
use yf_files::RewriteError;
use yf_host::files::{Links, report_rewrite, rewrite};
use yf_host::guarded_text::{GuardedText, NoNewText};
use yf_host::inputs::Inputs;
use yf_host::memory::tell_memory;
use yf_host::report::{GOOD, report};
use yf_host::sources::Sources;
use yf_host::streams::{Streams, in_memory};
use yf_lines::fault::Fault;
use yf_lines::watched::Sink;

/// Rewrites the only file, or each of several. Returns the status.
pub fn rewrite_files<I: Inputs, S: Links, W: Sink, E: Sink>(
    alloc: Global,
    explain: bool,
    new_text: &GuardedText<'_>,
    scope: &Scope,
    files: &FileList,
    sources: &mut Sources<I, S>,
    streams: &mut Streams<W, E>,
) -> u8
    ensures { DoesAll scope.now (ScopedRewrite (host_in I.claim S.tells S.state S.leads sources.old) scope.now explain
        (claim_of new_text.now))
        (map (λ name. File name) (all_files files.now)) result (world_in I.opened sources.old streams.old)
        (world_in I.opened sources.new streams.new) }
{
    let is_named = scope.names;
    if is_named {
        return rewrite_each(alloc, explain, new_text, scope, files, sources, streams);
    }
    if files.rest.is_empty() {
        let name = files.first.as_str();
        return rewrite_scoped(alloc, explain, new_text, scope, name, sources, streams);
    }
    rewrite_each(alloc, explain, new_text, scope, files, sources, streams)
}

// Rewrites each file, in order, and returns the greatest status. Each line of the output begins with the name of its
// file.
fn rewrite_each<I: Inputs, S: Links, W: Sink, E: Sink>(
    alloc: Global,
    explain: bool,
    new_text: &GuardedText<'_>,
    scope: &Scope,
    files: &FileList,
    sources: &mut Sources<I, S>,
    streams: &mut Streams<W, E>,
) -> u8
    ensures { DoesEach scope.now.stdin_name (ScopedRewrite (host_in I.claim S.tells S.state S.leads sources.old)
        scope.now explain (claim_of new_text.now))
        (world_in I.opened sources.old streams.old) (map (λ name. File name) (all_files files.now)) result
        (world_in I.opened sources.new streams.new) }
{
    let first = files.first.as_str();
    let mut greatest = rewrite_named(alloc, explain, new_text, scope, first, sources, streams);
    for name in files.rest.as_slice() {
        let status = rewrite_named(
            alloc,
            explain,
            new_text,
            scope,
            name.as_str(),
            sources,
            streams,
        );
        greatest = greatest.max(status);
    }
    greatest
}

// Rewrites a file as if it were the only one, and writes the output with the file's name before each line. Returns the
// status.
fn rewrite_named<I: Inputs, S: Links, W: Sink, E: Sink>(
    alloc: Global,
    explain: bool,
    new_text: &GuardedText<'_>,
    scope: &Scope,
    name: &str,
    sources: &mut Sources<I, S>,
    streams: &mut Streams<W, E>,
) -> u8
    ensures does { DoesNamed name.now (ScopedRewrite (host_in I.claim S.tells S.state S.leads sources.old) scope.now
        explain (claim_of new_text.now) (File name.now)) result (world_in I.opened sources.old streams.old)
        (world_in I.opened sources.new streams.new) }
    ensures inputs { sources.new.inputs ≡ sources.old.inputs }
{
    let mut memory = in_memory(alloc);
    let status = rewrite_scoped(alloc, explain, new_text, scope, name, sources, &mut memory);
    tell_memory(alloc, name, status, &memory, streams)
}

/// Rewrites a file, unless the settings leave it out. Returns the status.
pub fn rewrite_scoped<I: Inputs, S: Links, W: Sink, E: Sink>(
    alloc: Global,
    explain: bool,
    new_text: &GuardedText<'_>,
    scope: &Scope,
    name: &str,
    sources: &mut Sources<I, S>,
    streams: &mut Streams<W, E>,
) -> u8
    ensures does { ScopedRewrite (host_in I.claim S.tells S.state S.leads sources.old) scope.now explain
        (claim_of new_text.now) (File name.now) result (world_in I.opened sources.old streams.old)
        (world_in I.opened sources.new streams.new) }
    ensures inputs { sources.new.inputs ≡ sources.old.inputs }
{
    match is_file_left_out(alloc, scope, name) {
        Ok(true) => {
            tell_left_out(explain, &mut streams.errors);
            GOOD
        }
        Ok(false) => rewrite_file(alloc, explain, new_text, name, sources, streams),
        Err(_) => report(&Fault::Memory, &mut streams.errors),
    }
}

// Rewrites a file and returns the status. Reports the reason if the file is not rewritten.
fn rewrite_file<I: Inputs, S: Links, W: Sink, E: Sink>(
    alloc: Global,
    explain: bool,
    new_text: &GuardedText<'_>,
    name: &str,
    sources: &mut Sources<I, S>,
    streams: &mut Streams<W, E>,
) -> u8
    ensures does { DoesRewrite (host_in I.claim S.tells S.state S.leads sources.old) explain
        (claim_of new_text.now) name.now result (world_in I.opened sources.old streams.old)
        (world_in I.opened sources.new streams.new) }
    ensures inputs { sources.new.inputs ≡ sources.old.inputs }
{
    let rewritten = rewrite(alloc, &mut sources.files, name, new_text);
    report_rewriting(
        alloc,
        explain,
        &sources.inputs,
        name,
        &rewritten,
        &mut streams.errors,
    )
}

// Reports the reason if a file is not rewritten, and returns the status.
fn report_rewriting<I: Inputs, E: Sink>(
    alloc: Global,
    explain: bool,
    inputs: &I,
    name: &str,
    rewritten: &Result<(), RewriteError<NoNewText>>,
    error_stream: &mut E,
) -> u8
    ensures { EndsRewriting explain (λ outcome. outcome ≡ rewritten.now) result
        (stream_of E.contents E.has_failed error_stream.old) (stream_of E.contents E.has_failed error_stream.new) }
{
    match rewritten {
        Ok(()) => GOOD,
        Err(why) => {
            let status = report_rewrite(why, error_stream);
            tell_rewrite(alloc, explain, inputs, name, why, error_stream);
            status
        }
    }
}

// Explains why a file is not rewritten, if asked.
fn tell_rewrite<I: Inputs, E: Sink>(
    alloc: Global,
    explain: bool,
    inputs: &I,
    name: &str,
    why: &RewriteError<NoNewText>,
    error_stream: &mut E,
)
    ensures { TellsMore explain AnyLines (stream_of E.contents E.has_failed error_stream.old)
        (stream_of E.contents E.has_failed error_stream.new) }
{
    match why {
        RewriteError::Unreadable => tell_file(
            alloc,
            explain,
            inputs,
            name,
            &Fault::ReadFailed,
            error_stream,
        ),
        RewriteError::Refused(NoNewText::Refused(fault)) => {
            tell_file(alloc, explain, inputs, name, fault, error_stream)
        }
        RewriteError::Memory
        | RewriteError::Refused(NoNewText::LeftAlone(_))
        | RewriteError::Unwritten(_) => {}
    }
}
