//! The editor server, over any reader and any two streams.
ghost use Rattle.std.specs.Prelude.{◌≡◌, ◌≤◌, ◌==◌, ◌∷◌, [], false, length, IfOk, MatchBool, map, option_map, string_bytes};
ghost use Rattle.std.specs.List.{count_by};
ghost use Rattle.yf_rules.specs.Runs.ByteStream.{stream_of};
ghost use Rattle.yf_server.specs.Analysis.{problem_read};
ghost use Rattle.yf_program.specs.Answer.{DoesServer, host_in};
ghost use Rattle.yf_program.specs.Server.{FindsAs, FindsInText, FormatsAs, FormatsData, FormatsDataLines, FormatsLines, FormatsLinesAs, FormatsText, IsLeft, Served, TellsEnd, exit_status, frame_line, line_number, unset_problem};
ghost use Rattle.yf_host.specs.World.{world_in};

use crate::handling::{Handling, Start, handling_of, is_memory};
use crate::scope::Scope;
use std::alloc::{AllocError, Global};
use yf_forms::style::Style;
use yf_guard::guarded::is_vault;
use yf_guarded::formatting::{DataFormatting, format_data};
use yf_guarded::judge::judge;
use yf_host::files::Links;
use yf_host::inputs::Inputs;
use yf_host::report::report;
use yf_host::sources::Sources;
use yf_host::streams::Streams;
use yf_json_rpc::frame::FrameError;
use yf_line_ranges::range::LineRange;
use yf_lines::fault::Fault;
use yf_lines::output::write_text;
use yf_lines::watched::{Sink, Source};
use yf_parts::run::with_lines_formatted;
use yf_problems::folds::foldable_parts;
use yf_problems::outlines::outline_parts;
use yf_problems::problems::problems_in;
use yf_rules::format::format;
use yf_rules::run::INPUT_LIMIT;
use yf_server::analysis::{Analysis, Foldable, Part, Problem, Severity};
use yf_server_loop::ended::Ended;
use yf_server_loop::serve::serve;

/// The status if the bytes that were read begin with no message.
const NO_MESSAGE: u8 = 3;

// Returns how many line feeds the bytes have.
fn line_feeds(bytes: &[u8]) -> usize
    ensures count { result ≡ count_by (λ b. b == 10) bytes.now }
    ensures bound { result ≤ length bytes.now }
{
    let mut count = 0;
    for byte in bytes {
        if *byte == b'\n' {
            count += 1;
        }
    }
    count
}

// Returns the number of the line that an offset is in. Lines end after a line feed, as for `yf_parts`.
#[tactic(auto, using(std::proofs::lemmas::List::take_min))]
fn line_number(text: &str, offset: usize) -> usize
    ensures { result ≡ line_number text.now offset }
{
    let bytes = text.as_bytes();
    let before = offset.min(bytes.len());
    line_feeds(&bytes[..before]) + 1
}

// Returns whether the server makes no edits for a text: an Ansible Vault file, or a text that is too long.
fn is_left(text: &str) -> bool
    ensures { MatchBool result (IsLeft text.now) (IsLeft text.now → ⊥) }
{
    is_vault(text) || text.len() > INPUT_LIMIT
}

// Returns the formatting of a text; `None` if the server makes no edits for it, or refuses it.
fn formatted(alloc: Global, text: &str, style: &Style) -> Result<Option<String>, AllocError>
    ensures { IfOk result (λ new. FormatsText style.now text.now (option_map string_bytes new)) }
{
    if is_left(text) {
        return Ok(None);
    }
    match format(alloc, text, style) {
        Ok(new) => Ok(Some(new)),
        Err(fault) => {
            if is_memory(&fault) {
                return Err(AllocError);
            }
            Ok(None)
        }
    }
}

// Returns a text in which the lines from that of one offset to that of another one are formatted; `None` as for
// `formatted`.
fn formatted_lines(
    alloc: Global,
    text: &str,
    style: &Style,
    first: usize,
    last: usize,
) -> Result<Option<String>, AllocError>
    ensures { IfOk result (λ new. FormatsLines style.now text.now first last (option_map string_bytes new)) }
{
    if is_left(text) {
        return Ok(None);
    }
    let lines = [LineRange {
        first: line_number(text, first),
        last: line_number(text, last),
    }];
    match with_lines_formatted(alloc, text, style, &lines) {
        Ok(new) => Ok(Some(new)),
        Err(fault) => {
            if is_memory(&fault) {
                return Err(AllocError);
            }
            Ok(None)
        }
    }
}

// Returns the problems of a text; none if it is an Ansible Vault file.
fn found_in(alloc: Global, text: &str, style: &Style) -> Result<Vec<Problem>, AllocError>
    ensures { IfOk result (λ problems. FindsInText style.now text.now (map problem_read problems.items)) }
{
    if is_vault(text) {
        return Ok(Vec::new(alloc));
    }
    problems_in(alloc, text, style)
}

// Returns the formatting of a text, unless it is no data.
fn formatted_data(
    alloc: Global,
    text: &str,
    style: &Style,
    any_text: bool,
) -> Result<Option<String>, AllocError>
    ensures { IfOk result (λ new. FormatsData style.now any_text text.now (option_map string_bytes new)) }
{
    if any_text {
        return formatted(alloc, text, style);
    }
    formatted_judged(alloc, text, style)
}

// Returns the formatting of a text; `None` also if the text is no data. The text is read once.
fn formatted_judged(alloc: Global, text: &str, style: &Style) -> Result<Option<String>, AllocError>
    ensures { IfOk result (λ new. FormatsData style.now false text.now (option_map string_bytes new)) }
{
    if is_left(text) {
        return Ok(None);
    }
    match format_data(alloc, text, style) {
        Ok(DataFormatting::Formatted(new)) => Ok(Some(new)),
        Ok(DataFormatting::NoData(_)) => Ok(None),
        Err(fault) => {
            if is_memory(&fault) {
                return Err(AllocError);
            }
            Ok(None)
        }
    }
}

// Returns a text with some lines formatted, unless it is no data.
fn formatted_data_lines(
    alloc: Global,
    text: &str,
    style: &Style,
    any_text: bool,
    first: usize,
    last: usize,
) -> Result<Option<String>, AllocError>
    ensures { IfOk result (λ new.
        FormatsDataLines style.now any_text text.now first last (option_map string_bytes new)) }
{
    if !any_text {
        return formatted_judged_lines(alloc, text, style, first, last);
    }
    formatted_lines(alloc, text, style, first, last)
}

// Returns a text with some lines formatted; `None` also if the text is no data.
fn formatted_judged_lines(
    alloc: Global,
    text: &str,
    style: &Style,
    first: usize,
    last: usize,
) -> Result<Option<String>, AllocError>
    ensures { IfOk result (λ new.
        FormatsDataLines style.now false text.now first last (option_map string_bytes new)) }
{
    if is_left(text) {
        return Ok(None);
    }
    match judge(alloc, text, true) {
        Ok(None) => formatted_lines(alloc, text, style, first, last),
        Ok(Some(_)) => Ok(None),
        Err(fault) => {
            if is_memory(&fault) {
                return Err(AllocError);
            }
            Ok(None)
        }
    }
}

// Returns the formatting of a text by its settings.
fn formatted_as(
    alloc: Global,
    handling: &Handling,
    text: &str,
) -> Result<Option<String>, AllocError>
    ensures { IfOk result (λ new. FormatsAs handling.now text.now (option_map string_bytes new)) }
{
    match handling {
        Handling::Taken { style, any_text } => formatted_data(alloc, text, style, *any_text),
        Handling::LeftOut => Ok(None),
        Handling::Unset(_) => Ok(None),
    }
}

// Returns a text with some lines formatted by its settings.
fn formatted_lines_as(
    alloc: Global,
    handling: &Handling,
    text: &str,
    first: usize,
    last: usize,
) -> Result<Option<String>, AllocError>
    ensures { IfOk result (λ new.
        FormatsLinesAs handling.now text.now first last (option_map string_bytes new)) }
{
    match handling {
        Handling::Taken { style, any_text } => {
            formatted_data_lines(alloc, text, style, *any_text, first, last)
        }
        Handling::LeftOut => Ok(None),
        Handling::Unset(_) => Ok(None),
    }
}

// Returns the problems of a text by its settings.
fn found_as(alloc: Global, handling: &Handling, text: &str) -> Result<Vec<Problem>, AllocError>
    ensures { IfOk result (λ problems. FindsAs handling.now text.now (map problem_read problems.items)) }
{
    match handling {
        Handling::Taken { style, any_text: _ } => found_in(alloc, text, style),
        Handling::LeftOut => Ok(Vec::new(alloc)),
        Handling::Unset(words) => unset_problem(alloc, words.as_str()),
    }
}

// Returns the problem of a document whose settings can't be used.
fn unset_problem(alloc: Global, words: &str) -> Result<Vec<Problem>, AllocError>
    ensures { IfOk result (λ problems. map problem_read problems.items ≡ unset_problem words.now ∷ []) }
{
    let message = String::from_str(alloc, words)?;
    let mut problems = Vec::new(alloc);
    problems.push(Problem {
        start: 0,
        end: 0,
        severity: Severity::Error,
        code: "settings",
        message,
    })?;
    Ok(problems)
}

impl<I: Inputs> Analysis for Start<'_, I> {
    ghost use Rattle.yf_program.specs.Server.{document_claim};

    ghost claim = { λ it. document_claim (I.claim it.inputs.now) it.scope.now it.style.now };

    fn formatted(
        &self,
        alloc: Global,
        uri: &str,
        text: &str,
    ) -> Result<Option<String>, AllocError> {
        let handling = handling_of(alloc, self, uri)?;
        formatted_as(alloc, &handling, text)
    }

    fn formatted_lines(
        &self,
        alloc: Global,
        uri: &str,
        text: &str,
        first: usize,
        last: usize,
    ) -> Result<Option<String>, AllocError> {
        let handling = handling_of(alloc, self, uri)?;
        formatted_lines_as(alloc, &handling, text, first, last)
    }

    fn problems(&self, alloc: Global, uri: &str, text: &str) -> Result<Vec<Problem>, AllocError> {
        let handling = handling_of(alloc, self, uri)?;
        found_as(alloc, &handling, text)
    }

    fn foldable(&self, alloc: Global, text: &str) -> Result<Option<Vec<Foldable>>, AllocError> {
        foldable_parts(alloc, text)
    }

    fn outline(&self, alloc: Global, text: &str) -> Result<Option<Vec<Part>>, AllocError> {
        outline_parts(alloc, text)
    }
}

/// Serves a client over standard input, and returns the status. (`scope` and `style`: the settings at the start)
pub fn do_server<I: Inputs, S: Links, W: Sink, E: Sink>(
    alloc: Global,
    scope: &Scope,
    style: &Style,
    sources: &mut Sources<I, S>,
    streams: &mut Streams<W, E>,
) -> u8
    ensures { DoesServer (host_in I.claim S.tells S.state S.leads sources.old) scope.now style.now result
        (world_in I.opened sources.old streams.old) (world_in I.opened sources.new streams.new) }
{
    let mut reader = sources.inputs.open_standard();
    let start = Start {
        inputs: &sources.inputs,
        scope,
        style,
    };
    run_server(alloc, &start, &mut reader, streams)
}

/// Serves a client over a reader of its messages, and returns the status.
pub fn run_server<I: Inputs, R: Source, W: Sink, E: Sink>(
    alloc: Global,
    start: &Start<'_, I>,
    reader: &mut R,
    streams: &mut Streams<W, E>,
) -> u8
    ensures { Served (I.claim start.now.inputs.now) start.now.scope.now start.now.style.now result
        (stream_of R.remaining R.has_failed reader.old) (stream_of R.remaining R.has_failed reader.new)
        streams.old streams.new }
{
    let ended = serve(alloc, start, reader, &mut streams.output);
    tell_end(ended, &mut streams.errors)
}

// Writes the line of a session that ended with a fault, and returns the status.
fn tell_end<E: Sink>(ended: Ended, error_stream: &mut E) -> u8
    ensures { TellsEnd ended result (stream_of E.contents E.has_failed error_stream.old)
        (stream_of E.contents E.has_failed error_stream.new) }
{
    match ended {
        Ended::Exit { is_success } => exit_status(is_success),
        Ended::EndOfInput => 1,
        Ended::Frame(error) => {
            let _ = write_text(error_stream, frame_line(error).as_bytes());
            NO_MESSAGE
        }
        Ended::ReadFailed => report(&Fault::ReadFailed, error_stream),
        Ended::TooMany => report(&Fault::ReadFailed, error_stream),
        Ended::WriteFailed => report(&Fault::WriteFailed, error_stream),
        Ended::Memory => report(&Fault::Memory, error_stream),
    }
}

// Returns the status after `exit`.
fn exit_status(is_success: bool) -> u8
    ensures { result ≡ exit_status is_success }
{
    if is_success { 0 } else { 1 }
}

// Returns the line for bytes that begin with no message.
fn frame_line(error: FrameError) -> &'static str
    ensures { result.now ≡ frame_line error }
{
    match error {
        FrameError::Header => "message refused: malformed header\n",
        FrameError::Length => "message refused: no content length\n",
        FrameError::TooLong => "message refused: too long\n",
    }
}
