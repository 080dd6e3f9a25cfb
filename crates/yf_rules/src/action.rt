//! Runs an action over any reader and any writer. `specs/Runs/Action` has the definitions.
ghost use Rattle.std.specs.Prelude.{◌≡◌, IfErr, IfOk, MatchResult, OnOk};
ghost use Rattle.yf_rules.specs.Runs.Action.{ActionDone, ActionRefused};
ghost use Rattle.yf_rules.specs.Runs.ByteStream.{stream_of};
ghost use Rattle.yf_rules.specs.Runs.Run.{Gave, Keeps};

use crate::compare::run_fmt_check;
use crate::diff::run_fmt_diff;
use crate::finding::Finding;
use crate::run::{run_check_all, run_events, run_fmt};
use std::alloc::Global;
use yf_forms::style::Style;
use yf_lines::fault::Fault;
use yf_lines::text::OwnedText;
use yf_lines::watched::{Sink, Source};

/// An action on a stream.
#[derive(Clone, Copy)]
pub enum Action<'a> {
    /// Prints the events (`run_events`).
    Events,
    /// Prints the findings of all rules except those with these names (`run_check_all`).
    Check(&'a [OwnedText]),
    /// Prints the formatting (`run_fmt`).
    Format,
    /// Prints the position at which the text first differs from its formatting, if it does (`run_fmt_check`).
    Compare,
    /// Prints the unified diff of the text and its formatting, both under this name (`run_fmt_diff`).
    Diff(&'a str),
}

/// Reads all bytes and runs the action. Returns false if it reports a finding, or if `Compare` or `Diff` finds that the
/// text is not its own formatting. The bytes and the findings are kept for the caller. Only `Check` takes memory for
/// the rules.
///
/// # Errors
///
/// Fails like `run_events`, and writes nothing, except a prefix of what the action prints after `WriteFailed`.
pub fn run_action<R: Source, W: Sink>(
    alloc: Global,
    action: Action,
    style: &Style,
    reader: &mut R,
    kept: &mut Vec<u8>,
    found: &mut Vec<Finding>,
    writer: &mut W,
) -> Result<bool, Fault>
    ensures done { IfOk result (λ good. ActionDone action.entry style.now
        (stream_of R.remaining R.has_failed reader.old)
        (stream_of W.contents W.has_failed writer.old) (stream_of W.contents W.has_failed writer.new) good) }
    ensures reader { OnOk result (R.has_failed reader.new ≡ R.has_failed reader.old) }
    ensures bytes { MatchResult result (λ _. Gave (R.remaining reader.old) kept.new.items)
        (Keeps (R.remaining reader.old) kept.new.items) }
    ensures refusals { IfErr result (λ fault. ActionRefused action.entry style.now
        (stream_of R.remaining R.has_failed reader.old) (stream_of R.remaining R.has_failed reader.new)
        (stream_of W.contents W.has_failed writer.old) (stream_of W.contents W.has_failed writer.new) fault) }
{
    match action {
        Action::Events => match run_events(alloc, reader, kept, writer) {
            Ok(()) => Ok(true),
            Err(fault) => Err(fault),
        },
        Action::Check(without) => {
            match run_check_all(alloc, without, reader, kept, found, writer, style) {
                Ok(any) => Ok(!any),
                Err(fault) => Err(fault),
            }
        }
        Action::Format => match run_fmt(alloc, reader, kept, writer, style) {
            Ok(()) => Ok(true),
            Err(fault) => Err(fault),
        },
        Action::Compare => run_fmt_check(alloc, reader, kept, writer, style),
        Action::Diff(name) => run_fmt_diff(alloc, name, reader, kept, writer, style),
    }
}
