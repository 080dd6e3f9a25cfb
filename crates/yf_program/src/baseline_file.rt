//! The baseline that `--baseline` names.
ghost use Rattle.std.specs.Prelude.{◌≡◌, MatchResult};
ghost use Rattle.yf_host.specs.Ends.{InputsOpened};
ghost use Rattle.yf_host.specs.World.{StillKnown};
ghost use Rattle.yf_program.specs.BaselineFile.{BaselineRead, BaselineRefused, BaselineTaken, BaselineUntaken, HasEntries};
ghost use Rattle.yf_program.specs.BaselineFile.{HasNone, TellsUntaken, baseline_inputs, refusal_words, refused_line};
ghost use Rattle.yf_program.specs.BaselineFile.{untaken_of};
ghost use Rattle.yf_rules.specs.Runs.ByteStream.{WriteEnds, stream_of};

use crate::further::tell_file;
use std::alloc::{AllocError, Global};
use yf_baseline::listed::{Texts, lines_of};
use yf_baseline::read::read_baseline;
use yf_baseline::refusal::Refusal;
use yf_chars::utf8::check_utf8;
use yf_host::inputs::Inputs;
use yf_host::report::report_named;
use yf_lines::fault::Fault;
use yf_lines::output::write_texts;
use yf_lines::shown::write_shown;
use yf_lines::text::OwnedText;
use yf_lines::watched::{Sink, Source};
use yf_rules::input::read_all;
use yf_rules::run::INPUT_LIMIT;

/// The status if a text is not a baseline.
const NO_BASELINE: u8 = 3;

/// Why a baseline is not taken.
#[derive(Drop)]
pub enum NoBaseline {
    /// The file can't be read, or memory is refused.
    Unread(Fault),
    /// The text of the file is not a baseline.
    Refused(Refusal),
}

/// Returns the lines of the entries of the baseline with this name, or `None` without a name.
pub fn listed_by<I: Inputs>(
    alloc: Global,
    baseline: &Option<OwnedText>,
    inputs: &mut I,
) -> Result<Option<Texts>, NoBaseline>
    ensures opened { InputsOpened (I.claim inputs.old) (I.opened inputs.old) (I.opened inputs.new)
        (baseline_inputs baseline.now) }
    ensures same { StillKnown (I.claim inputs.old) (I.claim inputs.new) }
    ensures taken { MatchResult result (BaselineTaken (I.claim inputs.old) baseline.now)
        (BaselineUntaken (I.claim inputs.old) baseline.now) }
{
    let mut file = match baseline {
        Some(name) => match inputs.open_file(name.as_str()) {
            Ok(file) => file,
            Err(fault) => return Err(NoBaseline::Unread(fault)),
        },
        None => return Ok(None),
    };
    match read_listed(alloc, &mut file) {
        Ok(listed) => Ok(Some(listed)),
        Err(why) => Err(why),
    }
}

// Returns the lines of the entries of the baseline that a reader has.
fn read_listed<R: Source>(alloc: Global, reader: &mut R) -> Result<Texts, NoBaseline>
    ensures { MatchResult result (BaselineRead (R.remaining reader.old))
        (BaselineRefused (stream_of R.remaining R.has_failed reader.old)
        (stream_of R.remaining R.has_failed reader.new)) }
{
    match read_all(alloc, reader, INPUT_LIMIT) {
        Ok(bytes) => listed_in(alloc, bytes.as_slice()),
        Err(fault) => Err(NoBaseline::Unread(fault)),
    }
}

// Returns the lines of the entries of the baseline that these bytes are.
fn listed_in(alloc: Global, bytes: &[u8]) -> Result<Texts, NoBaseline>
    ensures { MatchResult result (HasEntries bytes.now) (HasNone bytes.now) }
{
    let text = match check_utf8(bytes) {
        Ok(text) => text,
        Err(_) => return Err(NoBaseline::Refused(Refusal::NotJson)),
    };
    match read_baseline(alloc, text) {
        Ok(entries) => match lines_of(alloc, entries.as_slice()) {
            Ok(listed) => Ok(listed),
            Err(AllocError) => Err(NoBaseline::Unread(Fault::Memory)),
        },
        Err(refusal) => Err(untaken_of(refusal)),
    }
}

// Returns why a text that is refused gives no baseline.
fn untaken_of(refusal: Refusal) -> NoBaseline
    ensures { result ≡ untaken_of refusal }
{
    match refusal {
        Refusal::Memory => NoBaseline::Unread(Fault::Memory),
        Refusal::NotJson => NoBaseline::Refused(Refusal::NotJson),
        Refusal::Version => NoBaseline::Refused(Refusal::Version),
        Refusal::Shape => NoBaseline::Refused(Refusal::Shape),
    }
}

/// Reports why the baseline with this name is not taken. If asked, it also prints the system's error for the file.
/// Returns the status.
pub fn report_untaken<I: Inputs, E: Sink>(
    alloc: Global,
    explain: bool,
    inputs: &I,
    name: &str,
    why: &NoBaseline,
    error_stream: &mut E,
) -> u8
    ensures { TellsUntaken explain name.now why.now result (stream_of E.contents E.has_failed error_stream.old)
        (stream_of E.contents E.has_failed error_stream.new) }
{
    match why {
        NoBaseline::Unread(fault) => {
            let status = report_named(fault, name, error_stream);
            tell_file(alloc, explain, inputs, name, fault, error_stream);
            status
        }
        NoBaseline::Refused(refusal) => {
            let _ = write_refused(name, *refusal, error_stream);
            NO_BASELINE
        }
    }
}

// Writes the line of a text that is not a baseline.
fn write_refused<E: Sink>(name: &str, refusal: Refusal, stream: &mut E) -> Result<(), Fault>
    ensures { WriteEnds (stream_of E.contents E.has_failed stream.old) (stream_of E.contents E.has_failed stream.new)
        (refused_line name.now refusal) result }
{
    write_shown(stream, name)?;
    write_texts(stream, &[": not a baseline: ", words_of(refusal), "\n"])
}

// Returns why a text is not a baseline, in words.
fn words_of(refusal: Refusal) -> &'static str
    ensures { result.now ≡ refusal_words refusal }
{
    match refusal {
        Refusal::Memory => "no memory",
        Refusal::NotJson => "not JSON",
        Refusal::Version => "the version is not 1",
        Refusal::Shape => "findings is not a list of entries",
    }
}
