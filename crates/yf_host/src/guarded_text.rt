//! The new text of a file, unless the file is skipped.
ghost use Rattle.std.specs.Prelude.{◌≡◌, Bool, None, false, string_bytes, IfErr, IfOk};
ghost use Rattle.yf_host.specs.Rewriting.{FormatsBytes, HasNoNewText, IsNewText, RefusesBytes};
ghost use Rattle.yf_host.specs.Rewriting.{no_text_line, no_text_status};
ghost use Rattle.yf_host.specs.LeftAlone.{LeavesBytes};
ghost use Rattle.yf_rules.specs.Runs.ByteStream.{WrittenOrFailed, stream_of};

use crate::files::NewText;
use crate::left_alone::report_left;
use crate::report::report;
use std::alloc::Global;
use yf_chars::utf8::{BadByte, check_utf8};
use yf_files::Formatter;
use yf_forms::style::Style;
use yf_guard::guarded::Guarded;
use yf_guarded::formatting::{DataFormatting, format_data};
use yf_guarded::judge::judge;
use yf_lines::fault::Fault;
use yf_lines::watched::Sink;

/// The new text of a file, unless the text of the file is no data.
#[derive(Clone, Copy)]
pub struct GuardedText<'a> {
    /// Whether texts that are no data are taken like any other.
    pub any_text: bool,
    /// The new text.
    pub new_text: NewText<'a>,
}

/// Why the bytes of a file have no new text.
#[derive(Drop)]
pub enum NoNewText {
    /// They are refused.
    Refused(Fault),
    /// They are a text that is no data, so the file is skipped.
    LeftAlone(Guarded),
}

impl Formatter for GuardedText<'_> {
    type Error = NoNewText;

    ghost use Rattle.yf_host.specs.Rewriting.{claim_of};

    ghost Formats = { λ it bytes text. (claim_of it).Formats bytes text };

    ghost Refuses = { λ it bytes why. (claim_of it).Refuses bytes why };

    fn format(&self, alloc: Global, bytes: &[u8]) -> Result<String, NoNewText> {
        if self.any_text {
            return new_text_of(alloc, &self.new_text, bytes);
        }
        match self.new_text {
            NewText::Formatted(style) => formatting_of_data(alloc, style, bytes),
            NewText::Part(_, _) => new_text_of_data(alloc, &self.new_text, bytes),
        }
    }
}

// Returns the new text of a file with these bytes.
fn new_text_of(alloc: Global, new_text: &NewText<'_>, bytes: &[u8]) -> Result<String, NoNewText>
    ensures formats { IfOk result (λ text. IsNewText new_text.now bytes.now (string_bytes text)) }
    ensures refuses { IfErr result (λ why. (any_text : Bool) → HasNoNewText any_text bytes.now why) }
{
    match new_text.format(alloc, bytes) {
        Ok(text) => Ok(text),
        Err(fault) => Err(NoNewText::Refused(fault)),
    }
}

// Returns the formatting of a file with these bytes, unless their text is no data. The text is read once.
fn formatting_of_data(alloc: Global, style: &Style, bytes: &[u8]) -> Result<String, NoNewText>
    ensures formats { IfOk result (λ text. LeavesBytes false bytes.now None
        × FormatsBytes style.now bytes.now (string_bytes text)) }
    ensures refuses { IfErr result (HasNoNewText false bytes.now) }
{
    match check_utf8(bytes) {
        Ok(text) => match format_data(alloc, text, style) {
            Ok(DataFormatting::Formatted(formatted)) => Ok(formatted),
            Ok(DataFormatting::NoData(why)) => Err(NoNewText::LeftAlone(why)),
            Err(fault) => Err(NoNewText::Refused(fault)),
        },
        Err(BadByte { offset }) => Err(NoNewText::Refused(Fault::NotUtf8 { offset })),
    }
}

// Returns the new text of a file with these bytes, unless their text is no data. The text is read first for that.
fn new_text_of_data(
    alloc: Global,
    new_text: &NewText<'_>,
    bytes: &[u8],
) -> Result<String, NoNewText>
    ensures formats { IfOk result (λ text. LeavesBytes false bytes.now None
        × IsNewText new_text.now bytes.now (string_bytes text)) }
    ensures refuses { IfErr result (HasNoNewText false bytes.now) }
{
    match left_alone(alloc, bytes) {
        Ok(None) => new_text_of(alloc, new_text, bytes),
        Ok(Some(why)) => Err(NoNewText::LeftAlone(why)),
        Err(fault) => Err(NoNewText::Refused(fault)),
    }
}

// Returns why the text of these bytes is no data, or `None` if it is data.
fn left_alone(alloc: Global, bytes: &[u8]) -> Result<Option<Guarded>, Fault>
    ensures left { IfOk result (λ found. LeavesBytes false bytes.now found) }
    ensures refuses { IfErr result (RefusesBytes bytes.now) }
{
    match check_utf8(bytes) {
        Ok(text) => judge(alloc, text, true),
        Err(BadByte { offset }) => Err(Fault::NotUtf8 { offset }),
    }
}

/// Writes the line of bytes without a new text, and returns its status.
pub fn report_no_text<E: Sink>(why: &NoNewText, error_stream: &mut E) -> u8
    ensures status { result ≡ no_text_status why.now }
    ensures line { WrittenOrFailed (stream_of E.contents E.has_failed error_stream.old)
        (stream_of E.contents E.has_failed error_stream.new) (no_text_line why.now) }
{
    match why {
        NoNewText::Refused(fault) => report(fault, error_stream),
        NoNewText::LeftAlone(why) => report_left(*why, error_stream),
    }
}
