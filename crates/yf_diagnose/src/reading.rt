//! The second reading of a refused part. Offsets count bytes.
ghost use Rattle.std.specs.Prelude.{◌+◌, ◌<◌, ◌≤◌, IfSome};
ghost use Rattle.std.specs.Str.{IsCharBoundary};
ghost use Rattle.yf_diagnose.specs.SecondReadings.{IsDiagnosis, IsDiagnosed, IsReadFrom};

use crate::diagnosis::{Diagnosis, Mistake, after, here, told};
use crate::guess::guessed;
use crate::joined::item_why;
use crate::keys::{content_end, is_comment_at, joined, key_diagnosis, without_colon};
use crate::leaves::is_quote_at;
use crate::lines::{Margin, comment_end, line_ends, sign_why};
use crate::look::{
    begun_line, first_tab, is_indicator_at, is_passed, line_before, line_start, whites_before,
    word_before,
};
use crate::plain::{plain_begun, plain_end};
use crate::property::{is_property_at, name_end, property_end};
use crate::quoted::quoted_end;
use crate::rest::{blank_lines_end, directive_end, header_end, rest_end};
use crate::standing::{Standing, closes, key_line, standing_at};
use crate::why::Why;
use yf_chars::context::Ctx;
use yf_chars::text::is_char_at;
use yf_lines::basic::{is_marker_at, skip_whites};
use yf_lines::table::skip_marks;

/// Returns why a text is not a stream, and at which offset. The reading of the text stopped at `stop`.
///
/// It reads the refused part again: the node or the key, the header, the directive, or the line.
pub fn diagnose(text: &str, stop: usize) -> Diagnosis
    requires { IsCharBoundary text.now stop }
    ensures { IsDiagnosis text.now stop result }
{
    let sign = skip_whites(text, stop);
    let diagnosis = diagnosis_at(text, stop, sign);
    Diagnosis {
        why: guessed(text, diagnosis.at, diagnosis.why),
        ..diagnosis
    }
}

// Diagnoses the refusal if the first sign from `stop` on is at `sign`.
fn diagnosis_at(text: &str, stop: usize, sign: usize) -> Diagnosis
    requires stop { IsCharBoundary text.now stop }
    requires sign { IsCharBoundary text.now sign }
    requires order { stop ≤ sign }
    ensures { IsDiagnosed text.now sign result }
{
    let start = line_start(text, stop);
    let base = skip_marks(text, start);
    if skip_whites(text, base) >= stop {
        return at_first(text, start, sign);
    }
    if is_marker_at(text, base) {
        if stop == base + 3 {
            return told(
                text,
                stop,
                rest_end(text, stop, Why::AfterDocumentEnd),
                Why::AfterDocumentEnd,
            );
        }
    }
    after_text(text, start, sign)
}

// Diagnoses a sign after other text of its line.
fn after_text(text: &str, start: usize, at: usize) -> Diagnosis
    requires start { IsCharBoundary text.now start }
    requires boundary { IsCharBoundary text.now at }
    ensures { IsDiagnosed text.now at result }
{
    if is_comment_at(text, at) {
        return match comment_end(text, at) {
            Err(wrong) => after(at, wrong),
            Ok(_) => without_colon(text, start, at),
        };
    }
    if line_ends(text, at) {
        return without_colon(text, start, at);
    }
    let word = word_before(text, at);
    if word < at {
        if is_property_at(text, word) {
            return match property_end(text, word) {
                Err(wrong) => after(word, wrong),
                Ok(_) => here(at, Why::PropertyUnspaced),
            };
        }
    }
    at_sign(text, start, at)
}

// Diagnoses the first sign of a line.
fn at_first(text: &str, start: usize, at: usize) -> Diagnosis
    requires start { IsCharBoundary text.now start }
    requires boundary { IsCharBoundary text.now at }
    requires order { start ≤ at }
    ensures { IsDiagnosed text.now at result }
{
    if line_ends(text, at) {
        return told(text, start, blank_lines_end(text, start), Why::NodeEnded);
    }
    if is_char_at(text, at, b'#') {
        return told(text, at, comment_end(text, at), Why::LeftInScalar);
    }
    if is_mark_inside(text, start) {
        return here(start, Why::Mark);
    }
    if is_char_at(text, at, b'%') {
        if at == skip_marks(text, start) {
            return at_percent(text, at);
        }
    }
    at_sign(text, start, at)
}

// Returns whether the line begins with a byte order mark, and a line above it belongs to the same document.
fn is_mark_inside(text: &str, start: usize) -> bool
    requires { IsCharBoundary text.now start }
{
    if skip_marks(text, start) == start {
        return false;
    }
    let mut line = start;
    'lines: while line > 0 {
        line = line_before(text, line);
        if !is_passed(text, line) {
            return !is_char_at(text, skip_marks(text, line), b'.');
        }
    }
    false
}

// Diagnoses a `%` at the start of a line.
fn at_percent(text: &str, at: usize) -> Diagnosis
    requires boundary { IsCharBoundary text.now at }
    requires inside { IsCharBoundary text.now (at + 1) }
    ensures { IsDiagnosed text.now at result }
{
    match standing_at(text, at) {
        Standing::Node(_) | Standing::Beyond(Why::NoDocumentStart) => match directive_end(
            text, at,
        ) {
            Err(wrong) => after(at, wrong),
            Ok(_) => here(at, Why::NoPlain),
        },
        Standing::Key(_) | Standing::Beyond(_) => here(at, Why::DirectivePlace),
    }
}

// Diagnoses any other sign of a line.
fn at_sign(text: &str, start: usize, at: usize) -> Diagnosis
    requires start { IsCharBoundary text.now start }
    requires boundary { IsCharBoundary text.now at }
    ensures { IsDiagnosed text.now at result }
{
    let standing = standing_at(text, at);
    if let Some(tab) = tab_of(text, start, at, standing) {
        return tab;
    }
    let diagnosis = standing_diagnosis(text, at, standing);
    if diagnosis.at != at {
        return diagnosis;
    }
    match tab_before(text, start, at) {
        Some(tab) => here(tab, Why::TabBeforeEntry),
        None => here(at, sign_why(text, at, diagnosis.why)),
    }
}

// Diagnoses the first tab of a line before its first sign, if spaces must be there.
fn tab_of(text: &str, start: usize, at: usize, standing: Standing) -> Option<Diagnosis>
    requires { IsCharBoundary text.now start }
    ensures { IfSome result (IsDiagnosed text.now at) }
{
    let base = skip_marks(text, start);
    match first_tab(text, base, at) {
        None => None,
        Some(tab) => {
            if skip_whites(text, tab) < at {
                return None;
            }
            if is_indented(standing, tab.saturating_sub(base)) {
                return None;
            }
            Some(here(tab, Why::TabIndents))
        }
    }
}

// Returns whether that number of spaces indents a part with that standing.
fn is_indented(standing: Standing, width: usize) -> bool {
    match standing {
        Standing::Node(least) => width >= least,
        Standing::Key(_) | Standing::Beyond(_) => false,
    }
}

// Returns the first tab before an entry, or its key, on its line.
fn tab_before(text: &str, start: usize, at: usize) -> Option<usize>
    requires { IsCharBoundary text.now start }
    ensures boundary { IfSome result (IsCharBoundary text.now) }
    ensures order { IfSome result (λ tab. tab < at) }
{
    if !is_indicator_at(text, at) {
        return None;
    }
    let line = begun_line(text, start, at);
    if line.at < at {
        if !is_char_at(text, at, b':') {
            return None;
        }
    }
    match line.tab {
        None => None,
        Some(tab) => {
            if tab < at {
                return Some(tab);
            }
            None
        }
    }
}

// Diagnoses the part at the offset, with that standing.
fn standing_diagnosis(text: &str, at: usize, standing: Standing) -> Diagnosis
    requires { IsCharBoundary text.now at }
    ensures { IsDiagnosed text.now at result }
{
    match standing {
        Standing::Beyond(Why::LineJoined) => joined(text, at),
        Standing::Beyond(Why::ItemBelowText) => here(at, item_why(text, line_start(text, at))),
        Standing::Beyond(why) => here(at, beyond_why(text, at, why)),
        Standing::Node(least) => told(
            text,
            at,
            node_end(text, at, Margin { least, key: false }),
            node_why(text, at, false),
        ),
        Standing::Key(least) => {
            if is_property_at(text, at) {
                return key_diagnosis(text, at);
            }
            told(
                text,
                at,
                node_end(text, at, Margin { least, key: true }),
                node_why(text, at, true),
            )
        }
    }
}

// Returns the reason, made more exact by the sign itself.
fn beyond_why(text: &str, at: usize, why: Why) -> Why {
    match why {
        Why::KeyInSequence => {
            if is_char_at(text, at, b'-') {
                return Why::DashUnspaced;
            }
            why
        }
        Why::AfterBrackets | Why::AfterNode => {
            if closes(text, at) {
                return Why::NoBracketOpen;
            }
            why
        }
        _ => why,
    }
}

// Returns the end of the node that begins at the offset, or of its properties.
fn node_end(text: &str, at: usize, margin: Margin) -> Result<usize, Mistake>
    requires { IsCharBoundary text.now at }
    ensures { IsReadFrom text.now at result }
{
    if is_property_at(text, at) {
        return match property_end(text, at) {
            Ok(end) => Ok(end),
            Err(wrong) => Err(wrong),
        };
    }
    if is_char_at(text, at, b'|') {
        return scalar_end(text, at, margin);
    }
    if is_char_at(text, at, b'>') {
        return scalar_end(text, at, margin);
    }
    content_end(text, at, margin)
}

// Returns the end of a block scalar's header. A block scalar can't be a key.
fn scalar_end(text: &str, at: usize, margin: Margin) -> Result<usize, Mistake>
    requires boundary { IsCharBoundary text.now at }
    requires inside { IsCharBoundary text.now (at + 1) }
    ensures { IsReadFrom text.now at result }
{
    if margin.key {
        return Ok(at);
    }
    match header_end(text, at) {
        Ok(end) => Ok(end),
        Err(wrong) => Err(wrong),
    }
}

// Returns why a node or a key that begins with that sign and was read to its end can't be there.
fn node_why(text: &str, at: usize, key: bool) -> Why
    requires { IsCharBoundary text.now at }
{
    if closes(text, at) {
        return Why::NoBracketOpen;
    }
    if is_indicator_at(text, at) {
        return indicator_why(text, at, key);
    }
    if is_char_at(text, at, b'*') {
        return Why::AliasProperties;
    }
    if is_property_at(text, at) {
        return Why::PropertyTwice;
    }
    if key {
        if is_char_at(text, at, b'|') {
            return Why::ScalarAsKey;
        }
        if is_char_at(text, at, b'>') {
            return Why::ScalarAsKey;
        }
    }
    if begins_leaf(text, at) {
        return Why::NodeEnded;
    }
    Why::NoPlain
}

// Returns whether a leaf or a bracket begins at the offset.
fn begins_leaf(text: &str, at: usize) -> bool
    requires { IsCharBoundary text.now at }
{
    if is_quote_at(text, at) {
        return true;
    }
    if is_char_at(text, at, b'[') {
        return true;
    }
    if is_char_at(text, at, b'{') {
        return true;
    }
    plain_begun(text, at, Ctx::FlowOut).is_some()
}

// Returns why no collection can begin at the offset with its indicator.
fn indicator_why(text: &str, at: usize, key: bool) -> Why {
    if key {
        if is_char_at(text, at, b'-') {
            return Why::DashInMapping;
        }
        return Why::NodeEnded;
    }
    if is_property_at(text, word_before(text, whites_before(text, at))) {
        return Why::CollectionAfterProperty;
    }
    if begun_line(text, line_start(text, at), at).marker {
        return Why::OnDocumentLine;
    }
    Why::SequenceInLine
}
