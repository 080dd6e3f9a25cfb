//! What `--explain` prints about findings: what `fmt` does about each, the position of the first of repeated keys, and
//! the expected column.

use crate::expected_columns::{Expected, expected_columns, expected_places};
use crate::repeated_keys::first_place;
use std::alloc::{AllocError, Global};
use yf_chars::utf8::check_utf8;
use yf_events::reading::Reading;
use yf_explain::{Page, push_line};
use yf_forms::style::Style;
use yf_lines::place::Position;
use yf_lines::source_text::Src;
use yf_rule_sets::facts::places::known_positions;
use yf_rules::finding::Finding;
use yf_stream::stream::read_stream;

/// The rule with findings that have an earlier key elsewhere.
const REPEATED: &str = "repeated-keys";

/// The rule with findings that have an expected column.
const INDENTATION: &str = "indentation";

/// The names of findings, and what `fmt` does about a finding of each name.
static WORDS: [(&str, &str); 16] = [
    (
        "no-data",
        "fmt --write skips this file: a document is plain text over several lines, which fmt would join",
    ),
    (
        "template",
        "fmt --write skips this file: it looks like a template",
    ),
    ("trailing-blanks", "fmt removes this white space"),
    (
        "indentation",
        "fmt indents it as the settings `indent` and `seq_indent` say",
    ),
    ("quoting", "fmt writes it in the quotes of the house style"),
    (
        "document-start",
        "fmt writes `---` on a line of its own before it",
    ),
    ("final-break", "fmt ends the text with a line feed"),
    ("line-breaks", "fmt ends each line with a line feed"),
    ("byte-order-mark", "fmt removes the mark"),
    ("blank-lines", "fmt removes this blank line"),
    (
        "flow-layout",
        "fmt writes these brackets on one line, or as a block",
    ),
    ("comment-space", "fmt writes two spaces before this comment"),
    (
        "line-length",
        "fmt breaks lines only at brackets, so this line stays",
    ),
    ("repeated-keys", "fmt does not change it"),
    ("key-mark", "fmt writes this key without `?`"),
    ("hidden-character", "fmt escapes it only in quoted scalars"),
];

/// The greatest number of events that the search for the first of repeated keys passes in one text.
const STEPS: usize = 10_000_000;

/// Details of a finding, from the reading of its text.
#[derive(Clone, Copy)]
enum Detail {
    /// No details.
    None,
    /// The position of the first of the repeated keys.
    First(Position),
    /// The expected column.
    Column(Expected),
}

/// Returns a page with a line for each finding of a text.
///
/// # Errors
///
/// `AllocError` if memory is refused.
pub fn findings_page(
    alloc: Global,
    bytes: &[u8],
    findings: &[Finding],
    style: &Style,
) -> Result<Page, AllocError> {
    let mut page = Page::new(alloc);
    let text = match check_utf8(bytes) {
        Ok(text) => text,
        Err(_) => return Err(AllocError),
    };
    if need_reading(findings) {
        push_read(alloc, &mut page, text, findings, style)?;
        return Ok(page);
    }
    for finding in findings {
        push_finding(alloc, &mut page, finding, Detail::None)?;
    }
    Ok(page)
}

// Returns whether the reading of the text has details about one of the findings.
fn need_reading(findings: &[Finding]) -> bool {
    for finding in findings {
        if finding.id == REPEATED || finding.id == INDENTATION {
            return true;
        }
    }
    false
}

// Adds the lines of findings, with details from the reading of their text.
fn push_read(
    alloc: Global,
    page: &mut Page,
    text: &str,
    findings: &[Finding],
    style: &Style,
) -> Result<(), AllocError> {
    let src = Src::new(alloc, text)?;
    match read_stream(alloc, text) {
        Ok(reading) => {
            let expected = expected_columns(alloc, &src, &reading, style)?;
            let columns = expected_places(alloc, &src, expected.as_slice())?;
            push_with_reading(
                alloc,
                page,
                &src,
                &reading,
                findings,
                expected.as_slice(),
                columns.as_slice(),
            )
        }
        Err(_) => Err(AllocError),
    }
}

// Adds the lines of findings, given the expected columns of the text and their positions.
fn push_with_reading(
    alloc: Global,
    page: &mut Page,
    src: &Src,
    reading: &Reading,
    findings: &[Finding],
    expected: &[Expected],
    columns: &[Position],
) -> Result<(), AllocError> {
    let places = event_places(alloc, src, reading)?;
    let mut steps = STEPS;
    let mut from = 0;
    let mut next = 0;
    for finding in findings {
        let mut detail = Detail::None;
        if finding.id == REPEATED {
            from = first_at(places.as_slice(), finding.place, from);
            detail = detail_of_first(first_place(
                reading,
                places.as_slice(),
                finding.place,
                from,
                &mut steps,
            ));
        }
        if finding.id == INDENTATION {
            next = first_at(columns, finding.place, next);
            detail = detail_of_column(expected, columns, finding.place, next);
        }
        push_finding(alloc, page, finding, detail)?;
    }
    Ok(())
}

// Returns the details of a repeated key.
fn detail_of_first(first: Option<Position>) -> Detail {
    match first {
        Some(first) => Detail::First(first),
        None => Detail::None,
    }
}

// Returns the expected column with this index, if it belongs to this position.
fn detail_of_column(
    expected: &[Expected],
    columns: &[Position],
    place: Position,
    index: usize,
) -> Detail {
    if index >= columns.len() {
        return Detail::None;
    }
    if columns[index] != place {
        return Detail::None;
    }
    match expected.get(index) {
        Some(expected) => Detail::Column(*expected),
        None => Detail::None,
    }
}

// Adds the line of a finding.
fn push_finding(
    alloc: Global,
    page: &mut Page,
    finding: &Finding,
    detail: Detail,
) -> Result<(), AllocError> {
    let place = finding.place;
    let words = words_on(finding.id);
    let line = match detail {
        Detail::First(first) => format!(in alloc;
            "{}:{} {}: {words}; the first one is at {}:{}",
            place.line, place.column, finding.id, first.line, first.column
        )?,
        Detail::Column(expected) => {
            let what = if expected.is_scalar {
                "expected its lines at"
            } else {
                "expected at"
            };
            format!(in alloc;
                "{}:{} {}: {what} column {}; {words}",
                place.line, place.column, finding.id, expected.column
            )?
        }
        Detail::None => {
            format!(in alloc; "{}:{} {}: {words}", place.line, place.column, finding.id)?
        }
    };
    push_line(page, line.as_str())
}

// Returns what `fmt` does about a finding of a rule.
fn words_on(id: &str) -> &'static str {
    for (name, words) in &WORDS {
        if *name == id {
            return words;
        }
    }
    "fmt does nothing about it"
}

// Returns the position of each event of a reading. It passes over the text once. An event that is no part of the text
// has the position of the event before it.
fn event_places(alloc: Global, src: &Src, reading: &Reading) -> Result<Vec<Position>, AllocError> {
    let mut starts = Vec::new(alloc);
    let mut start = 0;
    for index in 0..reading.len() {
        if let Some(span) = reading.span(index) {
            start = span.start;
        }
        starts.push(start)?;
    }
    known_positions(alloc, src, starts.as_slice())
}

// Returns the index of the first position from `from` on that is not before `place`. The positions ascend.
fn first_at(places: &[Position], place: Position, from: usize) -> usize {
    for index in from..places.len() {
        if !is_before(places[index], place) {
            return index;
        }
    }
    places.len()
}

fn is_before(place: Position, other: Position) -> bool {
    place.line < other.line || (place.line == other.line && place.column < other.column)
}
