//! The detail of a finding, and its range.
ghost use Rattle.std.specs.Prelude.{◌≡◌, ◌≤◌, length};
ghost use Rattle.std.specs.Str.{IsCharBoundary};
ghost use Rattle.yf_events.specs.declared.lists.Lists.{Lists};
ghost use Rattle.yf_findings.specs.Ranges.{FindingDetail, IsLocated, RangeOf, rule_of};
ghost use Rattle.yf_lines.specs.FaultPlaces.{InText};
ghost use Rattle.yf_lines.specs.Lines.{Table};
ghost use Rattle.yf_ranges.specs.Known.{AreKnown};
ghost use Rattle.yf_rule_sets.specs.RuleSets.Places.{IsCursor};

use crate::ends::end_place;
use crate::starts::start_of;
use yf_forms::style::Style;
use yf_lines::place::Position;
use yf_lines::source_text::Src;
use yf_ranges::detail::Detail;
use yf_ranges::details::detail_at;
use yf_ranges::known::KnownDetails;
use yf_report::problem::Range;
use yf_rule_sets::facts::cursor::Cursor;
use yf_rule_sets::rules::StyleRule;
use yf_rules::finding::Finding;

/// The detail of a finding, its range, and the cursor of the pass after it.
#[derive(Clone, Copy)]
pub(crate) struct Located {
    pub(crate) detail: Detail,
    pub(crate) range: Range,
    pub(crate) cursor: Cursor,
}

/// Returns the detail of a finding, and its range.
pub(crate) fn locate(
    src: &Src,
    style: &Style,
    known: &KnownDetails,
    cursor: Cursor,
    finding: &Finding,
) -> Located
    requires cursor { IsCursor src.now.text src.now.lines cursor }
    requires place { InText src.now.text finding.now.place }
    ensures located { (reading : Lists) → AreKnown src.now reading style.now known.now
        → IsLocated src.now reading style.now finding.now result.detail result.range }
    ensures cursor { IsCursor src.now.text src.now.lines result.cursor }
{
    let rule = rule_of(finding.number);
    let start = start_of(src, rule, cursor, finding.place);
    let detail = finding_detail(rule, src.text(), style, known, start.offset);
    Located {
        detail,
        range: range_of(src, start.cursor, finding.place, detail.span.end),
        cursor: start.cursor,
    }
}

// Returns the detail of a finding of a rule at an offset.
fn finding_detail(
    rule: StyleRule,
    text: &str,
    style: &Style,
    known: &KnownDetails,
    offset: usize,
) -> Detail
    requires { IsCharBoundary text.now offset }
    ensures { (src : Table) (reading : Lists) → src.text ≡ text.now → AreKnown src reading style.now known.now
        → FindingDetail rule src reading style.now offset result }
{
    match known.at(rule, offset) {
        Some(detail) => detail,
        None => detail_at(rule, text, style, offset),
    }
}

// Returns the range from a position to the position of an offset.
fn range_of(src: &Src, cursor: Cursor, place: Position, end: usize) -> Range
    requires cursor { IsCursor src.now.text src.now.lines cursor }
    ensures { RangeOf src.now.text place end result }
{
    if src.text().is_char_boundary(end) {
        let last = end_place(src, cursor, end);
        return Range {
            line: place.line,
            column: place.column,
            end_line: last.line,
            end_column: last.column,
        };
    }
    Range {
        line: place.line,
        column: place.column,
        end_line: place.line,
        end_column: place.column,
    }
}

// Returns the rule with a number.
fn rule_of(number: usize) -> StyleRule
    ensures { result ≡ rule_of number }
{
    match number {
        1 => StyleRule::TrailingBlanks,
        2 => StyleRule::Indentation,
        3 => StyleRule::Quoting,
        4 => StyleRule::DocumentStart,
        5 => StyleRule::FinalBreak,
        6 => StyleRule::LineBreaks,
        7 => StyleRule::ByteOrderMark,
        8 => StyleRule::BlankLines,
        9 => StyleRule::FlowLayout,
        10 => StyleRule::CommentSpace,
        11 => StyleRule::LineLength,
        12 => StyleRule::RepeatedKeys,
        13 => StyleRule::KeyMark,
        _ => StyleRule::HiddenCharacter,
    }
}
