//! Properties of every formatted stream: its content is unchanged, with the same comments at the same places, it has no
//! finding that can be fixed, and formatting it again changes nothing.
ghost use Rattle.std.specs.Prelude.{◌≤◌};

use crate::tests::answers::{formatted, reading_of};
use crate::tests::comments::{IN_BLOCKS, MANIFESTS};
use crate::tests::fmt::FORMATTED;
use std::alloc::{AllocError, Global};
use yf_events::content::Content;
use yf_events::reading::Reading;
use yf_forms::style::{CommentColumns, DocumentStart, Style};
use yf_lines::fault::Fault;
use yf_lines::invisible::Invisible;
use yf_lines::quotes::Quotes;
use yf_lines::source_text::Src;
use yf_rules::check::check;
use yf_rules::finding::Finding;
use yf_rules::rule::Rule;
use yf_rules::with_rules::{WithRules, with_all_rules};

/// Returns whether two readings have equal comments at equal places. White space at the ends of comments doesn't count.
fn has_same_comments(one: &Reading, other: &Reading) -> bool {
    let count = one.comments().len();
    if other.comments().len() != count {
        return false;
    }
    for k in 0..count {
        let text = one.comments()[k].text.trim_end_matches([' ', '\t']);
        let other_text = other.comments()[k].text.trim_end_matches([' ', '\t']);
        if text != other_text || one.place_of(k) != other.place_of(k) {
            return false;
        }
    }
    true
}

/// Returns whether two contents are equal, or `None` if one of them is refused.
fn are_same(one: &Result<Content, Fault>, other: &Result<Content, Fault>) -> Option<bool> {
    match (one, other) {
        (Ok(content), Ok(other_content)) => Some(content == other_content),
        _ => None,
    }
}

/// Returns whether two readings have equal contents, or `None` if the content of one is refused.
pub fn has_same_content(alloc: Global, one: &Reading, other: &Reading) -> Option<bool> {
    are_same(&one.content(alloc), &other.content(alloc))
}

/// The rules and the style with which a text is tested.
#[derive(Clone, Copy)]
struct Trial<'a> {
    alloc: Global,
    rules: &'a [Box<dyn Rule>],
    style: &'a Style,
}

/// Returns whether no finding can be fixed.
fn are_none_fixable(found: &Result<Vec<Finding>, Fault>) -> bool {
    match found {
        Ok(findings) => !findings.iter().any(|finding| finding.fixable),
        Err(_) => false,
    }
}

/// Returns whether formatting a text again changes nothing.
fn is_fixed(again: &Result<String, Fault>, text: &str) -> bool {
    match again {
        Ok(again) => again.as_str() == text,
        Err(_) => false,
    }
}

/// The result of reading a text.
type Read<'a> = Result<Reading<'a>, Fault>;

/// Returns whether a formatted stream has all properties. `reading` is the reading before formatting, and `read` is the
/// result of reading the formatted source.
fn is_in_order(trial: Trial, reading: &Reading, src: &Src, read: &Read) -> bool {
    let Trial {
        alloc,
        rules,
        style,
    } = trial;
    match read {
        Ok(read) => {
            matches!(has_same_content(alloc, reading, read), Some(true))
                && has_same_comments(reading, read)
                && are_none_fixable(&check(alloc, rules, &[], src, read, style))
                && is_fixed(&formatted(alloc, src.text(), style), src.text())
        }
        Err(_) => false,
    }
}

/// Returns whether a formatted text has all properties.
fn is_text_in_order(trial: Trial, reading: &Reading, text: &str) -> bool {
    match &Src::new(trial.alloc, text) {
        Ok(src) => is_in_order(trial, reading, src, &reading_of(trial.alloc, src.text())),
        Err(AllocError) => false,
    }
}

/// Returns whether the laws hold for the reading of a text and for its formatting: both fail, or the formatting has all
/// properties.
fn hold_of(trial: Trial, read: &Read, formatted: &Result<String, Fault>) -> bool {
    match (read, formatted) {
        (Ok(reading), Ok(text)) => is_text_in_order(trial, reading, text.as_str()),
        (read, formatted) => read.is_err() && formatted.is_err(),
    }
}

/// Returns whether the laws hold for a text.
fn hold_for(trial: Trial, text: &str) -> bool {
    let Trial { alloc, style, .. } = trial;
    hold_of(
        trial,
        &reading_of(alloc, text),
        &formatted(alloc, text, style),
    )
}

/// Values of five settings: quotes, columns of sequences, starts of documents, columns of comments, and hidden
/// characters.
type Choice = (Quotes, bool, DocumentStart, CommentColumns, Invisible);

/// The settings for narrow lines and those for wide lines. Any two values of two settings occur together in one of
/// these rows.
static NARROW: [Choice; 3] = [
    (
        Quotes::Single,
        false,
        DocumentStart::Always,
        CommentColumns::Block,
        Invisible::Plain,
    ),
    (
        Quotes::Single,
        true,
        DocumentStart::Keep,
        CommentColumns::Next,
        Invisible::Plain,
    ),
    (
        Quotes::Double,
        false,
        DocumentStart::Always,
        CommentColumns::Block,
        Invisible::Escaped,
    ),
];

static WIDE: [Choice; 3] = [
    (
        Quotes::Double,
        true,
        DocumentStart::Always,
        CommentColumns::Next,
        Invisible::Plain,
    ),
    (
        Quotes::Single,
        false,
        DocumentStart::Keep,
        CommentColumns::Next,
        Invisible::Escaped,
    ),
    (
        Quotes::Double,
        true,
        DocumentStart::Keep,
        CommentColumns::Block,
        Invisible::Escaped,
    ),
];

/// Returns whether the laws hold for a text in lines of this width, with these settings.
fn hold_under(
    alloc: Global,
    rules: &[Box<dyn Rule>],
    indent: usize,
    max_line: usize,
    choices: &[Choice],
    text: &str,
) -> bool
    requires from { 2 ≤ indent }
    requires to { indent ≤ 8 }
    requires line_from { 40 ≤ max_line }
    requires line_to { max_line ≤ 1000 }
{
    for choice in choices {
        let (quotes, seq_indent, document_start, comments, invisible) = *choice;
        let style = Style {
            indent,
            max_line,
            quotes,
            seq_indent,
            document_start,
            comments,
            invisible,
        };
        let trial = Trial {
            alloc,
            rules,
            style: &style,
        };
        if !hold_for(trial, text) {
            return false;
        }
    }
    true
}

/// Returns whether the laws hold for a text with each value of each setting except the indentation.
fn hold_at(alloc: Global, rules: &[Box<dyn Rule>], indent: usize, text: &str) -> bool
    requires from { 2 ≤ indent }
    requires to { indent ≤ 8 }
{
    hold_under(alloc, rules, indent, 40, &NARROW, text)
        && hold_under(alloc, rules, indent, 100, &WIDE, text)
}

/// Returns whether the laws hold for a text with all indentations.
fn hold_in(alloc: Global, rules: &[Box<dyn Rule>], text: &str) -> bool {
    for indent in 2..=8 {
        if !hold_at(alloc, rules, indent, text) {
            return false;
        }
    }
    true
}

/// Returns whether the laws hold for a text that is cut at each character.
fn hold_in_cuts(alloc: Global, rules: &[Box<dyn Rule>], text: &str) -> bool {
    for at in 0..text.len() {
        if text.is_char_boundary(at) && !hold_at(alloc, rules, 2, &text[..at]) {
            return false;
        }
    }
    true
}

/// Tests the laws for a text, whole or cut.
#[derive(Drop)]
struct Laws {
    alloc: Global,
    text: &'static str,
    is_cut: bool,
}

impl WithRules for Laws {
    type Value = bool;

    /// Returns whether the laws hold for the text, with these rules.
    fn with_rules(&mut self, rules: &[Box<dyn Rule>]) -> bool {
        if self.is_cut {
            hold_in_cuts(self.alloc, rules, self.text)
        } else {
            hold_in(self.alloc, rules, self.text)
        }
    }
}

/// Returns whether the laws hold for a text, with all rules.
fn laws_hold(alloc: Global, text: &'static str, is_cut: bool) -> bool {
    let mut laws = Laws {
        alloc,
        text,
        is_cut,
    };
    matches!(with_all_rules(alloc, &mut laws), Ok(true))
}

#[test]
fn laws_of_rows(rt: HostRuntime) {
    for (_, text, _) in &FORMATTED {
        assert!(rt; laws_hold(rt.alloc(), text, false), "{text}");
    }
}

#[test]
fn laws_of_cuts(rt: HostRuntime) {
    for (_, text, _) in &FORMATTED {
        assert!(rt; laws_hold(rt.alloc(), text, true), "{text}");
    }
}

#[test]
fn laws_of_comments(rt: HostRuntime) {
    for (_, text, _) in &IN_BLOCKS {
        assert!(rt; laws_hold(rt.alloc(), text, false), "{text}");
    }
    for (_, text, _) in &MANIFESTS {
        assert!(rt; laws_hold(rt.alloc(), text, false), "{text}");
    }
}

#[test]
fn laws_of_cut_comments(rt: HostRuntime) {
    for (_, text, _) in &IN_BLOCKS {
        assert!(rt; laws_hold(rt.alloc(), text, true), "{text}");
    }
}
