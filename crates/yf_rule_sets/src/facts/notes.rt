//! Notes on each line.
ghost use Rattle.std.specs.Prelude.{◌≡◌, ◌<◌, ℕ, false, get_or, length, IfOk, MatchBool};
ghost use Rattle.yf_rule_sets.specs.RuleSets.BlankLines.{DirectiveIn, DirectiveOf, HasOffset, IsBlank, MarkerOf};
ghost use Rattle.yf_rule_sets.specs.Passes.BlankNotes.{AreNotes, BlankUnless, MarkerThere};
ghost use Rattle.yf_rule_sets.specs.Passes.LineFlags.{FlagsAdded, ListTells};
ghost use Rattle.yf_rule_sets.specs.RuleSets.Whites.{IsAlone};

use crate::facts::flagged_lines::scalar_lines;
use crate::facts::line_starts::lines_begun;
use crate::facts::markers::markers;
use crate::facts::whites::{ends_in_text, is_white_line};
use std::alloc::{AllocError, Global};
use yf_chars::text::is_char_at;
use yf_events::directive::Directive;
use yf_events::reading::Reading;
use yf_lines::basic::skip_whites;
use yf_lines::source_text::Src;

/// Notes on each line, by its index.
#[derive(Drop)]
pub struct Notes {
    /// Whether it holds only white space and is part of no scalar.
    pub blank: Vec<bool>,
    /// Whether it holds a document's `---` with only white space after it.
    pub markers: Vec<bool>,
    /// Whether it holds a directive.
    pub directives: Vec<bool>,
}

/// Returns whether only white space follows the `---` at that offset, on its line.
pub fn is_alone(text: &str, marker: usize) -> bool
    ensures { MatchBool result (IsAlone text.now marker) (IsAlone text.now marker → ⊥) }
{
    if marker >= text.len() {
        return false;
    }
    let follows = marker + 3;
    if !text.is_char_boundary(follows) {
        return false;
    }
    let end = skip_whites(text, follows);
    if is_char_at(text, end, b'\n') {
        return true;
    }
    if is_char_at(text, end, b'\r') {
        return true;
    }
    if end == text.len() {
        return true;
    }
    false
}

/// Flags the line that holds the byte offset. Returns how many lines begin up to the offset.
fn note_line(list: &mut Vec<bool>, src: &Src, hint: usize, offset: usize) -> usize
    requires { length list.old.items ≡ length src.now.lines }
    ensures { FlagsAdded list.old.items list.new.items (HasOffset src.now offset) }
{
    let begun = lines_begun(src, hint, offset);
    if begun > 0 {
        if offset < src.lines().line(begun - 1).next {
            list[begun - 1] = true;
        }
    }
    begun
}

/// Flags the lines of directives. Returns how many lines begin up to the last directive.
fn note_directives(list: &mut Vec<bool>, src: &Src, hint: usize, directives: &[Directive]) -> usize
    requires { length list.old.items ≡ length src.now.lines }
    ensures { FlagsAdded list.old.items list.new.items (λ k. (j : ℕ) × DirectiveIn src.now directives.now j k) }
{
    let mut hint = hint;
    for j in 0..directives.len() {
        hint = note_line(list, src, hint, directives[j].offset);
    }
    hint
}

/// Returns for each line whether it holds a directive.
fn directive_lines(alloc: Global, src: &Src, reading: &Reading) -> Result<Vec<bool>, AllocError>
    ensures { IfOk result (λ list. ListTells list.items (λ k. (m : ℕ) × DirectiveOf src.now reading.now m k)) }
{
    let documents = reading.documents();
    let mut list = vec![in alloc; false; src.lines().len()]?;
    let mut hint = 0;
    for m in 0..documents.len() {
        hint = note_directives(&mut list, src, hint, documents[m].directives.as_slice());
    }
    Ok(list)
}

/// Flags the line of a `---` that is written and has only white space after it. Returns how many lines begin up to it,
/// or the hint if it flags none.
fn note_marker(list: &mut Vec<bool>, src: &Src, hint: usize, marked: bool, start: usize) -> usize
    requires { length list.old.items ≡ length src.now.lines }
    ensures { FlagsAdded list.old.items list.new.items (MarkerThere src.now marked start) }
{
    if !marked {
        return hint;
    }
    if !is_alone(src.text(), start) {
        return hint;
    }
    note_line(list, src, hint, start)
}

/// Returns for each line whether it holds a `---` with only white space after it.
fn marker_lines(alloc: Global, src: &Src, reading: &Reading) -> Result<Vec<bool>, AllocError>
    ensures { IfOk result (λ list. ListTells list.items (λ k. (m : ℕ) × MarkerOf src.now reading.now m k)) }
{
    let documents = reading.documents();
    let markers = markers(alloc, reading)?;
    let mut list = vec![in alloc; false; src.lines().len()]?;
    let mut hint = 0;
    for m in 0..documents.len().min(markers.len()) {
        hint = note_marker(&mut list, src, hint, markers[m], documents[m].start);
    }
    Ok(list)
}

/// Returns whether a line holds only white space and is not inside a scalar.
fn is_blank(src: &Src, k: usize, is_inside: bool) -> bool
    requires { k < length src.now.lines }
    ensures { MatchBool result (BlankUnless src.now k is_inside) (BlankUnless src.now k is_inside → ⊥) }
{
    if is_inside {
        return false;
    }
    if ends_in_text(src, k) {
        return false;
    }
    is_white_line(src.text(), src.lines().line(k))
}

/// Returns for each line whether it holds only white space and is part of no scalar.
fn blank_lines(alloc: Global, src: &Src, reading: &Reading) -> Result<Vec<bool>, AllocError>
    ensures count { IfOk result (λ list. length list.items ≡ length src.now.lines) }
    ensures blank { IfOk result (λ list. ListTells list.items (IsBlank src.now reading.now)) }
{
    let mut list = scalar_lines(alloc, src, reading)?;
    for k in 0..list.len() {
        list[k] = is_blank(src, k, list[k]);
    }
    Ok(list)
}

/// Returns the notes on the lines of a text with that reading.
pub fn find_notes(alloc: Global, src: &Src, reading: &Reading) -> Result<Notes, AllocError>
    ensures { IfOk result (λ notes. AreNotes src.now reading.now notes.blank.items notes.markers.items notes.directives.items) }
{
    let blank = blank_lines(alloc, src, reading)?;
    let markers = marker_lines(alloc, src, reading)?;
    let directives = directive_lines(alloc, src, reading)?;
    Ok(Notes {
        blank,
        markers,
        directives,
    })
}

/// Returns the flag of the line of that index, or `false` past the end.
pub fn flag(list: &[bool], k: usize) -> bool
    ensures { result ≡ get_or list.now k false }
{
    if k < list.len() {
        return list[k];
    }
    false
}
