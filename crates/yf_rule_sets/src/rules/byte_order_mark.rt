//! Rule 7, byte-order-mark.
ghost use Rattle.std.specs.Prelude.{◌≢◌, ℕ, IfOk, MatchBool};
ghost use Rattle.std.specs.List.Sorted.{IsNonDecreasingBy};
ghost use Rattle.yf_chars.specs.Text.{code};
ghost use Rattle.yf_rule_sets.specs.Passes.FarthestEnds.{IsBeyond, IsMark};
ghost use Rattle.yf_rule_sets.specs.RuleSets.Exact.{IsTheOne, Exactly};
ghost use Rattle.yf_rule_sets.specs.RuleSets.Scalars.{LooseMark, ScalarSpan};

use crate::facts::found::{AllocError, FoundOffsets, Global, Reading, Src, push_found};
use crate::facts::spans::{Cover, cover_to, scalar_span};
pub use crate::rules::StyleRule::ByteOrderMark;
use yf_events::event::Span;
use yf_lines::basic::is_mark_at;

/// Returns each byte order mark outside of scalars. Marks together at the start of a line have one position.
pub fn offsets(alloc: Global, src: &Src, reading: &Reading) -> FoundOffsets
    ensures { IfOk result (λ offsets. Exactly (LooseMark src.now.text reading.now) offsets.items) }
{
    let text = src.text();
    let mut offsets = Vec::new(alloc);
    if !has_mark(text) {
        return Ok(offsets);
    }
    let spans = sorted_spans(alloc, reading)?;
    let mut cover = Cover { count: 0, reach: 0 };
    for i in 0..text.len() {
        cover = cover_to(spans.as_slice(), cover, i);
        push_found(&mut offsets, loose_mark(text, cover.reach, i))?;
    }
    Ok(offsets)
}

/// Returns the spans of scalars.
fn scalar_spans(alloc: Global, reading: &Reading) -> Result<Vec<Span>, AllocError>
    ensures { IfOk result (λ spans. Exactly (ScalarSpan reading.now) spans.items) }
{
    let mut spans = Vec::new(alloc);
    for i in 0..reading.len() {
        push_found(&mut spans, scalar_span(reading, i))?;
    }
    Ok(spans)
}

/// Returns the spans of scalars, sorted by their starts.
fn sorted_spans(alloc: Global, reading: &Reading) -> Result<Vec<Span>, AllocError>
    ensures { IfOk result (λ spans. Exactly (ScalarSpan reading.now) spans.items × IsNonDecreasingBy (λ s. s.start) spans.items) }
{
    let mut spans = scalar_spans(alloc, reading)?;
    spans.sort_unstable_by_key(|span| span.start);
    Ok(spans)
}

/// Returns the byte offset, if a mark begins there and no span up to it reaches beyond.
fn loose_mark(text: &str, reach: usize, offset: usize) -> Option<usize>
    ensures { IsTheOne (IsBeyond IsMark text.now reach offset) result }
{
    if is_mark_at(text, offset) {
        if reach <= offset {
            return Some(offset);
        }
    }
    None
}

// Returns whether the text has a mark. Few texts have one, or its first byte.
fn has_mark(text: &str) -> bool
    ensures { MatchBool result (Unit {0}) ((k : ℕ) → code text.now k ≢ 0xFEFF) }
{
    if !has_first_byte(text) {
        return false;
    }
    text.contains("\u{FEFF}")
}

// Returns whether the text has the first byte of a mark.
fn has_first_byte(text: &str) -> bool
    ensures { MatchBool result (Unit {0}) ((k : ℕ) → code text.now k ≢ 0xFEFF) }
{
    text.as_bytes().contains(&0xEF)
}
