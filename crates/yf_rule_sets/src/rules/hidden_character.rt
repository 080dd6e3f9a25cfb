//! Rule 14, hidden-character.
ghost use Rattle.std.specs.Prelude.{◌≡◌, ◌<◌, length, IfOk, MatchBool};
ghost use Rattle.std.specs.List.Sorted.{IsNonDecreasingBy};
ghost use Rattle.yf_rule_sets.specs.Passes.FarthestEnds.{IsBeyond, IsHiddenSign};
ghost use Rattle.yf_rule_sets.specs.RuleSets.Exact.{IsTheOne, Exactly};
ghost use Rattle.yf_rule_sets.specs.RuleSets.HiddenCharacters as Hidden;
ghost use Rattle.yf_rule_sets.specs.RuleSets.HiddenCharacters.{QuotedPart};

use crate::facts::found::{AllocError, FoundOffsets, Global, Reading, Src, Style, push_found};
use crate::facts::spans::{Cover, cover_to};
pub use crate::rules::StyleRule::HiddenCharacter;
use yf_chars::hidden::is_hidden;
use yf_chars::text::peek;
use yf_events::event::{Event, ScalarStyle, Span};
use yf_forms::text::content_start::content_start;
use yf_lines::invisible::Invisible;

/// Returns each hidden character outside of quoted scalars, except byte order marks, if the style escapes hidden
/// characters.
pub fn offsets(alloc: Global, src: &Src, reading: &Reading, style: &Style) -> FoundOffsets
    ensures { IfOk result (λ offsets. Exactly (Hidden.HiddenCharacter src.now.text reading.now style.now) offsets.items) }
{
    match style.invisible {
        Invisible::Plain => Ok(Vec::new(alloc)),
        Invisible::Escaped => escaped_offsets(alloc, src, reading, style),
    }
}

/// Returns each hidden character outside of quoted scalars, except byte order marks. The style escapes hidden
/// characters.
fn escaped_offsets(alloc: Global, src: &Src, reading: &Reading, style: &Style) -> FoundOffsets
    requires { style.now.invisible ≡ Invisible.Escaped }
    ensures { IfOk result (λ offsets. Exactly (Hidden.HiddenCharacter src.now.text reading.now style.now) offsets.items) }
{
    let text = src.text();
    let mut offsets = Vec::new(alloc);
    let parts = sorted_parts(alloc, src, reading)?;
    let mut cover = Cover { count: 0, reach: 0 };
    for i in 0..text.len() {
        cover = cover_to(parts.as_slice(), cover, i);
        push_found(&mut offsets, hidden_at(text, cover.reach, i))?;
    }
    Ok(offsets)
}

/// Returns the byte offset, if a hidden character begins there and no span up to it reaches beyond.
fn hidden_at(text: &str, reach: usize, offset: usize) -> Option<usize>
    ensures { IsTheOne (IsBeyond IsHiddenSign text.now reach offset) result }
{
    if offset < reach {
        return None;
    }
    if !text.is_char_boundary(offset) {
        return None;
    }
    match peek(text, offset) {
        None => None,
        Some((c, _)) => {
            if is_hidden_sign(c) {
                return Some(offset);
            }
            None
        }
    }
}

/// Returns whether the character is hidden and not a byte order mark.
fn is_hidden_sign(c: char) -> bool
    ensures { MatchBool result (IsHiddenSign c) (IsHiddenSign c → ⊥) }
{
    if c == '\u{FEFF}' {
        return false;
    }
    is_hidden(c)
}

/// Returns the span of the event from quote to quote, if it is a quoted scalar.
fn quoted_part(src: &Src, reading: &Reading, i: usize) -> Option<Span>
    requires { i < length reading.now.events }
    ensures { IsTheOne (QuotedPart src.now.text reading.now i) result }
{
    match reading.event(i) {
        Event::Scalar { props, style, .. } => {
            if !is_quoted(style) {
                return None;
            }
            match reading.span(i) {
                Some(span) => Some(Span {
                    start: content_start(src.text(), span, &props),
                    end: span.end,
                }),
                None => None,
            }
        }
        _ => None,
    }
}

fn is_quoted(style: ScalarStyle) -> bool
    ensures { result ≡ Hidden.is_quoted style }
{
    match style {
        ScalarStyle::Single | ScalarStyle::Double => true,
        ScalarStyle::Plain | ScalarStyle::Literal | ScalarStyle::Folded => false,
    }
}

/// Returns the spans of quoted scalars.
fn quoted_parts(alloc: Global, src: &Src, reading: &Reading) -> Result<Vec<Span>, AllocError>
    ensures { IfOk result (λ parts. Exactly (QuotedPart src.now.text reading.now) parts.items) }
{
    let mut parts = Vec::new(alloc);
    for i in 0..reading.len() {
        push_found(&mut parts, quoted_part(src, reading, i))?;
    }
    Ok(parts)
}

/// Returns the spans of quoted scalars, sorted by their starts.
fn sorted_parts(alloc: Global, src: &Src, reading: &Reading) -> Result<Vec<Span>, AllocError>
    ensures { IfOk result (λ parts. Exactly (QuotedPart src.now.text reading.now) parts.items × IsNonDecreasingBy (λ s. s.start) parts.items) }
{
    let mut parts = quoted_parts(alloc, src, reading)?;
    parts.sort_unstable_by_key(|part| part.start);
    Ok(parts)
}
