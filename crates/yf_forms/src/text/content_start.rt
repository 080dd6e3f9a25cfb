//! The start of a node's content, after its properties (YAML 1.2.2, section 6.9).
ghost use Rattle.std.specs.Prelude.{◌≡◌, ◌≤◌, ◌-◌, ◌∷◌, ℕ, suc, List, Some, length, MatchOption};
ghost use Rattle.yf_chars.specs.Text.{code};
ghost use Rattle.yf_forms.specs.Nodes.ContentStart as ContentStart;
ghost use Rattle.yf_forms.specs.Nodes.ContentStart.{gap_len};
ghost use Rattle.yf_props.specs.Props.{props_value, tag_value};

use yf_chars::text::is_char_at;
use yf_events::event::Span;
use yf_props::props::{Props, Tag};

/// Returns the number of bytes of an anchor.
fn anchor_len(name: &str) -> usize
    ensures { result ≡ ContentStart.anchor_len (Some name.now) }
{
    name.len() + 1
}

/// Returns the number of bytes of a tag.
fn tag_len(tag: Tag) -> usize
    ensures { result ≡ ContentStart.tag_len (Some (tag_value tag.entry)) }
{
    match tag {
        Tag::Verbatim(name) => name.len() + 3,
        Tag::Short { handle, suffix } => handle.len() + suffix.len(),
        Tag::NonSpecific => 1,
    }
}

/// Returns the number of bytes of the property that begins at the offset, as written, or 0 if none begins there.
fn written_len(text: &str, at: usize, props: &Props) -> usize
    ensures { result ≡ ContentStart.written_len (code text.now at) (props_value props.now) }
{
    if is_char_at(text, at, b'&') {
        return match props.anchor {
            Some(name) => anchor_len(name),
            None => 0,
        };
    }
    if is_char_at(text, at, b'!') {
        return match props.tag {
            Some(tag) => tag_len(tag),
            None => 0,
        };
    }
    0
}

/// Returns the number of bytes of the property at the byte offset, up to the end of the text, or 0 if none begins
/// there.
fn property_len(text: &str, at: usize, props: &Props) -> usize
    ensures len { result ≡ ContentStart.property_len text.now at (props_value props.now) }
    ensures within { result ≤ length text.now - at }
{
    written_len(text, at, props).min(text.len().saturating_sub(at))
}

/// Returns whether a comment goes on after a byte of a separation, or `None` if the byte is not part of one.
fn after_byte(in_comment: bool, byte: u8) -> Option<bool>
    ensures { MatchOption result ((bs : List ℕ) → gap_len in_comment (byte ∷ bs) ≡ 0)
        (λ next. (bs : List ℕ) → gap_len in_comment (byte ∷ bs) ≡ suc (gap_len next bs)) }
{
    if byte == b'\n' {
        return Some(false);
    }
    if byte == b'\r' {
        return Some(false);
    }
    if in_comment {
        return Some(true);
    }
    if byte == b' ' {
        return Some(false);
    }
    if byte == b'\t' {
        return Some(false);
    }
    if byte == b'#' {
        return Some(true);
    }
    None
}

/// Returns the byte offset after the white space, line breaks and comments at the offset, but not past `end`.
fn past_gap(text: &str, at: usize, end: usize) -> usize
    ensures { result ≡ ContentStart.past_gap text.now at end }
{
    let bytes = text.as_bytes();
    let stop = end.min(bytes.len());
    let mut in_comment = false;
    for i in at..stop {
        match after_byte(in_comment, bytes[i]) {
            Some(next) => in_comment = next,
            None => return i,
        }
    }
    at.max(stop)
}

/// Returns the byte offset after the property at the offset, if there is one, and the separation after it.
fn past_second(text: &str, at: usize, end: usize, props: &Props) -> usize
    ensures { result ≡ ContentStart.past_second text.now at end (props_value props.now) }
{
    let len = property_len(text, at, props);
    if len == 0 {
        return at;
    }
    past_gap(text, at + len, end)
}

/// Returns the byte offset at which the content of a node begins, after its properties: its first character, its
/// quote, its bracket or its header. For properties without content it is their end.
///
/// The span and the properties are those of a node of the text.
pub fn content_start(text: &str, span: Span, props: &Props) -> usize
    ensures { result ≡ ContentStart.content_start text.now span (props_value props.now) }
{
    let len = property_len(text, span.start, props);
    if len == 0 {
        return span.start;
    }
    let between = past_gap(text, span.start + len, span.end);
    past_second(text, between, span.end, props)
}
