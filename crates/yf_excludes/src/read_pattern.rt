//! Reads patterns, and lists of them.
ghost use Rattle.std.specs.Prelude.{◌≡◌, ◌<◌, ◌∷◌, if◌then◌else◌, IfOk, IsTrue, MatchOption, MatchResult, is_some, length, position};
ghost use Rattle.yf_excludes.specs.Patterns.{ArePatterns, FirstBad};
ghost use Rattle.yf_excludes.specs.Segments.{PatternOf, begins, ends, is_slash, without_first, without_last};

use crate::parts::slash_at;
use crate::pattern::{Pattern, Segment};
use crate::read_segment::read_segments;
use std::alloc::{AllocError, Global};

/// Returns whether a text begins with a byte.
pub fn begins_with(text: &[u8], byte: u8) -> bool
    ensures value { result ≡ begins byte text.now }
    ensures some { IsTrue result → 0 < length text.now }
{
    !text.is_empty() && text[0] == byte
}

// Returns whether a text ends with a byte.
fn ends_with(text: &[u8], byte: u8) -> bool
    ensures value { result ≡ ends byte text.now }
    ensures some { IsTrue result → 0 < length text.now }
{
    !text.is_empty() && text[text.len() - 1] == byte
}

// Returns the text without the byte at its beginning.
fn after_first(text: &[u8], byte: u8) -> &[u8]
    ensures { result.now ≡ without_first byte text.now }
{
    if begins_with(text, byte) {
        &text[1..]
    } else {
        text
    }
}

// Returns the text without the byte at its end.
fn before_last(text: &[u8], byte: u8) -> &[u8]
    ensures { result.now ≡ without_last byte text.now }
{
    if ends_with(text, byte) {
        &text[..text.len() - 1]
    } else {
        text
    }
}

// Returns whether a text has a slash.
fn has_slash(text: &[u8]) -> bool
    ensures { result ≡ is_some (position is_slash text.now) }
{
    slash_at(text).is_some()
}

// Returns the segments of a pattern, from the folder on, or if it isn't anchored from any folder in it.
fn placed(mut segments: Vec<Segment>, anchored: bool) -> Result<Vec<Segment>, AllocError>
    ensures { IfOk result (λ v. v.items ≡ (if anchored then segments.items else Segment.AnyDepth ∷ segments.items)) }
{
    if !anchored {
        segments.insert(0, Segment::AnyDepth)?;
    }
    Ok(segments)
}

/// Returns the pattern that a text is. Returns `None` if a class has no end, if `[:` is in a class, or if a backslash
/// is the last byte of the text or before a slash. A class with a slash in it has no end.
///
/// Comments and spaces at the end, which a .gitignore file may have, are part of the pattern here. A text with no
/// segments, as `` or `!`, is a pattern that matches no path.
pub fn read_pattern(alloc: Global, text: &[u8]) -> Result<Option<Pattern>, AllocError>
    ensures { IfOk result (λ o. MatchOption o ((p : Pattern) → ¬ (PatternOf text.now p)) (λ p. PatternOf text.now p)) }
{
    let negated = begins_with(text, b'!');
    let body = after_first(text, b'!');
    let folders_only = ends_with(body, b'/');
    let path = before_last(body, b'/');
    match read_segments(alloc, after_first(path, b'/'))? {
        None => Ok(None),
        Some(segments) => {
            let segments = placed(segments, has_slash(path))?;
            Ok(Some(Pattern {
                negated,
                folders_only,
                segments,
            }))
        }
    }
}

/// Returns the patterns of a list of texts, or the number of the first text that is not a pattern, from 0.
pub fn read_patterns(
    alloc: Global,
    texts: &[&[u8]],
) -> Result<Result<Vec<Pattern>, usize>, AllocError>
    ensures { IfOk result (λ r. MatchResult r (λ v. ArePatterns texts.now v.items) (λ n. FirstBad texts.now n)) }
{
    let mut patterns = Vec::new(alloc);
    for n in 0..texts.len() {
        match read_pattern(alloc, texts[n])? {
            None => return Ok(Err(n)),
            Some(pattern) => patterns.push(pattern)?,
        }
    }
    Ok(Ok(patterns))
}
