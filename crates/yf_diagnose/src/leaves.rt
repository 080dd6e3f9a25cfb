//! Leaves in brackets, with their properties. Offsets count bytes.
ghost use Rattle.std.specs.Prelude.{◌+◌, MatchBool, ⊤};
ghost use Rattle.std.specs.Str.{IsCharBoundary};
ghost use Rattle.yf_diagnose.specs.Brackets.{HeldAt};
ghost use Rattle.yf_diagnose.specs.SecondReadings.{IsReadAfter};

use crate::diagnosis::{Mistake, refused};
use crate::gap::gap_end;
use crate::lines::{Margin, sign_why};
use crate::plain::{is_safe_at, plain_begun, plain_lines_end};
use crate::property::{is_property_at, name_end, property_end};
use crate::quoted::quoted_end;
use crate::why::Why;
use yf_chars::context::Ctx;
use yf_chars::text::is_char_at;

/// The content of a node, or the end of its properties if it has no content.
#[derive(Clone, Copy)]
pub(crate) enum Held {
    Content(usize),
    Empty(usize),
}

/// Finds the content of a node after its properties.
pub(crate) fn held_content(text: &str, at: usize, margin: Margin) -> Result<Held, Mistake>
    requires { IsCharBoundary text.now at }
    ensures { HeldAt text.now at result }
{
    let mut here = at;
    let mut anchor = false;
    let mut tag = false;
    'properties: while is_property_at(text, here) {
        let is_anchor = is_char_at(text, here, b'&');
        if is_second(is_anchor, anchor, tag) {
            return Err(Mistake {
                at: here,
                why: Why::PropertyTwice,
            });
        }
        if is_anchor {
            anchor = true;
        } else {
            tag = true;
        }
        match property_end(text, here) {
            Err(told) => return Err(told),
            Ok(end) => match gap_end(text, end, margin) {
                Err(told) => return Err(told),
                Ok(next) => {
                    if node_ends(text, next) {
                        return Ok(Held::Empty(end));
                    }
                    if next == end {
                        return Err(Mistake {
                            at: end,
                            why: Why::PropertyUnspaced,
                        });
                    }
                    here = next;
                }
            },
        }
    }
    Ok(Held::Content(here))
}

/// Returns whether a property is the second of its kind.
pub(crate) fn is_second(is_anchor: bool, anchor: bool, tag: bool) -> bool {
    if is_anchor {
        return anchor;
    }
    tag
}

/// Returns the end of the leaf that begins at the offset. After properties it can't be an alias.
pub(crate) fn leaf_end(text: &str, at: usize, held: bool, margin: Margin) -> Result<usize, Mistake>
    requires { IsCharBoundary text.now at }
    ensures { IsReadAfter text.now at result }
{
    if is_char_at(text, at, b'"') {
        return quoted_end(text, at, margin);
    }
    if is_char_at(text, at, b'\'') {
        return quoted_end(text, at, margin);
    }
    if is_char_at(text, at, b'*') {
        if held {
            return refused(at, Why::AliasProperties);
        }
        return name_end(text, at);
    }
    match plain_begun(text, at, Ctx::FlowIn) {
        Some(next) => Ok(plain_lines_end(text, next, margin)),
        None => refused(at, leaf_why(text, at)),
    }
}

// Returns why no leaf begins with that sign.
fn leaf_why(text: &str, at: usize) -> Why
    requires { IsCharBoundary text.now at }
{
    if is_char_at(text, at, b'-') {
        return Why::DashInBrackets;
    }
    sign_why(text, at, Why::NoPlain)
}

/// Returns whether a quote is at the offset.
pub(crate) fn is_quote_at(text: &str, at: usize) -> bool {
    if is_char_at(text, at, b'"') {
        return true;
    }
    is_char_at(text, at, b'\'')
}

/// Returns whether the `:` of a value is at the offset. After quotes and brackets it needs no white space after it.
pub(crate) fn is_colon_at(text: &str, at: usize, json: bool) -> bool
    ensures { MatchBool result (IsCharBoundary text.now (at + 1)) ⊤ }
{
    if is_char_at(text, at, b':') {
        if json {
            return true;
        }
        return !is_safe_at(text, at + 1, Ctx::FlowIn);
    }
    false
}

// Returns whether the sign at the offset ends a node that has only properties.
fn node_ends(text: &str, at: usize) -> bool {
    if is_char_at(text, at, b',') {
        return true;
    }
    if is_char_at(text, at, b']') {
        return true;
    }
    if is_char_at(text, at, b'}') {
        return true;
    }
    is_colon_at(text, at, false)
}
