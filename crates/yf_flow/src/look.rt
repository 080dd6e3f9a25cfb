//! Tests at an offset of a flow node. They read nothing.
ghost use Rattle.std.specs.Prelude.{◌≡◌, ◌≢◌, ◌+◌, ◌==◌, ◌||◌, true, MatchBool};
ghost use Rattle.std.specs.Str.{IsCharBoundary};
ghost use Rattle.yf_chars.specs.Text.{code};
ghost use Rattle.yf_grammar.specs.FlowReader.Parser.{ColonAt, begins_content};
ghost use Rattle.yf_grammar.specs.Productions.ReadParts.{NotedSince};
ghost use Rattle.yf_flow.specs.KeyThere.{KeyThere};
ghost use Rattle.yf_flow.specs.Leaves.{IsClosing, KeyLine};

use crate::frame::{CollectionKind, FlowContext};
use yf_chars::classes::is_plain_safe;
use yf_chars::text::{is_char_at, peek};
use yf_comments::blank::is_blank_before;

/// Returns whether the bracket that closes a collection of that kind is at the offset.
pub(crate) fn closes(text: &str, at: usize, kind: CollectionKind) -> bool
    ensures follows { result ≡ true → IsCharBoundary text.now (at + 1) }
    ensures cases { MatchBool result (IsClosing kind (code text.now at)) (IsClosing kind (code text.now at) → ⊥) }
{
    match kind {
        CollectionKind::Sequence => is_char_at(text, at, b']'),
        CollectionKind::Mapping => is_char_at(text, at, b'}'),
        CollectionKind::Pair => false,
    }
}

/// Returns whether a comma or a closing bracket is at the offset, which ends an entry.
#[tactic(auto, using(crate::proofs::Ends::LookLemmas::end_comma, crate::proofs::Ends::LookLemmas::end_bracket, crate::proofs::Ends::LookLemmas::end_last))]
pub(crate) fn entry_ends(text: &str, at: usize) -> bool
    ensures { result ≡ ((code text.now at == 44) || (code text.now at == 93) || (code text.now at == 125)) }
{
    if is_char_at(text, at, b',') {
        return true;
    }
    if is_char_at(text, at, b']') {
        return true;
    }
    is_char_at(text, at, b'}')
}

/// Returns whether a quote or an opening bracket is at the offset (c-flow-json-content).
#[tactic(auto, using(crate::proofs::Ends::LookLemmas::single_begins, crate::proofs::Ends::LookLemmas::double_begins, crate::proofs::Ends::LookLemmas::sequence_begins, crate::proofs::Ends::LookLemmas::mapping_begins, crate::proofs::Ends::LookLemmas::nothing_begins))]
pub(crate) fn content_begins(text: &str, at: usize) -> bool
    ensures { result ≡ begins_content (code text.now at) }
{
    if is_char_at(text, at, b'\'') {
        return true;
    }
    if is_char_at(text, at, b'"') {
        return true;
    }
    if is_char_at(text, at, b'[') {
        return true;
    }
    if is_char_at(text, at, b'{') {
        return true;
    }
    false
}

/// Returns whether the `:` of a value is at the offset, after a node like those of JSON, another node, or no node.
/// Except after a node like those of JSON, no plain character may follow it.
#[tactic(auto, using(crate::proofs::Ends::LeafLemmas::colon_json, crate::proofs::Ends::LeafLemmas::colon_safe, crate::proofs::Ends::LeafLemmas::no_colon, crate::proofs::Ends::LeafLemmas::colon_at_end))]
#[inline(always)]
pub(crate) fn is_colon_at(scene: FlowContext, at: usize, json: bool) -> bool
    ensures follows { result ≡ true → IsCharBoundary scene.entry.text.now (at + 1) }
    ensures cases { MatchBool result (ColonAt scene.entry.text.now json scene.entry.context at)
        (ColonAt scene.entry.text.now json scene.entry.context at → ⊥) }
{
    if is_char_at(scene.text, at, b':') {
        if json {
            return true;
        }
        match peek(scene.text, at + 1) {
            Some((c, _)) => {
                if is_plain_safe(c, scene.context) {
                    return false;
                }
                return true;
            }
            None => return true,
        }
    }
    false
}

/// The most characters of an implicit key, with the white space after it.
pub(crate) const KEY_LIMIT: usize = 1024;

/// Returns whether the characters between the offsets are all on one line, and at most 1024, the limit of an implicit
/// key (ns-s-implicit-yaml-key, production 154; c-s-implicit-json-key, production 155).
pub fn is_key_line(text: &str, start: usize, end: usize) -> bool
    requires { IsCharBoundary text.now start }
    ensures { IsCharBoundary text.now end → MatchBool result (KeyLine text.now start end) (KeyLine text.now start end → ⊥) }
{
    let mut at = start;
    let mut room = KEY_LIMIT;
    'characters: while at < end {
        if room == 0 {
            return false;
        }
        match peek(text, at) {
            Some((c, next)) => {
                if c == '\n' {
                    return false;
                }
                if c == '\r' {
                    return false;
                }
                at = next;
            }
            None => return false,
        }
        room -= 1;
    }
    true
}

/// Returns whether the `:` of a value is at `colon`, after a node at `start` that may be the key of a single pair
/// with the white space after it.
pub(crate) fn is_pair_key(scene: FlowContext, start: usize, colon: usize, json: bool) -> bool
    requires start { IsCharBoundary scene.text.now start }
    requires colon { IsCharBoundary scene.text.now colon }
    ensures follows { result ≡ true → IsCharBoundary scene.entry.text.now (colon + 1) }
    ensures cases { MatchBool result (KeyThere scene.entry.text.now scene.entry.context start json colon)
        (KeyThere scene.entry.text.now scene.entry.context start json colon → ⊥) }
{
    if is_colon_at(scene, colon, json) {
        if is_key_line(scene.text, start, colon) {
            return true;
        }
        return false;
    }
    false
}

/// Returns whether a blank line is before an entry that begins at the offset. No entry begins with a line feed.
#[tactic(auto, using(crate::proofs::Ends::NotedLemmas::note_of))]
pub(crate) fn is_blank_before_entry(text: &str, at: usize) -> bool
    ensures { code text.now at ≢ 10 → NotedSince text.now 0 at result }
{
    if is_char_at(text, at, b'\n') {
        return false;
    }
    is_blank_before(text, at)
}
