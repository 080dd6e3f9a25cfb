//! Names of anchors and aliases (YAML 1.2.2, sections 6.9.2 and 7.1).
ghost use Rattle.std.specs.Prelude.{◌≡◌, ◌+◌, ◌<◌, ◌≤◌, ℕ, List, false, slice_range, IfSome, MatchOption};
ghost use Rattle.std.specs.Str.{IsCharBoundary};
ghost use Rattle.yf_chars.specs.Chain.{Chosen, Many, Stuck};
ghost use Rattle.yf_chars.specs.Class.{is_anchor_char};
ghost use Rattle.yf_chars.specs.Text.{code};
ghost use Rattle.yf_props.specs.Names.{AnchorChar, Run, Alias, Anchor};

use yf_chars::runs::{AnchorChars, skip_while};
use yf_chars::text::is_char_at;

// Returns the offset after all characters of a name at the offset.
#[inline(never)]
fn name_end(s: &str, at: usize) -> usize
    requires { IsCharBoundary s.now at }
    ensures chars { (x : List ℕ) × Many s.now is_anchor_char at result x }
    ensures all { is_anchor_char (code s.now result) ≡ false }
    ensures boundary { IsCharBoundary s.now result }
    ensures order { at ≤ result }
{
    skip_while::<AnchorChars>(s, at)
}

// Reads the name of an anchor or an alias (ns-anchor-name, production 103) after its sign, and returns it with the
// offset after it.
#[inline(always)]
fn name_after<'a>(s: &'a str, at: usize, sign: u8) -> Option<(&'a str, usize)>
    requires { sign < 128 }
    ensures reads { MatchOption result (code s.now at ≡ sign → is_anchor_char (code s.now (at + 1)) ≡ false)
        (λ p. (code s.now at ≡ sign) × Run (AnchorChar s.now) (at + 1) p.1) }
    ensures name { IfSome result (λ p. p.0.now ≡ slice_range s.now (at + 1) p.1) }
    ensures boundary { IfSome result (λ p. IsCharBoundary s.now p.1) }
{
    if is_char_at(s, at, sign) {
        let start = at + 1;
        let end = name_end(s, start);
        if end > start {
            return Some((&s[start..end], end));
        }
        return None;
    }
    None
}

/// Reads an alias (c-ns-alias-node, production 104). Returns its name, without the `*`, and the byte offset after it,
/// or `None` if no alias begins at the offset.
///
/// The name includes all characters that may be in it.
#[inline(always)]
pub fn alias_node<'a>(s: &'a str, at: usize) -> Option<(&'a str, usize)>
    ensures reads { MatchOption result (Stuck (Alias s.now at)) (λ p. Chosen (Alias s.now at) p.1 p.0.now) }
    ensures boundary { IfSome result (λ p. IsCharBoundary s.now p.1) }
{
    match name_after(s, at, b'*') {
        Some((name, end)) => Some((name, end)),
        None => None,
    }
}

// Reads an anchor (c-ns-anchor-property, production 101). Returns its name, without the `&`, and the offset after it.
pub(crate) fn anchor_property<'a>(s: &'a str, at: usize) -> Option<(&'a str, usize)>
    ensures reads { MatchOption result (Stuck (Anchor s.now at)) (λ p. Chosen (Anchor s.now at) p.1 p.0.now) }
    ensures boundary { IfSome result (λ p. IsCharBoundary s.now p.1) }
{
    match name_after(s, at, b'&') {
        Some((name, end)) => Some((name, end)),
        None => None,
    }
}
