//! Texts that a plain scalar on one line keeps unchanged.
ghost use Rattle.std.specs.Prelude.{◌≡◌, ◌<◌};
ghost use Rattle.yf_lines.specs.Steady as Steady;

use crate::feeds::has_feed;

/// Returns whether the bytes begin with three times the same one, before white space or the end.
#[tactic(auto, unfolding(crate::specs::Steady::is_marker_of))]
fn is_marker_of(byte: u8, bytes: &[u8]) -> bool
    requires { 0 < byte }
    ensures { result ≡ Steady.is_marker_of byte bytes.now }
{
    if bytes.len() < 3 {
        return false;
    }
    if bytes[0] != byte || bytes[1] != byte || bytes[2] != byte {
        return false;
    }
    if bytes.len() == 3 {
        return true;
    }
    bytes[3] == b' ' || bytes[3] == b'\t'
}

#[tactic(auto, unfolding(crate::specs::Steady::is_only))]
fn is_only(byte: u8, bytes: &[u8]) -> bool
    ensures { result ≡ Steady.is_only byte bytes.now }
{
    if bytes.len() == 1 {
        return bytes[0] == byte;
    }
    false
}

#[tactic(auto, unfolding(crate::specs::Steady::ends_with_colon))]
fn ends_with_colon(bytes: &[u8]) -> bool
    ensures { result ≡ Steady.ends_with_colon bytes.now }
{
    if bytes.is_empty() {
        return false;
    }
    bytes[bytes.len() - 1] == b':'
}

/// Returns whether a plain scalar of this text may stay plain on one line: the text holds no line feed, does not end
/// with `:`, is not `-` or `?`, and does not begin with `---` or `...` before white space or the end.
#[tactic(auto, unfolding(crate::specs::Steady::is_steady))]
pub fn is_steady(text: &str) -> bool
    ensures { result ≡ Steady.is_steady text.now }
{
    let bytes = text.as_bytes();
    if has_feed(bytes) {
        return false;
    }
    if ends_with_colon(bytes) {
        return false;
    }
    if is_only(b'-', bytes) {
        return false;
    }
    if is_only(b'?', bytes) {
        return false;
    }
    if is_marker_of(b'-', bytes) {
        return false;
    }
    !is_marker_of(b'.', bytes)
}
