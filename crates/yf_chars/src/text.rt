//! Characters of a text at byte offsets, on which all readers are based.
ghost use Rattle.std.specs.Prelude.{◌≡◌, ◌≢◌, ◌+◌, ◌<◌, ◌≤◌, ◌==◌, length, MatchOption, MatchBool};
ghost use Rattle.std.specs.Str.{IsCharBoundary};
ghost use Rattle.yf_chars.specs.Text.{code, before, no_char, CharAt};

/// Returns the character at the byte offset and the offset after it, or `None` at the end of the text.
///
/// ASCII takes one test and no decoding.
#[inline(always)]
pub fn peek(s: &str, at: usize) -> Option<(char, usize)>
    requires { IsCharBoundary s.now at }
    ensures { MatchOption result ((code s.now at ≡ no_char) × (at ≡ length s.now)) (λ p. CharAt s.now at p.0 p.1) }
{
    let bytes = s.as_bytes();
    if at == bytes.len() {
        return None;
    }
    let byte = bytes[at];
    if byte < 128 {
        return Some((char::from(byte), at + 1));
    }
    match s[at..].chars().next() {
        Some(c) => Some((c, at + c.len_utf8())),
        None => unreachable!(),
    }
}

/// Returns whether the ASCII character begins at the byte offset.
#[inline(always)]
pub fn is_char_at(s: &str, at: usize, byte: u8) -> bool
    requires { byte < 128 }
    ensures value { result ≡ (code s.now at == byte) }
    ensures cases { MatchBool result (CharAt s.now at byte (at + 1)) (code s.now at ≢ byte) }
{
    let bytes = s.as_bytes();
    if at < bytes.len() {
        return bytes[at] == byte;
    }
    false
}
