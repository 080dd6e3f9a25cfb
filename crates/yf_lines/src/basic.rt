//! The basic structures that all readers share (YAML 1.2.2, 5.4 and 6.1 to 6.5): line breaks, white space, indentation,
//! the start of a line and document markers. Offsets count bytes.
ghost use Rattle.std.specs.Prelude.{◌≡◌, ◌≢◌, ◌+◌, ◌-◌, ◌<◌, ◌≤◌, ◌⊎◌, ◌==◌, ℕ, Bool, true, false, List, length, IfSome, MatchOption, MatchBool, ⊤};
ghost use Rattle.std.specs.Str.{IsCharBoundary};
ghost use Rattle.yf_chars.specs.Signs.{BYTE_ORDER_MARK, SPACE};
ghost use Rattle.yf_chars.specs.Chain.{Many, Nowhere};
ghost use Rattle.yf_chars.specs.Class.{is_break_char, is_white, is_white_or_end};
ghost use Rattle.yf_chars.specs.Text.{code, CharAt};
ghost use Rattle.yf_lines.specs.Basic.{Break, LineStart, Spaces, ForbiddenLine, is_marker, is_three};
ghost use Rattle.yf_lines.specs.Lines.{NoBreakIn};

use memchr::memchr2;
use yf_chars::text::is_char_at;

/// Reads a line break (b-break, production 28). Returns the offset after it, or `None` if no break begins at the
/// offset.
///
/// No break begins between the two characters of a CR LF.
pub fn line_break(s: &str, at: usize) -> Option<usize>
    ensures reads { MatchOption result (Nowhere (Break s.now at)) (λ j. Break s.now at j) }
    ensures boundary { IfSome result (λ j. IsCharBoundary s.now j) }
    ensures order { IfSome result (λ j. at < j) }
{
    if is_char_at(s, at, b'\r') {
        if is_char_at(s, at + 1, b'\n') {
            return Some(at + 2);
        }
        return Some(at + 1);
    }
    if is_char_at(s, at, b'\n') {
        if is_char_at(s, at.saturating_sub(1), b'\r') {
            return None;
        }
        return Some(at + 1);
    }
    None
}

/// Returns the offset of the first character of a line break from `at` on, or the end of the text.
#[inline(always)]
pub fn next_break(s: &str, at: usize) -> usize
    requires { at ≤ length s.now }
    ensures unbroken { NoBreakIn s.now at result }
    ensures stops { (is_break_char (code s.now result) ≡ true) ⊎ (result ≡ length s.now) }
    ensures boundary { IsCharBoundary s.now result }
{
    let bytes = s.as_bytes();
    match memchr2(b'\n', b'\r', &bytes[at..]) {
        Some(passed) => at + passed,
        None => bytes.len(),
    }
}

/// Returns whether white space (a space or tab) begins at the offset.
pub fn is_white_at(s: &str, at: usize) -> bool
    ensures value { result ≡ is_white (code s.now at) }
    ensures read { MatchBool result (CharAt s.now at (code s.now at) (at + 1)) (is_white (code s.now at) ≡ false) }
{
    if is_char_at(s, at, b' ') {
        return true;
    }
    is_char_at(s, at, b'\t')
}

/// Returns the offset after all white space at the offset.
pub fn skip_whites(s: &str, at: usize) -> usize
    requires { IsCharBoundary s.now at }
    ensures whites { (x : List ℕ) × Many s.now is_white at result x }
    ensures all { is_white (code s.now result) ≡ false }
    ensures boundary { IsCharBoundary s.now result }
    ensures order { at ≤ result }
{
    let mut end = at;
    while is_white_at(s, end) {
        end += 1;
    }
    end
}

/// Returns the offset after all spaces at the offset.
pub fn skip_spaces(s: &str, at: usize) -> usize
    requires { IsCharBoundary s.now at }
    ensures spaces { Spaces s.now at (result - at) }
    ensures all { code s.now result ≢ SPACE }
    ensures boundary { IsCharBoundary s.now result }
    ensures order { at ≤ result }
{
    let mut end = at;
    while is_char_at(s, end, b' ') {
        end += 1;
    }
    end
}

/// Returns whether a byte order mark (U+FEFF) begins at the offset.
pub fn is_mark_at(s: &str, at: usize) -> bool
    ensures { MatchBool result (code s.now at ≡ BYTE_ORDER_MARK) (code s.now at ≢ BYTE_ORDER_MARK) }
{
    let bytes = s.as_bytes();
    if bytes.len() < 3 {
        return false;
    }
    if at > bytes.len() - 3 {
        return false;
    }
    if bytes[at] != 0xEF {
        return false;
    }
    if bytes[at + 1] != 0xBB {
        return false;
    }
    bytes[at + 2] == 0xBF
}

/// Returns whether a byte order mark ends at the offset.
pub fn mark_ends(s: &str, at: usize) -> bool
    ensures { MatchBool result ((3 ≤ at) × (code s.now (at - 3) ≡ BYTE_ORDER_MARK)) (3 ≤ at → code s.now (at - 3) ≢ BYTE_ORDER_MARK) }
{
    if at < 3 {
        return false;
    }
    is_mark_at(s, at - 3)
}

/// Returns whether a line break ends at the offset.
pub fn break_ends(s: &str, at: usize) -> bool
    ensures { MatchBool result ((i : ℕ) × Break s.now i at) ((i : ℕ) → Break s.now i at → ⊥) }
{
    if at == 0 {
        return false;
    }
    if is_char_at(s, at - 1, b'\n') {
        return true;
    }
    if is_char_at(s, at - 1, b'\r') {
        if is_char_at(s, at, b'\n') {
            return false;
        }
        return true;
    }
    false
}

// Returns `true` only if an ASCII character that is not a control ends at the offset. No line starts there.
#[inline(always)]
fn text_ends(s: &str, at: usize) -> bool
    ensures { MatchBool result (LineStart s.now at → ⊥) ⊤ }
{
    let bytes = s.as_bytes();
    if at == 0 {
        return false;
    }
    if at > bytes.len() {
        return false;
    }
    if bytes[at - 1] < b' ' {
        return false;
    }
    if bytes[at - 1] > b'~' {
        return false;
    }
    true
}

/// Returns whether the offset is the start of a line: of the text, after a break, or after byte order marks at such a
/// start.
pub fn is_line_start(s: &str, at: usize) -> bool
    ensures { MatchBool result (LineStart s.now at) (LineStart s.now at → ⊥) }
{
    if text_ends(s, at) {
        return false;
    }
    let mut start = at;
    while mark_ends(s, start) {
        start -= 3;
    }
    if start == 0 {
        return true;
    }
    break_ends(s, start)
}

/// Returns whether white space, a line break or the end of the text is at the offset.
pub fn is_white_or_end_at(s: &str, at: usize) -> bool
    requires { IsCharBoundary s.now at }
    ensures { result ≡ is_white_or_end (code s.now at) }
{
    if is_white_at(s, at) {
        return true;
    }
    if is_char_at(s, at, b'\n') {
        return true;
    }
    if is_char_at(s, at, b'\r') {
        return true;
    }
    at == s.len()
}

/// Returns whether a document marker is at the offset: `---` or `...` before white space, a break or the end of the
/// text (c-directives-end, production 203; c-document-end, production 204).
#[inline(always)]
pub fn is_marker_at(s: &str, at: usize) -> bool
    ensures { result ≡ is_marker s.now at }
{
    if three_stand(s, at, b'-') {
        return is_white_or_end_at(s, at + 3);
    }
    if three_stand(s, at, b'.') {
        return is_white_or_end_at(s, at + 3);
    }
    false
}

// Returns whether that ASCII character occurs three times from the offset on.
#[inline(always)]
fn three_stand(s: &str, at: usize, byte: u8) -> bool
    requires { byte < 128 }
    ensures value { result ≡ is_three s.now at byte }
    ensures boundary { result ≡ true → IsCharBoundary s.now (at + 3) }
{
    if is_char_at(s, at, byte) {
        if is_char_at(s, at + 1, byte) {
            return is_char_at(s, at + 2, byte);
        }
        return false;
    }
    false
}

/// Returns whether a forbidden line begins at the offset: a document marker at the start of a line (c-forbidden,
/// production 206).
#[inline(always)]
pub fn is_forbidden_at(s: &str, at: usize) -> bool
    ensures { MatchBool result (ForbiddenLine s.now at) (ForbiddenLine s.now at → ⊥) }
{
    if is_marker_at(s, at) {
        return is_line_start(s, at);
    }
    false
}
