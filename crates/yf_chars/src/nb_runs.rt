//! Runs of characters within a line (nb-char, production 27), ASCII byte by byte.
ghost use Rattle.std.specs.Prelude.{◌≡◌, ◌+◌, ◌≤◌, ℕ, List, true, false, length, MatchBool, MatchOption, ⊤};
ghost use Rattle.std.specs.Str.{IsCharBoundary};
ghost use Rattle.yf_chars.specs.Chain.{Many};
ghost use Rattle.yf_chars.specs.Class as Class;
ghost use Rattle.yf_chars.specs.Text.{code, no_char, CharAt};

use crate::classes::is_nb_char;

// Returns whether a printable ASCII character, from the space to `~`, is at the offset.
#[inline(always)]
fn is_ascii_at(s: &str, at: usize) -> bool
    ensures class { MatchBool result (Class.is_nb_char (code s.now at) ≡ true) ⊤ }
    ensures read { MatchBool result (CharAt s.now at (code s.now at) (at + 1)) ⊤ }
{
    let bytes = s.as_bytes();
    if at >= bytes.len() {
        return false;
    }
    if bytes[at] < b' ' {
        return false;
    }
    if bytes[at] > b'~' {
        return false;
    }
    true
}

// Returns the offset after all such characters at the offset.
#[inline(always)]
fn ascii_run(s: &str, at: usize) -> usize
    requires { IsCharBoundary s.now at }
    ensures chars { (x : List ℕ) × Many s.now Class.is_nb_char at result x }
    ensures boundary { IsCharBoundary s.now result }
    ensures order { at ≤ result }
{
    let mut end = at;
    while is_ascii_at(s, end) {
        end += 1;
    }
    end
}

// Returns the character at the offset and the offset after it, or `None` at the end of the text. It decodes ASCII like
// any other character.
#[inline(always)]
fn decoded(s: &str, at: usize) -> Option<(char, usize)>
    requires { IsCharBoundary s.now at }
    ensures { MatchOption result ((code s.now at ≡ no_char) × (at ≡ length s.now)) (λ p. CharAt s.now at p.0 p.1) }
{
    match s[at..].chars().next() {
        Some(c) => Some((c, at + c.len_utf8())),
        None => None,
    }
}

/// Returns the offset after all characters within a line (nb-char, production 27) at the offset.
///
/// Usually another character beyond ASCII follows such a character, and a run follows an ASCII character.
#[inline]
pub fn skip_nb_chars(s: &str, at: usize) -> usize
    requires { IsCharBoundary s.now at }
    ensures chars { (x : List ℕ) × Many s.now Class.is_nb_char at result x }
    ensures all { Class.is_nb_char (code s.now result) ≡ false }
    ensures boundary { IsCharBoundary s.now result }
    ensures order { at ≤ result }
{
    let mut end = ascii_run(s, at);
    'chars: loop {
        match decoded(s, end) {
            Some((c, next)) => {
                if !is_nb_char(c) {
                    return end;
                }
                if c > '~' {
                    end = next;
                } else {
                    end = ascii_run(s, next);
                }
            }
            None => return end,
        }
    }
}
