//! Reads the header of a block scalar (YAML 1.2.2, section 8.1.1).
ghost use Rattle.std.specs.Prelude.{◌≡◌, ◌+◌, ◌<◌, ℕ, List, Option, Bool, true, length, IfSome, IsCharBoundary, MatchOption};
ghost use Rattle.yf_chars.specs.Chain.{Chosen, Stuck};
ghost use Rattle.yf_chars.specs.Class.{is_white_or_end};
ghost use Rattle.yf_chars.specs.Text.{code};
ghost use Rattle.yf_lines.specs.Basic.{LineStart};
ghost use Rattle.yf_comments.specs.Comment.{row_comments};
ghost use Rattle.yf_block_scalar.specs.declared.header.Chomp.{Chomp};
ghost use Rattle.yf_block_scalar.specs.Header.{BlockHeader, Digit, Indicators, Sign, Style, header_value};
ghost use Rattle.yf_block_scalar.specs.Written.{IsCommentText};

use crate::header::{Chomp, Header};
use yf_chars::text::is_char_at;
use yf_comments::comment::Comment;
use yf_comments::lines::{RestOfLine, line_rest};

/// A header, the comment after it, and the byte offset of the next line.
#[derive(Drop)]
pub struct HeaderLine<'a> {
    pub header: Header,
    pub comment: Option<Comment<'a>>,
    pub end: usize,
}

// The indicators of a header, and the offset after them.
#[derive(Clone, Copy)]
struct Marks {
    digit: Option<u8>,
    chomp: Chomp,
    end: usize,
}

// Reads a digit from 1 to 9 (c-indentation-indicator, production 163).
fn digit_at(s: &str, at: usize) -> Option<u8>
    ensures reads { MatchOption result ((j d : ℕ) → Digit s.now at j d → ⊥) (λ d. Digit s.now at (at + 1) d) }
    ensures boundary { IfSome result (λ d. IsCharBoundary s.now (at + 1)) }
{
    let bytes = s.as_bytes();
    if at >= bytes.len() {
        return None;
    }
    let byte = bytes[at];
    if byte < b'1' {
        return None;
    }
    if byte > b'9' {
        return None;
    }
    Some(byte - b'0')
}

// Reads a sign (c-chomping-indicator, production 164).
fn sign_at(s: &str, at: usize) -> Option<Chomp>
    ensures reads { MatchOption result ((j : ℕ) (c : Chomp) → Sign s.now at j c → ⊥) (λ c. Sign s.now at (at + 1) c) }
    ensures boundary { IfSome result (λ _. IsCharBoundary s.now (at + 1)) }
{
    if is_char_at(s, at, b'-') {
        return Some(Chomp::Strip);
    }
    if is_char_at(s, at, b'+') {
        return Some(Chomp::Keep);
    }
    None
}

// Reads the indicators that are present.
fn read_marks(s: &str, at: usize) -> Marks
    requires { IsCharBoundary s.now at }
    ensures reads { Indicators s.now at result.end result.digit result.chomp }
    ensures all { (k : ℕ) (d : Option ℕ) (c : Chomp) → Indicators s.now at k d c → is_white_or_end (code s.now k) ≡ true
        → (k ≡ result.end) × (d ≡ result.digit) × (c ≡ result.chomp) }
    ensures boundary { IsCharBoundary s.now result.end }
{
    let next = at + 1;
    match digit_at(s, at) {
        Some(digit) => match sign_at(s, next) {
            Some(chomp) => Marks {
                digit: Some(digit),
                chomp,
                end: next + 1,
            },
            None => Marks {
                digit: Some(digit),
                chomp: Chomp::Clip,
                end: next,
            },
        },
        None => match sign_at(s, at) {
            Some(chomp) => match digit_at(s, next) {
                None => Marks {
                    digit: None,
                    chomp,
                    end: next,
                },
                Some(digit) => Marks {
                    digit: Some(digit),
                    chomp,
                    end: next + 1,
                },
            },
            None => Marks {
                digit: None,
                chomp: Chomp::Clip,
                end: at,
            },
        },
    }
}

// Reads `|` or `>`. Returns whether it is `>`.
fn style_at(s: &str, at: usize) -> Option<bool>
    ensures reads { MatchOption result ((j : ℕ) (f : Bool) → Style s.now at j f → ⊥) (λ f. Style s.now at (at + 1) f) }
    ensures boundary { IfSome result (λ _. IsCharBoundary s.now (at + 1)) }
{
    if is_char_at(s, at, b'|') {
        return Some(false);
    }
    if is_char_at(s, at, b'>') {
        return Some(true);
    }
    None
}

/// Reads the header of a block scalar: `|` or `>`, an optional digit from 1 to 9 and an optional sign in either order,
/// then an optional comment, and the end of the line.
///
/// Returns `None` if no header begins at the byte offset. Allocates no memory.
pub fn block_header<'a>(s: &'a str, at: usize) -> Option<HeaderLine<'a>>
    ensures reads { MatchOption result (Stuck (BlockHeader s.now at))
        (λ r. Chosen (BlockHeader s.now at) r.end (header_value r.header r.comment)) }
    ensures comment { IfSome result (λ r. IsCommentText r.comment) }
    ensures boundary { IfSome result (λ r. IsCharBoundary s.now r.end) }
    ensures order { IfSome result (λ r. at < r.end) }
    ensures starts { IfSome result (λ r. r.end < length s.now → LineStart s.now r.end) }
{
    match style_at(s, at) {
        Some(folded) => {
            let Marks { digit, chomp, end } = read_marks(s, at + 1);
            match line_rest(s, end, false) {
                Some(RestOfLine { comment, end }) => Some(HeaderLine {
                    header: Header {
                        folded,
                        digit,
                        chomp,
                    },
                    comment,
                    end,
                }),
                None => None,
            }
        }
        None => None,
    }
}
