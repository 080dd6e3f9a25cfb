//! Gaps between two characters of a quoted scalar: white space or a line break. Offsets count bytes.
ghost use Rattle.std.specs.Prelude.{◌≡◌, ◌+◌, ◌<◌, ◌≤◌, ◌++◌, ◌∷◌, [], if◌then◌else◌, ℕ, pos, Bool, true, false, List, Option, IfSome, OnOk, MatchOption, length};
ghost use Rattle.std.specs.Str.{IsCharBoundary};
ghost use Rattle.std.specs.String.{string_bytes};
ghost use Rattle.yf_chars.specs.Signs.{BACKSLASH, SPACE};
ghost use Rattle.yf_lines.specs.Fold.{line_feeds};
ghost use Rattle.yf_chars.specs.Text.{code};
ghost use Rattle.yf_lines.specs.Basic.{Break, is_block};
ghost use Rattle.yf_quoted.specs.Body.{gap_bytes, PlainGap, NoPlainGap, DoubleGap, NoDoubleGap, WidthOf};

use crate::filled::push_if_filled;
use std::alloc::AllocError;
use yf_chars::context::Ctx;
use yf_chars::text::is_char_at;
use yf_lines::basic::{line_break, skip_whites};
use yf_lines::contexts::is_key;
use yf_lines::fold::{flow_folded, fold_lines, indent_width};

/// White space or a line break between two characters. It means the white space up to `blank_end`, then a space or line
/// feeds.
#[derive(Clone, Copy)]
pub struct QuotedGap {
    pub blank_end: usize,
    pub space: bool,
    pub feeds: usize,
    pub end: usize,
}

/// Reads the gap before the next character of a single-quoted scalar. It may hold line breaks only if `width` is given.
pub fn single_gap(s: &str, at: usize, width: Option<usize>) -> Option<QuotedGap>
    requires { IsCharBoundary s.now at }
    ensures reads { MatchOption result (NoPlainGap s.now width at) (λ g. PlainGap s.now width at g.blank_end g.space g.feeds g.end) }
    ensures boundary { IfSome result (λ g. IsCharBoundary s.now g.blank_end × IsCharBoundary s.now g.end) }
    ensures order { IfSome result (λ g. (at ≤ g.blank_end) × (at ≤ g.end)) }
{
    let place = skip_whites(s, at);
    let whites = QuotedGap {
        blank_end: place,
        space: false,
        feeds: 0,
        end: place,
    };
    match width {
        None => Some(whites),
        Some(width) => match line_break(s, place) {
            None => Some(whites),
            Some(_) => match flow_folded(s, at, width) {
                None => None,
                Some(fold) => Some(QuotedGap {
                    blank_end: at,
                    space: fold.feeds == 0,
                    feeds: fold.feeds,
                    end: fold.end,
                }),
            },
        },
    }
}

/// Reads such a gap of a double-quoted scalar, whose break may be escaped (s-double-escaped(n), production 112).
pub fn double_gap(s: &str, at: usize, width: Option<usize>) -> Option<QuotedGap>
    requires { IsCharBoundary s.now at }
    ensures reads { MatchOption result (NoDoubleGap s.now width at) (λ g. DoubleGap s.now width at g.blank_end g.space g.feeds g.end) }
    ensures boundary { IfSome result (λ g. IsCharBoundary s.now g.blank_end × IsCharBoundary s.now g.end) }
    ensures order { IfSome result (λ g. (at ≤ g.blank_end) × (at ≤ g.end)) }
{
    match width {
        None => match single_gap(s, at, None) {
            None => None,
            Some(gap) => Some(gap),
        },
        Some(lines) => {
            let place = skip_whites(s, at);
            match escaped_break(s, place) {
                None => match single_gap(s, at, Some(lines)) {
                    None => None,
                    Some(gap) => Some(gap),
                },
                Some(next_line) => match fold_lines(s, next_line, lines) {
                    None => None,
                    Some(fold) => Some(QuotedGap {
                        blank_end: place,
                        space: false,
                        feeds: fold.feeds,
                        end: fold.end,
                    }),
                },
            }
        }
    }
}

// Returns the offset after a backslash and the line break that follows it.
fn escaped_break(s: &str, at: usize) -> Option<usize>
    ensures reads { MatchOption result (code s.now at ≡ BACKSLASH → (l : ℕ) → Break s.now (at + 1) l → ⊥)
        (λ l. (code s.now at ≡ BACKSLASH) × Break s.now (at + 1) l) }
    ensures boundary { IfSome result (λ l. IsCharBoundary s.now l) }
    ensures order { IfSome result (λ l. at < l) }
{
    if !is_char_at(s, at, b'\\') {
        return None;
    }
    match line_break(s, at + 1) {
        None => None,
        Some(next_line) => Some(next_line),
    }
}

/// Appends the meaning of a gap that begins at the offset.
pub fn push_gap(text: &mut String, s: &str, at: usize, gap: QuotedGap) -> Result<(), AllocError>
    requires order { at ≤ gap.blank_end }
    requires start { IsCharBoundary s.now at }
    requires end { IsCharBoundary s.now gap.blank_end }
    ensures { OnOk result (string_bytes text.new ≡ string_bytes text.old ++ gap_bytes s.now at gap.blank_end gap.space gap.feeds) }
{
    push_if_filled(text, &s[at..gap.blank_end])?;
    push_space(text, gap.space)?;
    push_feeds(text, gap.feeds)
}

// Appends a space if `space` is set.
fn push_space(text: &mut String, space: bool) -> Result<(), AllocError>
    ensures { OnOk result (string_bytes text.new ≡ string_bytes text.old ++ (if space then SPACE ∷ [] else [])) }
{
    if space {
        return text.push(' ');
    }
    Ok(())
}

// Appends `feeds` line feeds.
fn push_feeds(text: &mut String, feeds: usize) -> Result<(), AllocError>
    ensures { OnOk result (string_bytes text.new ≡ string_bytes text.old ++ line_feeds feeds) }
{
    'feeds: for _ in 0..feeds {
        text.push('\n')?;
    }
    Ok(())
}

/// Returns the indentation of the lines of a quoted scalar, or `None` if the scalar must be on one line, as a key must.
pub fn lines_width(n: i32, ctx: Ctx) -> Option<usize>
    requires { is_block ctx ≡ false }
    ensures { WidthOf n ctx result }
{
    if is_key(ctx) {
        return None;
    }
    match indent_width(n) {
        None => None,
        Some(width) => Some(width),
    }
}
