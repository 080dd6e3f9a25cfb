//! Folded line breaks within plain and quoted scalars (YAML 1.2.2, 6.5 "Line Folding"). Offsets count bytes.
ghost use Rattle.std.specs.Prelude.{◌≡◌, ◌≢◌, ◌+◌, ◌<◌, ◌≤◌, ℕ, ℤ, pos, ◌<ℤ◌, Bool, true, false, List, [], ◌∷◌, IfSome, MatchOption};
ghost use Rattle.std.specs.Str.{IsCharBoundary};
ghost use Rattle.yf_chars.specs.Signs.{LINE_FEED};
ghost use Rattle.yf_chars.specs.Chain.{Chain, Stuck, Nowhere};
ghost use Rattle.yf_chars.specs.Class.{is_white};
ghost use Rattle.yf_chars.specs.Text.{code};
ghost use Rattle.yf_chars.specs.declared.context.Ctx.TheVariants.{FlowIn};
ghost use Rattle.yf_lines.specs.Basic.{Break, Empty, FlowPrefix};
ghost use Rattle.yf_lines.specs.Fold.{FoldsTo, FoldLines, ContentAt, line_feeds, fold_text};

use crate::basic::{line_break, skip_spaces, skip_whites};

/// A folded line break: the number of its empty lines, and the byte offset after it.
///
/// It means one line feed for each empty line, or a space if it has none.
#[derive(Clone, Copy)]
pub struct Fold {
    pub feeds: usize,
    pub end: usize,
}

/// Returns the indentation `n` as a number of spaces, or `None` if it is negative, because no line has such an
/// indentation.
pub fn indent_width(n: i32) -> Option<usize>
    ensures { MatchOption result (n <ℤ pos 0) (λ w. n ≡ pos w) }
{
    if n < 0 {
        return None;
    }
    Some(n as usize)
}

/// Reads the line break (s-flow-folded(n), production 74) at the end of a line of a scalar, with the white space around
/// it and the empty lines after it, up to the first character that is neither white space nor a break.
///
/// Returns `None` if the line does not end there, or if fewer than `width` spaces indent the next line that is not
/// empty. It doesn't check whether that line is forbidden.
#[inline(always)]
pub fn flow_folded(s: &str, at: usize, width: usize) -> Option<Fold>
    requires { IsCharBoundary s.now at }
    ensures reads { MatchOption result (Stuck (FoldsTo s.now (pos width) at))
        (λ f. FoldsTo s.now (pos width) at f.end (fold_text f.feeds)) }
    ensures boundary { IfSome result (λ f. IsCharBoundary s.now f.end) }
    ensures order { IfSome result (λ f. at < f.end) }
{
    let line_end = skip_whites(s, at);
    match line_break(s, line_end) {
        None => None,
        Some(next_line) => match fold_lines(s, next_line, width) {
            None => None,
            Some(fold) => Some(fold),
        },
    }
}

/// Reads the empty lines from the start of a line on (l-empty(n,flow-in), production 70), and the indentation of the
/// line after them (s-flow-line-prefix(n), production 69). It passes the white space of each line once.
pub fn fold_lines(s: &str, at: usize, width: usize) -> Option<Fold>
    requires { IsCharBoundary s.now at }
    ensures reads { MatchOption result (Stuck (FoldLines s.now (pos width) at))
        (λ f. FoldLines s.now (pos width) at f.end (line_feeds f.feeds)) }
    ensures boundary { IfSome result (λ f. IsCharBoundary s.now f.end) }
    ensures order { IfSome result (λ f. at ≤ f.end) }
{
    let mut line = at;
    let mut feeds = 0;
    'lines: loop {
        let indent = skip_spaces(s, line);
        let end = skip_whites(s, indent);
        match line_break(s, end) {
            None => {
                if indent - line < width {
                    return None;
                }
                return Some(Fold { feeds, end });
            }
            Some(next_line) => {
                if indent - line < width {
                    if end != indent {
                        return None;
                    }
                }
                line = next_line;
                feeds += 1;
            }
        }
    }
}
