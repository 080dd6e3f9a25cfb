//! The indentation of a block scalar's content (YAML 1.2.2, section 8.1.1.1).
ghost use Rattle.std.specs.Prelude.{◌≡◌, ◌^◌, ◌≤ℤ◌, pos, ℕ, max, MatchBool};
ghost use Rattle.std.specs.Str.{IsCharBoundary};
ghost use Rattle.yf_block_scalar.specs.Body.{base, least, SpaceLine, MarkerLine};
ghost use Rattle.yf_block_scalar.specs.Indentation.{EndsAtBoundary, IndentOfLines, IndentOfLine};

use crate::body_lines::space_line;
use yf_lines::basic::{is_mark_at, is_marker_at, skip_spaces};

// The indentation of the content if the header doesn't give it.
#[derive(Drop)]
pub(crate) enum Indentation {
    // The number of spaces before the content.
    Found(usize),
    // There is no content. The number of lines of only spaces, and the offset after them.
    Missing(usize, usize),
    // A line of only spaces before the content has more spaces than the content.
    TooLong,
}

// Returns max(n, 0), the base of an indentation indicator.
pub(crate) fn base_of(n: i32) -> usize
    requires { n ≤ℤ pos (2 ^ 30) }
    ensures { result ≡ base n }
{
    if n < 0 { 0 } else { n as usize }
}

// Returns n + 1, the least number of spaces of a detected indentation.
pub(crate) fn least_of(n: i32) -> usize
    requires { n ≤ℤ pos (2 ^ 30) }
    ensures { result ≡ least n }
{
    if n < 0 { 0 } else { n as usize + 1 }
}

// Returns whether a document marker begins the line, possibly after byte order marks.
fn marker_line(s: &str, at: usize) -> bool
    ensures { MatchBool result (MarkerLine s.now at) (MarkerLine s.now at → ⊥) }
{
    let mut place = at;
    while is_mark_at(s, place) {
        place += 3;
    }
    is_marker_at(s, place)
}

fn longer(first: usize, second: usize) -> usize
    ensures { result ≡ max first second }
{
    if first < second { second } else { first }
}

// Finds the indentation of the content, with its lines from the offset on.
pub(crate) fn find_indentation(s: &str, at: usize, n: i32) -> Indentation
    requires boundary { IsCharBoundary s.now at }
    requires small { n ≤ℤ pos (2 ^ 30) }
    ensures finds { IndentOfLines s.now n at result }
    ensures boundary { EndsAtBoundary s.now result }
{
    let mut place = at;
    let mut count = 0;
    let mut longest = 0;
    'lines: loop {
        match space_line(s, place) {
            Some(part) => {
                longest = longer(longest, part.width);
                count += 1;
                place = part.next;
            }
            None => return judge_line(s, place, n, count, longest),
        }
    }
}

// Finds the indentation from the first line that doesn't hold only spaces. `count` such lines precede it, the longest
// with `longest` spaces.
fn judge_line(s: &str, at: usize, n: i32, count: usize, longest: usize) -> Indentation
    requires boundary { IsCharBoundary s.now at }
    requires small { n ≤ℤ pos (2 ^ 30) }
    requires other { (m j : ℕ) → SpaceLine s.now at m j → ⊥ }
    ensures judges { IndentOfLine s.now n at count longest result }
    ensures boundary { EndsAtBoundary s.now result }
{
    let first = skip_spaces(s, at);
    if first == s.len() {
        return Indentation::Missing(count, at);
    }
    if marker_line(s, at) {
        return Indentation::Missing(count, at);
    }
    let width = first - at;
    if width < least_of(n) {
        return Indentation::Missing(count, at);
    }
    if width < longest {
        return Indentation::TooLong;
    }
    Indentation::Found(width)
}
