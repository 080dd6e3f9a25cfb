//! The lines of `--lines`.
ghost use Rattle.std.specs.Prelude.{◌≡◌, false, map, MatchResult, true};
ghost use Rattle.yf_command_line.specs.Lines.{are_lines, lines_in};
ghost use Rattle.yf_command_line.specs.Requests.{RefusedBy};

use crate::usage::{Usage, refusal_of_value};
use std::alloc::Global;
use yf_line_ranges::range::LineRange;
use yf_line_ranges::read::add_ranges;

/// Why a word of `--lines` is refused.
const NO_LINES: &str = ": LINES are numbers of lines and ranges, as in 3-7,12";

// Returns the ranges in the words of `--lines`, word by word.
pub(crate) fn lines_met(alloc: Global, words: &[&str]) -> Result<Vec<LineRange>, Usage>
    ensures { MatchResult result
        (λ lines. (are_lines (map (λ w. w.now) words.now) ≡ true)
        × (lines.items ≡ lines_in (map (λ w. w.now) words.now)))
        (RefusedBy (are_lines (map (λ w. w.now) words.now) ≡ false)) }
{
    let mut lines = Vec::new(alloc);
    for word in words {
        if !add_ranges(alloc, &mut lines, word)? {
            return Err(refusal_of_value(alloc, word, "--lines <LINES>", NO_LINES));
        }
    }
    Ok(lines)
}
