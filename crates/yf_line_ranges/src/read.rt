//! Reading ranges of lines from a text: `3-7,12`.
ghost use Rattle.std.specs.Prelude.{◌≡◌, ◌++◌, IfOk, MatchOption, false, map, true};
ghost use Rattle.yf_line_ranges.specs.Numbers.{number_of};
ghost use Rattle.yf_line_ranges.specs.Written.{are_ends, are_ranges, is_line_number, is_range, lines_between, parts_of};
ghost use Rattle.yf_line_ranges.specs.Written.{range_of, ranges_in};

use crate::number::read_number;
use crate::range::LineRange;
use std::alloc::{AllocError, Global};

/// The number of the first line of a text.
const FIRST_LINE: usize = 1;

/// Adds the ranges of a text, in order, and returns whether the text is a list of ranges: one or more, separated by
/// commas. A range is the number of a line, or two numbers with `-` between; the first must not be larger than the
/// second. A number consists of digits and is at least 1. The text must contain nothing else, not even a space.
///
/// If it returns false, it may have added some of the ranges.
///
/// # Errors
///
/// `AllocError` if memory is refused.
pub fn add_ranges(
    alloc: Global,
    ranges: &mut Vec<LineRange>,
    text: &str,
) -> Result<bool, AllocError>
    ensures written { IfOk result (λ is_written. is_written ≡ are_ranges text.now) }
    ensures added { IfOk result (λ is_written. is_written ≡ true
        → ranges.new.items ≡ ranges.old.items ++ ranges_in text.now) }
{
    let parts = parts_of(alloc, text)?;
    for part in parts.as_slice() {
        match range_of(part) {
            Some(range) => ranges.push(range)?,
            None => return Ok(false),
        }
    }
    Ok(true)
}

// Returns the texts between the commas of a text.
fn parts_of<'a>(alloc: Global, text: &'a str) -> Result<Vec<&'a str>, AllocError>
    ensures { IfOk result (λ parts. map (λ part. part.now) parts.items ≡ parts_of text.now) }
{
    text.split(',').collect(alloc)
}

// Returns the range that a text writes, or `None` for another text.
fn range_of(part: &str) -> Option<LineRange>
    ensures { MatchOption result (is_range part.now ≡ false)
        (λ range. (is_range part.now ≡ true) × (range ≡ range_of part.now)) }
{
    match part.split_once('-') {
        Some((first, last)) => lines_between(first, last),
        None => lines_between(part, part),
    }
}

// Returns the lines from one number to another, or `None` if a text is not a number, or if the first number is larger.
fn lines_between(first: &str, last: &str) -> Option<LineRange>
    ensures { MatchOption result (are_ends first.now last.now ≡ false)
        (λ range. (are_ends first.now last.now ≡ true) × (range ≡ lines_between first.now last.now)) }
{
    let first = match line_number(first) {
        Some(number) => number,
        None => return None,
    };
    let last = match line_number(last) {
        Some(number) => number,
        None => return None,
    };
    if last < first {
        return None;
    }
    Some(LineRange { first, last })
}

// Returns the number of a line that a text writes, or `None` for another text.
fn line_number(text: &str) -> Option<usize>
    ensures { MatchOption result (is_line_number text.now ≡ false)
        (λ number. (is_line_number text.now ≡ true) × (number ≡ number_of text.now)) }
{
    let number = match read_number(text) {
        Some(number) => number,
        None => return None,
    };
    if number < FIRST_LINE {
        return None;
    }
    Some(number)
}
