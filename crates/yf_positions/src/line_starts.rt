//! The starts of the lines of a text.
ghost use Rattle.std.specs.Prelude.{◌≡◌, ◌<◌, ◌≤◌, true, length, slice_index, IfOk, MatchOption};
ghost use Rattle.yf_positions.specs.Lines.{AreLineStarts, FirstBreak, IsUnbroken, LineEndsAt, line_start, lines_before};
ghost use Rattle.yf_positions.specs.Units.{is_break};

use memchr::memchr2;
use std::alloc::{AllocError, Global};

/// Returns the offset of the first byte of a line break from an offset on.
fn next_break(bytes: &[u8], from: usize) -> Option<usize>
    requires { from ≤ length bytes.now }
    ensures { MatchOption result (IsUnbroken bytes.now from (length bytes.now)) (FirstBreak bytes.now from) }
{
    match memchr2(b'\n', b'\r', &bytes[from..]) {
        Some(index) => Some(from + index),
        None => None,
    }
}

/// Returns the offset after the line break at an offset.
fn after_break(bytes: &[u8], at: usize) -> usize
    requires within { at < length bytes.now }
    requires here { is_break (slice_index bytes.now at) ≡ true }
    ensures { LineEndsAt bytes.now at result }
{
    if bytes[at] == b'\n' {
        return at + 1;
    }
    if at + 1 >= bytes.len() {
        return at + 1;
    }
    if bytes[at + 1] == b'\n' {
        return at + 2;
    }
    at + 1
}

/// Returns the offsets at which the lines of a text begin.
pub fn line_starts(alloc: Global, bytes: &[u8]) -> Result<Vec<usize>, AllocError>
    ensures { IfOk result (λ starts. AreLineStarts starts.items bytes.now) }
{
    let mut starts = Vec::new(alloc);
    starts.push(0)?;
    let mut at = 0;
    'lines: loop {
        match next_break(bytes, at) {
            Some(end) => {
                at = after_break(bytes, end);
                starts.push(at)?;
            }
            None => return Ok(starts),
        }
    }
}

/// Returns the number of the line that holds an offset, from 0.
pub fn line_at(starts: &[usize], bytes: &[u8], offset: usize) -> usize
    requires starts { AreLineStarts starts.now bytes.now }
    requires bound { offset ≤ length bytes.now }
    ensures exact { result ≡ lines_before bytes.now offset }
    ensures bound { result < length starts.now }
{
    let mut low = 0;
    let mut high = starts.len();
    while high - low > 1 {
        let middle = low + (high - low) / 2;
        if starts[middle] <= offset {
            low = middle;
        } else {
            high = middle;
        }
    }
    low
}

/// Returns the offset at which a line begins, and the end of the text if it has no such line.
pub fn line_start(starts: &[usize], bytes: &[u8], line: usize) -> usize
    requires { AreLineStarts starts.now bytes.now }
    ensures exact { result ≡ line_start bytes.now line }
    ensures bound { result ≤ length bytes.now }
{
    if line < starts.len() {
        return starts[line];
    }
    bytes.len()
}
