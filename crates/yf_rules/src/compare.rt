//! Compares a text with its formatting. `specs/Runs/Compare` has the definitions.
ghost use Rattle.std.specs.Prelude.{◌≡◌, ◌≢◌, ◌<◌, true, IfErr, IfOk, IfSome, OnOk, MatchOption, MatchResult};
ghost use Rattle.yf_rules.specs.Runs.ByteStream.{WriteEnds, stream_of};
ghost use Rattle.yf_rules.specs.Runs.Compare.{CompareRun, Difference, DifferAt, DiffersFirst, IsClean};
ghost use Rattle.yf_rules.specs.Runs.Compare.{RefusedCompare, SameUpTo, difference_line};
ghost use Rattle.yf_rules.specs.Runs.Run.{Gave, Keeps, RefusedText};

use crate::format::format;
use crate::input::{read_all, text_of};
use crate::run::INPUT_LIMIT;
use itoa::Buffer;
use std::alloc::{AllocError, Global};
use yf_chars::text::peek;
use yf_forms::style::Style;
use yf_lines::fault::Fault;
use yf_lines::output::write_texts;
use yf_lines::place::Position;
use yf_lines::source_text::Src;
use yf_lines::watched::{Sink, Source};

/// Reads all bytes, and returns whether the text is its own formatting. If it is, nothing is written, and a check with
/// the same settings has no fixable finding. If it isn't, one line is written, `L:C not formatted`: the position of the
/// first character in which the text and its formatting differ, or of the end of the text if the text is a prefix of
/// its formatting.
///
/// # Errors
///
/// Fails like `run_events`, and writes nothing, except a prefix of the line after `Fault::WriteFailed`.
pub fn run_fmt_check<R: Source, W: Sink>(
    alloc: Global,
    reader: &mut R,
    kept: &mut Vec<u8>,
    writer: &mut W,
    style: &Style,
) -> Result<bool, Fault>
    ensures compared { IfOk result (λ same. CompareRun style.now (stream_of R.remaining R.has_failed reader.old)
        (stream_of W.contents W.has_failed writer.old) (stream_of W.contents W.has_failed writer.new) same) }
    ensures clean { IfOk result (λ same. same ≡ true → IfSome (R.remaining reader.old) (IsClean style.now)) }
    ensures reader { OnOk result (R.has_failed reader.new ≡ R.has_failed reader.old) }
    ensures bytes { MatchResult result (λ _. Gave (R.remaining reader.old) kept.new.items)
        (Keeps (R.remaining reader.old) kept.new.items) }
    ensures refusals { IfErr result (λ fault. RefusedCompare style.now
        (stream_of R.remaining R.has_failed reader.old) (stream_of R.remaining R.has_failed reader.new)
        (stream_of W.contents W.has_failed writer.old) (stream_of W.contents W.has_failed writer.new) fault) }
{
    match read_difference(alloc, reader, kept, style)? {
        None => Ok(true),
        Some(place) => {
            write_difference(place, writer)?;
            Ok(false)
        }
    }
}

// Reads all bytes, and returns the position at which the text first differs from its formatting, or nothing if it
// doesn't.
//
// Fails like `run_events`, except with the faults of a writer.
fn read_difference<R: Source>(
    alloc: Global,
    reader: &mut R,
    kept: &mut Vec<u8>,
    style: &Style,
) -> Result<Option<Position>, Fault>
    ensures difference { IfOk result (Difference style.now (R.remaining reader.old)) }
    ensures reader { OnOk result (R.has_failed reader.new ≡ R.has_failed reader.old) }
    ensures bytes { MatchResult result (λ _. Gave (R.remaining reader.old) kept.new.items)
        (Keeps (R.remaining reader.old) kept.new.items) }
    ensures refusals { IfErr result (λ fault. RefusedText (stream_of R.remaining R.has_failed reader.old)
        (stream_of R.remaining R.has_failed reader.new) fault) }
{
    *kept = read_all(alloc, reader, INPUT_LIMIT)?;
    let text = text_of(kept.as_slice())?;
    let formatted = format(alloc, text, style)?;
    match difference(alloc, text, formatted.as_str()) {
        Ok(place) => Ok(place),
        Err(AllocError) => Err(Fault::Memory),
    }
}

/// Returns the position of the first character in which a text differs from another one, or of its end if it is a
/// prefix of the other. Returns nothing if they are equal. A table of lines is made only if they differ.
pub fn difference(alloc: Global, text: &str, other: &str) -> Result<Option<Position>, AllocError>
    ensures { IfOk result (λ place. MatchOption place (text.now ≡ other.now) (DiffersFirst text.now other.now)) }
{
    if text == other {
        return Ok(None);
    }
    let at = first_difference(text, other);
    let src = Src::new(alloc, text)?;
    Ok(Some(src.place(at)))
}

// Returns the offset of the first character in which two texts differ.
fn first_difference(text: &str, other: &str) -> usize
    requires { text.now ≢ other.now }
    ensures { DifferAt text.now other.now result }
{
    let mut at = 0;
    while let Some(next) = after_same(text, other, at) {
        at = next;
    }
    at
}

// Returns the offset after the character at an offset in two texts, if both have that character there.
fn after_same(text: &str, other: &str, at: usize) -> Option<usize>
    requires { SameUpTo text.now other.now at }
    ensures { MatchOption result (text.now ≢ other.now → DifferAt text.now other.now at)
        (λ next. (at < next) × SameUpTo text.now other.now next) }
{
    match peek(text, at) {
        Some((c, next)) => match peek(other, at) {
            Some((d, _)) => {
                if c == d {
                    return Some(next);
                }
                None
            }
            None => None,
        },
        None => None,
    }
}

/// Writes the line `L:C not formatted`.
pub fn write_difference<W: Sink>(place: Position, writer: &mut W) -> Result<(), Fault>
    ensures { WriteEnds (stream_of W.contents W.has_failed writer.old) (stream_of W.contents W.has_failed writer.new)
        (difference_line place) result }
{
    let mut line_buffer = Buffer::new();
    let mut column_buffer = Buffer::new();
    let line = line_buffer.format(place.line);
    let column = column_buffer.format(place.column);
    write_texts(writer, &[line, ":", column, " not formatted\n"])
}
