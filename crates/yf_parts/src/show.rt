//! How a text with some or all lines formatted is shown, over any writer. `specs/Shown` has the definitions.
ghost use Rattle.std.specs.Prelude.{IfErr, IfOk};
ghost use Rattle.yf_parts.specs.Shown.{DiffBroke, DiffFound, DiffShown, IsShown, NotShown, PlaceBroke, PlaceShown};
ghost use Rattle.yf_parts.specs.Shown.{ShowBroke, TextBroke, TextShown};
ghost use Rattle.yf_rules.specs.Quoted.{quoted};
ghost use Rattle.yf_rules.specs.Runs.ByteStream.{stream_of};

use std::alloc::{AllocError, Global};
use yf_chars::utf8::check_utf8;
use yf_diff::diff::push_diff;
use yf_lines::fault::Fault;
use yf_lines::output::write_text;
use yf_lines::watched::Sink;
use yf_rules::compare::{difference, write_difference};
use yf_rules::quoted::quoted;

/// How a text with some or all lines formatted is shown.
#[derive(Clone, Copy)]
pub enum Show {
    /// The text with the lines formatted.
    Text,
    /// The position at which the text first differs from that text, if it does.
    Place,
    /// The unified diff from the text to that text.
    Diff,
}

/// Shows a text with some or all lines formatted: `part` is `text` with these lines formatted. Returns false only if it
/// shows a position or a diff and the texts differ. A diff has both texts under the name, as Git writes it.
///
/// # Errors
///
/// `Fault::Memory` before any output. `Fault::WriteFailed` after a prefix of the output.
pub fn show_part<W: Sink>(
    alloc: Global,
    show: Show,
    name: &str,
    text: &str,
    part: &str,
    writer: &mut W,
) -> Result<bool, Fault>
    ensures shown { IfOk result (IsShown show name.now text.now part.now
        (stream_of W.contents W.has_failed writer.old) (stream_of W.contents W.has_failed writer.new)) }
    ensures refused { IfErr result (NotShown
        (ShowBroke show name.now text.now part.now (stream_of W.contents W.has_failed writer.old)
        (stream_of W.contents W.has_failed writer.new))
        (stream_of W.contents W.has_failed writer.old) (stream_of W.contents W.has_failed writer.new)) }
{
    match show {
        Show::Text => show_text(part, writer),
        Show::Place => show_place(alloc, text, part, writer),
        Show::Diff => show_diff(alloc, name, text, part, writer),
    }
}

/// Writes a text, and returns true.
fn show_text<W: Sink>(text: &str, writer: &mut W) -> Result<bool, Fault>
    ensures shown { IfOk result (TextShown text.now
        (stream_of W.contents W.has_failed writer.old) (stream_of W.contents W.has_failed writer.new)) }
    ensures refused { IfErr result (NotShown
        (TextBroke text.now (stream_of W.contents W.has_failed writer.old)
        (stream_of W.contents W.has_failed writer.new))
        (stream_of W.contents W.has_failed writer.old) (stream_of W.contents W.has_failed writer.new)) }
{
    match write_text(writer, text.as_bytes()) {
        Ok(()) => Ok(true),
        Err(fault) => Err(fault),
    }
}

/// Writes the position at which a text first differs from another one, if any, and returns whether they are equal.
fn show_place<W: Sink>(
    alloc: Global,
    text: &str,
    other: &str,
    writer: &mut W,
) -> Result<bool, Fault>
    ensures shown { IfOk result (PlaceShown text.now other.now
        (stream_of W.contents W.has_failed writer.old) (stream_of W.contents W.has_failed writer.new)) }
    ensures refused { IfErr result (NotShown
        (PlaceBroke text.now other.now (stream_of W.contents W.has_failed writer.old)
        (stream_of W.contents W.has_failed writer.new))
        (stream_of W.contents W.has_failed writer.old) (stream_of W.contents W.has_failed writer.new)) }
{
    let found = match difference(alloc, text, other) {
        Ok(found) => found,
        Err(AllocError) => return Err(Fault::Memory),
    };
    match found {
        None => Ok(true),
        Some(place) => match write_difference(place, writer) {
            Ok(()) => Ok(false),
            Err(fault) => Err(fault),
        },
    }
}

/// Returns the unified diff of two texts, both under the name as Git writes it.
fn diff_of(alloc: Global, name: &str, text: &str, other: &str) -> Result<Vec<u8>, AllocError>
    ensures { IfOk result (λ diff. DiffFound (quoted name.now) text.now other.now diff.items) }
{
    let quoted = quoted(alloc, name)?;
    let Ok(name) = check_utf8(quoted.as_slice()) else {
        return Err(AllocError);
    };
    let mut diff = Vec::new(alloc);
    push_diff(
        alloc,
        &mut diff,
        name,
        name,
        text.as_bytes(),
        other.as_bytes(),
    )?;
    Ok(diff)
}

/// Writes the unified diff of two texts, both under the name as Git writes it, and returns whether they are equal.
fn show_diff<W: Sink>(
    alloc: Global,
    name: &str,
    text: &str,
    other: &str,
    writer: &mut W,
) -> Result<bool, Fault>
    ensures shown { IfOk result (DiffShown (quoted name.now) text.now other.now
        (stream_of W.contents W.has_failed writer.old) (stream_of W.contents W.has_failed writer.new)) }
    ensures refused { IfErr result (NotShown
        (DiffBroke (quoted name.now) text.now other.now (stream_of W.contents W.has_failed writer.old)
        (stream_of W.contents W.has_failed writer.new))
        (stream_of W.contents W.has_failed writer.old) (stream_of W.contents W.has_failed writer.new)) }
{
    let diff = match diff_of(alloc, name, text, other) {
        Ok(diff) => diff,
        Err(AllocError) => return Err(Fault::Memory),
    };
    if diff.is_empty() {
        return Ok(true);
    }
    write_text(writer, diff.as_slice())?;
    Ok(false)
}
