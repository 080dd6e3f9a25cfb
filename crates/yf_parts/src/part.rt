//! Formatting only some lines of a text, by edits that are verified.
ghost use Rattle.std.specs.Prelude.{IfErr, IfOk};
ghost use Rattle.std.specs.String.{string_bytes};
ghost use Rattle.yf_parts.specs.PartKept.{PartKept};
ghost use Rattle.yf_rules.specs.Headline.{Headline};
ghost use Rattle.yf_stream.specs.StreamReader.{StreamFault};

use crate::asked::has_true;
use crate::candidates::{Reach, chosen, counts};
use crate::hunks::{Hunk, hunks_between};
use crate::search::{PartContext, searched};
use crate::touched::touched;
use std::alloc::{AllocError, Global};
use yf_forms::style::Style;
use yf_laws::every_text::{formattings_hold, texts_are_read_and_formatted};
use yf_line_ranges::range::LineRange;
use yf_lines::fault::Fault;
use yf_rules::format::format;

/// A text with some hunks of its formatting applied.
#[derive(Drop)]
pub struct FormattedPart {
    /// The text.
    pub text: String,
    /// All hunks between the text and its formatting, in order.
    pub hunks: Vec<Hunk>,
    /// For each hunk whether it is applied.
    pub applied: Vec<bool>,
}

/// Returns the part of a formatting for the requested lines.
fn part_of(
    alloc: Global,
    text: &str,
    formatted: &str,
    style: &Style,
    lines: &[LineRange],
) -> Result<FormattedPart, AllocError>
    requires { Headline text.now style.now formatted.now }
    ensures { IfOk result (λ part. PartKept text.now style.now lines.now part.hunks.items part.applied.items
        (string_bytes part.text)) }
{
    formattings_hold();
    texts_are_read_and_formatted();
    let hunks = hunks_between(alloc, text.as_bytes(), formatted.as_bytes())?;
    let flags = touched(alloc, &hunks, lines)?;
    let counts = counts(alloc, &flags)?;
    if !has_true(&flags) {
        let applied = chosen(
            alloc,
            &flags,
            &counts,
            Reach {
                before: 0,
                after: 0,
            },
        )?;
        let text = String::from_str(alloc, text)?;
        return Ok(FormattedPart {
            text,
            hunks,
            applied,
        });
    }
    let all = hunks.as_slice();
    let set = flags.as_slice();
    let numbers = counts.as_slice();
    let context = PartContext {
        text,
        formatted,
        style,
        hunks: all,
        flags: set,
        counts: numbers,
    };
    let attempt = searched(alloc, context)?;
    Ok(FormattedPart {
        text: attempt.text,
        hunks,
        applied: attempt.applied,
    })
}

/// Returns a text with its requested lines as in its formatting, and with few other changes. `PartKept` has all that is
/// proved of it: it is the text with some hunks applied, and all other bytes are unchanged; it has the content and the
/// comments of the text; its formatting is that of the text; every hunk that touches a requested line is applied; and
/// if no hunk touches one, it is the text.
///
/// It applies the hunks that touch a requested line and the 0, 1, 3, 7 and so on hunks on both sides of each, until the
/// formatting of the result is that of the text. Each smaller number of them fails. Then it leaves out hunks by
/// halves, first before the touched ones and then after them; `IsNarrowed` says which smaller numbers fail. It is not
/// proved that no other choice of fewer hunks would do, nor that a hunk is small: one hunk over the whole text would
/// meet `PartKept` too. For k hunks the text is formatted at most 3 log2(k) + 6 times.
///
/// # Errors
///
/// Fails like `format`.
pub fn format_lines(
    alloc: Global,
    text: &str,
    style: &Style,
    lines: &[LineRange],
) -> Result<FormattedPart, Fault>
    ensures kept { IfOk result (λ part. PartKept text.now style.now lines.now part.hunks.items part.applied.items
        (string_bytes part.text)) }
    ensures refuses { IfErr result (StreamFault text.now) }
{
    let formatted = format(alloc, text, style)?;
    match part_of(alloc, text, formatted.as_str(), style, lines) {
        Ok(part) => Ok(part),
        Err(AllocError) => Err(Fault::Memory),
    }
}
