//! Edits of a document: how they are made, and the edits that lead to another text.
ghost use Rattle.std.specs.Prelude.{◌≡◌, ◌≤◌, [], false, true, IfOk, IsErrOf, OnOk, slice_range, string_bytes};
ghost use Rattle.std.specs.Str.{IsUtf8};
ghost use Rattle.yf_positions.specs.Edits.{AddsEdit, AfterFeed, EditsOfScript, EditsReach, edited, in_order, is_empty};

use crate::document::Document;
use crate::encoding::Encoding;
use crate::position::LspRange;
use std::alloc::{AllocError, Global};
use std::marker::Model;
use yf_diff::hashed_line::hashed_lines;
use yf_diff::script::script;

/// One edit of a document (`TextEdit` of LSP 3.17).
#[derive(Drop)]
pub struct TextEdit<'a> {
    /// The part that gets a new text.
    pub range: LspRange,
    /// The new text.
    pub text: &'a str,
}

impl<'a> Model for TextEdit<'a> {
    ghost use Rattle.yf_positions.specs.Edits.{RangeEdit};

    ghost Value = { RangeEdit };

    ghost view = { λ edit. record { range = edit.range; text = edit.text.now } };
}

/// Why edits were not made.
#[derive(Clone, Copy)]
pub enum EditError {
    /// Memory was refused.
    Memory,
    /// An edit begins before the end of the one before it, or its range ends before it starts.
    OutOfOrder,
}

impl From<AllocError> for EditError {
    ghost use Rattle.yf_positions.specs.declared.text_edit.EditError.TheVariants.{Memory};

    ghost from_gives = { λ _ error. error ≡ Memory };

    fn from(_refused: AllocError) -> EditError {
        EditError::Memory
    }
}

/// Returns the text of a document after edits, which all refer to the text before any edit.
///
/// # Errors
///
/// `EditError::OutOfOrder` if the edits are not in order or overlap, and `EditError::Memory` if memory is refused.
#[tactic(auto, using(crate::proofs::EditLemmas::edit_steps))]
pub fn after_edits(
    alloc: Global,
    document: &Document,
    edits: &[TextEdit<'_>],
    encoding: Encoding,
) -> Result<String, EditError>
    ensures order { OnOk result (in_order encoding document.now 0 edits.now ≡ true) }
    ensures text { IfOk result (λ text. string_bytes text ≡ edited encoding document.now 0 edits.now) }
    ensures out_of_order { IsErrOf result EditError.OutOfOrder → in_order encoding document.now 0 edits.now ≡ false }
{
    let old = document.text();
    let mut text = String::with_capacity(alloc, old.len())?;
    let mut at = 0;
    for edit in edits {
        let start = document.offset_of(edit.range.start, encoding);
        let end = document.offset_of(edit.range.end, encoding);
        if start < at {
            return Err(EditError::OutOfOrder);
        }
        if end < start {
            return Err(EditError::OutOfOrder);
        }
        text.push_str(&old[at..start])?;
        text.push_str(edit.text)?;
        at = end;
    }
    text.push_str(&old[at..])?;
    Ok(text)
}

/// An offset in the old text, and one in the new text.
#[derive(Clone, Copy)]
pub struct Offsets {
    pub old: usize,
    pub new: usize,
}

/// Returns whether no line is dropped or added between two offsets.
fn is_empty(from: Offsets, to: Offsets) -> bool
    ensures { result ≡ is_empty from to }
{
    from.old == to.old && from.new == to.new
}

/// Adds the edit of the lines between two offsets, if there are any.
fn push_edit<'a>(
    document: &Document,
    edits: &mut Vec<TextEdit<'a>>,
    new: &'a str,
    from: Offsets,
    to: Offsets,
    encoding: Encoding,
) -> Result<(), AllocError>
    requires utf8 { IsUtf8 document.now }
    requires old_order { from.old ≤ to.old }
    requires new_order { from.new ≤ to.new }
    requires old_from { AfterFeed document.now from.old }
    requires old_to { AfterFeed document.now to.old }
    requires new_from { AfterFeed new.now from.new }
    requires new_to { AfterFeed new.now to.new }
    requires reach { EditsReach encoding document.now new.now edits.old.items from.old from.new }
    ensures reach { IfOk result (λ _. EditsReach encoding document.now new.now edits.new.items to.old to.new) }
    ensures added { IfOk result (λ _. AddsEdit encoding document.now (slice_range new.now from.new to.new) from to
        edits.old.items edits.new.items) }
{
    if is_empty(from, to) {
        return Ok(());
    }
    let range = LspRange {
        start: document.position_of(from.old, encoding),
        end: document.position_of(to.old, encoding),
    };
    let text = &new[from.new..to.new];
    edits.push(TextEdit { range, text })?;
    Ok(())
}

/// Returns edits of whole lines that lead from a document to a new text. They are in order and do not overlap, and no
/// edit covers a line that the edit script keeps. If the text equals the document's, there are no edits.
///
/// # Errors
///
/// `AllocError` if memory is refused.
pub fn edits_between<'a>(
    alloc: Global,
    document: &Document,
    new: &'a str,
    encoding: Encoding,
) -> Result<Vec<TextEdit<'a>>, AllocError>
    ensures order { IfOk result (λ edits. in_order encoding document.now 0 edits.items ≡ true) }
    ensures text { IfOk result (λ edits. edited encoding document.now 0 edits.items ≡ new.now) }
    ensures script { IfOk result (λ edits. EditsOfScript encoding document.now new.now edits.items) }
    ensures same { IfOk result (λ edits. document.now ≡ new.now → edits.items ≡ []) }
{
    let old = document.text();
    if old == new {
        return Ok(Vec::new(alloc));
    }
    let old_lines = hashed_lines(alloc, old.as_bytes())?;
    let new_lines = hashed_lines(alloc, new.as_bytes())?;
    let steps = script(alloc, &old_lines, &new_lines)?;
    let mut edits = Vec::new(alloc);
    let mut from = Offsets { old: 0, new: 0 };
    let mut to = Offsets { old: 0, new: 0 };
    for step in &steps {
        let size = step.line().len();
        if !step.is_change() {
            push_edit(document, &mut edits, new, from, to, encoding)?;
            to = Offsets {
                old: to.old + size,
                new: to.new + size,
            };
            from = to;
            continue;
        }
        if step.old_count() == 1 {
            to.old += size;
            continue;
        }
        to.new += size;
    }
    push_edit(document, &mut edits, new, from, to, encoding)?;
    Ok(edits)
}
