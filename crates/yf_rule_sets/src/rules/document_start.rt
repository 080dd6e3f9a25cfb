//! Rule 4, document-start.
ghost use Rattle.std.specs.Prelude.{◌≡◌, IfOk};
ghost use Rattle.yf_rule_sets.specs.RuleSets.Documents.{IsUnmarked, NoMarkerLine, may_be_bare};
ghost use Rattle.yf_rule_sets.specs.RuleSets.Exact.{IsTheOne, Exactly};

use crate::facts::found::{FoundOffsets, Global, Reading, Src, Style, push_found};
use crate::facts::markers::markers;
use crate::facts::notes::is_alone;
pub use crate::rules::StyleRule::DocumentStart;
use yf_forms::style::DocumentStart as Starts;

/// Returns the first character of content of each document without `---`, except the first document if the style keeps
/// it so, and each `---` with more than white space after it on its line.
pub fn offsets(alloc: Global, src: &Src, reading: &Reading, style: &Style) -> FoundOffsets
    ensures { IfOk result (λ offsets. Exactly (NoMarkerLine src.now.text reading.now style.now) offsets.items) }
{
    let documents = reading.documents();
    let markers = markers(alloc, reading)?;
    let mut offsets = Vec::new(alloc);
    for k in 0..documents.len().min(markers.len()) {
        push_found(
            &mut offsets,
            unmarked(
                src.text(),
                markers[k],
                may_be_bare(style, k),
                documents[k].start,
            ),
        )?;
    }
    Ok(offsets)
}

/// Returns whether the document of that index may be without `---`.
fn may_be_bare(style: &Style, k: usize) -> bool
    ensures { result ≡ may_be_bare style.now k }
{
    match style.document_start {
        Starts::Always => false,
        Starts::Keep => k == 0,
    }
}

/// Returns the start of a document, if it is at fault.
fn unmarked(text: &str, marked: bool, may_be_bare: bool, start: usize) -> Option<usize>
    ensures { IsTheOne (IsUnmarked text.now marked may_be_bare start) result }
{
    if marked {
        if is_alone(text, start) {
            return None;
        }
        return Some(start);
    }
    if may_be_bare {
        return None;
    }
    Some(start)
}
