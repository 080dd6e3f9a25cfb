//! Text edits as JSON.
ghost use Rattle.std.specs.Prelude.{◌≡◌, ◌++◌, ◌∷◌, [], IfOk, OnOk, map};
ghost use Rattle.serde_json.specs.Data.{Data, array};
ghost use Rattle.serde_json.specs.View.{items_of, view};
ghost use Rattle.yf_server.specs.Edits.{AreEditsTo, edit_data, edit_of, edits_data, position_data, range_between, range_data};

use serde_json::{Value, json};
use std::alloc::{AllocError, Global};
use yf_positions::document::Document;
use yf_positions::encoding::Encoding;
use yf_positions::position::{LspPosition, LspRange};
use yf_positions::text_edit::{TextEdit, edits_between};

/// Returns a position as JSON.
fn position_value(alloc: Global, position: LspPosition) -> Result<Value, AllocError>
    ensures { IfOk result (λ value. view value ≡ position_data position) }
{
    let line = position.line as u64;
    let character = position.character as u64;
    json!(in alloc; {"line": line, "character": character})
}

/// Returns a range as JSON, by its ends.
fn range_between(alloc: Global, start: &Value, end: &Value) -> Result<Value, AllocError>
    ensures { IfOk result (λ value. view value ≡ range_between (view start.now) (view end.now)) }
{
    json!(in alloc; {"start": start, "end": end})
}

/// Returns a range as JSON.
pub fn range_value(alloc: Global, range: LspRange) -> Result<Value, AllocError>
    ensures { IfOk result (λ value. view value ≡ range_data range) }
{
    let start = position_value(alloc, range.start)?;
    let end = position_value(alloc, range.end)?;
    range_between(alloc, &start, &end)
}

/// Returns an edit as JSON, by its range and text.
fn edit_of(alloc: Global, range: &Value, text: &str) -> Result<Value, AllocError>
    ensures { IfOk result (λ value. view value ≡ edit_of (view range.now) text.now) }
{
    json!(in alloc; {"range": range, "newText": text})
}

/// Returns an edit as JSON.
fn edit_value(alloc: Global, edit: &TextEdit<'_>) -> Result<Value, AllocError>
    ensures { IfOk result (λ value. view value ≡ edit_data edit.now) }
{
    let range = range_value(alloc, edit.range)?;
    edit_of(alloc, &range, edit.text)
}

/// Adds an edit as JSON.
fn push_edit(alloc: Global, values: &mut Vec<Value>, edit: &TextEdit<'_>) -> Result<(), AllocError>
    ensures { OnOk result (map view values.new.items ≡ map view values.old.items ++ edit_data edit.now ∷ []) }
{
    let value = edit_value(alloc, edit)?;
    values.push(value)?;
    Ok(())
}

/// Returns edits as JSON, in order.
fn edits_value(alloc: Global, edits: &[TextEdit<'_>]) -> Result<Value, AllocError>
    ensures { IfOk result (λ value. view value ≡ edits_data edits.now) }
{
    let mut values = Vec::new(alloc);
    for edit in edits {
        push_edit(alloc, &mut values, edit)?;
    }
    Ok(Value::Array(values))
}

/// Returns the edits that turn a document into a new text, as JSON.
///
/// # Errors
///
/// `AllocError` if memory is refused.
pub fn edits_to(
    alloc: Global,
    document: &Document,
    new: &str,
    encoding: Encoding,
) -> Result<Value, AllocError>
    ensures { IfOk result (λ value. AreEditsTo encoding document.now new.now (view value)) }
{
    let edits = edits_between(alloc, document, new, encoding)?;
    edits_value(alloc, edits.as_slice())
}
