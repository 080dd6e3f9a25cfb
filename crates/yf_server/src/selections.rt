//! Selection ranges as JSON.
ghost use Rattle.std.specs.Prelude.{◌≡◌, ◌++◌, ◌∷◌, [], Some, IfOk, OnOk, map, option_map, option_to_list};
ghost use Rattle.serde_json.specs.Data.{array};
ghost use Rattle.serde_json.specs.View.{items_of, view};
ghost use Rattle.yf_server.specs.Edits.{range_data};
ghost use Rattle.yf_server.specs.Parameters.{position_of};
ghost use Rattle.yf_server.specs.Selections.{AreSelectionsOf, chain, chain_at, holds, inner_at, other_than, same_span, selection, selection_at, selection_by, selections_of, spans_at};
ghost use Rattle.yf_server.specs.Symbols.{range_of};

use crate::analysis::{Analysis, Part, TextSpan};
use crate::edits::range_value;
use crate::parameters::position_of;
use crate::symbols::range_of;
use serde_json::{Value, json};
use std::alloc::{AllocError, Global};
use yf_positions::document::Document;
use yf_positions::encoding::Encoding;

/// Returns whether a span has an offset, also its end.
fn holds(offset: usize, span: TextSpan) -> bool
    ensures { result ≡ holds offset span }
{
    span.start <= offset && offset <= span.end
}

fn same_span(span: TextSpan, other: TextSpan) -> bool
    ensures { result ≡ same_span span other }
{
    span.start == other.start && span.end == other.end
}

/// Returns a span if it is another one.
fn other_than(span: TextSpan, other: TextSpan) -> Option<TextSpan>
    ensures { option_to_list result ≡ other_than span other }
{
    if same_span(span, other) {
        return None;
    }
    Some(other)
}

/// Returns the span of the node or the name of a part that has an offset, if that is not the whole part.
fn inner_at(offset: usize, part: &Part) -> Option<TextSpan>
    ensures { option_to_list result ≡ inner_at offset part.now }
{
    if holds(offset, part.node) {
        return other_than(part.whole, part.node);
    }
    if holds(offset, part.name) {
        return other_than(part.whole, part.name);
    }
    None
}

/// Returns a selection range in an outer one, if there is an outer one, as JSON.
fn selection(alloc: Global, outer: Option<Value>, range: &Value) -> Result<Value, AllocError>
    ensures { IfOk result (λ value. view value ≡ selection (option_map view outer) (view range.now)) }
{
    match outer {
        None => json!(in alloc; {"range": range}),
        Some(parent) => json!(in alloc; {"parent": parent, "range": range}),
    }
}

/// Returns the selection range of a span in an outer one, as JSON.
fn selection_of(
    alloc: Global,
    document: &Document,
    outer: Option<Value>,
    span: TextSpan,
    encoding: Encoding,
) -> Result<Value, AllocError>
    ensures { IfOk result (λ value. view value
        ≡ selection (option_map view outer) (range_data (range_of encoding document.now span))) }
{
    let range = range_value(alloc, range_of(document, span, encoding))?;
    selection(alloc, outer, &range)
}

/// Adds the selection range of a part's node or name, if it has the offset.
fn add_inner(
    alloc: Global,
    document: &Document,
    outer: Value,
    inner: Option<TextSpan>,
    encoding: Encoding,
) -> Result<Value, AllocError>
    ensures { IfOk result (λ value. Some (view value)
        ≡ chain encoding document.now (Some (view outer)) (option_to_list inner)) }
{
    match inner {
        None => Ok(outer),
        Some(span) => selection_of(alloc, document, Some(outer), span, encoding),
    }
}

/// Adds the selection ranges of a part, if it has the offset.
fn add_part(
    alloc: Global,
    document: &Document,
    outer: Option<Value>,
    part: &Part,
    offset: usize,
    encoding: Encoding,
) -> Result<Option<Value>, AllocError>
    ensures { IfOk result (λ value. option_map view value
        ≡ chain encoding document.now (option_map view outer) (spans_at offset part.now)) }
{
    if !holds(offset, part.whole) {
        return Ok(outer);
    }
    let whole = selection_of(alloc, document, outer, part.whole, encoding)?;
    let value = add_inner(alloc, document, whole, inner_at(offset, part), encoding)?;
    Ok(Some(value))
}

/// Returns the selection ranges at an offset, one in the other, as JSON.
fn chain_at(
    alloc: Global,
    document: &Document,
    parts: &[Part],
    offset: usize,
    encoding: Encoding,
) -> Result<Option<Value>, AllocError>
    ensures { IfOk result (λ value. option_map view value ≡ chain_at encoding document.now parts.now offset) }
{
    let mut value = None;
    for part in parts {
        value = add_part(alloc, document, value, part, offset, encoding)?;
    }
    Ok(value)
}

/// Returns the selection range at an offset as JSON; an empty range if no part has the offset.
fn selection_at(
    alloc: Global,
    document: &Document,
    parts: &[Part],
    offset: usize,
    encoding: Encoding,
) -> Result<Value, AllocError>
    ensures { IfOk result (λ value. view value ≡ selection_at encoding document.now parts.now offset) }
{
    match chain_at(alloc, document, parts, offset, encoding)? {
        Some(value) => Ok(value),
        None => {
            let span = TextSpan {
                start: offset,
                end: offset,
            };
            selection_of(alloc, document, None, span, encoding)
        }
    }
}

/// Adds the selection range of a position as JSON.
fn push_selection(
    alloc: Global,
    values: &mut Vec<Value>,
    document: &Document,
    parts: &[Part],
    position: &Value,
    encoding: Encoding,
) -> Result<(), AllocError>
    ensures { OnOk result (map view values.new.items ≡ map view values.old.items
        ++ selection_by encoding document.now parts.now (position_of (view position.now)) ∷ []) }
{
    let value = match position_of(position) {
        None => Value::Null,
        Some(found) => {
            let offset = document.offset_of(found, encoding);
            selection_at(alloc, document, parts, offset, encoding)?
        }
    };
    values.push(value)?;
    Ok(())
}

/// Returns the selection ranges of positions as JSON.
fn selections_by(
    alloc: Global,
    document: &Document,
    parts: &[Part],
    positions: &[Value],
    encoding: Encoding,
) -> Result<Value, AllocError>
    ensures { IfOk result (λ value. view value
        ≡ array (selections_of encoding document.now parts.now (items_of (map view positions.now)))) }
{
    let mut values = Vec::new(alloc);
    for position in positions {
        push_selection(alloc, &mut values, document, parts, position, encoding)?;
    }
    Ok(Value::Array(values))
}

/// Returns the selection ranges of positions of a document as JSON: those of the parts that have the position, one in
/// the other. Null if the document is not read.
///
/// # Errors
///
/// `AllocError` if memory is refused.
pub fn selections<A: Analysis>(
    alloc: Global,
    analysis: &A,
    document: &Document,
    positions: &[Value],
    encoding: Encoding,
) -> Result<Value, AllocError>
    ensures { IfOk result (λ value. AreSelectionsOf (A.claim analysis.now) encoding (items_of (map view positions.now))
        document.now (view value)) }
{
    match analysis.outline(alloc, document.text())? {
        None => Ok(Value::Null),
        Some(parts) => selections_by(alloc, document, parts.as_slice(), positions, encoding),
    }
}
