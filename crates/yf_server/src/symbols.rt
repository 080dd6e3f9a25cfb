//! Symbols as JSON.
ghost use Rattle.std.specs.Prelude.{◌≡◌, ◌<◌, IfOk, MatchOption, length, map, option_map};
ghost use Rattle.serde_json.specs.Data.{array};
ghost use Rattle.serde_json.specs.View.{items_of, view};
ghost use Rattle.yf_server.specs.Analysis.{kind_number};
ghost use Rattle.yf_server.specs.Edits.{range_data};
ghost use Rattle.yf_server.specs.Symbols.{AreSymbolsOf, after_deeper, after_first, deeper, first_if, on_stack, range_of, symbol_data, symbol_of, symbols_data, symbols_of, text_in, with_part};

use crate::analysis::{Analysis, Part, TextSpan};
use crate::edits::range_value;
use serde_json::{Value, json};
use std::alloc::{AllocError, Global};
use yf_positions::document::Document;
use yf_positions::encoding::Encoding;
use yf_positions::position::LspRange;

/// A symbol as JSON, and the depth of its part.
#[derive(Drop)]
pub struct Symbol {
    pub depth: usize,
    pub value: Value,
}

/// Returns the range of a span of a document.
pub fn range_of(document: &Document, span: TextSpan, encoding: Encoding) -> LspRange
    ensures { result ≡ range_of encoding document.now span }
{
    LspRange {
        start: document.position_of(span.start, encoding),
        end: document.position_of(span.end, encoding),
    }
}

/// Returns the text of a range of a document.
fn text_in<'d>(document: &'d Document, range: LspRange, encoding: Encoding) -> &'d str
    ensures { result.now ≡ text_in encoding document.now range }
{
    let text = document.text();
    let start = document.offset_of(range.start, encoding);
    let end = document.offset_of(range.end, encoding);
    if start > end {
        return "";
    }
    &text[start..end]
}

/// Returns a symbol as JSON, by its ranges and the symbols in it.
fn symbol_of(
    alloc: Global,
    range: &Value,
    selection: &Value,
    name: &str,
    kind: u64,
    children: Value,
) -> Result<Value, AllocError>
    ensures { IfOk result (λ value. view value
        ≡ symbol_of (view range.now) (view selection.now) name.now kind (view children)) }
{
    json!(in alloc; {
        "name": name,
        "kind": kind,
        "range": range,
        "selectionRange": selection,
        "children": children
    })
}

/// Returns the symbol of a part as JSON, with the symbols in it.
fn symbol_value(
    alloc: Global,
    document: &Document,
    part: &Part,
    children: Vec<Value>,
    encoding: Encoding,
) -> Result<Value, AllocError>
    ensures { IfOk result (λ value. view value
        ≡ symbol_data encoding document.now part.now (map view children.items)) }
{
    let selected = range_of(document, part.name, encoding);
    let range = range_value(alloc, range_of(document, part.whole, encoding))?;
    let selection = range_value(alloc, selected)?;
    let name = text_in(document, selected, encoding);
    let kind = part.kind.number();
    symbol_of(
        alloc,
        &range,
        &selection,
        name,
        kind,
        Value::Array(children),
    )
}

/// Takes the last symbol of a stack, if it is deeper.
fn pop_deeper(stack: &mut Vec<Symbol>, depth: usize) -> Result<Option<Value>, AllocError>
    ensures first { IfOk result (λ found. option_map view found ≡ first_if depth (on_stack stack.old.items)) }
    ensures rest { IfOk result (λ _. on_stack stack.new.items ≡ after_first depth (on_stack stack.old.items)) }
    ensures fewer { IfOk result (λ found. MatchOption found (length stack.new.items ≡ length stack.old.items)
        (λ _. length stack.new.items < length stack.old.items)) }
{
    match stack.pop() {
        None => Ok(None),
        Some(
            Symbol {
                depth: found,
                value,
            },
        ) => {
            if depth < found {
                return Ok(Some(value));
            }
            stack.push(Symbol {
                depth: found,
                value,
            })?;
            Ok(None)
        }
    }
}

/// Takes the symbols at the end of a stack that are deeper, the last one first.
fn take_deeper(
    alloc: Global,
    stack: &mut Vec<Symbol>,
    depth: usize,
) -> Result<Vec<Value>, AllocError>
    ensures taken { IfOk result (λ values. map view values.items ≡ deeper depth (on_stack stack.old.items)) }
    ensures rest { IfOk result (λ _. on_stack stack.new.items ≡ after_deeper depth (on_stack stack.old.items)) }
{
    let mut values = Vec::new(alloc);
    while let Some(value) = pop_deeper(stack, depth)? {
        values.push(value)?;
    }
    Ok(values)
}

/// Adds the symbol of the part before the symbols of a stack. It takes those that are deeper.
fn push_part(
    alloc: Global,
    stack: &mut Vec<Symbol>,
    document: &Document,
    part: &Part,
    encoding: Encoding,
) -> Result<(), AllocError>
    ensures { IfOk result (λ _. on_stack stack.new.items
        ≡ with_part encoding document.now part.now (on_stack stack.old.items)) }
{
    let children = take_deeper(alloc, stack, part.depth)?;
    let value = symbol_value(alloc, document, part, children, encoding)?;
    stack.push(Symbol {
        depth: part.depth,
        value,
    })?;
    Ok(())
}

/// Returns the symbols of parts on a stack, the last one first.
fn stack_of(
    alloc: Global,
    document: &Document,
    parts: &[Part],
    encoding: Encoding,
) -> Result<Vec<Symbol>, AllocError>
    ensures { IfOk result (λ stack. on_stack stack.items ≡ symbols_of encoding document.now parts.now) }
{
    let mut stack = Vec::new(alloc);
    let mut left = parts.len();
    while left > 0 {
        left -= 1;
        push_part(alloc, &mut stack, document, &parts[left], encoding)?;
    }
    Ok(stack)
}

/// Returns the symbols of a stack as JSON, the last one first.
fn stack_value(alloc: Global, mut stack: Vec<Symbol>) -> Result<Value, AllocError>
    ensures { IfOk result (λ value. view value ≡ array (items_of (map (λ s. s.value) (on_stack stack.items)))) }
{
    let mut values = Vec::new(alloc);
    while let Some(Symbol { depth: _, value }) = stack.pop() {
        values.push(value)?;
    }
    Ok(Value::Array(values))
}

/// Returns the symbols of parts of a document as JSON.
fn symbols_by(
    alloc: Global,
    document: &Document,
    parts: &[Part],
    encoding: Encoding,
) -> Result<Value, AllocError>
    ensures { IfOk result (λ value. view value ≡ symbols_data encoding document.now parts.now) }
{
    let stack = stack_of(alloc, document, parts, encoding)?;
    stack_value(alloc, stack)
}

/// Returns the symbols of a document as JSON, one for each part, in the symbols of the parts around it. Null if the
/// document is not read.
///
/// # Errors
///
/// `AllocError` if memory is refused.
pub fn symbols<A: Analysis>(
    alloc: Global,
    analysis: &A,
    document: &Document,
    encoding: Encoding,
) -> Result<Value, AllocError>
    ensures { IfOk result (λ value. AreSymbolsOf (A.claim analysis.now) encoding document.now (view value)) }
{
    match analysis.outline(alloc, document.text())? {
        None => Ok(Value::Null),
        Some(parts) => symbols_by(alloc, document, parts.as_slice(), encoding),
    }
}
