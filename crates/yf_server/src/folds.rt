//! Folds as JSON.
ghost use Rattle.std.specs.Prelude.{◌≡◌, ◌<◌, ◌++◌, ℕ, IfOk, OnOk, flat_map, length, map, slice_index_or, slice_set};
ghost use Rattle.serde_json.specs.View.{view};
ghost use Rattle.yf_positions.specs.Lines.{line_count};
ghost use Rattle.yf_server.specs.Folds.{AreFoldsOf, fold_data, fold_if, folds_data, folds_of, lines_of, longer, longest_on, one_line, one_lines};

use crate::analysis::{Analysis, Foldable};
use serde_json::{Value, json};
use std::alloc::{AllocError, Global};
use yf_positions::document::Document;

/// Lines that may be folded.
#[derive(Clone, Copy)]
pub struct LineFold {
    /// The first line, from 0, which stays visible.
    pub first: usize,
    /// The last line.
    pub last: usize,
    /// Whether they are comments.
    pub is_comment: bool,
}

/// Returns the lines of a part of a document.
fn lines_of(document: &Document, part: &Foldable) -> LineFold
    ensures lines { result ≡ lines_of document.now part.now }
    ensures bound { result.first < line_count document.now }
{
    LineFold {
        first: document.line_of(part.start),
        last: document.line_of(part.last),
        is_comment: part.is_comment,
    }
}

/// Returns the longer of two folds; the first one if both are equally long.
fn longer(one: LineFold, other: LineFold) -> LineFold
    ensures { result ≡ longer one other }
{
    if one.last < other.last { other } else { one }
}

/// Returns a table with one line for each line of a document.
fn one_lines(alloc: Global, count: usize) -> Result<Vec<LineFold>, AllocError>
    ensures { IfOk result (λ table. table.items ≡ one_lines count) }
{
    let mut table = Vec::new(alloc);
    for line in 0..count {
        table.push(LineFold {
            first: line,
            last: line,
            is_comment: false,
        })?;
    }
    Ok(table)
}

/// Keeps a fold in the table if it is the longest of its first line so far.
fn keep(table: &mut Vec<LineFold>, fold: LineFold)
    requires { fold.first < length table.old.items }
    ensures { table.new.items ≡ slice_set table.old.items fold.first
        (longer (slice_index_or table.old.items fold.first fold) fold) }
{
    let best = longer(table[fold.first], fold);
    table[fold.first] = best;
}

/// Returns the longest fold for each line of a document, or one line if none begins there.
fn longest_folds(
    alloc: Global,
    document: &Document,
    parts: &[Foldable],
) -> Result<Vec<LineFold>, AllocError>
    ensures count { IfOk result (λ table. length table.items ≡ line_count document.now) }
    ensures longest { IfOk result (λ table. (n : ℕ) → n < line_count document.now
        → slice_index_or table.items n (one_line n)
        ≡ longest_on n (one_line n) (map (lines_of document.now) parts.now)) }
{
    let mut table = one_lines(alloc, document.line_count())?;
    for part in parts {
        let fold = lines_of(document, part);
        keep(&mut table, fold);
    }
    Ok(table)
}

/// Returns a fold as JSON.
fn fold_value(alloc: Global, fold: LineFold) -> Result<Value, AllocError>
    ensures { IfOk result (λ value. view value ≡ fold_data fold) }
{
    let first = fold.first as u64;
    let last = fold.last as u64;
    if fold.is_comment {
        return json!(in alloc; {"startLine": first, "endLine": last, "kind": "comment"});
    }
    json!(in alloc; {"startLine": first, "endLine": last})
}

/// Adds a fold as JSON, if it has at least two lines.
fn push_fold(alloc: Global, values: &mut Vec<Value>, fold: &LineFold) -> Result<(), AllocError>
    ensures { OnOk result (map view values.new.items
        ≡ map view values.old.items ++ map fold_data (fold_if fold.now)) }
{
    if fold.first < fold.last {
        let value = fold_value(alloc, *fold)?;
        values.push(value)?;
    }
    Ok(())
}

/// Returns the folds of a table as JSON, in order.
fn folds_value(alloc: Global, table: &[LineFold]) -> Result<Value, AllocError>
    ensures { IfOk result (λ value. view value ≡ folds_data (flat_map fold_if table.now)) }
{
    let mut values = Vec::new(alloc);
    for fold in table {
        push_fold(alloc, &mut values, fold)?;
    }
    Ok(Value::Array(values))
}

/// Returns the folds that parts of a document give, as JSON.
fn folds_by(alloc: Global, document: &Document, parts: &[Foldable]) -> Result<Value, AllocError>
    ensures { IfOk result (λ value. view value ≡ folds_data (folds_of document.now parts.now)) }
{
    let table = longest_folds(alloc, document, parts)?;
    folds_value(alloc, table.as_slice())
}

/// Returns the folds of a document as JSON: for each line the longest part that begins there, if it has at least two
/// lines. Null if the document is not read.
///
/// # Errors
///
/// `AllocError` if memory is refused.
pub fn folds<A: Analysis>(
    alloc: Global,
    analysis: &A,
    document: &Document,
) -> Result<Value, AllocError>
    ensures { IfOk result (λ value. AreFoldsOf (A.claim analysis.now) document.now (view value)) }
{
    match analysis.foldable(alloc, document.text())? {
        None => Ok(Value::Null),
        Some(parts) => folds_by(alloc, document, parts.as_slice()),
    }
}
