//! What a request asks of a document.
ghost use Rattle.std.specs.Prelude.{◌≡◌, map, option_map};
ghost use Rattle.serde_json.specs.Find.{as_str};
ghost use Rattle.serde_json.specs.View.{items_of, view};
ghost use Rattle.yf_server.specs.Queries.{are_positions, asked_positions, asked_range, covers, covers_any, covers_by, only_of, query_of, read_result, selections_by, wants};

use crate::parameters::{position_of, range_of};
use serde_json::Value;
use yf_json_rpc::error_code::ErrorCode;
use yf_positions::position::LspRange;

/// What a request asks of a document.
#[derive(Clone, Copy)]
pub enum Query<'v> {
    /// The edits that format it (`textDocument/formatting` and `textDocument/willSaveWaitUntil`).
    Formatting,
    /// The edits that format the lines of a range (`textDocument/rangeFormatting`).
    Lines {
        range: LspRange,
    },
    /// The code actions for it (`textDocument/codeAction`).
    Actions {
        /// Whether the client wants actions of the kind `source.fixAll.yamlfmt`.
        is_wanted: bool,
    },
    /// Its problems (`textDocument/diagnostic`).
    Problems,
    /// Its folds (`textDocument/foldingRange`).
    Folds,
    /// Its symbols (`textDocument/documentSymbol`).
    Symbols,
    /// The selection ranges of positions (`textDocument/selectionRange`).
    Selections {
        positions: &'v [Value],
    },
}

/// Returns whether a kind of code actions is `source.fixAll.yamlfmt` or above it.
fn covers(kind: &str) -> bool
    ensures { result ≡ covers kind.now }
{
    kind == "" || kind == "source" || kind == "source.fixAll" || kind == "source.fixAll.yamlfmt"
}

/// Returns whether a value is such a kind.
fn covers_by(value: &Value) -> bool
    ensures { result ≡ covers_by (as_str (view value.now)) }
{
    match value.as_str() {
        None => false,
        Some(kind) => covers(kind),
    }
}

/// Returns whether one of the values is such a kind.
fn covers_any(values: &[Value]) -> bool
    ensures { result ≡ covers_any (items_of (map view values.now)) }
{
    for value in values {
        if covers_by(value) {
            return true;
        }
    }
    false
}

/// Returns whether a request for code actions wants those of the kind `source.fixAll.yamlfmt`.
fn is_wanted(value: &Value) -> bool
    ensures { result ≡ wants (only_of (view value.now)) }
{
    let Some(params) = value.get("params") else {
        return true;
    };
    let Some(context) = params.get("context") else {
        return true;
    };
    let Some(only) = context.get("only") else {
        return true;
    };
    match only.as_array() {
        None => true,
        Some(kinds) => covers_any(kinds.as_slice()),
    }
}

/// Returns the range that the parameters of a request have.
fn asked_range(value: &Value) -> Option<LspRange>
    ensures { result ≡ asked_range (view value.now) }
{
    match value.get("params") {
        None => None,
        Some(params) => match params.get("range") {
            None => None,
            Some(range) => range_of(range),
        },
    }
}

/// Returns whether all values are positions.
fn are_positions(values: &[Value]) -> bool
    ensures { result ≡ are_positions (items_of (map view values.now)) }
{
    for value in values {
        if position_of(value).is_none() {
            return false;
        }
    }
    true
}

/// Returns the positions that the parameters of a request have.
fn asked_positions(value: &Value) -> Option<&[Value]>
    ensures { option_map (λ values. items_of (map view values.now)) result ≡ asked_positions (view value.now) }
{
    match value.get("params") {
        None => None,
        Some(params) => match params.get("positions") {
            None => None,
            Some(found) => match found.as_array() {
                None => None,
                Some(values) => Some(values.as_slice()),
            },
        },
    }
}

/// Returns that a request asks for the selection ranges of its positions.
fn selections_of<'v>(value: &'v Value) -> Result<Query<'v>, ErrorCode>
    ensures { read_result result ≡ selections_by (asked_positions (view value.now)) }
{
    match asked_positions(value) {
        None => Err(ErrorCode::InvalidParams),
        Some(positions) => {
            if are_positions(positions) {
                return Ok(Query::Selections { positions });
            }
            Err(ErrorCode::InvalidParams)
        }
    }
}

/// Returns what a request asks for.
///
/// # Errors
///
/// Why the request fails: the server has no such method, or the parameters have no range or no positions.
pub fn query_of<'v>(method: &str, value: &'v Value) -> Result<Query<'v>, ErrorCode>
    ensures { read_result result ≡ query_of method.now (view value.now) }
{
    if method == "textDocument/formatting" {
        return Ok(Query::Formatting);
    }
    if method == "textDocument/willSaveWaitUntil" {
        return Ok(Query::Formatting);
    }
    if method == "textDocument/rangeFormatting" {
        return match asked_range(value) {
            None => Err(ErrorCode::InvalidParams),
            Some(range) => Ok(Query::Lines { range }),
        };
    }
    if method == "textDocument/codeAction" {
        let is_wanted = is_wanted(value);
        return Ok(Query::Actions { is_wanted });
    }
    if method == "textDocument/diagnostic" {
        return Ok(Query::Problems);
    }
    if method == "textDocument/foldingRange" {
        return Ok(Query::Folds);
    }
    if method == "textDocument/documentSymbol" {
        return Ok(Query::Symbols);
    }
    if method == "textDocument/selectionRange" {
        return selections_of(value);
    }
    Err(ErrorCode::MethodNotFound)
}
