//! Code actions as JSON.
ghost use Rattle.std.specs.Prelude.{◌≡◌, Some, IfOk};
ghost use Rattle.serde_json.specs.Data.{array, item, no_items};
ghost use Rattle.serde_json.specs.View.{view};
ghost use Rattle.yf_server.specs.Actions.{AreActions, AreActionsFor, OffersFormatting, fix_all, no_actions, workspace_edit};

use crate::analysis::Analysis;
use crate::edits::edits_to;
use serde_json::{Value, json};
use std::alloc::{AllocError, Global};
use yf_positions::document::Document;
use yf_positions::encoding::Encoding;

/// Returns edits of the document with a URI, as JSON.
fn workspace_edit(alloc: Global, uri: &str, edits: Value) -> Result<Value, AllocError>
    ensures { IfOk result (λ value. view value ≡ workspace_edit uri.now (view edits)) }
{
    json!(in alloc; {"changes": {(uri): edits}})
}

/// Returns the code action whose edits format the document with a URI, as JSON.
fn fix_all(alloc: Global, uri: &str, edits: Value) -> Result<Value, AllocError>
    ensures { IfOk result (λ value. view value ≡ fix_all uri.now (view edits)) }
{
    let edit = workspace_edit(alloc, uri, edits)?;
    json!(in alloc; {
        "title": "Format the document with yamlfmt",
        "kind": "source.fixAll.yamlfmt",
        "edit": edit
    })
}

/// Returns a list of one code action, as JSON.
fn only_action(alloc: Global, action: Value) -> Result<Value, AllocError>
    ensures { IfOk result (λ value. view value ≡ array (item (view action) no_items)) }
{
    json!(in alloc; [action])
}

/// Returns an empty list of code actions, as JSON.
fn no_actions(alloc: Global) -> Value
    ensures { view result ≡ no_actions }
{
    Value::Array(Vec::new(alloc))
}

/// Returns the code actions that turn a document into a new text, as JSON.
fn actions_to(
    alloc: Global,
    uri: &str,
    document: &Document,
    new: &str,
    encoding: Encoding,
) -> Result<Value, AllocError>
    ensures { IfOk result (λ value. AreActionsFor encoding uri.now document.now (Some new.now) (view value)) }
{
    if document.text() == new {
        return Ok(no_actions(alloc));
    }
    let edits = edits_to(alloc, document, new, encoding)?;
    let action = fix_all(alloc, uri, edits)?;
    only_action(alloc, action)
}

/// Returns the code actions that format a document, as JSON; none if it cannot be formatted.
fn offered<A: Analysis>(
    alloc: Global,
    analysis: &A,
    uri: &str,
    document: &Document,
    encoding: Encoding,
) -> Result<Value, AllocError>
    ensures { IfOk result (λ value. OffersFormatting (A.claim analysis.now) encoding uri.now document.now
        (view value)) }
{
    match analysis.formatted(alloc, uri, document.text())? {
        None => Ok(no_actions(alloc)),
        Some(new) => actions_to(alloc, uri, document, new.as_str(), encoding),
    }
}

/// Returns the code actions for a document, as JSON: `source.fixAll.yamlfmt` with the edits that format it, if the
/// client wants such an action and the formatting is another text.
///
/// # Errors
///
/// `AllocError` if memory was refused.
pub fn actions<A: Analysis>(
    alloc: Global,
    analysis: &A,
    is_wanted: bool,
    uri: &str,
    document: &Document,
    encoding: Encoding,
) -> Result<Value, AllocError>
    ensures { IfOk result (λ value. AreActions (A.claim analysis.now) encoding is_wanted uri.now document.now
        (view value)) }
{
    if !is_wanted {
        return Ok(no_actions(alloc));
    }
    offered(alloc, analysis, uri, document, encoding)
}
