//! The responses to requests that are not of the life cycle.
ghost use Rattle.std.specs.Prelude.{◌≡◌, Some, IfOk, option_map, string_bytes};
ghost use Rattle.serde_json.specs.View.{view};
ghost use Rattle.yf_json_rpc.specs.Messages.{reply};
ghost use Rattle.yf_server.specs.Documents.{find};
ghost use Rattle.yf_server.specs.Edits.{AreEditsFor, FailsWith, IsFormatting, IsLineFormatting, last_offset, named_uri};
ghost use Rattle.yf_server.specs.Queries.{query_of, query_read};
ghost use Rattle.yf_server.specs.Responses.{AnswersFor, AnswersRequest, AnswersText, AnswersUri, IsResult};

use crate::actions::actions;
use crate::analysis::Analysis;
use crate::diagnostics::report;
use crate::documents::{OpenDocument, place_of};
use crate::edits::edits_to;
use crate::folds::folds;
use crate::parameters::string_in;
use crate::query::{Query, query_of};
use crate::selections::selections;
use crate::symbols::symbols;
use serde_json::Value;
use std::alloc::{AllocError, Global};
use yf_json_rpc::error_code::ErrorCode;
use yf_json_rpc::message::{failure, reply};
use yf_positions::document::Document;
use yf_positions::encoding::Encoding;
use yf_positions::position::LspRange;

/// What a client shows of a document whose text is lost.
pub const LOST: &str =
    "the server does not have the text of the document: open it again, or send the whole text";

/// Returns the text that a client shows for an error.
fn text_of(code: ErrorCode) -> &'static str {
    match code {
        ErrorCode::ParseError => "the message is not JSON",
        ErrorCode::InvalidRequest => "the server doesn't accept this request now",
        ErrorCode::MethodNotFound => "the server has no such method",
        ErrorCode::InvalidParams =>
            "the parameters are not those of the method, or the document is not open",
        ErrorCode::InternalError => "the server has failed",
        ErrorCode::ServerNotInitialized => "the server is not initialized",
        ErrorCode::RequestFailed => "the request failed",
    }
}

/// Returns the response that the request with an id failed.
pub fn failure_of(alloc: Global, id: &Value, code: ErrorCode) -> Result<Value, AllocError>
    ensures { IfOk result (λ answer. FailsWith (view id.now) code (Some (view answer))) }
{
    let text = text_of(code);
    failure(alloc, id, code, text)
}

/// Returns the URI that the parameters of a request name.
pub fn named_uri(value: &Value) -> Option<&str>
    ensures { option_map (λ uri. uri.now) result ≡ named_uri (view value.now) }
{
    match value.get("params") {
        None => None,
        Some(params) => match params.get("textDocument") {
            None => None,
            Some(document) => string_in(document, "uri"),
        },
    }
}

/// Returns the edits that lead from a document to what its formatting gave, as JSON; null if it gave nothing.
fn edits_for(
    alloc: Global,
    document: &Document,
    new: &Option<String>,
    encoding: Encoding,
) -> Result<Value, AllocError>
    ensures { IfOk result (λ value. AreEditsFor encoding document.now (option_map string_bytes new.now)
        (view value)) }
{
    match new {
        None => Ok(Value::Null),
        Some(new) => edits_to(alloc, document, new.as_str(), encoding),
    }
}

/// Returns the edits that format a document, as JSON; null if it cannot be formatted.
fn formatting<A: Analysis>(
    alloc: Global,
    analysis: &A,
    uri: &str,
    document: &Document,
    encoding: Encoding,
) -> Result<Value, AllocError>
    ensures { IfOk result (λ value. IsFormatting (A.claim analysis.now) encoding uri.now document.now (view value)) }
{
    let new = analysis.formatted(alloc, uri, document.text())?;
    edits_for(alloc, document, &new, encoding)
}

/// Returns the offset of the last character of a range, or of its start if it has none.
fn last_offset(start: usize, end: usize) -> usize
    ensures { result ≡ last_offset start end }
{
    if start < end { end - 1 } else { start }
}

/// Returns the edits that format the lines of a range, as JSON; null if the document cannot be formatted.
fn formatting_lines<A: Analysis>(
    alloc: Global,
    analysis: &A,
    range: LspRange,
    uri: &str,
    document: &Document,
    encoding: Encoding,
) -> Result<Value, AllocError>
    ensures { IfOk result (λ value.
        IsLineFormatting (A.claim analysis.now) encoding range uri.now document.now (view value)) }
{
    let first = document.offset_of(range.start, encoding);
    let last = last_offset(first, document.offset_of(range.end, encoding));
    let new = analysis.formatted_lines(alloc, uri, document.text(), first, last)?;
    edits_for(alloc, document, &new, encoding)
}

/// Returns what a request gets that asks for something of a document.
fn result_of<A: Analysis>(
    alloc: Global,
    analysis: &A,
    query: Query<'_>,
    uri: &str,
    document: &Document,
    encoding: Encoding,
) -> Result<Value, AllocError>
    ensures { IfOk result (λ value. IsResult (A.claim analysis.now) encoding (query_read query.entry) uri.now document.now (view value)) }
{
    match query {
        Query::Formatting => formatting(alloc, analysis, uri, document, encoding),
        Query::Lines { range } => formatting_lines(alloc, analysis, range, uri, document, encoding),
        Query::Actions { is_wanted } => {
            actions(alloc, analysis, is_wanted, uri, document, encoding)
        }
        Query::Problems => report(alloc, analysis, uri, document, encoding),
        Query::Folds => folds(alloc, analysis, document),
        Query::Symbols => symbols(alloc, analysis, document, encoding),
        Query::Selections { positions } => {
            selections(alloc, analysis, document, positions, encoding)
        }
    }
}

/// Returns the error for a document whose text is lost.
fn lost(alloc: Global, id: &Value) -> Result<Value, AllocError>
    ensures { IfOk result (λ answer. FailsWith (view id.now) ErrorCode.RequestFailed (Some (view answer))) }
{
    failure(alloc, id, ErrorCode::RequestFailed, LOST)
}

/// Returns the response for the text of an open document.
fn answer_text<A: Analysis>(
    alloc: Global,
    analysis: &A,
    text: &Option<Document>,
    id: &Value,
    query: Query<'_>,
    uri: &str,
    encoding: Encoding,
) -> Result<Value, AllocError>
    ensures { IfOk result (λ answer. AnswersText (A.claim analysis.now) encoding (view id.now) (query_read query.entry) uri.now
        text.now (Some (view answer))) }
{
    match text {
        None => lost(alloc, id),
        Some(document) => {
            let value = result_of(alloc, analysis, query, uri, document, encoding)?;
            reply(alloc, id, &value)
        }
    }
}

/// Returns the response for the document of a URI.
fn answer_for<A: Analysis>(
    alloc: Global,
    analysis: &A,
    documents: &[OpenDocument],
    id: &Value,
    query: Query<'_>,
    uri: &str,
    encoding: Encoding,
) -> Result<Value, AllocError>
    ensures { IfOk result (λ answer. AnswersFor (A.claim analysis.now) encoding (view id.now) (query_read query.entry) uri.now
        (find uri.now documents.now) (Some (view answer))) }
{
    match place_of(documents, uri) {
        None => failure_of(alloc, id, ErrorCode::InvalidParams),
        Some(at) => {
            let opened = &documents[at];
            answer_text(alloc, analysis, &opened.document, id, query, uri, encoding)
        }
    }
}

/// Returns the response to a request that is not of the life cycle.
///
/// `textDocument/formatting` and `textDocument/willSaveWaitUntil` get the edits that format an open document, or null
/// if it cannot be formatted, and `textDocument/rangeFormatting` those that format some lines.
/// `textDocument/codeAction` gets the action with the edits that format the document, `textDocument/diagnostic` its
/// problems, `textDocument/foldingRange` its folds, `textDocument/documentSymbol` its symbols, and
/// `textDocument/selectionRange` the selection ranges of positions. Any other method gets the error -32601, a document that is not open the error -32602, and one whose text is lost the error -32803.
///
/// # Errors
///
/// `AllocError` if memory is refused.
pub fn respond<A: Analysis>(
    alloc: Global,
    analysis: &A,
    documents: &[OpenDocument],
    id: &Value,
    method: &str,
    value: &Value,
    encoding: Encoding,
) -> Result<Value, AllocError>
    ensures { IfOk result (λ answer. AnswersRequest (A.claim analysis.now) encoding documents.now (view id.now)
        method.now (view value.now) (Some (view answer))) }
{
    let query = match query_of(method, value) {
        Ok(query) => query,
        Err(code) => return failure_of(alloc, id, code),
    };
    match named_uri(value) {
        None => failure_of(alloc, id, ErrorCode::InvalidParams),
        Some(uri) => answer_for(alloc, analysis, documents, id, query, uri, encoding),
    }
}
