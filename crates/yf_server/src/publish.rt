//! What a server publishes of documents.
ghost use Rattle.std.specs.Prelude.{◌≡◌, Some, IfOk, option_map};
ghost use Rattle.serde_json.specs.View.{view};
ghost use Rattle.yf_json_rpc.specs.Messages.{kind_read};
ghost use Rattle.yf_server.specs.Documents.{find, text_of};
ghost use Rattle.yf_server.specs.Publish.{IsPublished, Publishes, PublishesFor, PublishesUri, cleared, publication, published};

use crate::analysis::Analysis;
use crate::diagnostics::diagnostics;
use crate::documents::{OpenDocument, place_of};
use crate::lifecycle::Task;
use crate::notify::is_of_document;
use crate::respond::named_uri;
use crate::step::{Server, is_notification, method_of};
use serde_json::{Value, json};
use std::alloc::{AllocError, Global};
use yf_json_rpc::message::{message_of, notification};
use yf_positions::document::Document;
use yf_positions::encoding::Encoding;

/// Returns what is published of a document, by its version and its problems as JSON.
fn published(alloc: Global, uri: &str, version: i64, listed: Value) -> Result<Value, AllocError>
    ensures { IfOk result (λ value. view value ≡ published uri.now version (view listed)) }
{
    json!(in alloc; {"uri": uri, "version": version, "diagnostics": listed})
}

/// Returns what is published of a document that is not open, or whose text is lost.
fn cleared(alloc: Global, uri: &str) -> Result<Value, AllocError>
    ensures { IfOk result (λ value. view value ≡ cleared uri.now) }
{
    let none = Value::Array(Vec::new(alloc));
    json!(in alloc; {"uri": uri, "diagnostics": none})
}

/// Returns the notification with these parameters.
fn publication(alloc: Global, params: &Value) -> Result<Value, AllocError>
    ensures { IfOk result (λ value. view value ≡ publication (view params.now)) }
{
    notification(alloc, "textDocument/publishDiagnostics", params)
}

/// Returns the notification that a document has no problems.
fn clearing(alloc: Global, uri: &str) -> Result<Value, AllocError>
    ensures { IfOk result (λ value. view value ≡ publication (cleared uri.now)) }
{
    let params = cleared(alloc, uri)?;
    publication(alloc, &params)
}

/// Returns what is published of the text of an open document.
fn publish_text<A: Analysis>(
    alloc: Global,
    analysis: &A,
    uri: &str,
    version: i64,
    document: &Document,
    encoding: Encoding,
) -> Result<Value, AllocError>
    ensures { IfOk result (λ value. Publishes (A.claim analysis.now) encoding uri.now version document.now
        (Some (view value))) }
{
    let problems = analysis.problems(alloc, uri, document.text())?;
    let listed = diagnostics(alloc, document, problems.as_slice(), encoding)?;
    let params = published(alloc, uri, version, listed)?;
    publication(alloc, &params)
}

/// Returns what is published of an open document.
fn publish_open<A: Analysis>(
    alloc: Global,
    analysis: &A,
    uri: &str,
    opened: &OpenDocument,
    encoding: Encoding,
) -> Result<Value, AllocError>
    ensures { IfOk result (λ value. PublishesFor (A.claim analysis.now) encoding uri.now
        (Some (text_of opened.now)) (Some (view value))) }
{
    match &opened.document {
        None => clearing(alloc, uri),
        Some(document) => { publish_text(alloc, analysis, uri, opened.version, document, encoding) }
    }
}

/// Returns the publication for the document with a URI.
fn publish_uri<A: Analysis>(
    alloc: Global,
    analysis: &A,
    documents: &[OpenDocument],
    uri: &str,
    encoding: Encoding,
) -> Result<Value, AllocError>
    ensures { IfOk result (λ value. PublishesFor (A.claim analysis.now) encoding uri.now
        (find uri.now documents.now) (Some (view value))) }
{
    match place_of(documents, uri) {
        None => clearing(alloc, uri),
        Some(at) => {
            let opened = &documents[at];
            publish_open(alloc, analysis, uri, opened, encoding)
        }
    }
}

/// Returns what a server publishes after a message: after a notification on a document, the problems of the document
/// as it is then, with its version, or no problems if it is not open. To a client that asks for problems it publishes
/// nothing.
///
/// # Errors
///
/// `AllocError` if memory is refused.
pub fn publish<A: Analysis>(
    alloc: Global,
    analysis: &A,
    server: &Server,
    task: Task,
    value: &Value,
) -> Result<Option<Value>, AllocError>
    ensures { IfOk result (λ sent.
        IsPublished (A.claim analysis.now) server.now task (view value.now) (option_map view sent)) }
{
    if !is_notification(task) || server.terms.is_pulling {
        return Ok(None);
    }
    let method = method_of(message_of(value));
    if !is_of_document(method) {
        return Ok(None);
    }
    match named_uri(value) {
        None => Ok(None),
        Some(uri) => {
            let sent = publish_uri(
                alloc,
                analysis,
                server.documents.as_slice(),
                uri,
                server.terms.encoding,
            )?;
            Ok(Some(sent))
        }
    }
}
