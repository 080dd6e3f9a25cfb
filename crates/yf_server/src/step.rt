//! The steps of a server for messages.
ghost use Rattle.std.specs.Prelude.{◌≡◌, [], ◌++◌, Some, IfOk, OnErr, OnOk, map, option_map, option_to_list};
ghost use Rattle.serde_json.specs.View.{view};
ghost use Rattle.yf_json_rpc.specs.Messages.{kind_read, reply};
ghost use Rattle.yf_server.specs.Edits.{FailsWith};
ghost use Rattle.yf_server.specs.Handshake.{fresh_terms};
ghost use Rattle.yf_server.specs.Responses.{AnswersRequest};
ghost use Rattle.yf_server.specs.Steps.{IsAnswer, IsSame, RunsTo, StepsTo, id_of, initialize_result, is_notification, is_request, method_of, sync_options, terms_after};

use crate::analysis::Analysis;
use crate::documents::OpenDocument;
use crate::handshake::{Terms, agreed, fresh_terms, name_of};
use crate::lifecycle::{Phase, Task, next_step};
use crate::notify::notify;
use crate::respond::{failure_of, respond};
use serde_json::{Value, json};
use std::alloc::{AllocError, Global};
use yf_json_rpc::error_code::ErrorCode;
use yf_json_rpc::message::{Message, message_of, reply};
use yf_positions::encoding::Encoding;

/// A server: how far it is, what it agreed on with the client, and the open documents.
#[derive(Drop)]
pub struct Server {
    pub phase: Phase,
    pub terms: Terms,
    pub documents: Vec<OpenDocument>,
}

/// The reaction of a server to a message: its task, and the message that it sends, if any.
#[derive(Drop)]
pub struct Reaction {
    pub task: Task,
    pub message: Option<Value>,
}

/// Returns the method of a message, which is empty if it has none.
pub fn method_of<'v>(message: Message<'v>) -> &'v str
    ensures { result.now ≡ method_of (kind_read message.entry) }
{
    match message {
        Message::Request { id: _, method } => method,
        Message::Notification { method } => method,
        Message::Response { id: _ } => "",
        Message::Invalid => "",
    }
}

/// Returns whether a task is to act on a notification.
pub fn is_notification(task: Task) -> bool
    ensures { result ≡ is_notification task }
{
    match task {
        Task::Notification => true,
        Task::Initialize => false,
        Task::Shutdown => false,
        Task::Request => false,
        Task::Fail(_) => false,
        Task::Ignore => false,
        Task::Exit { is_success: _ } => false,
    }
}

/// Returns whether the task is a response to a request that is not of the life cycle.
fn is_request(task: Task) -> bool
    ensures { result ≡ is_request task }
{
    match task {
        Task::Request => true,
        Task::Initialize => false,
        Task::Shutdown => false,
        Task::Notification => false,
        Task::Fail(_) => false,
        Task::Ignore => false,
        Task::Exit { is_success: _ } => false,
    }
}

/// Returns what client and server agree on after a message.
fn terms_after(terms: Terms, task: Task, value: &Value) -> Terms
    ensures { result ≡ terms_after terms task (view value.now) }
{
    match task {
        Task::Initialize => match value.get("params") {
            None => fresh_terms(),
            Some(params) => agreed(params),
        },
        Task::Shutdown => terms,
        Task::Request => terms,
        Task::Fail(_) => terms,
        Task::Notification => terms,
        Task::Ignore => terms,
        Task::Exit { is_success: _ } => terms,
    }
}

/// Returns how the server follows documents.
fn sync_options(alloc: Global) -> Result<Value, AllocError>
    ensures { IfOk result (λ value. view value ≡ sync_options) }
{
    json!(in alloc; {"openClose": true, "change": 2, "willSaveWaitUntil": true})
}

/// Returns the result of `initialize`.
fn initialize_result(alloc: Global, encoding: Encoding) -> Result<Value, AllocError>
    ensures { IfOk result (λ value. view value ≡ initialize_result encoding) }
{
    let sync = sync_options(alloc)?;
    result_with(alloc, encoding, &sync)
}

/// Returns the result of `initialize` with these options of documents.
fn result_with(alloc: Global, encoding: Encoding, sync: &Value) -> Result<Value, AllocError>
    requires { view sync.now ≡ sync_options }
    ensures { IfOk result (λ value. view value ≡ initialize_result encoding) }
{
    let name = name_of(encoding);
    json!(in alloc; {"capabilities": {
        "positionEncoding": name,
        "textDocumentSync": sync,
        "documentFormattingProvider": true,
        "documentRangeFormattingProvider": true,
        "foldingRangeProvider": true,
        "documentSymbolProvider": true,
        "selectionRangeProvider": true,
        "codeActionProvider": {"codeActionKinds": ["source.fixAll.yamlfmt"]},
        "diagnosticProvider": {"interFileDependencies": false, "workspaceDiagnostics": false}
    }})
}

/// Returns the response to a message, with the id of the message.
fn reply_to(alloc: Global, message: Message<'_>, value: &Value) -> Result<Value, AllocError>
    ensures { IfOk result (λ answer. view answer ≡ reply (id_of (kind_read message.entry)) (view value.now)) }
{
    let null = Value::Null;
    match message {
        Message::Request { id, method: _ } => reply(alloc, id, value),
        Message::Notification { method: _ } => reply(alloc, &null, value),
        Message::Response { id: _ } => reply(alloc, &null, value),
        Message::Invalid => reply(alloc, &null, value),
    }
}

/// Returns the response that a message failed, with the id of the message.
fn failure_to(alloc: Global, message: Message<'_>, code: ErrorCode) -> Result<Value, AllocError>
    ensures { IfOk result (λ answer. FailsWith (id_of (kind_read message.entry)) code (Some (view answer))) }
{
    let null = Value::Null;
    match message {
        Message::Request { id, method: _ } => failure_of(alloc, id, code),
        Message::Notification { method: _ } => failure_of(alloc, &null, code),
        Message::Response { id: _ } => failure_of(alloc, &null, code),
        Message::Invalid => failure_of(alloc, &null, code),
    }
}

/// Returns the response to a message, if it gets one.
fn answer_to(
    alloc: Global,
    message: Message<'_>,
    task: Task,
    encoding: Encoding,
) -> Result<Option<Value>, AllocError>
    ensures { IfOk result (λ answer.
        IsAnswer (id_of (kind_read message.entry)) encoding task (option_map view answer)) }
{
    match task {
        Task::Initialize => {
            let capabilities = initialize_result(alloc, encoding)?;
            let answer = reply_to(alloc, message, &capabilities)?;
            Ok(Some(answer))
        }
        Task::Shutdown => {
            let null = Value::Null;
            let answer = reply_to(alloc, message, &null)?;
            Ok(Some(answer))
        }
        Task::Request => {
            let answer = failure_to(alloc, message, ErrorCode::MethodNotFound)?;
            Ok(Some(answer))
        }
        Task::Fail(code) => {
            let answer = failure_to(alloc, message, code)?;
            Ok(Some(answer))
        }
        Task::Notification => Ok(None),
        Task::Ignore => Ok(None),
        Task::Exit { is_success: _ } => Ok(None),
    }
}

/// Returns the response to a request that is not of the life cycle.
fn respond_to<A: Analysis>(
    alloc: Global,
    analysis: &A,
    documents: &[OpenDocument],
    message: Message<'_>,
    value: &Value,
    encoding: Encoding,
) -> Result<Value, AllocError>
    ensures { IfOk result (λ answer. AnswersRequest (A.claim analysis.now) encoding documents.now
        (id_of (kind_read message.entry)) (method_of (kind_read message.entry)) (view value.now)
        (Some (view answer))) }
{
    let null = Value::Null;
    let method = method_of(message);
    match message {
        Message::Request { id, method: _ } => respond(
            alloc, analysis, documents, id, method, value, encoding,
        ),
        Message::Notification { method: _ } => respond(
            alloc, analysis, documents, &null, method, value, encoding,
        ),
        Message::Response { id: _ } => respond(
            alloc, analysis, documents, &null, method, value, encoding,
        ),
        Message::Invalid => respond(alloc, analysis, documents, &null, method, value, encoding),
    }
}

impl Server {
    /// Returns a server that has received no message.
    pub fn new(alloc: Global) -> Server
        ensures phase { result.phase ≡ Phase.Fresh }
        ensures terms { result.terms ≡ fresh_terms }
        ensures documents { result.documents.items ≡ [] }
    {
        Server {
            phase: Phase::Fresh,
            terms: fresh_terms(),
            documents: Vec::new(alloc),
        }
    }
}

/// Handles a message, and returns the task and the message that the server sends.
///
/// # Errors
///
/// `AllocError` if memory is refused; the server is then unchanged.
pub fn step<A: Analysis>(
    alloc: Global,
    analysis: &A,
    server: &mut Server,
    value: &Value,
) -> Result<Reaction, AllocError>
    ensures done { IfOk result (λ reaction.
        StepsTo (A.claim analysis.now) server.old server.new (view value.now) reaction) }
    ensures kept { OnErr result (IsSame server.old server.new) }
{
    let message = message_of(value);
    let next = next_step(server.phase, message);
    let terms = terms_after(server.terms, next.task, value);
    if is_notification(next.task) {
        let method = method_of(message);
        let encoding = server.terms.encoding;
        let note = notify(alloc, &mut server.documents, method, value, encoding)?;
        server.phase = next.phase;
        server.terms = terms;
        return Ok(Reaction {
            task: next.task,
            message: note,
        });
    }
    if is_request(next.task) {
        let response = respond_to(
            alloc,
            analysis,
            server.documents.as_slice(),
            message,
            value,
            server.terms.encoding,
        )?;
        server.phase = next.phase;
        server.terms = terms;
        return Ok(Reaction {
            task: next.task,
            message: Some(response),
        });
    }
    let answer = answer_to(alloc, message, next.task, terms.encoding)?;
    server.phase = next.phase;
    server.terms = terms;
    Ok(Reaction {
        task: next.task,
        message: answer,
    })
}

/// Adds a message, if there is one.
fn push_any(sent: &mut Vec<Value>, message: Option<Value>) -> Result<(), AllocError>
    ensures { OnOk result (sent.new.items ≡ sent.old.items ++ option_to_list message) }
{
    match message {
        None => Ok(()),
        Some(message) => {
            sent.push(message)?;
            Ok(())
        }
    }
}

/// Handles messages in order, and returns the messages that the server sends.
///
/// # Errors
///
/// `AllocError` if memory is refused.
pub fn run<A: Analysis>(
    alloc: Global,
    analysis: &A,
    server: &mut Server,
    received: &[Value],
) -> Result<Vec<Value>, AllocError>
    ensures { IfOk result (λ sent. RunsTo (A.claim analysis.now) server.old server.new
        (map view received.now) (map view sent.items)) }
{
    let mut sent = Vec::new(alloc);
    for value in received {
        let reaction = step(alloc, analysis, server, value)?;
        push_any(&mut sent, reaction.message)?;
    }
    Ok(sent)
}
