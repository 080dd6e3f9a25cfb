//! What is done with the content of a message.
ghost use Rattle.std.specs.Prelude.{◌≡◌, ◌≤◌, ◌⊎◌, [], Some, drop, length, slice_range, IfOk, OnOk, option_map};
ghost use Rattle.serde_json.specs.Data.{Data};
ghost use Rattle.serde_json.specs.Data.{Data};
ghost use Rattle.serde_json.specs.View.{view};
ghost use Rattle.yf_json_rpc.specs.Messages.{kind_of};
ghost use Rattle.yf_server.specs.Edits.{FailsWith};
ghost use Rattle.yf_server.specs.Laws.{wants_answer};
ghost use Rattle.yf_server.specs.Steps.{id_of};
ghost use Rattle.yf_server_loop.specs.Handled.{Adds, AreWritten, Handles, IsLost, IsSent, IsUnsent, IsWritten, Parses, Reacts, Sends, TellsLoss, Undoes, exit_of};

use serde_json::Value;
use std::alloc::{AllocError, Global};
use yf_json_rpc::error_code::ErrorCode;
use yf_json_rpc::frame::Content;
use yf_json_rpc::message::{Message, message_of, push_message};
use yf_server::analysis::Analysis;
use yf_server::lifecycle::Task;
use yf_server::loss::{lose_all, lose_notified};
use yf_server::notify::log_message;
use yf_server::publish::publish;
use yf_server::respond::{LOST, failure_of};
use yf_server::step::{Reaction, Server, step};

/// The result of handling a message's content.
#[derive(Drop)]
pub struct Handled {
    /// The bytes that are sent.
    pub answer: Vec<u8>,
    /// Whether the message was `exit`, and if so whether the server ends with success.
    pub exit: Option<bool>,
}

/// Returns the JSON value of a content, or `None` if it is not JSON.
fn parse(alloc: Global, body: &[u8]) -> Result<Option<Value>, AllocError>
    ensures { IfOk result (λ found. Parses body.now (option_map view found)) }
{
    match Value::from_slice(alloc, body) {
        Ok(value) => Ok(Some(value)),
        Err(error) => {
            if error.is_memory() {
                return Err(AllocError);
            }
            Ok(None)
        }
    }
}

/// Takes the first message out of the inbox, and returns the JSON value that its content is.
fn take_value(
    alloc: Global,
    inbox: &mut Vec<u8>,
    content: Content,
) -> Result<Option<Value>, AllocError>
    requires { (content.start ≤ content.end) × (content.end ≤ length inbox.old.items) }
    ensures value { IfOk result (λ found.
        Parses (slice_range inbox.old.items content.start content.end) (option_map view found)) }
    ensures rest { IfOk result (λ _. inbox.new.items ≡ drop content.end inbox.old.items) }
{
    let value = parse(alloc, &inbox.as_slice()[content.start..content.end])?;
    let rest = inbox.split_off(content.end)?;
    *inbox = rest;
    Ok(value)
}

/// Adds a message to the output, if there is a message.
fn add(alloc: Global, out: &mut Vec<u8>, message: &Option<Value>) -> Result<(), AllocError>
    ensures { OnOk result (Adds out.old.items out.new.items (option_map view message.now)) }
{
    match message {
        None => Ok(()),
        Some(value) => push_message(alloc, out, value),
    }
}

/// Returns up to two messages as they are written, one after the other.
fn written(
    alloc: Global,
    first: &Option<Value>,
    second: &Option<Value>,
) -> Result<Vec<u8>, AllocError>
    ensures { IfOk result (λ bytes.
        AreWritten bytes.items (option_map view first.now) (option_map view second.now)) }
{
    let mut bytes = Vec::new(alloc);
    add(alloc, &mut bytes, first)?;
    add(alloc, &mut bytes, second)?;
    Ok(bytes)
}

/// Returns the response that a request failed, as it is written.
fn failed(alloc: Global, id: &Value, code: ErrorCode) -> Result<Vec<u8>, AllocError>
    ensures { IfOk result (λ answer. (sent : Data) × FailsWith (view id.now) code (Some sent)
        × IsWritten answer.items sent) }
{
    let failure = failure_of(alloc, id, code)?;
    let mut answer = Vec::new(alloc);
    push_message(alloc, &mut answer, &failure)?;
    Ok(answer)
}

/// Returns whether a task ends the server, and if so whether with success.
fn exit_of(task: Task) -> Option<bool>
    ensures { result ≡ exit_of task }
{
    match task {
        Task::Initialize => None,
        Task::Shutdown => None,
        Task::Request => None,
        Task::Fail(_) => None,
        Task::Notification => None,
        Task::Ignore => None,
        Task::Exit { is_success } => Some(is_success),
    }
}

/// Returns what the client gets for a document whose text is lost, as it is written.
fn loss_told<A: Analysis>(
    alloc: Global,
    analysis: &A,
    server: &Server,
    value: &Value,
) -> Result<Vec<u8>, AllocError>
    ensures { IfOk result (λ answer. TellsLoss (A.claim analysis.now) server.now (view value.now) answer.items) }
{
    let note = log_message(alloc, LOST)?;
    let published = publish(alloc, analysis, server, Task::Notification, value)?;
    written(alloc, &Some(note), &published)
}

/// Returns what is written for a document whose text is lost: nothing if memory is refused again.
fn loss_answer<A: Analysis>(alloc: Global, analysis: &A, server: &Server, value: &Value) -> Vec<u8>
    ensures { (result.items ≡ []) ⊎ TellsLoss (A.claim analysis.now) server.now (view value.now) result.items }
{
    match loss_told(alloc, analysis, server, value) {
        Ok(answer) => answer,
        Err(_) => Vec::new(alloc),
    }
}

/// Drops the text of the document that a notification is about. Any other message fails.
fn lost<A: Analysis>(
    alloc: Global,
    analysis: &A,
    server: &mut Server,
    value: &Value,
) -> Result<Handled, AllocError>
    ensures { IfOk result (λ handled. IsLost (A.claim analysis.now) server.old (view value.now)
        handled.answer.items server.new handled.exit) }
{
    if !lose_notified(server, value) {
        return Err(AllocError);
    }
    let answer = loss_answer(alloc, analysis, server, value);
    Ok(Handled { answer, exit: None })
}

/// Does what is left to do if memory for a step was refused: a request gets an error, and a document that a
/// notification is about loses its text. Any other message fails.
fn undone<A: Analysis>(
    alloc: Global,
    analysis: &A,
    server: &mut Server,
    value: &Value,
) -> Result<Handled, AllocError>
    ensures { IfOk result (λ handled. Undoes (A.claim analysis.now) server.old (view value.now)
        handled.answer.items server.new handled.exit) }
{
    match message_of(value) {
        Message::Request { id, method: _ } => {
            let answer = failed(alloc, id, ErrorCode::RequestFailed)?;
            Ok(Handled { answer, exit: None })
        }
        Message::Notification { method: _ } => lost(alloc, analysis, server, value),
        Message::Response { id: _ } => Err(AllocError),
        Message::Invalid => Err(AllocError),
    }
}

/// Returns what a step sends, and then what the server publishes, as it is written.
fn all_sent<A: Analysis>(
    alloc: Global,
    analysis: &A,
    server: &Server,
    value: &Value,
    reaction: &Reaction,
) -> Result<Vec<u8>, AllocError>
    ensures { IfOk result (λ answer. IsSent (A.claim analysis.now) server.now (view value.now) answer.items
        reaction.now) }
{
    let published = publish(alloc, analysis, server, reaction.task, value)?;
    written(alloc, &reaction.message, &published)
}

/// Returns what is written if memory for what a step sends was refused: an error if the message is a request.
fn unsent(alloc: Global, value: &Value) -> Result<Vec<u8>, AllocError>
    ensures { IfOk result (λ answer. IsUnsent (wants_answer (kind_of (view value.now)))
        (id_of (kind_of (view value.now))) answer.items) }
{
    match message_of(value) {
        Message::Request { id, method: _ } => failed(alloc, id, ErrorCode::RequestFailed),
        Message::Notification { method: _ } => Ok(Vec::new(alloc)),
        Message::Response { id: _ } => Ok(Vec::new(alloc)),
        Message::Invalid => failed(alloc, &Value::Null, ErrorCode::RequestFailed),
    }
}

/// Returns what is written for a step.
fn sent<A: Analysis>(
    alloc: Global,
    analysis: &A,
    server: &Server,
    value: &Value,
    reaction: &Reaction,
) -> Result<Vec<u8>, AllocError>
    ensures { IfOk result (λ answer. Sends (A.claim analysis.now) server.now (view value.now) answer.items
        reaction.now) }
{
    match all_sent(alloc, analysis, server, value, reaction) {
        Ok(answer) => Ok(answer),
        Err(_) => unsent(alloc, value),
    }
}

/// Handles a message.
fn take_step<A: Analysis>(
    alloc: Global,
    analysis: &A,
    server: &mut Server,
    value: &Value,
) -> Result<Handled, AllocError>
    ensures { IfOk result (λ handled. Reacts (A.claim analysis.now) server.old (Some (view value.now))
        handled.answer.items server.new handled.exit) }
{
    let reaction = match step(alloc, analysis, server, value) {
        Ok(reaction) => reaction,
        Err(_) => return undone(alloc, analysis, server, value),
    };
    let answer = sent(alloc, analysis, server, value, &reaction)?;
    Ok(Handled {
        answer,
        exit: exit_of(reaction.task),
    })
}

/// Handles a message. A content that is not JSON gets an error response, and the text of each document is lost, since
/// it may be a change of any document.
fn react<A: Analysis>(
    alloc: Global,
    analysis: &A,
    server: &mut Server,
    value: &Option<Value>,
) -> Result<Handled, AllocError>
    ensures { IfOk result (λ handled. Reacts (A.claim analysis.now) server.old (option_map view value.now)
        handled.answer.items server.new handled.exit) }
{
    match value {
        None => {
            let answer = failed(alloc, &Value::Null, ErrorCode::ParseError)?;
            lose_all(server);
            Ok(Handled { answer, exit: None })
        }
        Some(value) => take_step(alloc, analysis, server, value),
    }
}

/// Takes the first message out of the inbox and handles it.
///
/// # Errors
///
/// `AllocError` if memory was refused to read the message or to respond to it with an error. The message may have been
/// handled then.
pub fn handle<A: Analysis>(
    alloc: Global,
    analysis: &A,
    server: &mut Server,
    inbox: &mut Vec<u8>,
    content: Content,
) -> Result<Handled, AllocError>
    requires { (content.start ≤ content.end) × (content.end ≤ length inbox.old.items) }
    ensures handles { IfOk result (λ handled. Handles (A.claim analysis.now) server.old
        (slice_range inbox.old.items content.start content.end) handled.answer.items server.new handled.exit) }
    ensures rest { IfOk result (λ _. inbox.new.items ≡ drop content.end inbox.old.items) }
{
    let value = take_value(alloc, inbox, content)?;
    react(alloc, analysis, server, &value)
}
