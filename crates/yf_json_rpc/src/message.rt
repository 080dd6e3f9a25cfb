//! Requests, notifications and responses (JSON-RPC 2.0).
ghost use Rattle.std.specs.Prelude.{◌≡◌, IfOk};
ghost use Rattle.serde_json.specs.View.{view};
ghost use Rattle.yf_json_rpc.specs.Messages.{AddsMessage, call, failure, is_id, kind_of, kind_read, reply};

use crate::error_code::ErrorCode;
use crate::frame::push_frame;
use serde_json::{Value, json};
use std::alloc::{AllocError, Global};

/// The kind of a message.
#[derive(Clone, Copy)]
pub enum Message<'v> {
    /// A call that wants a response with its id, which is a number or a string.
    Request { id: &'v Value, method: &'v str },
    /// A call that wants no response.
    Notification { method: &'v str },
    /// A response to the request with this id.
    Response { id: &'v Value },
    /// None of these.
    Invalid,
}

/// Returns whether a request may have this id.
fn is_id(value: &Value) -> bool
    ensures { result ≡ is_id (view value.now) }
{
    match value {
        Value::Number(_) => true,
        Value::String(_) => true,
        _ => false,
    }
}

/// Returns the kind of a message, by its members `id` and `method`.
pub fn message_of(value: &Value) -> Message<'_>
    ensures { kind_read result ≡ kind_of (view value.now) }
{
    match value.get("method") {
        None => match value.get("id") {
            None => Message::Invalid,
            Some(id) => Message::Response { id },
        },
        Some(method) => match method.as_str() {
            None => Message::Invalid,
            Some(method) => match value.get("id") {
                None => Message::Notification { method },
                Some(id) => {
                    if is_id(id) {
                        return Message::Request { id, method };
                    }
                    Message::Invalid
                }
            },
        },
    }
}

/// Returns the response to a request.
///
/// # Errors
///
/// `AllocError` if memory is refused.
pub fn reply(alloc: Global, id: &Value, value: &Value) -> Result<Value, AllocError>
    ensures { IfOk result (λ message. view message ≡ reply (view id.now) (view value.now)) }
{
    json!(in alloc; {"jsonrpc": "2.0", "id": id, "result": value})
}

/// Returns the error response to a request. The id is null if the id of the request can't be read.
///
/// # Errors
///
/// `AllocError` if memory is refused.
pub fn failure(alloc: Global, id: &Value, code: ErrorCode, text: &str) -> Result<Value, AllocError>
    ensures { IfOk result (λ message. view message ≡ failure (view id.now) code text.now) }
{
    let number = code.number();
    json!(in alloc; {"jsonrpc": "2.0", "id": id, "error": {"code": number, "message": text}})
}

/// Returns a notification.
///
/// # Errors
///
/// `AllocError` if memory is refused.
pub fn notification(alloc: Global, method: &str, params: &Value) -> Result<Value, AllocError>
    ensures { IfOk result (λ message. view message ≡ call method.now (view params.now)) }
{
    json!(in alloc; {"jsonrpc": "2.0", "method": method, "params": params})
}

/// Adds a message to the output.
///
/// # Errors
///
/// `AllocError` if memory is refused; a part of the message may then have been added.
pub fn push_message(alloc: Global, out: &mut Vec<u8>, value: &Value) -> Result<(), AllocError>
    ensures { IfOk result (λ _. AddsMessage out.old.items out.new.items (view value.now)) }
{
    let text = value.to_string(alloc)?;
    push_frame(out, text.as_str())
}
