//! The result of `initialize`, on which client and server agree.
ghost use Rattle.std.specs.Prelude.{◌≡◌, map};
ghost use Rattle.std.specs.Option.{unwrap_or};
ghost use Rattle.serde_json.specs.Find.{as_str};
ghost use Rattle.yf_positions.specs.declared.encoding.Encoding.{Encoding};
ghost use Rattle.serde_json.specs.View.{items_of, view};
ghost use Rattle.yf_server.specs.Handshake.{agreed, first_known, fresh_terms, is_object, is_pulling, name_of, named, named_by, negotiated};

use serde_json::Value;
use yf_positions::encoding::Encoding;

/// What a client and the server agree on.
#[derive(Clone, Copy)]
pub struct Terms {
    /// How positions count.
    pub encoding: Encoding,
    /// Whether the client asks for the problems of documents, so that the server publishes none.
    pub is_pulling: bool,
}

/// Returns the terms before `initialize`.
pub fn fresh_terms() -> Terms
    ensures { result ≡ fresh_terms }
{
    Terms {
        encoding: Encoding::Utf16,
        is_pulling: false,
    }
}

/// Returns the encoding with a name, or another one.
fn named(name: &str) -> Option<Encoding>
    ensures { (other : Encoding) → named name.now other ≡ unwrap_or result other }
{
    if name == "utf-8" {
        return Some(Encoding::Utf8);
    }
    if name == "utf-16" {
        return Some(Encoding::Utf16);
    }
    if name == "utf-32" {
        return Some(Encoding::Utf32);
    }
    None
}

/// Returns the encoding with the name that a value is.
fn encoding_of(value: &Value) -> Option<Encoding>
    ensures { (other : Encoding) → named_by (as_str (view value.now)) other ≡ unwrap_or result other }
{
    match value.as_str() {
        None => None,
        Some(name) => named(name),
    }
}

/// Returns the first encoding of a list that is known, and UTF-16 if none is.
fn first_known(values: &[Value]) -> Encoding
    ensures { result ≡ first_known (items_of (map view values.now)) }
{
    for value in values {
        match encoding_of(value) {
            None => (),
            Some(encoding) => return encoding,
        }
    }
    Encoding::Utf16
}

/// Returns the encoding of positions that a client and the server use: the client's first choice that the server knows,
/// and UTF-16 if the client makes no choice.
fn negotiated(params: &Value) -> Encoding
    ensures { result ≡ negotiated (view params.now) }
{
    let capabilities = match params.get("capabilities") {
        None => return Encoding::Utf16,
        Some(found) => found,
    };
    let general = match capabilities.get("general") {
        None => return Encoding::Utf16,
        Some(found) => found,
    };
    let encodings = match general.get("positionEncodings") {
        None => return Encoding::Utf16,
        Some(found) => found,
    };
    match encodings.as_array() {
        None => Encoding::Utf16,
        Some(values) => first_known(values.as_slice()),
    }
}

/// Returns whether a value is an object.
fn is_object(value: &Value) -> bool
    ensures { result ≡ is_object (view value.now) }
{
    match value {
        Value::Object(_) => true,
        _ => false,
    }
}

/// Returns whether a client asks for the problems of documents (`textDocument/diagnostic`).
fn is_pulling(params: &Value) -> bool
    ensures { result ≡ is_pulling (view params.now) }
{
    let Some(capabilities) = params.get("capabilities") else {
        return false;
    };
    let Some(of_documents) = capabilities.get("textDocument") else {
        return false;
    };
    match of_documents.get("diagnostic") {
        None => false,
        Some(found) => is_object(found),
    }
}

/// Returns what a client and the server agree on, by the parameters of `initialize`.
pub fn agreed(params: &Value) -> Terms
    ensures { result ≡ agreed (view params.now) }
{
    Terms {
        encoding: negotiated(params),
        is_pulling: is_pulling(params),
    }
}

/// Returns the name of an encoding (`PositionEncodingKind`).
pub fn name_of(encoding: Encoding) -> &'static str
    ensures { result.now ≡ name_of encoding }
{
    match encoding {
        Encoding::Utf8 => "utf-8",
        Encoding::Utf16 => "utf-16",
        Encoding::Utf32 => "utf-32",
    }
}
