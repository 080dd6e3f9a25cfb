//! The header section before each message, and the content after it.
ghost use Rattle.std.specs.Prelude.{◌≡◌, ◌≤◌, ◌++◌, ℕ, List, length, map, All, IfErr, IfOk, IfSome};
ghost use Rattle.httparse.specs.Spans.{IsHeaderWithin, header_bytes};
ghost use Rattle.yf_json_rpc.specs.Frames.{ContentAt, GivesFrame, IsFrame, IsFrameAt, frame, length_field};

use http1::fields::{ContentLength, KnownFields};
use httparse::Status;
use httparse::spans::{EMPTY_HEADER_SPAN, HeaderSpan, parse_headers};
use itoa::Buffer;
use std::alloc::AllocError;

/// The most header fields that a message may have; the protocol defines two.
pub const MOST_FIELDS: usize = 16;

/// The span of the content of a message, in bytes from the start of the input.
#[derive(Clone, Copy)]
pub struct Content {
    pub start: usize,
    /// The end of the content, which is the end of the message.
    pub end: usize,
}

/// Why bytes do not begin with a message, whatever follows them.
#[derive(Clone, Copy)]
pub enum FrameError {
    /// The header section is malformed, or has more fields than `MOST_FIELDS`.
    Header,
    /// No `Content-Length` is given, or its value is not one number.
    Length,
    /// The content is longer than the limit.
    TooLong,
}

/// Returns the content's length by the header fields.
fn content_length(bytes: &[u8], headers: &[HeaderSpan]) -> ContentLength
    requires { All (IsHeaderWithin (length bytes.now)) headers.now }
    ensures { result ≡ length_field (map (header_bytes bytes.now) headers.now) }
{
    KnownFields::from_spans(bytes, headers).content_length
}

/// Returns the span of the content of the first message, or `None` if the bytes are only a part of a message.
///
/// The fields may be in any order, and fields other than `Content-Length` are ignored. Bytes after the message don't
/// matter.
///
/// # Errors
///
/// A `FrameError` if no following bytes can make this a message.
pub fn read_frame(bytes: &[u8], limit: usize) -> Result<Option<Content>, FrameError>
    ensures complete { IfOk result (λ found. IfSome found (IsFrameAt bytes.now limit)) }
    ensures found { (body rest : List ℕ) → IsFrame bytes.now limit body rest → GivesFrame bytes.now body rest result }
    ensures refused { IfErr result (λ _. (more body rest : List ℕ) → ¬ (IsFrame (bytes.now ++ more) limit body rest)) }
{
    let mut headers = [EMPTY_HEADER_SPAN; MOST_FIELDS];
    match parse_headers(bytes, &mut headers) {
        Ok(Status::Complete((start, count))) => {
            match content_length(bytes, &headers[..count]) {
                ContentLength::Value(size) => content_at(bytes, start, size, limit),
                ContentLength::Absent => Err(FrameError::Length),
                ContentLength::Invalid => Err(FrameError::Length),
            }
        }
        Ok(Status::Partial) => Ok(None),
        Err(_) => Err(FrameError::Header),
    }
}

/// Returns the span of the content that begins at an offset.
fn content_at(
    bytes: &[u8],
    start: usize,
    size: u64,
    limit: usize,
) -> Result<Option<Content>, FrameError>
    requires { start ≤ length bytes.now }
    ensures { ContentAt (length bytes.now) start size limit result }
{
    if size > limit as u64 {
        return Err(FrameError::TooLong);
    }
    let size = size as usize;
    if bytes.len() - start < size {
        return Ok(None);
    }
    Ok(Some(Content {
        start,
        end: start + size,
    }))
}

/// Adds a message with this content.
///
/// # Errors
///
/// `AllocError` if memory is refused; a part of the message may then have been added.
pub fn push_frame(out: &mut Vec<u8>, body: &str) -> Result<(), AllocError>
    ensures { IfOk result (λ _. out.new.items ≡ out.old.items ++ frame body.now) }
{
    let mut buffer = Buffer::new();
    out.extend_from_slice(b"Content-Length: ")?;
    out.extend_from_slice(buffer.format(body.len()).as_bytes())?;
    out.extend_from_slice(b"\r\n\r\n")?;
    out.extend_from_slice(body.as_bytes())
}
