//! Reading the next message.
ghost use Rattle.std.specs.Prelude.{◌≡◌, IfErr, IfOk, OnOk};
ghost use Rattle.yf_server_loop.specs.Received.{Grows, IsNoMessage, Waits};
ghost use Rattle.yf_json_rpc.specs.Frames.{IsFrameAt};

use crate::ended::Ended;
use yf_json_rpc::frame::{Content, FrameError, read_frame};
use yf_lines::watched::Source;

/// The most bytes that the content of a message may have: 1 GiB.
pub const CONTENT_LIMIT: usize = 1_073_741_824;

/// The number of bytes after which a message must be complete: a content's, and 64 KiB for the header section.
pub const MESSAGE_LIMIT: usize = 1_073_807_360;

/// The most bytes that a read takes.
pub const CHUNK: usize = 8192;

/// Reads until the inbox begins with a message, and returns the span of its content. Reads nothing if the inbox already
/// begins with a message, so no read waits while a message is complete.
///
/// # Errors
///
/// The reason why there is no further message.
pub fn receive<R: Source>(reader: &mut R, inbox: &mut Vec<u8>) -> Result<Content, Ended>
    ensures message { IfOk result (λ content. IsFrameAt inbox.new.items CONTENT_LIMIT content) }
    ensures grows { Grows (R.remaining reader.old) (R.remaining reader.new) inbox.old.items inbox.new.items result }
    ensures waits { OnOk result (Waits inbox.old.items inbox.new.items) }
    ensures works { OnOk result (R.has_failed reader.new ≡ R.has_failed reader.old) }
    ensures ended { IfErr result (λ ended. IsNoMessage (R.remaining reader.new) (R.has_failed reader.old)
        (R.has_failed reader.new) inbox.new.items ended) }
{
    let mut buffer = [0u8; CHUNK];
    'reads: loop {
        match read_frame(inbox.as_slice(), CONTENT_LIMIT) {
            Ok(Some(content)) => return Ok(content),
            Ok(None) => {}
            Err(error) => return Err(Ended::Frame(error)),
        }
        if inbox.len() > MESSAGE_LIMIT {
            return Err(Ended::Frame(FrameError::TooLong));
        }
        let count = match reader.read_watched(&mut buffer) {
            Ok(count) => count,
            Err(_) => return Err(Ended::ReadFailed),
        };
        if count == 0 {
            return Err(Ended::EndOfInput);
        }
        if inbox.extend_from_slice(&buffer[..count]).is_err() {
            return Err(Ended::Memory);
        }
    }
}
