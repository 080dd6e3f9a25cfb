//! How a session ends.

use yf_json_rpc::frame::FrameError;

/// How the session of a server ended.
#[derive(Clone, Copy)]
pub enum Ended {
    /// The client sent `exit`; after `shutdown` that is success.
    Exit { is_success: bool },
    /// The input ended.
    EndOfInput,
    /// The rest of the input begins with no message.
    Frame(FrameError),
    /// A read failed.
    ReadFailed,
    /// A write failed.
    WriteFailed,
    /// Memory was refused.
    Memory,
    /// 2^64 - 1 messages were handled.
    TooMany,
}
