//! The errors that a response may report.
ghost use Rattle.std.specs.Prelude.{◌≡◌};
ghost use Rattle.yf_json_rpc.specs.ErrorCodes.{number_of};

/// Why a request failed (JSON-RPC 2.0, section 5.1, and `ErrorCodes` and `LSPErrorCodes` of LSP 3.17).
#[derive(Clone, Copy)]
pub enum ErrorCode {
    /// The message is not JSON.
    ParseError,
    /// The message is JSON, but no request.
    InvalidRequest,
    /// The method is unknown.
    MethodNotFound,
    /// The parameters are not those of the method.
    InvalidParams,
    /// The server has failed.
    InternalError,
    /// The request came before `initialize`.
    ServerNotInitialized,
    /// The request is valid, but failed.
    RequestFailed,
}

impl ErrorCode {
    /// Returns the number that the protocol gives this error.
    pub fn number(self) -> i64
        ensures { result ≡ number_of self }
    {
        match self {
            ErrorCode::ParseError => -32700,
            ErrorCode::InvalidRequest => -32600,
            ErrorCode::MethodNotFound => -32601,
            ErrorCode::InvalidParams => -32602,
            ErrorCode::InternalError => -32603,
            ErrorCode::ServerNotInitialized => -32002,
            ErrorCode::RequestFailed => -32803,
        }
    }
}
