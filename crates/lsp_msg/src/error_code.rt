/// The body is no JSON in UTF-8, or is nested too deeply (JSON-RPC 2.0, section 5.1).
pub const PARSE_ERROR: i32 = -32700;
/// The body is no message, or the request isn't allowed at this time (JSON-RPC 2.0, section 5.1).
pub const INVALID_REQUEST: i32 = -32600;
/// The method isn't served (JSON-RPC 2.0, section 5.1).
pub const METHOD_NOT_FOUND: i32 = -32601;
/// The parameters can't be read (JSON-RPC 2.0, section 5.1).
pub const INVALID_PARAMS: i32 = -32602;
/// The request came before the accepted `initialize` (LSP 3.17, "ErrorCodes").
pub const SERVER_NOT_INITIALIZED: i32 = -32002;
