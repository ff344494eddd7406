use crate::{Id, Placed, Reason};
use srb_terms::{Items, Words};
use srb_text::Encoding;

/// What the server says: one message, to be written as the body of a frame.
#[derive(Debug, Drop)]
pub enum Out {
    /// The reply to the accepted `initialize`, with the encoding of the session's positions.
    Initialized {
        id: Id,
        encoding: Encoding,
    },
    /// The reply to the accepted `shutdown`.
    Null {
        id: Id,
    },
    /// The refusal of a request, or of what is no message: then the id may be missing.
    Error {
        id: Option<Id>,
        code: i32,
    },
    /// `window/logMessage`: a notification of this method was refused, and why.
    Log {
        method: Words,
        reason: Reason,
    },
    /// `textDocument/publishDiagnostics`: the errors of a document after the first `epoch` edits of the session.
    List {
        uri: Words,
        epoch: u64,
        items: Items<Placed>,
    },
}
