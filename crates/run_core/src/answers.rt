//! The answers that a message gets from what it says alone.

ghost use Rattle.std.specs.Prelude.{◌≡◌, None, Some, IfOk, bytes_eq, codes, if◌then◌else◌};
ghost use Rattle.std.specs.Option.{option_map};
ghost use Rattle.lsp_msg.specs.ErrorCodes.{invalid_params, server_not_initialized};
ghost use Rattle.lsp_msg.specs.declared.id.Id.{Id};
ghost use Rattle.lsp_docs.specs.Documents.{Documents, applied};
ghost use Rattle.run_core.specs.Sessions.{answer_of, method_of, reason_of, when_closing, when_serving, when_waiting};

use lsp_docs::DocEnd;
use lsp_msg::{
    INVALID_PARAMS, INVALID_REQUEST, Id, METHOD_NOT_FOUND, Msg, Out, Reason,
    SERVER_NOT_INITIALIZED, chosen_encoding,
};
use srb_terms::{NoMemory, Words};
use std::alloc::Global;

// The refusal of what has this id.
fn refusal(id: Option<Id>, code: i32) -> Option<Out>
    ensures { result ≡ Some (Out.Error id code) }
{
    Some(Out::Error { id, code })
}

// The code of parameters that can't be read before `initialize` is accepted.
fn code_for(method: &Words) -> i32
    ensures { result ≡ (if bytes_eq method.now (codes "initialize") then invalid_params else server_not_initialized) }
{
    if method.as_str() == "initialize" {
        INVALID_PARAMS
    } else {
        SERVER_NOT_INITIALIZED
    }
}

// The refusal of parameters that can't be read. A notification gets none.
fn refusal_if(id: Option<Id>, code: i32) -> Option<Out>
    ensures { result ≡ option_map (λ (name : Id). Out.Error (Some name) code) id }
{
    match id {
        Some(id) => refusal(Some(id), code),
        None => None,
    }
}

/// The answer to a message before `initialize` is accepted, with that message among them.
pub fn waiting_answer(msg: Msg) -> Option<Out>
    ensures { result ≡ answer_of (when_waiting msg) }
{
    match msg {
        Msg::Initialize {
            id,
            root: _root,
            encodings,
        } => {
            let encoding = chosen_encoding(encodings.as_slice());
            Some(Out::Initialized { id, encoding })
        }
        Msg::Shutdown { id } => refusal(Some(id), SERVER_NOT_INITIALIZED),
        Msg::Unknown { id } => refusal(Some(id), SERVER_NOT_INITIALIZED),
        Msg::BadParams { method, id } => refusal_if(id, code_for(&method)),
        Msg::Bad { code, id } => refusal(id, code),
        _ => None,
    }
}

/// The answer to a message between `initialize` and `shutdown` that isn't about a document.
pub fn serving_answer(msg: Msg) -> Option<Out>
    ensures { (d : Documents) → applied d msg ≡ None → result ≡ answer_of (when_serving d msg) }
{
    match msg {
        Msg::Initialize {
            id,
            root: _root,
            encodings: _encodings,
        } => refusal(Some(id), INVALID_REQUEST),
        Msg::Unknown { id } => refusal(Some(id), METHOD_NOT_FOUND),
        Msg::BadParams { method, id } => bad_params(method, id),
        Msg::Bad { code, id } => refusal(id, code),
        _ => None,
    }
}

// The answer to parameters that can't be read, between `initialize` and `shutdown`.
fn bad_params(method: Words, id: Option<Id>) -> Option<Out>
    ensures { (d : Documents) → result ≡ answer_of (when_serving d (Msg.BadParams method id)) }
{
    match id {
        Some(id) => refusal(Some(id), INVALID_PARAMS),
        None => Some(Out::Log {
            method,
            reason: Reason::InvalidParams,
        }),
    }
}

/// The answer to a message after `shutdown` is accepted.
pub fn closing_answer(msg: Msg) -> Option<Out>
    ensures { result ≡ answer_of (when_closing msg) }
{
    match msg {
        Msg::Initialize {
            id,
            root: _root,
            encodings: _encodings,
        } => refusal(Some(id), INVALID_REQUEST),
        Msg::Shutdown { id } => refusal(Some(id), INVALID_REQUEST),
        Msg::Unknown { id } => refusal(Some(id), INVALID_REQUEST),
        Msg::BadParams {
            method: _method,
            id,
        } => refusal_if(id, INVALID_REQUEST),
        Msg::Bad { code, id } => refusal(id, code),
        _ => None,
    }
}

/// The reason that a log message gives for a refusal. Running out of memory is none.
pub fn reason_of(end: DocEnd) -> Option<Reason>
    ensures { result ≡ reason_of end }
{
    match end {
        DocEnd::Foreign => Some(Reason::NotInProject),
        DocEnd::Unknown => Some(Reason::NotOpen),
        DocEnd::TooMany { count: _ } => Some(Reason::TooMany),
        DocEnd::Backwards { start: _, end: _ } => Some(Reason::Backwards),
        DocEnd::TooBig { bytes: _ } => Some(Reason::TooBig),
        DocEnd::NoMemory => None,
    }
}

// The method of a message about a document.
fn method_of(msg: &Msg) -> &'static str
    ensures { result.now ≡ method_of msg.now }
{
    match msg {
        Msg::Opened { .. } => "textDocument/didOpen",
        Msg::Changed { .. } => "textDocument/didChange",
        Msg::Saved { .. } => "textDocument/didSave",
        Msg::Closed { .. } => "textDocument/didClose",
        _ => "",
    }
}

/// The log message that says why a message about a document was refused.
pub fn log_of(alloc: Global, msg: &Msg, reason: Reason) -> Result<Out, NoMemory>
    ensures { IfOk result (λ out. out ≡ Out.Log (method_of msg.now) reason) }
{
    Ok(Out::Log {
        method: Words::from_str(alloc, method_of(msg))?,
        reason,
    })
}
