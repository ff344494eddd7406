ghost use Rattle.std.specs.Prelude.{◌≡◌, codes, option_map, is_some, unwrap_or, IfOk};
ghost use Rattle.serde_json.specs.View.{view};
ghost use Rattle.lsp_msg.specs.Decoded.{id_of, has_readable_id, message_id, initialize_of, request_of, opened_of, changed_of, saved_of, closed_of, or_bad_params, notification_of, reply_of, called, called_by, said_by, is_message, message_of, decoded};

use crate::params::{content_changes, document_text, encodings, object_params, root};
use crate::{INVALID_REQUEST, Id, Msg, PARSE_ERROR};
use serde_json::Value;
use srb_terms::{NoMemory, Words};
use std::alloc::{AllocError, Global};

/// What the body of a frame says, the first case that fits.
///
/// - The body isn't JSON in UTF-8, or is nested deeper than 127: `Bad` with -32700 and no id.
/// - It isn't an object whose `jsonrpc` is `"2.0"`, or has an `id` that is no text and no whole number of 64 signed bits:
///   `Bad` with -32600 and no id.
/// - It has no `method`, but an `id`, and `result` or `error`: `Ignored`.
/// - Its `method` is missing or no text: `Bad` with -32600 and its id.
/// - It has an `id`: `initialize`, `shutdown`, or else `Unknown`.
/// - It has none: one of the notifications on documents, `exit`, or else `Ignored`.
///
/// Parameters that can't be read are `BadParams`. Where a name stands twice in an object, its last member counts.
pub fn decode(alloc: Global, body: &[u8]) -> Result<Msg, NoMemory>
    ensures { IfOk result (λ msg. msg ≡ decoded body.now) }
{
    match Value::from_slice(alloc, body) {
        Ok(message) => read_message(alloc, &message),
        Err(fault) if fault.is_memory() => Err(AllocError),
        Err(_) => Ok(Msg::Bad {
            code: PARSE_ERROR,
            id: None,
        }),
    }
}

#[tactic(auto, unfolding(crate::specs::Decoded::message_of))]
fn read_message(alloc: Global, message: &Value) -> Result<Msg, NoMemory>
    ensures { IfOk result (λ msg. msg ≡ message_of (view message.now)) }
{
    if !is_message(message) || !has_readable_id(message) {
        return Ok(Msg::Bad {
            code: INVALID_REQUEST,
            id: None,
        });
    }
    let id = message_id(alloc, message)?;
    read_said(alloc, id, message)
}

#[tactic(auto, unfolding(crate::specs::Decoded::is_message))]
fn is_message(message: &Value) -> bool
    ensures { result ≡ is_message (view message.now) }
{
    match message.get("jsonrpc").and_then(Value::as_str) {
        Some(version) => version == "2.0",
        None => false,
    }
}

#[tactic(auto, unfolding(crate::specs::Decoded::said_by))]
fn read_said(alloc: Global, id: Option<Id>, message: &Value) -> Result<Msg, NoMemory>
    ensures { IfOk result (λ msg. msg ≡ said_by id (view message.now)) }
{
    let Some(method) = message.get("method") else {
        return Ok(read_reply(id, message));
    };
    let Some(name) = method.as_str() else {
        return Ok(Msg::Bad {
            code: INVALID_REQUEST,
            id,
        });
    };
    match id {
        Some(id) => read_request(alloc, id, name, message),
        None => read_notification(alloc, name, message),
    }
}

#[tactic(auto, unfolding(crate::specs::Decoded::reply_of))]
fn read_reply(id: Option<Id>, message: &Value) -> Msg
    ensures { result ≡ reply_of id (view message.now) }
{
    let is_reply = message.get("result").is_some() || message.get("error").is_some();
    if id.is_some() && is_reply {
        Msg::Ignored
    } else {
        Msg::Bad {
            code: INVALID_REQUEST,
            id,
        }
    }
}

// ---- ids

fn read_id(alloc: Global, value: &Value) -> Result<Option<Id>, NoMemory>
    ensures { IfOk result (λ id. id ≡ id_of (view value.now)) }
{
    match value {
        Value::String(text) => Ok(Some(Id::Text(Words::from_str(alloc, text.as_str())?))),
        Value::Number(number) => Ok(number.as_i64().map(Id::Number)),
        _ => Ok(None),
    }
}

fn is_id(value: &Value) -> bool
    ensures { result ≡ is_some (id_of (view value.now)) }
{
    value.is_string() || value.is_i64()
}

#[tactic(auto, unfolding(crate::specs::Decoded::has_readable_id))]
fn has_readable_id(message: &Value) -> bool
    ensures { result ≡ has_readable_id (view message.now) }
{
    match message.get("id") {
        Some(value) => is_id(value),
        None => true,
    }
}

#[tactic(auto, unfolding(crate::specs::Decoded::message_id))]
fn message_id(alloc: Global, message: &Value) -> Result<Option<Id>, NoMemory>
    ensures { IfOk result (λ id. id ≡ message_id (view message.now)) }
{
    match message.get("id") {
        Some(value) => read_id(alloc, value),
        None => Ok(None),
    }
}

// ---- requests

#[tactic(auto, unfolding(crate::specs::Decoded::request_of))]
fn read_request(alloc: Global, id: Id, method: &str, message: &Value) -> Result<Msg, NoMemory>
    ensures { IfOk result (λ msg. msg ≡ request_of id method.now (view message.now)) }
{
    if method == "initialize" {
        read_initialize(alloc, id, message)
    } else if method == "shutdown" {
        Ok(Msg::Shutdown { id })
    } else {
        Ok(Msg::Unknown { id })
    }
}

#[tactic(auto, unfolding(crate::specs::Decoded::initialize_of))]
fn read_initialize(alloc: Global, id: Id, message: &Value) -> Result<Msg, NoMemory>
    ensures { IfOk result (λ msg. msg ≡ initialize_of id (view message.now)) }
{
    let Some(params) = object_params(message) else {
        return Ok(Msg::BadParams {
            method: Words::from_str(alloc, "initialize")?,
            id: Some(id),
        });
    };
    Ok(Msg::Initialize {
        id,
        root: root(alloc, params)?,
        encodings: encodings(alloc, params)?,
    })
}

// ---- notifications

#[tactic(auto, unfolding(crate::specs::Decoded::notification_of))]
fn read_notification(alloc: Global, method: &str, message: &Value) -> Result<Msg, NoMemory>
    ensures { IfOk result (λ msg. msg ≡ notification_of method.now (view message.now)) }
{
    if method == "textDocument/didOpen" {
        or_bad_params(alloc, method, read_opened(alloc, message)?)
    } else if method == "textDocument/didChange" {
        or_bad_params(alloc, method, read_changed(alloc, message)?)
    } else if method == "textDocument/didSave" {
        or_bad_params(alloc, method, read_saved(alloc, message)?)
    } else if method == "textDocument/didClose" {
        or_bad_params(alloc, method, read_closed(alloc, message)?)
    } else if method == "exit" {
        Ok(Msg::Exit)
    } else {
        Ok(Msg::Ignored)
    }
}

fn or_bad_params(alloc: Global, method: &str, said: Option<Msg>) -> Result<Msg, NoMemory>
    ensures { IfOk result (λ msg. msg ≡ or_bad_params method.now said) }
{
    match said {
        Some(msg) => Ok(msg),
        None => Ok(Msg::BadParams {
            method: Words::from_str(alloc, method)?,
            id: None,
        }),
    }
}

#[tactic(auto, unfolding(crate::specs::Decoded::opened_of))]
fn read_opened(alloc: Global, message: &Value) -> Result<Option<Msg>, NoMemory>
    ensures { IfOk result (λ msg. msg ≡ opened_of (view message.now)) }
{
    let Some(uri) = document_text(message, "uri") else {
        return Ok(None);
    };
    let Some(text) = document_text(message, "text") else {
        return Ok(None);
    };
    Ok(Some(Msg::Opened {
        uri: Words::from_str(alloc, uri)?,
        text: Words::from_str(alloc, text)?,
    }))
}

#[tactic(auto, unfolding(crate::specs::Decoded::changed_of))]
fn read_changed(alloc: Global, message: &Value) -> Result<Option<Msg>, NoMemory>
    ensures { IfOk result (λ msg. msg ≡ changed_of (view message.now)) }
{
    let Some(uri) = document_text(message, "uri") else {
        return Ok(None);
    };
    let Some(changes) = content_changes(alloc, message)? else {
        return Ok(None);
    };
    Ok(Some(Msg::Changed {
        uri: Words::from_str(alloc, uri)?,
        changes,
    }))
}

#[tactic(auto, unfolding(crate::specs::Decoded::saved_of))]
fn read_saved(alloc: Global, message: &Value) -> Result<Option<Msg>, NoMemory>
    ensures { IfOk result (λ msg. msg ≡ saved_of (view message.now)) }
{
    let Some(uri) = document_text(message, "uri") else {
        return Ok(None);
    };
    Ok(Some(Msg::Saved {
        uri: Words::from_str(alloc, uri)?,
    }))
}

#[tactic(auto, unfolding(crate::specs::Decoded::closed_of))]
fn read_closed(alloc: Global, message: &Value) -> Result<Option<Msg>, NoMemory>
    ensures { IfOk result (λ msg. msg ≡ closed_of (view message.now)) }
{
    let Some(uri) = document_text(message, "uri") else {
        return Ok(None);
    };
    Ok(Some(Msg::Closed {
        uri: Words::from_str(alloc, uri)?,
    }))
}
