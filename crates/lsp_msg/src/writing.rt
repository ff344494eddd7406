ghost use Rattle.std.specs.Prelude.{◌≡◌, Some, IfOk, IsUtf8};
ghost use Rattle.serde_json.specs.Read.{read};
ghost use Rattle.serde_json.specs.View.{view};
ghost use Rattle.lsp_msg.specs.Written.{id_data, optional_id, error_text, error_object, result_message, error_message, notification, sync_options, capabilities, initialize_result, reason_text, log_text, log_params, object_of, body_of};

use crate::encodings::encoding_name;
use crate::lists::list_body;
use crate::{
    INVALID_PARAMS, Id, METHOD_NOT_FOUND, Out, PARSE_ERROR, Reason, SERVER_NOT_INITIALIZED,
};
use serde_json::{Value, json};
use srb_terms::{NoMemory, Words};
use srb_text::Encoding;
use std::alloc::Global;

/// The body of a frame that says `out`: its JSON in UTF-8, without blanks, with the members of each object in the byte
/// order of their names. A code that is none of the five of this crate is written with the text of an invalid request.
///
/// What is written is read back as the same members.
pub fn encode(alloc: Global, out: &Out) -> Result<Vec<u8>, NoMemory>
    ensures body { IfOk result (λ body. body.items ≡ body_of out.now) }
    ensures utf8 { IfOk result (λ body. IsUtf8 body.items) }
    ensures reads_back { IfOk result (λ body. read body.items ≡ Some (object_of out.now)) }
{
    match out {
        Out::Initialized { id, encoding } => bytes_of(alloc, initialized(alloc, id, *encoding)?),
        Out::Null { id } => bytes_of(alloc, null_reply(alloc, id)?),
        Out::Error { id, code } => bytes_of(alloc, error_reply(alloc, id, *code)?),
        Out::Log { method, reason } => bytes_of(alloc, log_message(alloc, method, *reason)?),
        Out::List { uri, epoch, items } => list_body(alloc, uri, *epoch, items.as_slice()),
    }
}

// The bytes of a value. Where it is the object of a message, they are the body of that message.
fn bytes_of(alloc: Global, object: Value) -> Result<Vec<u8>, NoMemory>
    ensures body { IfOk result (λ body. (out : Out) → view object ≡ object_of out → body.items ≡ body_of out) }
    ensures utf8 { IfOk result (λ body. IsUtf8 body.items) }
    ensures reads_back { IfOk result (λ body. (out : Out) → view object ≡ object_of out → read body.items ≡ Some (object_of out)) }
{
    object.to_vec(alloc)
}

// ---- the objects of messages

#[tactic(auto, unfolding(crate::specs::Written::object_of))]
fn initialized(alloc: Global, id: &Id, encoding: Encoding) -> Result<Value, NoMemory>
    ensures { IfOk result (λ value. view value ≡ object_of (Out.Initialized id.now encoding)) }
{
    let id = id_value(alloc, id)?;
    result_message(alloc, id, initialize_result(alloc, encoding)?)
}

#[tactic(auto, unfolding(crate::specs::Written::object_of))]
fn null_reply(alloc: Global, id: &Id) -> Result<Value, NoMemory>
    ensures { IfOk result (λ value. view value ≡ object_of (Out.Null id.now)) }
{
    result_message(alloc, id_value(alloc, id)?, Value::Null)
}

#[tactic(auto, unfolding(crate::specs::Written::object_of))]
fn error_reply(alloc: Global, id: &Option<Id>, code: i32) -> Result<Value, NoMemory>
    ensures { IfOk result (λ value. view value ≡ object_of (Out.Error id.now code)) }
{
    let id = optional_id(alloc, id)?;
    error_message(alloc, id, error_object(alloc, code)?)
}

#[tactic(auto, unfolding(crate::specs::Written::object_of))]
fn log_message(alloc: Global, method: &Words, reason: Reason) -> Result<Value, NoMemory>
    ensures { IfOk result (λ value. view value ≡ object_of (Out.Log method.now reason)) }
{
    let text = log_text(alloc, method, reason)?;
    notification(alloc, "window/logMessage", log_params(alloc, &text)?)
}

// ---- ids, replies and notifications

fn id_value(alloc: Global, id: &Id) -> Result<Value, NoMemory>
    ensures { IfOk result (λ value. view value ≡ id_data id.now) }
{
    match id {
        Id::Number(number) => Ok(Value::from(*number)),
        Id::Text(text) => Value::try_from_str(alloc, text.as_str()),
    }
}

fn optional_id(alloc: Global, id: &Option<Id>) -> Result<Value, NoMemory>
    ensures { IfOk result (λ value. view value ≡ optional_id id.now) }
{
    match id {
        Some(id) => id_value(alloc, id),
        None => Ok(Value::Null),
    }
}

#[tactic(auto, unfolding(crate::specs::Written::result_message))]
fn result_message(alloc: Global, id: Value, answer: Value) -> Result<Value, NoMemory>
    ensures { IfOk result (λ value. view value ≡ result_message (view id) (view answer)) }
{
    json!(in alloc; {"id": id, "jsonrpc": "2.0", "result": answer})
}

#[tactic(auto, unfolding(crate::specs::Written::error_message))]
fn error_message(alloc: Global, id: Value, error: Value) -> Result<Value, NoMemory>
    ensures { IfOk result (λ value. view value ≡ error_message (view id) (view error)) }
{
    json!(in alloc; {"error": error, "id": id, "jsonrpc": "2.0"})
}

#[tactic(auto, unfolding(crate::specs::Written::notification))]
fn notification(alloc: Global, method: &str, params: Value) -> Result<Value, NoMemory>
    ensures { IfOk result (λ value. view value ≡ notification method.now (view params)) }
{
    json!(in alloc; {"jsonrpc": "2.0", "method": method, "params": params})
}

// ---- errors

#[tactic(auto, unfolding(crate::specs::Written::error_text))]
fn error_text(code: i32) -> &'static str
    ensures { result.now ≡ error_text code }
{
    match code {
        PARSE_ERROR => "parse error",
        METHOD_NOT_FOUND => "method not found",
        INVALID_PARAMS => "invalid params",
        SERVER_NOT_INITIALIZED => "server not initialized",
        _ => "invalid request",
    }
}

#[tactic(auto, unfolding(crate::specs::Written::error_object))]
fn error_object(alloc: Global, code: i32) -> Result<Value, NoMemory>
    ensures { IfOk result (λ value. view value ≡ error_object code) }
{
    json!(in alloc; {"code": code, "message": error_text(code)})
}

// ---- the reply to `initialize`

#[tactic(auto, unfolding(crate::specs::Written::sync_options))]
fn sync_options(alloc: Global) -> Result<Value, NoMemory>
    ensures { IfOk result (λ value. view value ≡ sync_options) }
{
    json!(in alloc; {"change": 2u64, "openClose": true, "save": {"includeText": false}})
}

#[tactic(auto, unfolding(crate::specs::Written::capabilities))]
fn capabilities(alloc: Global, encoding: Encoding) -> Result<Value, NoMemory>
    ensures { IfOk result (λ value. view value ≡ capabilities encoding) }
{
    let sync = sync_options(alloc)?;
    json!(in alloc; {"positionEncoding": encoding_name(encoding), "textDocumentSync": sync})
}

#[tactic(auto, unfolding(crate::specs::Written::initialize_result))]
fn initialize_result(alloc: Global, encoding: Encoding) -> Result<Value, NoMemory>
    ensures { IfOk result (λ value. view value ≡ initialize_result encoding) }
{
    let capabilities = capabilities(alloc, encoding)?;
    json!(in alloc; {"capabilities": capabilities, "serverInfo": {"name": "srb"}})
}

// ---- log messages

fn reason_text(reason: Reason) -> &'static str
    ensures { result.now ≡ reason_text reason }
{
    match reason {
        Reason::NotOpen => "not open",
        Reason::Backwards => "range ends before it starts",
        Reason::TooMany => "too many files",
        Reason::TooBig => "too many bytes",
        Reason::NotInProject => "not in the project",
        Reason::InvalidParams => "invalid params",
    }
}

fn log_text(alloc: Global, method: &Words, reason: Reason) -> Result<Words, NoMemory>
    ensures { IfOk result (λ text. text ≡ log_text method.now reason) }
{
    let mut text = String::from_str(alloc, "refused ")?;
    text.push_str(method.as_str())?;
    text.push_str(": ")?;
    text.push_str(reason_text(reason))?;
    Words::from_string(text)
}

#[tactic(auto, unfolding(crate::specs::Written::log_params))]
fn log_params(alloc: Global, message: &Words) -> Result<Value, NoMemory>
    ensures { IfOk result (λ value. view value ≡ log_params message.now) }
{
    json!(in alloc; {"message": message.as_str(), "type": 1u64})
}
