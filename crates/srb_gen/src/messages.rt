//! The bodies of the messages.

ghost use Rattle.std.specs.Prelude.{◌≡◌, ◌<◌, ◌≤◌, [], ◌∷◌, string_bytes, false, pos, None, Some, IfOk};
ghost use Rattle.serde_json.specs.Data.{depth};
ghost use Rattle.serde_json.specs.View.{view};
ghost use Rattle.serde_json.specs.Written.{compact_text, has_float};
ghost use Rattle.lsp_msg.specs.Decoded.{decoded, message_of};
ghost use Rattle.lsp_msg.specs.declared.id.Id.TheVariants.{Number};
ghost use Rattle.lsp_msg.specs.declared.msg.Msg.TheVariants as msg;
ghost use Rattle.lsp_msg.specs.Written.{notification};
ghost use Rattle.srb_gen.specs.Texts.{first_text, last_text};
ghost use Rattle.srb_gen.specs.Messages.{initialize_params, initialize_object, opened_params, opened_object, changed_params, changed_object, shutdown_object, exit_object, root_uri, file_uri, initialize_body, opened_body, changed_body, shutdown_body, exit_body};

use crate::texts::{file_path, first_text, last_text};
use serde_json::{Value, json};
use srb_terms::NoMemory;
use std::alloc::Global;

fn file_uri(alloc: Global, number: u16) -> Result<String, NoMemory>
    requires { number < 1000 }
    ensures { IfOk result (λ s. string_bytes s ≡ file_uri number) }
{
    let path = file_path(alloc, number)?;
    format!(in alloc; "file:///g/{path}")
}

// The body of the frame that says this value.
fn body_of(alloc: Global, value: &Value) -> Result<Vec<u8>, NoMemory>
    requires plain { has_float (view value.now) ≡ false }
    requires shallow { depth (view value.now) ≤ 127 }
    ensures text { IfOk result (λ body. body.items ≡ compact_text (view value.now)) }
    ensures says { IfOk result (λ body. decoded body.items ≡ message_of (view value.now)) }
{
    value.to_vec(alloc)
}

#[tactic(auto, unfolding(crate::specs::Messages::initialize_params))]
fn initialize_params(alloc: Global) -> Result<Value, NoMemory>
    ensures { IfOk result (λ value. view value ≡ initialize_params) }
{
    json!(in alloc; {"capabilities": {}, "rootUri": "file:///g"})
}

#[tactic(auto, unfolding(crate::specs::Messages::initialize_object))]
fn initialize_object(alloc: Global) -> Result<Value, NoMemory>
    ensures { IfOk result (λ value. view value ≡ initialize_object) }
{
    let params = initialize_params(alloc)?;
    json!(in alloc; {"id": 1u64, "jsonrpc": "2.0", "method": "initialize", "params": params})
}

#[tactic(auto, using(crate::proofs::Objects::initialize_plain, crate::proofs::Objects::initialize_shallow, crate::proofs::Objects::initialize_says))]
pub fn initialize_body(alloc: Global) -> Result<Vec<u8>, NoMemory>
    ensures text { IfOk result (λ body. body.items ≡ initialize_body) }
    ensures says { IfOk result (λ body. decoded body.items ≡ msg.Initialize (Number (pos 1)) (Some root_uri) []) }
{
    let value = initialize_object(alloc)?;
    body_of(alloc, &value)
}

#[tactic(auto, unfolding(lsp_msg::specs::Written::notification))]
fn notification(alloc: Global, method: &str, params: Value) -> Result<Value, NoMemory>
    ensures { IfOk result (λ value. view value ≡ notification method.now (view params)) }
{
    json!(in alloc; {"jsonrpc": "2.0", "method": method, "params": params})
}

#[tactic(auto, unfolding(crate::specs::Messages::opened_params))]
fn opened_params(alloc: Global, uri: &str, text: &str) -> Result<Value, NoMemory>
    ensures { IfOk result (λ value. view value ≡ opened_params uri.now text.now) }
{
    let document =
        json!(in alloc; {"languageId": "ruby", "text": text, "uri": uri, "version": 1u64})?;
    json!(in alloc; {"textDocument": document})
}

fn opened_object(alloc: Global, uri: &str, text: &str) -> Result<Value, NoMemory>
    ensures { IfOk result (λ value. view value ≡ opened_object uri.now text.now) }
{
    let params = opened_params(alloc, uri, text)?;
    notification(alloc, "textDocument/didOpen", params)
}

/// The body of `didOpen` for the file of this number.
#[tactic(auto, using(crate::proofs::Objects::opened_plain, crate::proofs::Objects::opened_shallow, crate::proofs::Objects::opened_says))]
pub fn opened_body(alloc: Global, number: u16) -> Result<Vec<u8>, NoMemory>
    requires { number < 1000 }
    ensures text { IfOk result (λ body. body.items ≡ opened_body (file_uri number) (first_text number)) }
    ensures says { IfOk result (λ body. decoded body.items ≡ msg.Opened (file_uri number) (first_text number)) }
{
    let uri = file_uri(alloc, number)?;
    let text = first_text(alloc, number)?;
    let value = opened_object(alloc, uri.as_str(), text.as_str())?;
    body_of(alloc, &value)
}

#[tactic(auto, unfolding(crate::specs::Messages::changed_params))]
fn changed_params(alloc: Global, uri: &str, text: &str) -> Result<Value, NoMemory>
    ensures { IfOk result (λ value. view value ≡ changed_params uri.now text.now) }
{
    let change = json!(in alloc; {"text": text})?;
    let document = json!(in alloc; {"uri": uri, "version": 2u64})?;
    json!(in alloc; {"contentChanges": [change], "textDocument": document})
}

fn changed_object(alloc: Global, uri: &str, text: &str) -> Result<Value, NoMemory>
    ensures { IfOk result (λ value. view value ≡ changed_object uri.now text.now) }
{
    let params = changed_params(alloc, uri, text)?;
    notification(alloc, "textDocument/didChange", params)
}

/// The body of `didChange` for the file of this number.
#[tactic(auto, using(crate::proofs::Objects::changed_plain, crate::proofs::Objects::changed_shallow, crate::proofs::Objects::changed_says))]
pub fn changed_body(alloc: Global, number: u16) -> Result<Vec<u8>, NoMemory>
    requires { number < 1000 }
    ensures text { IfOk result (λ body. body.items ≡ changed_body (file_uri number) (last_text number)) }
    ensures says { IfOk result (λ body. decoded body.items ≡ msg.Changed (file_uri number) (record { range = None; text = last_text number } ∷ [])) }
{
    let uri = file_uri(alloc, number)?;
    let text = last_text(alloc, number)?;
    let value = changed_object(alloc, uri.as_str(), text.as_str())?;
    body_of(alloc, &value)
}

#[tactic(auto, unfolding(crate::specs::Messages::shutdown_object))]
fn shutdown_object(alloc: Global) -> Result<Value, NoMemory>
    ensures { IfOk result (λ value. view value ≡ shutdown_object) }
{
    json!(in alloc; {"id": 2u64, "jsonrpc": "2.0", "method": "shutdown"})
}

#[tactic(auto, using(crate::proofs::Objects::shutdown_plain, crate::proofs::Objects::shutdown_shallow, crate::proofs::Objects::shutdown_says))]
pub fn shutdown_body(alloc: Global) -> Result<Vec<u8>, NoMemory>
    ensures text { IfOk result (λ body. body.items ≡ shutdown_body) }
    ensures says { IfOk result (λ body. decoded body.items ≡ msg.Shutdown (Number (pos 2))) }
{
    let value = shutdown_object(alloc)?;
    body_of(alloc, &value)
}

#[tactic(auto, unfolding(crate::specs::Messages::exit_object))]
fn exit_object(alloc: Global) -> Result<Value, NoMemory>
    ensures { IfOk result (λ value. view value ≡ exit_object) }
{
    json!(in alloc; {"jsonrpc": "2.0", "method": "exit"})
}

#[tactic(auto, using(crate::proofs::Objects::exit_plain, crate::proofs::Objects::exit_shallow, crate::proofs::Objects::exit_says))]
pub fn exit_body(alloc: Global) -> Result<Vec<u8>, NoMemory>
    ensures text { IfOk result (λ body. body.items ≡ exit_body) }
    ensures says { IfOk result (λ body. decoded body.items ≡ msg.Exit) }
{
    let value = exit_object(alloc)?;
    body_of(alloc, &value)
}
