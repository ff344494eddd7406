ghost use Rattle.std.specs.Prelude.{◌≡◌, codes, Option, option_map, option_and_then, is_some, min, IfOk};
ghost use Rattle.serde_json.specs.Find.{get};
ghost use Rattle.serde_json.specs.View.{view, items_view};
ghost use Rattle.lsp_msg.specs.Params.{param, items_in, place_of, position_of, range_of, change_of, changes_of, content_changes, document_text, object_params, root_of, folder_of, listed_encodings, encodings_of, texts_among};

use crate::Change;
use serde_json::Value;
use srb_terms::{Items, NoMemory, Words};
use srb_text::Pos;
use std::alloc::Global;

// The member of this name of the message's parameters.
fn param<'v>(message: &'v Value, name: &str) -> Option<&'v Value>
    ensures { option_map (λ v. view v.now) result ≡ param name.now (view message.now) }
{
    message.get("params")?.get(name)
}

// A number of a position. What is too great counts as the greatest.
#[tactic(auto, unfolding(crate::specs::Params::place_of))]
fn place(value: &Value) -> Option<u32>
    ensures { result ≡ place_of (view value.now) }
{
    let number = value.as_u64()?;
    Some(number.min(u32::MAX as u64) as u32)
}

#[tactic(auto, unfolding(crate::specs::Params::position_of))]
fn position(value: &Value) -> Option<Pos>
    ensures { result ≡ position_of (view value.now) }
{
    let line = place(value.get("line")?)?;
    let unit = place(value.get("character")?)?;
    Some(Pos { line, unit })
}

#[tactic(auto, unfolding(crate::specs::Params::range_of))]
fn range(value: &Value) -> Option<(Pos, Pos)>
    ensures { result ≡ range_of (view value.now) }
{
    let from = position(value.get("start")?)?;
    let to = position(value.get("end")?)?;
    Some((from, to))
}

#[tactic(auto, unfolding(crate::specs::Params::change_of))]
fn change(alloc: Global, value: &Value) -> Result<Option<Change>, NoMemory>
    ensures { IfOk result (λ change. change ≡ change_of (view value.now)) }
{
    let Some(text) = value.get("text").and_then(Value::as_str) else {
        return Ok(None);
    };
    let Some(bounds) = value.get("range") else {
        let text = Words::from_str(alloc, text)?;
        return Ok(Some(Change { range: None, text }));
    };
    let Some(range) = range(bounds) else {
        return Ok(None);
    };
    let text = Words::from_str(alloc, text)?;
    Ok(Some(Change {
        range: Some(range),
        text,
    }))
}

fn changes(alloc: Global, values: &Vec<Value>) -> Result<Option<Items<Change>>, NoMemory>
    ensures { IfOk result (λ changes. changes ≡ changes_of (items_view values.now.items)) }
{
    let mut changes = Items::new(alloc);
    'values: for value in values {
        let Some(change) = change(alloc, value)? else {
            return Ok(None);
        };
        changes.push(change)?;
    }
    Ok(Some(changes))
}

/// The changes of a `textDocument/didChange`, or `None` where one of them can't be read.
#[tactic(auto, unfolding(crate::specs::Params::content_changes))]
pub fn content_changes(alloc: Global, message: &Value) -> Result<Option<Items<Change>>, NoMemory>
    ensures { IfOk result (λ changes. changes ≡ content_changes (view message.now)) }
{
    match param(message, "contentChanges").and_then(Value::as_array) {
        Some(values) => changes(alloc, values),
        None => Ok(None),
    }
}

/// The text of this name of the document that the message is about.
#[tactic(auto, unfolding(crate::specs::Params::document_text))]
pub fn document_text<'v>(message: &'v Value, name: &str) -> Option<&'v str>
    ensures { option_map (λ text. text.now) result ≡ document_text name.now (view message.now) }
{
    param(message, "textDocument")?.get(name)?.as_str()
}

/// The parameters of the message, if they are an object.
#[tactic(auto, unfolding(crate::specs::Params::object_params))]
pub fn object_params(message: &Value) -> Option<&Value>
    ensures { option_map (λ v. view v.now) result ≡ object_params (view message.now) }
{
    let params = message.get("params")?;
    if params.is_object() {
        Some(params)
    } else {
        None
    }
}

#[tactic(auto, unfolding(crate::specs::Params::folder_of))]
fn first_folder(params: &Value) -> Option<&str>
    ensures { option_map (λ text. text.now) result ≡ folder_of (view params.now) }
{
    params
        .get("workspaceFolders")?
        .get(0usize)?
        .get("uri")?
        .as_str()
}

#[tactic(auto, unfolding(crate::specs::Params::root_of))]
fn root_uri(params: &Value) -> Option<&str>
    ensures { option_map (λ text. text.now) result ≡ root_of (view params.now) }
{
    match params.get("rootUri").and_then(Value::as_str) {
        Some(root) => Some(root),
        None => first_folder(params),
    }
}

/// The root that the parameters of `initialize` name.
pub fn root(alloc: Global, params: &Value) -> Result<Option<Words>, NoMemory>
    ensures { IfOk result (λ root. root ≡ root_of (view params.now)) }
{
    match root_uri(params) {
        Some(root) => Ok(Some(Words::from_str(alloc, root)?)),
        None => Ok(None),
    }
}

fn texts(alloc: Global, values: &Vec<Value>) -> Result<Items<Words>, NoMemory>
    ensures { IfOk result (λ texts. texts ≡ texts_among (items_view values.now.items)) }
{
    let mut texts = Items::new(alloc);
    'values: for value in values {
        if let Some(text) = value.as_str() {
            texts.push(Words::from_str(alloc, text)?)?;
        }
    }
    Ok(texts)
}

#[tactic(auto, unfolding(crate::specs::Params::listed_encodings))]
fn listed_encodings(params: &Value) -> Option<&Vec<Value>>
    ensures { option_map (λ list. items_view list.now.items) result ≡ listed_encodings (view params.now) }
{
    params
        .get("capabilities")?
        .get("general")?
        .get("positionEncodings")?
        .as_array()
}

/// The position encodings that the parameters of `initialize` list.
#[tactic(auto, unfolding(crate::specs::Params::encodings_of))]
pub fn encodings(alloc: Global, params: &Value) -> Result<Items<Words>, NoMemory>
    ensures { IfOk result (λ encodings. encodings ≡ encodings_of (view params.now)) }
{
    match listed_encodings(params) {
        Some(values) => texts(alloc, values),
        None => Ok(Items::new(alloc)),
    }
}
