//! The body of a list of errors, written token by token: its object is not built.
ghost use Rattle.std.specs.Prelude.{◌≡◌, ◌<◌, ◌^◌, ◌++◌, ◌∷◌, [], All, IfOk, IsUtf8, OnOk, Some, decimal, map};
ghost use Rattle.json.specs.Token.{key, number, string};
ghost use Rattle.serde_json.specs.Data.{array};
ghost use Rattle.serde_json.specs.Read.{read};
ghost use Rattle.serde_json.specs.View.{items_of};
ghost use Rattle.serde_json.specs.Written.{compact_text};
ghost use Rattle.lsp_msg.specs.Tokens.{tokens_of_items, IsReadBack, Adds, Puts};
ghost use Rattle.lsp_msg.specs.Written.{position_object, range_object, item_object, list_params, list_object};

use crate::Placed;
use json::Writer;
use srb_terms::{NoMemory, Words};
use srb_text::Pos;
use std::alloc::Global;

// The room of a body at first, in bytes. A longer body grows.
const ROOM: usize = 500;

/// The body of a list of errors after the first `epoch` edits of the session.
pub(crate) fn list_body(
    alloc: Global,
    uri: &Words,
    epoch: u64,
    items: &[Placed],
) -> Result<Vec<u8>, NoMemory>
    ensures body { IfOk result (λ body. body.items ≡ compact_text (list_object uri.now epoch items.now)) }
    ensures utf8 { IfOk result (λ body. IsUtf8 body.items) }
    ensures reads_back { IfOk result (λ body. read body.items ≡ Some (list_object uri.now epoch items.now)) }
{
    let mut to = Writer::new(Vec::with_capacity(alloc, ROOM)?);
    put_list(&mut to, uri, epoch, items)?;
    Ok(to.into_inner())
}

// ---- the parts of a list, each written after what is there

fn put_list(to: &mut Writer, uri: &Words, epoch: u64, items: &[Placed]) -> Result<(), NoMemory>
    ensures { OnOk result (Puts to.old to.new (list_object uri.now epoch items.now)) }
{
    to.begin_object()?;
    to.key("jsonrpc")?;
    to.string("2.0")?;
    to.key("method")?;
    to.string("textDocument/publishDiagnostics")?;
    to.key("params")?;
    put_params(to, uri, epoch, items)?;
    to.end_object()
}

fn put_params(to: &mut Writer, uri: &Words, epoch: u64, items: &[Placed]) -> Result<(), NoMemory>
    ensures { OnOk result (Puts to.old to.new (list_params uri.now epoch (array (items_of (map item_object items.now))))) }
{
    to.begin_object()?;
    to.key("diagnostics")?;
    put_array(to, items)?;
    put_number(to, "epoch", epoch)?;
    put_text(to, "uri", uri)?;
    to.end_object()
}

fn put_array(to: &mut Writer, items: &[Placed]) -> Result<(), NoMemory>
    ensures { OnOk result (Puts to.old to.new (array (items_of (map item_object items.now)))) }
{
    to.begin_array()?;
    put_items(to, items)?;
    to.end_array()
}

// The items of an array, without its brackets.
fn put_items(to: &mut Writer, items: &[Placed]) -> Result<(), NoMemory>
    ensures adds { OnOk result (Adds to.old to.new (tokens_of_items items.now)) }
    ensures read { OnOk result (All (λ placed. IsReadBack (item_object placed)) items.now) }
{
    'items: for item in items {
        put_item(to, item)?;
    }
    Ok(())
}

fn put_item(to: &mut Writer, placed: &Placed) -> Result<(), NoMemory>
    ensures { OnOk result (Puts to.old to.new (item_object placed.now)) }
{
    to.begin_object()?;
    put_number(to, "code", placed.number as u64)?;
    put_text(to, "message", &placed.text)?;
    to.key("range")?;
    put_range(to, placed.start, placed.end)?;
    put_number(to, "severity", 1)?;
    to.key("source")?;
    to.string("srb")?;
    to.end_object()
}

fn put_range(to: &mut Writer, start: Pos, end: Pos) -> Result<(), NoMemory>
    ensures { OnOk result (Puts to.old to.new (range_object start end)) }
{
    to.begin_object()?;
    to.key("end")?;
    put_position(to, end)?;
    to.key("start")?;
    put_position(to, start)?;
    to.end_object()
}

fn put_position(to: &mut Writer, position: Pos) -> Result<(), NoMemory>
    ensures { OnOk result (Puts to.old to.new (position_object position)) }
{
    to.begin_object()?;
    put_number(to, "character", position.unit as u64)?;
    put_number(to, "line", position.line as u64)?;
    to.end_object()
}

// ---- members

fn put_number(to: &mut Writer, name: &str, value: u64) -> Result<(), NoMemory>
    ensures adds { OnOk result (Adds to.old to.new (key name.now ∷ number (decimal value) ∷ [])) }
    ensures small { value < 2 ^ 64 }
{
    to.key(name)?;
    to.u64(value)
}

fn put_text(to: &mut Writer, name: &str, text: &Words) -> Result<(), NoMemory>
    ensures { OnOk result (Adds to.old to.new (key name.now ∷ string text.now ∷ [])) }
{
    to.key(name)?;
    to.string(text.as_str())
}
