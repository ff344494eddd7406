//! What messages are to do to the rows of their paths.
ghost use Rattle.std.specs.Prelude.{◌≡◌, Ok, Some, true, false, IfOk, IfErr};
ghost use Rattle.lsp_docs.specs.Documents.{Saves, changes_now, closes, if_open, opens};
ghost use Rattle.srb_terms.specs.PathMaps.{IsPlaceOf};
ghost use Rattle.lsp_docs.specs.Rows.{HasRoom, IsPlannedBy, IsPlannedIn, IsRefusedBy, IsRefusedIn, project_of};

use crate::DocEnd;
use crate::changes::{changed, held_text};
use crate::doc::Doc;
use crate::rows::{Rows, held_bytes};
use lsp_msg::Change;
use srb_terms::{Name, Words};
use srb_text::{BYTES_LIMIT, Encoding};
use std::alloc::Global;

/// The most files that a project may have.
pub const FILES_LIMIT: usize = 4096;

/// `didOpen`: the path has this text and is open.
pub fn open(alloc: Global, rows: &Rows, path: &Name, text: &Words) -> Result<Doc, DocEnd>
    ensures planned { IfOk result (λ doc. IsPlannedBy (λ d. opens d text.now path.now) path.now true rows.now (Some doc)) }
    ensures room { IfOk result (λ doc. HasRoom path.now (Some doc) (project_of rows.now)) }
    ensures refused { IfErr result (IsRefusedBy (λ d. opens d text.now path.now) rows.now) }
{
    match rows.find(path) {
        Ok(index) => {
            let text = held_text(alloc, rows.others(index), text)?;
            Ok(rows.doc(index).opened(text)?)
        }
        Err(index) => open_new(alloc, rows, index, path, text),
    }
}

/// The same where the path has no row; one would stand before that at `index`.
fn open_new(
    alloc: Global,
    rows: &Rows,
    index: usize,
    path: &Name,
    text: &Words,
) -> Result<Doc, DocEnd>
    requires { IsPlaceOf path.now rows.now index }
    ensures planned { IfOk result (λ doc. IsPlannedBy (λ d. opens d text.now path.now) path.now true rows.now (Some doc)) }
    ensures room { IfOk result (λ doc. HasRoom path.now (Some doc) (project_of rows.now)) }
    ensures refused { IfErr result (IsRefusedBy (λ d. opens d text.now path.now) rows.now) }
{
    let count = rows.entries().len();
    if count >= FILES_LIMIT {
        return Err(DocEnd::TooMany {
            count: count as u64,
        });
    }
    let text = held_text(alloc, rows.total(), text)?;
    Ok(Doc {
        saved: None,
        text: Some(text),
    })
}

/// `didChange`: the changes are applied to the present text, in order.
pub fn change(
    alloc: Global,
    rows: &Rows,
    path: &Name,
    changes: &[Change],
    encoding: Encoding,
) -> Result<Doc, DocEnd>
    ensures planned { IfOk result (λ doc. IsPlannedIn encoding (λ d. if_open d (changes_now d changes.now) path.now) path.now true rows.now (Some doc)) }
    ensures room { IfOk result (λ doc. HasRoom path.now (Some doc) (project_of rows.now)) }
    ensures refused { IfErr result (IsRefusedIn encoding (λ d. if_open d (changes_now d changes.now) path.now) rows.now) }
{
    let Some((index, text)) = rows.find_open(path) else {
        return Err(DocEnd::Unknown);
    };
    let text = changed(alloc, text, rows.others(index), changes, encoding)?;
    Ok(rows.doc(index).opened(text)?)
}

/// `didSave`: the present text counts as saved.
pub fn save(alloc: Global, rows: &Rows, path: &Name) -> Result<Doc, DocEnd>
    ensures planned { IfOk result (λ doc. IsPlannedBy (λ d. if_open d (λ f. Ok (Saves f)) path.now) path.now false rows.now (Some doc)) }
    ensures room { IfOk result (λ doc. HasRoom path.now (Some doc) (project_of rows.now)) }
    ensures refused { IfErr result (IsRefusedBy (λ d. if_open d (λ f. Ok (Saves f)) path.now) rows.now) }
{
    let Some((index, text)) = rows.find_open(path) else {
        return Err(DocEnd::Unknown);
    };
    let bytes = held_bytes(alloc, text.as_str().as_bytes())?;
    Ok(rows.doc(index).saved_as(bytes)?)
}

/// `didClose`: the saved text comes back, or the path goes where there is none.
pub fn close(rows: &Rows, path: &Name) -> Result<Option<Doc>, DocEnd>
    ensures planned { IfOk result (IsPlannedBy (λ d. if_open d (closes d) path.now) path.now true rows.now) }
    ensures room { IfOk result (λ kept. HasRoom path.now kept (project_of rows.now)) }
    ensures refused { IfErr result (IsRefusedBy (λ d. if_open d (closes d) path.now) rows.now) }
{
    let Some((index, _)) = rows.find_open(path) else {
        return Err(DocEnd::Unknown);
    };
    let others = rows.others(index);
    match &rows.doc(index).saved {
        Some(bytes) => {
            let size = others + bytes.get().as_slice().len();
            if size > BYTES_LIMIT {
                return Err(DocEnd::TooBig { bytes: size as u64 });
            }
            Ok(Some(rows.doc(index).closed()?))
        }
        None => Ok(None),
    }
}
