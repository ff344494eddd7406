//! What lands where a file was checked, and what comes of errors of a file that others found.

ghost use Rattle.std.specs.Prelude.{◌≡◌, ◌+◌, ◌-◌, ◌^◌, ◌<◌, ◌↔◌, ◌&&◌, ◌||◌, not, [], length, min, slice_get, unwrap_or, None, Some, IsTrue, IfOk, OnErr, OnOk, if◌then◌else◌};
ghost use Rattle.srb_terms.specs.PathMaps.{IsEntryOf, IsOrdered};
ghost use Rattle.lsp_docs.specs.Paths.{Path};
ghost use Rattle.run_core.specs.Cores.{IsDue, IsFate, WorksIn, landed_by};
ghost use Rattle.run_core.specs.Rows.{PathRow};

use crate::fate::Fate;
use crate::landed::Landed;
use crate::row::Row;
use crate::rows::Rows;
use lsp_docs::Docs;
use lsp_msg::Out;
use run_watch::Step;
use srb_terms::{Diag, Items, Name, NoMemory};
use std::alloc::Global;

fn is_same_list(one: &[Diag], other: &[Diag]) -> bool
    ensures { IsTrue result ↔ (one.now ≡ other.now) }
{
    if one.len() != other.len() {
        return false;
    }
    'errors: for index in 0..one.len() {
        if !one[index].is_same(&other[index]) {
            return false;
        }
    }
    true
}

/// Whether the list has to be written: the row's file is owed, or it isn't the list written last.
pub fn is_due(row: &Row, list: &[Diag]) -> bool
    ensures { IsDue row.now list.now result }
{
    row.owed || !is_last_list(row, list)
}

// Whether the list is the one written last of the row's file. None counts as empty.
fn is_last_list(row: &Row, list: &[Diag]) -> bool
    ensures { IsTrue result ↔ (list.now ≡ unwrap_or row.now.shown []) }
{
    match &row.shown {
        Some(shown) => is_same_list(list, shown.as_slice()),
        None => list.is_empty(),
    }
}

fn copied_list(alloc: Global, list: &[Diag]) -> Result<Items<Diag>, NoMemory>
    ensures { IfOk result (λ copy. copy ≡ list.now) }
{
    let mut copy = Items::new(alloc);
    'list: for error in list {
        copy.push(error.copied()?)?;
    }
    Ok(copy)
}

/// What lands where the file was worked on after `epoch` edits and this list found, and `shown` says whether it is to be
/// written.
pub fn landed_of(
    alloc: Global,
    docs: &Docs,
    path: &Name,
    epoch: u64,
    list: &[Diag],
    shown: bool,
) -> Result<Landed, NoMemory>
    ensures { IfOk result (λ landed. landed ≡ landed_by docs.now path.now epoch list.now shown) }
{
    let step = Step::Work {
        path: path.copied()?,
        epoch,
        list: copied_list(alloc, list)?,
        shown,
    };
    if !shown {
        return Ok(Landed::Quiet(step));
    }
    let out = Out::List {
        uri: docs.uri(alloc, path)?,
        epoch,
        items: docs.placed(alloc, path, list)?,
    };
    Ok(Landed::Shown(step, out))
}

/// The list, where it is to be written.
pub fn list_if(shown: bool, list: Items<Diag>) -> Option<Items<Diag>>
    ensures { result ≡ (if shown then Some list else None) }
{
    if shown { Some(list) } else { None }
}

/// The number of files worked on that weren't owed, with one more file. It stays at the greatest `u64`.
pub fn with_check(owed: bool, checks: u64) -> u64
    ensures { result ≡ (if owed then checks else min (checks + 1) (2 ^ 64 - 1)) }
{
    if owed {
        checks
    } else {
        checks.saturating_add(1)
    }
}

/// Works a list in that was found in the file of the row at `index`, and answers what lands after `epoch` edits. Without memory the rows are
/// as they were.
pub fn work_in(
    alloc: Global,
    docs: &Docs,
    rows: &mut Rows,
    index: usize,
    epoch: u64,
    list: Items<Diag>,
) -> Result<Landed, NoMemory>
    requires { index < length rows.old.entries }
    ensures works { IfOk result (λ landed. (row : PathRow) → slice_get rows.old.entries index ≡ Some row → WorksIn docs.now epoch row list rows.old.entries rows.new.entries landed) }
    ensures ordered { OnOk result (IsOrdered rows.old.entries) }
    ensures err { OnErr result (rows.new ≡ rows.old) }
{
    let row = rows.row(index);
    let shown = is_due(row.value(), list.as_slice());
    let landed = landed_of(alloc, docs, row.path(), epoch, list.as_slice(), shown)?;
    rows.work(index, list_if(shown, list));
    Ok(landed)
}

// Whether errors of the row's file are thrown away.
fn is_dropped(row: &Row, stale: bool) -> bool
    ensures { result ≡ (stale || not row.now.todo || row.now.edited) }
{
    stale || !row.todo || row.edited
}

// Whether errors of the row's file have to wait, where some file is owed or none is.
fn has_to_wait(row: &Row, is_looked: bool, owes: bool) -> bool
    ensures { result ≡ (not is_looked || (not row.now.owed && owes)) }
{
    !is_looked || (!row.owed && owes)
}

/// What comes of errors of the file at `path`, by whether the inbox was looked at and whether the symbol table is stale. They are thrown away
/// where the table is stale, the file isn't to be worked on, or it was edited since the last build. Else they wait until the inbox was looked
/// at, and until no other file is owed where this one isn't.
pub fn fate_of(rows: &Rows, path: &Name, is_looked: bool, stale: bool) -> Fate
    ensures fate { IsFate rows.now.entries path.now is_looked stale result }
    ensures ordered { IsOrdered rows.now.entries }
{
    match rows.find(path) {
        Some(index) => fate_at(rows, index, is_looked, stale),
        None => Fate::Drop,
    }
}

// The same of the file of the row at `index`.
fn fate_at(rows: &Rows, index: usize, is_looked: bool, stale: bool) -> Fate
    requires within { index < length rows.now.entries }
    requires ordered { IsOrdered rows.now.entries }
    ensures { (f : Path) → IsEntryOf f rows.now.entries index → IsFate rows.now.entries f is_looked stale result }
{
    let row = rows.row(index).value();
    if is_dropped(row, stale) {
        Fate::Drop
    } else if has_to_wait(row, is_looked, rows.owes()) {
        Fate::Wait
    } else {
        Fate::Work(index)
    }
}
