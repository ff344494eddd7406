ghost use Rattle.std.specs.Prelude.{◌≡◌, ◌<◌, ◌≤◌, length, not, slice_get, Some, IsFalse, IfNone, IfSome, OnOk, IfOk};
ghost use Rattle.srb_terms.specs.PathMaps.{IsEntryOf, IsOrdered};
ghost use Rattle.srb_terms.specs.Projects.{IsProject};
ghost use Rattle.lsp_docs.specs.Paths.{has};
ghost use Rattle.lsp_docs.specs.Uris.{is_empty};
ghost use Rattle.run_core.specs.Rows.{PathRow, after_built, after_edited, after_worked, built_row, edited_row, first_marked, has_mark, marked, new_row, next_index, opening_rows, worked_row};
ghost use Rattle.run_core.specs.declared.mark.Mark.{Mark};
ghost use Rattle.run_core.specs.declared.mark.Mark.TheVariants as mark;

use crate::mark::Mark;
use crate::row::Row;
use srb_terms::{Diag, Entry, Items, Name, NoMemory, PathMap, Project, ProjectFile};
use std::alloc::Global;
use std::marker::Model;

/// The rows of a core by path, with the first that is to be worked on and the first that is owed. A contract sees the
/// entries, and for how many more there is room.
#[derive(Drop)]
pub struct Rows {
    map: PathMap<Row>,
    first_todo: usize,
    first_owed: usize,
}

impl Model for Rows {
    ghost use Rattle.srb_terms.specs.PathMaps.{PathList};
    ghost use Rattle.run_core.specs.declared.row.Row.{Row};
    ghost use Rattle.run_core.specs.Rows.{AreRows};

    ghost Value = { PathList Row };

    ghost view = { λ r. r.map };

    ghost invariant = { λ r. AreRows r.map.entries r.first_todo r.first_owed };
}

impl Rows {
    /// The rows of a project before any step.
    pub fn new(alloc: Global, files: &Project) -> Result<Rows, NoMemory>
        ensures { IfOk result (λ rows. rows.entries ≡ opening_rows files.now) }
    {
        let map = opening_map(alloc, files.files())?;
        let first = map.entries().len();
        Ok(Rows {
            map,
            first_todo: first,
            first_owed: first,
        })
    }

    /// The rows.
    pub fn as_slice(&self) -> &[Entry<Row>]
        ensures entries { result.now ≡ self.now.entries }
        ensures ordered { IsOrdered self.now.entries }
    {
        self.map.entries()
    }

    /// The row at `index`.
    pub fn row(&self, index: usize) -> &Entry<Row>
        requires { index < length self.now.entries }
        ensures { slice_get self.now.entries index ≡ Some result.now }
    {
        &self.map.entries()[index]
    }

    /// The index of the first row that is to be worked on, or else the number of rows.
    pub fn first_todo(&self) -> usize
        ensures { result ≡ first_marked mark.Todo self.now.entries }
    {
        self.first_todo
    }

    /// The index of the first row that is owed, or else the number of rows.
    pub fn first_owed(&self) -> usize
        ensures { result ≡ first_marked mark.Owed self.now.entries }
    {
        self.first_owed
    }

    /// Whether some row is owed.
    pub fn owes(&self) -> bool
        ensures { result ≡ not (is_empty (marked mark.Owed self.now.entries)) }
    {
        self.first_owed < self.map.len()
    }

    /// The index of the row of the path, if there is one.
    pub fn find(&self, path: &Name) -> Option<usize>
        ensures some { IfSome result (IsEntryOf path.now self.now.entries) }
        ensures within { IfSome result (λ index. index < length self.now.entries) }
        ensures none { IfNone result ((m : Mark) → IsFalse (has path.now (marked m self.now.entries))) }
        ensures ordered { IsOrdered self.now.entries }
    {
        match self.map.find(path.as_str()) {
            Ok(index) => Some(index),
            Err(_) => None,
        }
    }

    /// Makes room for one more row.
    pub fn reserve(&mut self) -> Result<(), NoMemory>
        ensures entries { self.new.entries ≡ self.old.entries }
        ensures ordered { IsOrdered self.old.entries }
        ensures room { OnOk result (0 < self.new.room) }
    {
        self.map.reserve()
    }

    /// Notes an edit of the file at `path`, which the project has from now on, or has no more. Where the edit keeps the errors of
    /// the other files, the file is to be worked on.
    pub fn edit(&mut self, path: Name, present: bool, kept: bool)
        requires { 0 < self.old.room }
        ensures entries { self.new.entries ≡ after_edited path present kept self.old.entries }
        ensures ordered { IsOrdered self.old.entries }
    {
        edit_in(&mut self.map, path, present, kept);
        self.first_todo = next_marked(self.map.entries(), Mark::Todo, 0);
        self.first_owed = next_marked(self.map.entries(), Mark::Owed, 0);
    }

    /// Notes a build: all files of the project and all owed ones are to be worked on.
    pub fn build(&mut self)
        ensures entries { self.new.entries ≡ after_built self.old.entries }
        ensures ordered { IsOrdered self.old.entries }
    {
        build_all(&mut self.map);
        self.first_todo = next_marked(self.map.entries(), Mark::Todo, 0);
        self.first_owed = next_marked(self.map.entries(), Mark::Owed, 0);
    }

    /// Notes that the file of the row at `index` was worked on, and which list was written, if one was.
    pub fn work(&mut self, index: usize, list: Option<Items<Diag>>)
        requires { index < length self.old.entries }
        ensures entries { (row : PathRow) → slice_get self.old.entries index ≡ Some row → self.new.entries ≡ after_worked row.0 list self.old.entries }
        ensures ordered { IsOrdered self.old.entries }
    {
        note_work(self.map.value_mut(index), list);
        self.first_todo = next_marked(self.map.entries(), Mark::Todo, self.first_todo);
        self.first_owed = next_marked(self.map.entries(), Mark::Owed, self.first_owed);
    }
}

fn opening_map(alloc: Global, files: &[ProjectFile]) -> Result<PathMap<Row>, NoMemory>
    requires { IsProject files.now }
    ensures { IfOk result (λ map. map.entries ≡ opening_rows files.now) }
{
    let mut map = PathMap::with_capacity(alloc, files.len())?;
    'files: for file in files {
        let index = map.len();
        map.insert(index, file.path().copied()?, new_row(true))?;
    }
    Ok(map)
}

/// The index of the first row that is owed, or else of the first that is to be worked on, or else the number of rows.
pub fn next_row(rows: &Rows) -> usize
    ensures { result ≡ next_index rows.now.entries }
{
    let owed = rows.first_owed();
    if owed < rows.as_slice().len() {
        owed
    } else {
        rows.first_todo()
    }
}

// What is kept of a path of which nothing is known but whether the project has a file there.
fn new_row(present: bool) -> Row
    ensures { result ≡ new_row present }
{
    Row {
        present,
        todo: false,
        owed: false,
        edited: false,
        shown: None,
    }
}

fn has_mark(mark: Mark, row: &Row) -> bool
    ensures { result ≡ has_mark mark row.now }
{
    match mark {
        Mark::Present => row.present,
        Mark::Todo => row.todo,
        Mark::Owed => row.owed,
        Mark::Edited => row.edited,
    }
}

// The index of the first row with the mark, or else the number of rows. None of the first `from` rows has it.
fn next_marked(rows: &[Entry<Row>], mark: Mark, from: usize) -> usize
    requires { from ≤ first_marked mark rows.now }
    ensures { result ≡ first_marked mark rows.now }
{
    let mut index = from;
    'rows: while index < rows.len() {
        if has_mark(mark, rows[index].value()) {
            return index;
        }
        index += 1;
    }
    index
}

fn note_edit(row: &mut Row, present: bool, kept: bool)
    ensures { row.new ≡ edited_row present kept row.old }
{
    row.present = present;
    row.todo = kept || row.todo;
    row.owed = true;
    row.edited = true;
}

fn edit_in(map: &mut PathMap<Row>, path: Name, present: bool, kept: bool)
    requires { 0 < map.old.room }
    ensures { map.new.entries ≡ after_edited path present kept map.old.entries }
{
    match map.find(path.as_str()) {
        Ok(index) => note_edit(map.value_mut(index), present, kept),
        Err(index) => {
            let mut row = new_row(false);
            note_edit(&mut row, present, kept);
            map.insert_within(index, path, row);
        }
    }
}

fn build_row(row: &mut Row)
    ensures { row.new ≡ built_row row.old }
{
    row.todo = row.present || row.owed;
    row.edited = false;
}

fn build_all(map: &mut PathMap<Row>)
    ensures { map.new.entries ≡ after_built map.old.entries }
{
    'rows: for index in 0..map.len() {
        build_row(map.value_mut(index));
    }
}

fn note_work(row: &mut Row, list: Option<Items<Diag>>)
    ensures { row.new ≡ worked_row list row.old }
{
    row.todo = false;
    row.owed = false;
    if let Some(list) = list {
        row.shown = Some(list);
    }
}
