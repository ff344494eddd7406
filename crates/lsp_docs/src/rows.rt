//! The rows of the documents, one a path.
ghost use Rattle.std.specs.Prelude.{◌≡◌, ◌+◌, ◌<◌, ◌≤◌, length, map, slice_get, insert, remove, false, Some, IsSome, IfSome, IfNone, IfOk, IfErr, OnOk, OnErr};
ghost use Rattle.std.specs.Option.{option_map};
ghost use Rattle.srb_terms.specs.PathMaps.{IsEntryOf, IsPlaceOf, set_value};
ghost use Rattle.lsp_docs.specs.Paths.{has};
ghost use Rattle.lsp_docs.specs.Projects.{paths_of, total_bytes};
ghost use Rattle.srb_terms.specs.Projects.{bytes_at};
ghost use Rattle.lsp_docs.specs.Documents.{MOST_FILES, Agreed};
ghost use Rattle.srb_text.specs.Limits.{MOST_BYTES};
ghost use Rattle.lsp_docs.specs.Rows.{AreRows, HasRoom, IsOpenAt, Row, closed_row, documents_of, present_of, project_of, reading, size_of, with_kept};

use crate::doc::Doc;
use srb_terms::{Boxed, Entry, Items, Name, NoMemory, PathMap, Project};
use srb_text::Text;
use std::alloc::Global;
use std::marker::Model;

/// What is kept by path, in byte order of the paths, with the sum of the present bytes. A contract sees the list of the
/// rows, each a path and what is kept there.
#[derive(Drop)]
pub struct Rows {
    map: PathMap<Doc>,
    total: usize,
}

impl Model for Rows {
    ghost use Rattle.std.specs.Prelude.{◌≡◌, ◌≤◌, List, length};
    ghost use Rattle.lsp_docs.specs.Documents.{MOST_FILES};
    ghost use Rattle.srb_text.specs.Limits.{MOST_BYTES};
    ghost use Rattle.lsp_docs.specs.Projects.{total_bytes};
    ghost use Rattle.lsp_docs.specs.Rows.{ArePresent, Row, project_of};

    ghost Value = { List Row };

    ghost view = { λ r. r.map.entries };

    ghost invariant = { λ r. ArePresent r.map.entries × (length r.map.entries ≤ MOST_FILES) × (r.total ≡ total_bytes (project_of r.map.entries)) × (r.total ≤ MOST_BYTES) };
}

impl Rows {
    /// The rows of a project's files, none of them open.
    pub fn new(alloc: Global, files: Project) -> Result<Rows, NoMemory>
        requires count { length files ≤ MOST_FILES }
        requires bytes { total_bytes files ≤ MOST_BYTES }
        ensures { IfOk result (λ rows. rows ≡ map closed_row files) }
    {
        let mut map = PathMap::with_capacity(alloc, files.len())?;
        let mut total = 0;
        'files: for file in files.files() {
            let count = map.len();
            let doc = Doc {
                saved: Some(held_bytes(alloc, file.bytes())?),
                text: None,
            };
            map.insert(count, file.path().copied()?, doc)?;
            total += file.bytes().len();
        }
        Ok(Rows { map, total })
    }

    /// A copy, which shares the bytes and the texts.
    pub fn copied(&self, alloc: Global) -> Result<Rows, NoMemory>
        ensures { IfOk result (λ rows. rows ≡ self.now) }
    {
        Ok(Rows {
            map: copied_map(alloc, &self.map)?,
            total: self.total,
        })
    }

    /// The rows.
    pub fn entries(&self) -> &[Entry<Doc>]
        ensures entries { result.now ≡ self.now }
        ensures rows { AreRows self.now }
        ensures count { length self.now ≤ MOST_FILES }
        ensures bytes { total_bytes (project_of self.now) ≤ MOST_BYTES }
    {
        self.map.entries()
    }

    /// The bytes of all rows together.
    pub fn total(&self) -> usize
        ensures total { result ≡ total_bytes (project_of self.now) }
        ensures bound { result ≤ MOST_BYTES }
    {
        self.total
    }

    /// The index of the path's row, or else the index at which it belongs.
    pub fn find(&self, path: &Name) -> Result<usize, usize>
        ensures found { IfOk result (IsEntryOf path.now self.now) }
        ensures absent { IfErr result (IsPlaceOf path.now self.now) }
        ensures rows { AreRows self.now }
        ensures count { length self.now ≤ MOST_FILES }
        ensures bytes { total_bytes (project_of self.now) ≤ MOST_BYTES }
    {
        self.map.find(path.as_str())
    }

    /// What is kept in the row at `index`.
    pub fn doc(&self, index: usize) -> &Doc
        requires { index < length self.now }
        ensures doc { option_map (λ r. r.1) (slice_get self.now index) ≡ Some result.now }
        ensures small { size_of (present_of result.now) ≤ MOST_BYTES }
    {
        self.map.entries()[index].value()
    }

    /// The index of the path's row and its text, where it is open.
    pub fn find_open(&self, path: &Name) -> Option<(usize, &Text)>
        ensures open { IfSome result (λ found. IsOpenAt path.now self.now found.0 found.1.now) }
        ensures none { IfNone result (has path.now (paths_of (reading (λ d. d.text) self.now)) ≡ false) }
        ensures rows { AreRows self.now }
        ensures count { length self.now ≤ MOST_FILES }
        ensures bytes { total_bytes (project_of self.now) ≤ MOST_BYTES }
    {
        match self.find(path) {
            Ok(index) => match &self.doc(index).text {
                Some(text) => Some((index, text.get())),
                None => None,
            },
            Err(_) => None,
        }
    }

    /// The bytes of all rows but that at `index`.
    pub fn others(&self, index: usize) -> usize
        requires { index < length self.now }
        ensures sum { (r : Row) → slice_get self.now index ≡ Some r → result + size_of (present_of r.1) ≡ total_bytes (project_of self.now) }
        ensures bound { result ≤ MOST_BYTES }
        ensures most { total_bytes (project_of self.now) ≤ MOST_BYTES }
        ensures count { length self.now ≤ MOST_FILES }
    {
        self.total - self.doc(index).size()
    }

    /// Keeps this at the path from now on, or nothing. It takes memory only where the path has no row yet.
    pub fn put(&mut self, path: Name, kept: Option<Doc>) -> Result<(), NoMemory>
        requires { HasRoom path kept (project_of self.old) }
        ensures kept { OnOk result ((agreed : Agreed) → documents_of agreed self.new ≡ with_kept path kept (documents_of agreed self.old)) }
        ensures err { OnErr result (self.new ≡ self.old) }
        ensures known { IsSome (bytes_at path (project_of self.old)) → IfErr result (λ e. ⊥) }
    {
        match self.find(&path) {
            Ok(index) => {
                match kept {
                    Some(doc) => self.set(index, doc),
                    None => self.remove(index),
                }
                Ok(())
            }
            Err(index) => match kept {
                Some(doc) => self.insert(index, path, doc),
                None => Ok(()),
            },
        }
    }

    /// Keeps this in the row at `index`.
    fn set(&mut self, index: usize, doc: Doc)
        requires within { index < length self.old }
        requires present { IsSome (present_of doc) }
        requires fits { (r : Row) → slice_get self.old index ≡ Some r → total_bytes (project_of self.old) + size_of (present_of doc) ≤ MOST_BYTES + size_of (present_of r.1) }
        ensures { self.new ≡ set_value self.old index doc }
    {
        let row = self.map.value_mut(index);
        self.total = self.total - row.size() + doc.size();
        *row = doc;
    }

    /// Adds a row before that at `index`.
    fn insert(&mut self, index: usize, path: Name, doc: Doc) -> Result<(), NoMemory>
        requires place { IsPlaceOf path self.old index }
        requires room { length self.old < MOST_FILES }
        requires present { IsSome (present_of doc) }
        requires fits { total_bytes (project_of self.old) + size_of (present_of doc) ≤ MOST_BYTES }
        ensures ok { OnOk result (self.new ≡ insert self.old index (path, doc)) }
        ensures err { OnErr result (self.new ≡ self.old) }
    {
        let size = doc.size();
        self.map.insert(index, path, doc)?;
        self.total += size;
        Ok(())
    }

    /// Takes the row at `index` out.
    fn remove(&mut self, index: usize)
        requires { index < length self.old }
        ensures { self.new ≡ remove self.old index }
    {
        self.total -= self.doc(index).size();
        self.map.remove(index);
    }
}

/// A copy of the map.
fn copied_map(alloc: Global, map: &PathMap<Doc>) -> Result<PathMap<Doc>, NoMemory>
    ensures { IfOk result (λ copy. copy.entries ≡ map.now.entries) }
{
    let mut copy = PathMap::with_capacity(alloc, map.len())?;
    'rows: for row in map.entries() {
        let count = copy.len();
        copy.insert(count, row.path().copied()?, row.value().copied()?)?;
    }
    Ok(copy)
}

/// The bytes, which copies share.
pub fn held_bytes(alloc: Global, bytes: &[u8]) -> Result<Boxed<Items<u8>>, NoMemory>
    ensures { IfOk result (λ held. held ≡ bytes.now) }
{
    Boxed::new(alloc, Items::from_slice(alloc, bytes)?)
}
