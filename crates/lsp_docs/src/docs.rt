//! The documents of a session, and what each message does to them.
ghost use Rattle.std.specs.Prelude.{◌≡◌, ◌≢◌, ◌==◌, ◌<◌, ◌≤◌, List, [], length, map, slice_get, unwrap_or, IsSome, IfSome, Some, None, Ok, Err, IfOk, IfErr, OnOk, OnErr};
ghost use Rattle.std.specs.Option.{option_copied};
ghost use Rattle.srb_terms.specs.Projects.{bytes_at};
ghost use Rattle.lsp_docs.specs.declared.doc_end.DocEnd.TheVariants.{Foreign, NoMemory};
ghost use Rattle.lsp_docs.specs.Projects.{paths_of, total_bytes};
ghost use Rattle.lsp_docs.specs.Documents.{MOST_FILES, AreDocuments, IsAccepted, IsDoneFor, IsRefused, Saves, applied, changes_now, closes, no_documents, opens, path_of, placed, uri_of, where_named, where_open};
ghost use Rattle.lsp_docs.specs.Rows.{HasRoom, planned, told_of_plan};
ghost use Rattle.lsp_docs.specs.Uris.{root_of};
ghost use Rattle.srb_text.specs.Limits.{MOST_BYTES};

use crate::rows::Rows;
use crate::{Applied, DocEnd, Plan, apply, places, texts, uris};
use lsp_msg::{Change, Msg, Placed};
use srb_terms::{Diag, Items, Name, NoMemory, Project, Words};
use srb_text::Encoding;
use std::alloc::Global;
use std::marker::Model;

/// The documents of a session: the files of the project with their present texts, which of them are open, and what was
/// saved. A contract sees the record `Documents`.
#[derive(Drop)]
pub struct Docs {
    root: Words,
    encoding: Encoding,
    rows: Rows,
}

impl Model for Docs {
    ghost use Rattle.lsp_docs.specs.Documents.{Documents};
    ghost use Rattle.lsp_docs.specs.Rows.{documents_of};

    ghost Value = { Documents };

    ghost view = { λ d. documents_of (record { root = d.root; encoding = d.encoding }) d.rows };
}

impl Docs {
    /// The documents before any message: positions count UTF-16 units. The project has at most 4,096 files, and their texts together at most
    /// 16,777,216 bytes.
    pub fn new(alloc: Global, files: Project) -> Result<Docs, NoMemory>
        requires count { length files ≤ MOST_FILES }
        requires bytes { total_bytes files ≤ MOST_BYTES }
        ensures { IfOk result (λ d. d ≡ no_documents files) }
    {
        Ok(Docs {
            root: uris::root_of(alloc, None)?,
            encoding: Encoding::Utf16,
            rows: Rows::new(alloc, files)?,
        })
    }

    /// A copy, which shares the texts. It takes memory for the list of the files alone.
    pub fn copied(&self, alloc: Global) -> Result<Docs, NoMemory>
        ensures { IfOk result (λ docs. docs ≡ self.now) }
    {
        Ok(Docs {
            root: self.root.copied()?,
            encoding: self.encoding,
            rows: self.rows.copied(alloc)?,
        })
    }

    /// Settles the root. After an error the documents are as they were.
    pub fn set_root(&mut self, alloc: Global, root: Option<&Words>) -> Result<(), NoMemory>
        ensures ok { OnOk result (self.new ≡ record self.old { agreed = record self.old.agreed { root = root_of (option_copied root.entry) } }) }
        ensures err { OnErr result (self.new ≡ self.old) }
    {
        self.root = uris::root_of(alloc, root)?;
        Ok(())
    }

    /// Settles the units of positions.
    pub fn set_encoding(&mut self, encoding: Encoding)
        ensures { self.new ≡ record self.old { agreed = record self.old.agreed { encoding = encoding } } }
    {
        self.encoding = encoding;
    }

    /// What a message about a document is to do, or why it is refused: the first refusal that fits.
    pub fn plan(&self, alloc: Global, m: &Msg) -> Result<Plan, DocEnd>
        requires { IsSome (applied self.now m.now) }
        ensures accepted { IfOk result (λ plan. IsAccepted self.now m.now (planned plan self.now) (told_of_plan plan)) }
        ensures room { IfOk result (λ plan. HasRoom plan.path plan.kept self.now.project) }
        ensures refused { IfErr result (IsRefused self.now m.now) }
    {
        match m {
            Msg::Opened { uri, text } => self.open(alloc, uri, text),
            Msg::Changed { uri, changes } => self.change(alloc, uri, changes.as_slice()),
            Msg::Saved { uri } => self.save(alloc, uri),
            Msg::Closed { uri } => self.close(alloc, uri),
            _ => unreachable!(),
        }
    }

    /// Does what was planned. It takes memory only where the project has no file at the path, and without memory the documents are as they were.
    pub fn enact(&mut self, plan: Plan) -> Result<(), NoMemory>
        requires { HasRoom plan.path plan.kept self.old.project }
        ensures done { OnOk result (self.new ≡ planned plan self.old) }
        ensures err { OnErr result (self.new ≡ self.old) }
        ensures known { IsSome (bytes_at plan.path self.old.project) → IfErr result (λ e. ⊥) }
    {
        let Plan {
            path,
            kept,
            edit: _,
        } = plan;
        self.rows.put(path, kept)
    }

    /// Does what a message about a document does, or says why it is refused: the first refusal that fits. After an
    /// error the documents are as they were.
    pub fn apply(&mut self, alloc: Global, m: &Msg) -> Result<Applied, DocEnd>
        requires { IsSome (applied self.old m.now) }
        ensures accepted { IfOk result (IsAccepted self.old m.now self.new) }
        ensures refused { IfErr result (IsRefused self.old m.now) }
        ensures unchanged { OnErr result (self.new ≡ self.old) }
    {
        let plan = self.plan(alloc, m)?;
        let applied = Applied {
            path: plan.path.copied()?,
            edit: plan.edit,
        };
        self.enact(plan)?;
        Ok(applied)
    }

    /// The present bytes of the file at `path`. `None` exactly where the project has no such file.
    pub fn bytes(&self, path: &Name) -> Option<&[u8]>
        ensures bytes { option_copied result ≡ bytes_at path.now self.now.project }
        ensures small { IfSome result (λ bytes. length bytes.now ≤ MOST_BYTES) }
    {
        match self.rows.find(path) {
            Ok(index) => self.rows.doc(index).present(),
            Err(_) => None,
        }
    }

    /// The URI of a path.
    pub fn uri(&self, alloc: Global, path: &Name) -> Result<Words, NoMemory>
        ensures { IfOk result (λ uri. uri ≡ uri_of self.now.agreed path.now) }
    {
        uris::uri_below(alloc, self.root.as_str(), path)
    }

    /// The errors of the file at `path`, their places turned into positions. Without such a file its text is empty.
    pub fn placed(
        &self,
        alloc: Global,
        path: &Name,
        errors: &[Diag],
    ) -> Result<Items<Placed>, NoMemory>
        ensures { IfOk result (λ list. list ≡ map (placed self.now.agreed.encoding (unwrap_or (bytes_at path.now self.now.project) [])) errors.now) }
    {
        if errors.is_empty() {
            return Ok(Items::new(alloc));
        }
        match self.rows.find_open(path) {
            Some((_, text)) => places::placed(alloc, &text.lines(), errors, self.encoding),
            None => {
                let text = texts::text_of(alloc, self.bytes(path).unwrap_or(&[]))?;
                places::placed(alloc, &text.lines(), errors, self.encoding)
            }
        }
    }

    /// The number of files of the project.
    pub fn len(&self) -> usize
        ensures len { result ≡ length self.now.project }
        ensures kept { AreDocuments self.now }
    {
        self.rows.entries().len()
    }

    /// Whether the project has no file.
    pub fn is_empty(&self) -> bool
        ensures { result ≡ (length self.now.project == 0) }
    {
        self.len() == 0
    }

    /// The path of the file at `index`, in byte order of the paths.
    pub fn path_at(&self, index: usize) -> &Name
        requires { index < length self.now.project }
        ensures { slice_get (paths_of self.now.project) index ≡ Some result.now }
    {
        self.rows.entries()[index].path()
    }

    // The path that a URI names.
    fn named(&self, alloc: Global, uri: &Words) -> Result<Name, DocEnd>
        ensures named { IfOk result (λ f. path_of self.now.agreed uri.now ≡ Some f) }
        ensures foreign { IfErr result (λ e. e ≢ NoMemory → (e ≡ Foreign) × (path_of self.now.agreed uri.now ≡ None)) }
    {
        match uris::path_below(alloc, self.root.as_str(), uri.as_str())? {
            Some(path) => Ok(path),
            None => Err(DocEnd::Foreign),
        }
    }

    // What `didOpen` is to do.
    fn open(&self, alloc: Global, uri: &Words, text: &Words) -> Result<Plan, DocEnd>
        ensures planned { IfOk result (λ plan. IsDoneFor (where_named self.now uri.now (opens self.now text.now)) self.now (planned plan self.now) (told_of_plan plan)) }
        ensures room { IfOk result (λ plan. HasRoom plan.path plan.kept self.now.project) }
        ensures refused { IfErr result (λ e. e ≢ NoMemory → where_named self.now uri.now (opens self.now text.now) ≡ Err e) }
    {
        let path = self.named(alloc, uri)?;
        let doc = apply::open(alloc, &self.rows, &path, text)?;
        Ok(Plan {
            path,
            kept: Some(doc),
            edit: true,
        })
    }

    // What `didChange` is to do.
    fn change(&self, alloc: Global, uri: &Words, changes: &[Change]) -> Result<Plan, DocEnd>
        ensures planned { IfOk result (λ plan. IsDoneFor (where_open self.now uri.now (changes_now self.now changes.now)) self.now (planned plan self.now) (told_of_plan plan)) }
        ensures room { IfOk result (λ plan. HasRoom plan.path plan.kept self.now.project) }
        ensures refused { IfErr result (λ e. e ≢ NoMemory → where_open self.now uri.now (changes_now self.now changes.now) ≡ Err e) }
    {
        let path = self.named(alloc, uri)?;
        let doc = apply::change(alloc, &self.rows, &path, changes, self.encoding)?;
        Ok(Plan {
            path,
            kept: Some(doc),
            edit: true,
        })
    }

    // What `didSave` is to do.
    fn save(&self, alloc: Global, uri: &Words) -> Result<Plan, DocEnd>
        ensures planned { IfOk result (λ plan. IsDoneFor (where_open self.now uri.now (λ f. Ok (Saves f))) self.now (planned plan self.now) (told_of_plan plan)) }
        ensures room { IfOk result (λ plan. HasRoom plan.path plan.kept self.now.project) }
        ensures refused { IfErr result (λ e. e ≢ NoMemory → where_open self.now uri.now (λ f. Ok (Saves f)) ≡ Err e) }
    {
        let path = self.named(alloc, uri)?;
        let doc = apply::save(alloc, &self.rows, &path)?;
        Ok(Plan {
            path,
            kept: Some(doc),
            edit: false,
        })
    }

    // What `didClose` is to do.
    fn close(&self, alloc: Global, uri: &Words) -> Result<Plan, DocEnd>
        ensures planned { IfOk result (λ plan. IsDoneFor (where_open self.now uri.now (closes self.now)) self.now (planned plan self.now) (told_of_plan plan)) }
        ensures room { IfOk result (λ plan. HasRoom plan.path plan.kept self.now.project) }
        ensures refused { IfErr result (λ e. e ≢ NoMemory → where_open self.now uri.now (closes self.now) ≡ Err e) }
    {
        let path = self.named(alloc, uri)?;
        let kept = apply::close(&self.rows, &path)?;
        Ok(Plan {
            path,
            kept,
            edit: true,
        })
    }
}
