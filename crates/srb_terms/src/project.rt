ghost use Rattle.std.specs.Prelude.{◌≡◌, ◌↔◌, ℕ, List, [], ◌∷◌, length, bytes_eq, Some, IsTrue, IfOk, OnOk, OnErr, if◌then◌else◌};
ghost use Rattle.std.specs.Option.{option_copied};
ghost use Rattle.srb_terms.specs.Projects.{IsProject, bytes_at, put_file};

use crate::{Entry, Items, Name, NoMemory, PathMap};
use std::alloc::Global;
use std::marker::Model;

/// A file of a project, which a contract sees as the pair of its path and its bytes.
pub type ProjectFile = Entry<Items<u8>>;

impl Entry<Items<u8>> {
    /// The bytes of the file.
    pub fn bytes(&self) -> &[u8]
        ensures { result.now ≡ self.now.1 }
    {
        self.value().as_slice()
    }
}

/// The files of a project in byte order of their paths, each path once. A contract sees the list of them.
#[derive(Debug, Drop)]
pub struct Project {
    files: PathMap<Items<u8>>,
}

impl Model for Project {
    ghost use Rattle.std.specs.Prelude.{List};
    ghost use Rattle.srb_terms.specs.Projects.{File};

    ghost Value = { List File };

    ghost view = { λ p. p.files.entries };
}

impl Project {
    /// The project without files. It takes no memory.
    pub fn new(alloc: Global) -> Project
        ensures { result ≡ [] }
    {
        Project {
            files: PathMap::new(alloc),
        }
    }

    /// The project of one file.
    pub fn from_file(alloc: Global, path: Name, bytes: Vec<u8>) -> Result<Project, NoMemory>
        ensures { IfOk result (λ p. p ≡ (path, bytes.items) ∷ []) }
    {
        let mut project = Project::new(alloc);
        project.put(path, bytes)?;
        Ok(project)
    }

    /// The number of files.
    pub fn len(&self) -> usize
        ensures { result ≡ length self.now }
    {
        self.files.len()
    }

    /// Whether there is no file.
    pub fn is_empty(&self) -> bool
        ensures { IsTrue result ↔ (self.now ≡ []) }
    {
        self.files.is_empty()
    }

    /// The files in byte order of their paths.
    pub fn files(&self) -> &[ProjectFile]
        ensures files { result.now ≡ self.now }
        ensures ordered { IsProject self.now }
    {
        self.files.entries()
    }

    /// The files in byte order of their paths, without a copy.
    pub fn into_files(self) -> Vec<ProjectFile>
        ensures files { result.items ≡ self }
        ensures ordered { IsProject self }
    {
        let Project { files } = self;
        files.into_entries()
    }

    /// The bytes of the file at `path`. `None` exactly where the project has no such file.
    pub fn bytes(&self, path: &str) -> Option<&[u8]>
        ensures { option_copied result ≡ bytes_at path.now self.now }
    {
        match self.files.get(path) {
            Some(bytes) => Some(bytes.as_slice()),
            None => None,
        }
    }

    /// Puts `bytes` at `path`: in the place of the file there, or as a new file in its place in the order. Without memory the
    /// project stays as it was.
    pub fn put(&mut self, path: Name, bytes: Vec<u8>) -> Result<(), NoMemory>
        ensures ok { OnOk result (self.new ≡ put_file path bytes.items self.old) }
        ensures at { OnOk result ((other : List ℕ) → bytes_at other self.new ≡ (if bytes_eq other path then Some bytes.items else bytes_at other self.old)) }
        ensures err { OnErr result (self.new ≡ self.old) }
    {
        self.files.put(path, Items::from_vec(bytes))
    }
}
