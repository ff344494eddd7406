ghost use Rattle.std.specs.Prelude.{◌≡◌, ◌<◌, ◌↔◌, [], length, insert, remove, slice_get, Some, IsTrue, IfOk, IfErr, OnOk, OnErr};
ghost use Rattle.std.specs.Borrow.{Lends, sem};
ghost use Rattle.std.specs.Option.{option_copied, option_map};
ghost use Rattle.srb_terms.specs.PathMaps.{IsEntryOf, IsOrdered, IsPlaceOf, put_value, value_at, with_value};
ghost use Rattle.srb_terms.specs.contracts.path_map.PathMap.{the_row};

use crate::{Entry, Name, NoMemory};
use std::alloc::Global;
use std::marker::Model;

/// Values by path, in byte order of the paths, each path once. A contract sees the list of the entries, and for how many
/// more there is room.
#[derive(Debug, Drop)]
pub struct PathMap<V> {
    entries: Vec<Entry<V>>,
}

impl<V> Model for PathMap<V> {
    ghost use Rattle.std.specs.Prelude.{◌-◌, vec_len, vec_capacity};
    ghost use Rattle.srb_terms.specs.PathMaps.{IsOrdered, PathList};

    ghost Value = { PathList V };

    ghost view = { λ m. record { entries = m.entries.items; room = vec_capacity m.entries - vec_len m.entries } };

    ghost invariant = { λ m. IsOrdered m.entries.items };
}

impl<V> PathMap<V> {
    /// The map without entries. It takes no memory.
    pub fn new(alloc: Global) -> PathMap<V>
        ensures { result.entries ≡ [] }
    {
        PathMap {
            entries: Vec::new(alloc),
        }
    }

    /// The number of entries.
    pub fn len(&self) -> usize
        ensures { result ≡ length self.now.entries }
    {
        self.entries.len()
    }

    /// Whether there is no entry.
    pub fn is_empty(&self) -> bool
        ensures { IsTrue result ↔ (self.now.entries ≡ []) }
    {
        self.entries.is_empty()
    }

    /// The entries in byte order of their paths.
    pub fn entries(&self) -> &[Entry<V>]
        ensures entries { result.now ≡ self.now.entries }
        ensures ordered { IsOrdered self.now.entries }
    {
        self.entries.as_slice()
    }

    /// The entries in byte order of their paths, without a copy.
    pub fn into_entries(self) -> Vec<Entry<V>>
        ensures entries { result.items ≡ self.entries }
        ensures ordered { IsOrdered self.entries }
    {
        let PathMap { entries } = self;
        entries
    }

    /// The index of the path's entry, or else the index at which it belongs, by binary search.
    pub fn find(&self, path: &str) -> Result<usize, usize>
        ensures found { IfOk result (IsEntryOf path.now self.now.entries) }
        ensures absent { IfErr result (IsPlaceOf path.now self.now.entries) }
        ensures ordered { IsOrdered self.now.entries }
    {
        self.entries
            .binary_search_by(|entry| entry.path().as_str().cmp(path))
    }

    /// The value at `path`. `None` exactly where there is none.
    pub fn get(&self, path: &str) -> Option<&V>
        ensures { option_copied result ≡ value_at path.now self.now.entries }
    {
        match self.find(path) {
            Ok(index) => Some(self.entries[index].value()),
            Err(_) => None,
        }
    }

    /// The value of the entry at `index`, to be changed in its place.
    pub fn value_mut(&mut self, index: usize) -> &mut V
        requires { index < length self.old.entries }
        ensures* writes_back { sem 𝓛 (Lends (the_row V.row) V.row self.entry result (with_value self.old index)) }
        ensures value { option_map (λ e. e.1) (slice_get self.old.entries index) ≡ Some result.now }
    {
        let entry = &mut self.entries[index];
        entry.value_mut()
    }
}

impl<V: Drop> PathMap<V> {
    /// The map without entries, with room for so many.
    pub fn with_capacity(alloc: Global, count: usize) -> Result<PathMap<V>, NoMemory>
        ensures { IfOk result (λ m. m.entries ≡ []) }
    {
        Ok(PathMap {
            entries: Vec::with_capacity(alloc, count)?,
        })
    }

    /// Makes room for one more entry.
    pub fn reserve(&mut self) -> Result<(), NoMemory>
        ensures entries { self.new.entries ≡ self.old.entries }
        ensures room { OnOk result (0 < self.new.room) }
    {
        self.entries.reserve(1)
    }

    /// Adds an entry before that at `index`, where it belongs. Without memory the map stays as it was.
    pub fn insert(&mut self, index: usize, path: Name, value: V) -> Result<(), NoMemory>
        requires { IsPlaceOf path self.old.entries index }
        ensures ok { OnOk result (self.new.entries ≡ insert self.old.entries index (path, value)) }
        ensures err { OnErr result (self.new.entries ≡ self.old.entries) }
    {
        self.entries.insert(index, Entry::new(path, value))?;
        Ok(())
    }

    /// The same where there is room.
    pub fn insert_within(&mut self, index: usize, path: Name, value: V)
        requires place { IsPlaceOf path self.old.entries index }
        requires room { 0 < self.old.room }
        ensures { self.new.entries ≡ insert self.old.entries index (path, value) }
    {
        match self.entries.insert(index, Entry::new(path, value)) {
            Ok(()) => {}
            Err(_) => unreachable!(),
        }
    }

    /// Puts `value` at `path`: in the place of the value there, or as a new entry in its place in the order. Without memory
    /// the map stays as it was.
    pub fn put(&mut self, path: Name, value: V) -> Result<(), NoMemory>
        ensures ok { OnOk result (self.new.entries ≡ put_value path value self.old.entries) }
        ensures err { OnErr result (self.new.entries ≡ self.old.entries) }
    {
        match self.find(path.as_str()) {
            Ok(index) => self.entries[index] = Entry::new(path, value),
            Err(index) => self.entries.insert(index, Entry::new(path, value))?,
        }
        Ok(())
    }

    /// Takes out the entry at `index`.
    pub fn remove(&mut self, index: usize)
        requires { index < length self.old.entries }
        ensures { self.new.entries ≡ remove self.old.entries index }
    {
        self.entries.remove(index);
    }
}
