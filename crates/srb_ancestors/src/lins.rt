ghost use Rattle.srb_ancestors.specs.Lists.{alone_at, lin_at};
ghost use Rattle.std.specs.Option.{option_copied};
ghost use Rattle.std.specs.Prelude.{◌≡◌, ℕ, List, OnErr, OnOk};

use indexmap::IndexMap;
use srb_terms::{Name, Names, NoMemory};
use std::alloc::Global;
use std::marker::Model;

/// The linearizations of some classes and modules, which a contract sees as the list of the pairs of a name and its list.
#[derive(Drop)]
pub struct Lins {
    lists: IndexMap<Name, Names>,
}

impl Model for Lins {
    ghost use Rattle.std.specs.Prelude.{ℕ, List};

    ghost Value = { List (List ℕ × List (List ℕ)) };

    ghost view = { λ l. l.lists.entries };
}

impl Lins {
    /// The lists of a map, without a copy.
    pub fn from_map(lists: IndexMap<Name, Names>) -> Lins
        ensures { result ≡ lists.entries }
    {
        Lins { lists }
    }

    /// The map of the lists, without a copy.
    pub fn into_map(self) -> IndexMap<Name, Names>
        ensures { result.entries ≡ self }
    {
        let Lins { lists } = self;
        lists
    }

    /// The list of `c`. `None` exactly where there is none. It takes no memory.
    pub fn get(&self, c: &Name) -> Option<&Names>
        ensures { option_copied result ≡ lin_at self.now c.now }
    {
        self.lists.get(c)
    }

    /// Gives `c` the list of itself alone, where it has none yet: its linearization, if it stands in no link. Without memory nothing
    /// changes.
    pub fn add_alone(&mut self, alloc: Global, c: &Name) -> Result<(), NoMemory>
        ensures ok { OnOk result ((d : List ℕ) → lin_at self.new d ≡ alone_at c.now (lin_at self.old) d) }
        ensures err { OnErr result (self.new ≡ self.old) }
    {
        if self.lists.contains_key(c) {
            return Ok(());
        }
        let alone = Names::new().pushed(alloc, c.copied()?)?;
        self.lists.insert(c.copied()?, alone)?;
        Ok(())
    }
}
