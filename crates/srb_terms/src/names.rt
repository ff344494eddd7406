ghost use Rattle.std.specs.Prelude.{◌≡◌, ◌<◌, [], ◌∷◌, ◌↔◌, length, IsTrue, IfOk, IfSome, MatchOption};
ghost use Rattle.srb_terms.specs.NameSets.{has_name};

use crate::{Name, NoMemory};
use std::alloc::Global;
use std::marker::Model;
use std::sync::Arc;

/// A list of names, which a contract sees as the list of their bytes. Lists share their tails: a copy takes no memory, and a name in
/// front of a list takes that of one cell, however long the list is.
#[cycle(names)]
pub struct Names {
    top: Link,
}

#[cycle(names)]
enum Link {
    End,
    More(Arc<Cell>),
}

#[cycle(names)]
#[derive(Drop)]
struct Cell {
    name: Name,
    rest: Names,
}

impl Model for Names {
    ghost use Rattle.std.specs.Prelude.{List, ℕ, length};

    ghost Value = { List (List ℕ) };

    ghost use Rattle.srb_terms.specs.NameLists.{names_of};

    ghost view = { λ n. names_of n.top };

    ghost size = { length };

    ghost use Rattle.std.proofs.Common.{arith, length-append};

    ghost size_decreases = { λ a h. Prim.grind (arith, length-append) };
}

impl Names {
    /// The empty list. It takes no memory.
    pub fn new() -> Names
        ensures { result ≡ [] }
    {
        Names { top: Link::End }
    }

    /// This list with `name` in front.
    pub fn pushed(self, alloc: Global, name: Name) -> Result<Names, NoMemory>
        ensures { IfOk result (λ n. n ≡ name ∷ self) }
    {
        let cell = Arc::new(alloc, Cell { name, rest: self })?;
        Ok(Names {
            top: Link::More(cell),
        })
    }

    /// The first name and those after it. `None` exactly where the list is empty.
    pub fn split(&self) -> Option<(&Name, &Names)>
        ensures { MatchOption result (self.now ≡ []) (λ p. self.now ≡ p.0.now ∷ p.1.now) }
    {
        match &self.top {
            Link::End => None,
            Link::More(cell) => Some((&cell.name, &cell.rest)),
        }
    }

    /// Whether there is no name.
    pub fn is_empty(&self) -> bool
        ensures { IsTrue result ↔ (self.now ≡ []) }
    {
        match &self.top {
            Link::End => true,
            Link::More(_) => false,
        }
    }

    /// Whether `name` stands in the list.
    pub fn contains(&self, name: &Name) -> bool
        ensures { result ≡ has_name name.now self.now }
    {
        let mut at = self;
        while let Some((first, rest)) = at.split() {
            if first.is_same(name) {
                return true;
            }
            at = rest;
        }
        false
    }

    // The names after the first, where no other list shares them.
    fn rest_alone(self) -> Option<Names>
        ensures { IfSome result (λ rest. length rest < length self) }
    {
        let Names { top } = self;
        match top {
            Link::End => None,
            Link::More(cell) => match Arc::into_inner(cell) {
                None => None,
                Some(Cell { name, rest }) => {
                    drop(name);
                    Some(rest)
                }
            },
        }
    }

    /// A copy that shares the names. It takes no memory, and fails only at 2^63 copies.
    pub fn copied(&self) -> Result<Names, NoMemory>
        ensures { IfOk result (λ n. n ≡ self.now) }
    {
        let top = match &self.top {
            Link::End => Link::End,
            Link::More(cell) => Link::More(cell.clone()?),
        };
        Ok(Names { top })
    }
}

// A loop, so that a long list is dropped in little stack. It stops at the first cell that another list shares.
impl Drop for Names {
    fn drop(self) {
        let mut at = self;
        while let Some(rest) = at.rest_alone() {
            at = rest;
        }
    }
}
