//! Parts of a program that are still to be read.

ghost use Rattle.std.specs.Prelude.{◌≡◌, [], ◌∷◌, ◌++◌, MatchOption, IfOk, OnOk};
ghost use Rattle.srb_references.specs.Readings.{visit};
ghost use Rattle.srb_references.specs.Visits.{seen_visit};

use crate::reading::Reading;
use rb_tree::syntax::Tree;
use srb_terms::{Items, Names, NoMemory};
use std::alloc::Global;
use std::marker::Model;

/// A part that is read.
#[derive(Drop)]
pub struct Visit<'a> {
    pub reading: Reading,
    /// The full names of the enclosing class and module bodies, the innermost first.
    pub scope: Names,
    pub tree: &'a Tree,
}

/// Parts that are still to be read, which a contract sees as their list. The last one is read first.
#[derive(Drop)]
pub struct Worklist<'a> {
    visits: Items<Visit<'a>>,
}

impl<'a> Model for Worklist<'a> {
    ghost use Rattle.std.specs.Prelude.{List, map};
    ghost use Rattle.rb_tree.specs.declared.syntax.Tree.{Tree};
    ghost use Rattle.srb_references.specs.Readings.{Visit};
    ghost use Rattle.srb_references.specs.Visits.{seen_visit};

    ghost Value = { List (Visit Tree) };

    ghost use Rattle.std.specs.Coded.{codes};
    ghost use Rattle.rb_tree.specs.contracts.syntax.Node as node;

    ghost coded = { Prim.hlevel (codes, node.the_row.coded) };

    ghost view = { λ w. map seen_visit w.visits };
}

impl<'a> Worklist<'a> {
    /// The empty list, with room for as many parts.
    pub fn with_room(alloc: Global, room: usize) -> Result<Worklist<'a>, NoMemory>
        ensures { IfOk result (λ list. list ≡ []) }
    {
        let visits = Vec::with_capacity(alloc, room)?;
        Ok(Worklist {
            visits: Items::from_vec(visits),
        })
    }

    /// Adds a part at the end.
    pub fn push(&mut self, reading: Reading, scope: &Names, tree: &'a Tree) -> Result<(), NoMemory>
        ensures { OnOk result (self.new ≡ self.old ++ visit reading scope.now tree.now ∷ []) }
    {
        self.visits.push(Visit {
            reading,
            scope: scope.copied()?,
            tree,
        })
    }

    /// Takes the last part out. `None` exactly where there is none.
    pub fn pop(&mut self) -> Option<Visit<'a>>
        ensures { MatchOption result ((self.old ≡ []) × (self.new ≡ [])) (λ v. self.old ≡ self.new ++ seen_visit v ∷ []) }
    {
        self.visits.pop()
    }
}
