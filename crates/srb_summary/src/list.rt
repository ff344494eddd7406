ghost use Rattle.std.specs.Prelude.{◌≡◌, [], IfOk};

use srb_terms::{Boxed, Fact, Items, NoMemory};
use std::alloc::Global;
use std::marker::Model;

/// The facts of a file, which a contract sees as their list. Copies share them.
#[derive(Drop)]
pub struct Summary {
    held: Boxed<Items<Fact>>,
}

impl Model for Summary {
    ghost use Rattle.std.specs.Prelude.{List};
    ghost use Rattle.srb_terms.specs.declared.fact.Fact.{Fact as FactValue};
    ghost use Rattle.srb_terms.specs.contracts.fact.Fact as fact;
    ghost use Rattle.std.specs.Coded.{codes};

    ghost Value = { List FactValue };

    ghost coded = { Prim.hlevel (codes, fact.the_row.coded) };

    ghost view = { λ s. s.held };
}

impl Summary {
    /// The summary of these facts, without a copy of them.
    pub fn of(alloc: Global, facts: Items<Fact>) -> Result<Summary, NoMemory>
        ensures { IfOk result (λ s. s ≡ facts) }
    {
        Ok(Summary {
            held: Boxed::new(alloc, facts)?,
        })
    }

    /// The summary of a file that declares nothing.
    pub fn empty(alloc: Global) -> Result<Summary, NoMemory>
        ensures { IfOk result (λ s. s ≡ []) }
    {
        Summary::of(alloc, Items::new(alloc))
    }

    /// The facts in order.
    pub fn facts(&self) -> &[Fact]
        ensures { result.now ≡ self.now }
    {
        self.held.get().as_slice()
    }

    /// A copy that shares the facts. It takes no memory, and fails only at 2^63 copies.
    pub fn copied(&self) -> Result<Summary, NoMemory>
        ensures { IfOk result (λ s. s ≡ self.now) }
    {
        Ok(Summary {
            held: self.held.copied()?,
        })
    }
}
