//! Contexts with further visible variables. What makes them is never inlined: each level of a nested tree holds the frames of what judges it.

ghost use Rattle.std.specs.Prelude.{◌≡◌, false, map, IfOk, OnOk};
ghost use Rattle.srb_judgement.specs.Blocks.{placed_name};
ghost use Rattle.srb_judgement.specs.Kept.{seen_context};
ghost use Rattle.srb_judgement.specs.States as states;
ghost use Rattle.srb_judgement.specs.States.{seeing};
ghost use Rattle.srb_terms.specs.declared.ty.Ty.{Ty};
ghost use Rattle.srb_walk.specs.Assigned.{names_of};
ghost use Rattle.srb_walk.specs.Beside.{seen_beside};

use crate::assigned::assigned;
use rb_tree::syntax::{PlacedName, Tree};
use srb_judgement::contexts::Context;
use srb_judgement::language::Language;
use srb_terms::{Items, Name, NoMemory};
use std::alloc::Global;

/// What is around an expression that stands after another one: what was around that one, where it assigns no variable, and else a context in
/// which its variables are visible too.
#[derive(Drop)]
pub struct Beside {
    inner: Option<Context>,
}

impl Beside {
    /// The same as was around.
    pub fn new() -> Beside
        ensures { (c : states.Context Ty) → seen_beside result c ≡ c }
    {
        Beside { inner: None }
    }

    /// What is around, by the context that was.
    pub fn of<'a>(&'a self, context: &'a Context) -> &'a Context
        ensures { seen_context result.now ≡ seen_beside self.now (seen_context context.now) }
    {
        match &self.inner {
            None => context,
            Some(inner) => inner,
        }
    }

    /// Makes these variables visible too.
    pub fn see_all(
        &mut self,
        alloc: Global,
        context: &Context,
        names: &[Name],
    ) -> Result<(), NoMemory>
        ensures { OnOk result (seen_beside self.new (seen_context context.now) ≡ seeing names.now (seen_beside self.old (seen_context context.now))) }
    {
        if names.is_empty() {
            return Ok(());
        }
        match &mut self.inner {
            Some(inner) => inner.see_all(alloc, names),
            None => {
                let mut inner = context.copied(alloc)?;
                inner.see_all(alloc, names)?;
                self.inner = Some(inner);
                Ok(())
            }
        }
    }

    /// Makes what a tree assigns visible too.
    #[inline(never)]
    pub fn see<L: Language>(
        &mut self,
        alloc: Global,
        language: &L,
        context: &Context,
        tree: &Tree,
    ) -> Result<(), NoMemory>
        ensures { OnOk result (seen_beside self.new (seen_context context.now) ≡ seeing (names_of (L.the language.now) false tree.now) (seen_beside self.old (seen_context context.now))) }
    {
        let mut names = Items::new(alloc);
        assigned(alloc, language, false, tree, &mut names)?;
        self.see_all(alloc, context, names.as_slice())
    }
}

/// What is around where these variables are visible too.
#[inline(never)]
pub fn with_names(alloc: Global, context: &Context, names: &[Name]) -> Result<Beside, NoMemory>
    ensures { IfOk result (λ b. seen_beside b (seen_context context.now) ≡ seeing names.now (seen_context context.now)) }
{
    let mut beside = Beside::new();
    beside.see_all(alloc, context, names)?;
    Ok(beside)
}

/// What is around after a tree.
#[inline(never)]
pub fn after<L: Language>(
    alloc: Global,
    language: &L,
    context: &Context,
    tree: &Tree,
) -> Result<Beside, NoMemory>
    ensures { IfOk result (λ b. seen_beside b (seen_context context.now) ≡ seeing (names_of (L.the language.now) false tree.now) (seen_context context.now)) }
{
    let mut beside = Beside::new();
    beside.see(alloc, language, context, tree)?;
    Ok(beside)
}

/// The names of a block's parameters.
pub fn parameter_names(alloc: Global, parameters: &[PlacedName]) -> Result<Items<Name>, NoMemory>
    ensures { IfOk result (λ names. names ≡ map placed_name parameters.now) }
{
    let mut names = Items::new(alloc);
    'parameters: for parameter in parameters {
        names.push(parameter.name.copied()?)?;
    }
    Ok(names)
}
