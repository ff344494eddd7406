//! The walk over a program.

ghost use Rattle.std.specs.Prelude.{◌≡◌, ◌++◌, map, IfOk, OnOk};
ghost use Rattle.srb_references.specs.MalformedTypes as types;
ghost use Rattle.srb_references.specs.Readings as readings;
ghost use Rattle.srb_references.specs.References as spec;
ghost use Rattle.srb_references.specs.Visits.{seen_visit};
ghost use Rattle.rb_tree.specs.declared.syntax.Node.{out-Node};

use crate::nodes::parts;
use crate::own::with_own;
use crate::reading::Reading;
use crate::reference::Reference;
use crate::visit::{Visit, Worklist};
use rb_tree::syntax::Tree;
use srb_terms::{Items, Names, NoMemory};
use std::alloc::Global;

/// For how many references, types and parts there is room from the start: most files have fewer of each.
const ROOM: usize = 128;

/// What a program mentions. Neither order has a meaning.
#[derive(Drop)]
pub struct Mentions<'a> {
    /// Its constant references, each once.
    pub references: Items<Reference>,
    /// The parts of its type expressions.
    pub types: Items<Visit<'a>>,
}

/// Adds the parts of a part that was taken out of the list.
pub fn with_parts<'a>(
    alloc: Global,
    visit: &Visit<'a>,
    list: &mut Worklist<'a>,
) -> Result<(), NoMemory>
    ensures { OnOk result (list.new ≡ list.old ++ readings.parts (λ x. x) visit.now.reading visit.now.scope (out-Node visit.now.tree.now.node)) }
{
    parts(alloc, list, visit.reading, &visit.scope, visit.tree.get())
}

/// Whether a part is read as one of a type expression.
pub fn is_type_part(reading: Reading) -> bool
    ensures { result ≡ types.is_type_part reading }
{
    match reading {
        Reading::TypeExpression | Reading::ClassName => true,
        Reading::Plain
        | Reading::Inner
        | Reading::Direct
        | Reading::Mixin
        | Reading::SigBody
        | Reading::Chain => false,
    }
}

/// Adds a part that is one of a type expression.
fn with_type<'a>(visit: Visit<'a>, found: &mut Items<Visit<'a>>) -> Result<(), NoMemory>
    ensures { OnOk result (map seen_visit found.new ≡ map seen_visit found.old ++ types.own_types (seen_visit visit.entry)) }
{
    if is_type_part(visit.reading) {
        found.push(visit)
    } else {
        Ok(())
    }
}

/// The constant references of a program and the parts of its type expressions, in one walk.
#[tactic(auto, unfolding(crate::specs::References::references_of, crate::specs::MalformedTypes::types_of))]
pub fn mentions_of<'a>(alloc: Global, tree: &'a Tree) -> Result<Mentions<'a>, NoMemory>
    ensures references { IfOk result (λ m. m.references ≡ spec.references_of tree.now) }
    ensures types { IfOk result (λ m. map seen_visit m.types ≡ types.types_of tree.now) }
{
    let mut references = Items::from_vec(Vec::with_capacity(alloc, ROOM)?);
    let mut types = Items::from_vec(Vec::with_capacity(alloc, ROOM)?);
    let mut list = Worklist::with_room(alloc, ROOM)?;
    list.push(Reading::Plain, &Names::new(), tree)?;
    'list: while let Some(visit) = list.pop() {
        with_own(alloc, &visit, &mut references)?;
        with_parts(alloc, &visit, &mut list)?;
        with_type(visit, &mut types)?;
    }
    Ok(Mentions { references, types })
}
