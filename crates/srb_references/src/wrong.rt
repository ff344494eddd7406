//! The errors of what a program mentions, in one walk.

ghost use Rattle.std.specs.Prelude.{◌≡◌, [], ◌++◌, List, IfOk, OnOk};
ghost use Rattle.std.specs.List.{flat_map};
ghost use Rattle.rb_tree.specs.declared.syntax.Node.{out-Node};
ghost use Rattle.srb_references.specs.MalformedTypes as types;
ghost use Rattle.srb_references.specs.References as spec;
ghost use Rattle.srb_references.specs.Visits.{seen_visit};
ghost use Rattle.srb_rules.specs.Standing.{Stands};
ghost use Rattle.srb_sig.specs.Views.{view_at, view_of};
ghost use Rattle.srb_terms.specs.declared.fact.Fact.{Fact};

use crate::own::with_own;
use crate::reading::Reading;
use crate::reference::Reference;
use crate::visit::{Visit, Worklist};
use crate::walk::{is_type_part, with_parts};
use crate::{errors, malformed};
use rb_tree::syntax::Tree;
use srb_terms::{Diag, Items, Names, NoMemory, World};
use std::alloc::Global;

/// For how many parts there is room from the start: most files take less.
const ROOM: usize = 128;

/// What is wrong with what a program mentions.
#[derive(Drop)]
struct Wrong {
    /// The errors of references that stand for nothing.
    references: Items<Diag>,
    /// The errors of malformed type expressions.
    types: Items<Diag>,
}

/// Adds an error for each reference of a part itself that isn't found. The list of these references is empty before and after it.
fn check_references<'a>(
    alloc: Global,
    world: &World,
    visit: &Visit<'a>,
    own: &mut Items<Reference>,
    found: &mut Items<Diag>,
) -> Result<(), NoMemory>
    requires { own.old ≡ [] }
    ensures errors { OnOk result (found.new ≡ found.old ++ spec.own_errors (spec.found_at world.now) (seen_visit visit.now)) }
    ensures empty { OnOk result (own.new ≡ []) }
{
    with_own(alloc, visit, own)?;
    errors::check_each(alloc, world, own.as_slice(), found)?;
    own.truncate(0);
    Ok(())
}

/// Adds an error where a part is a malformed type expression.
fn check_type<'a>(
    alloc: Global,
    world: &World,
    visit: &Visit<'a>,
    found: &mut Items<Diag>,
) -> Result<(), NoMemory>
    ensures { OnOk result (found.new ≡ found.old ++ types.own_errors (view_at world.now) (seen_visit visit.now)) }
{
    if is_type_part(visit.reading) {
        malformed::check(alloc, world, visit, found)
    } else {
        Ok(())
    }
}

/// What is wrong with what a program mentions, by what the table holds.
fn wrong_of<'a>(alloc: Global, world: &World, tree: &'a Tree) -> Result<Wrong, NoMemory>
    ensures references { IfOk result (λ m. m.references ≡ flat_map (spec.own_errors (spec.found_at world.now)) (spec.visits tree.now)) }
    ensures types { IfOk result (λ m. m.types ≡ flat_map (types.own_errors (view_at world.now)) (spec.visits tree.now)) }
{
    let mut references = Items::new(alloc);
    let mut types = Items::new(alloc);
    let mut own = Items::new(alloc);
    let mut list = Worklist::with_room(alloc, ROOM)?;
    list.push(Reading::Plain, &Names::new(), tree)?;
    'list: while let Some(visit) = list.pop() {
        check_references(alloc, world, &visit, &mut own, &mut references)?;
        check_type(alloc, world, &visit, &mut types)?;
        with_parts(alloc, &visit, &mut list)?;
    }
    Ok(Wrong { references, types })
}

/// Adds what is wrong with what a program mentions, by what the table holds.
fn add_wrong(
    alloc: Global,
    world: &World,
    tree: &Tree,
    found: &mut Items<Diag>,
) -> Result<(), NoMemory>
    ensures { OnOk result (found.new ≡ found.old ++ (flat_map (spec.own_errors (spec.found_at world.now)) (spec.visits tree.now) ++ flat_map (types.own_errors (view_at world.now)) (spec.visits tree.now))) }
{
    let wrong = wrong_of(alloc, world, tree)?;
    found.append(wrong.references)?;
    found.append(wrong.types)
}

/// Adds the errors of a program's references that stand for nothing, as `unresolved` tells them, and those of its malformed type
/// expressions, as `malformed_types` tells them. Where the table stands for some facts, these are the errors that the rules give by these
/// facts. Nothing that the program mentions is kept.
pub fn mention_errors(
    alloc: Global,
    world: &World,
    tree: &Tree,
    found: &mut Items<Diag>,
) -> Result<(), NoMemory>
    ensures { (fs : List Fact) → Stands world.now fs → OnOk result (found.new ≡ found.old ++ (spec.reference_errors fs (spec.references_of tree.now) ++ types.malformed_errors (view_of fs) (types.types_of tree.now))) }
{
    add_wrong(alloc, world, tree, found)
}
