//! The errors of references that stand for nothing.

ghost use Rattle.std.specs.Prelude.{◌≡◌, ◌++◌, List, IfOk, OnOk, string_bytes};
ghost use Rattle.std.specs.Option.{option_copied};
ghost use Rattle.srb_references.specs.References as spec;
ghost use Rattle.srb_rules.specs.Kinds.{is_body};
ghost use Rattle.srb_rules.specs.Standing.{Stands};
ghost use Rattle.srb_terms.specs.Worlds.{kind_at};
ghost use Rattle.srb_terms.specs.declared.fact.Fact.{Fact};

use crate::reference::Reference;
use srb_constants::resolve;
use srb_terms::{Diag, Items, Kind, Name, Names, NoMemory, Words, World};
use std::alloc::Global;

/// The names joined by `::`, after what stands so far.
fn joined_after(so_far: String, names: &Names) -> Result<String, NoMemory>
    ensures { IfOk result (λ s. string_bytes s ≡ spec.joined_after (string_bytes so_far) names.now) }
{
    let mut text = so_far;
    let mut left = names;
    'left: while let Some((name, rest)) = left.split() {
        text.push_str("::")?;
        text.push_str(name.as_str())?;
        left = rest;
    }
    Ok(text)
}

/// The names of a path joined by `::`.
fn spelled(alloc: Global, path: &Names) -> Result<String, NoMemory>
    ensures { IfOk result (λ s. string_bytes s ≡ spec.spelled path.now) }
{
    match path.split() {
        None => String::from_str(alloc, ""),
        Some((first, rest)) => joined_after(String::from_str(alloc, first.as_str())?, rest),
    }
}

/// The error of a reference that stands for nothing.
fn not_found(alloc: Global, reference: &Reference) -> Result<Diag, NoMemory>
    ensures { IfOk result (λ d. d ≡ spec.not_found reference.now) }
{
    let name = spelled(alloc, &reference.path)?;
    let mut text = String::from_str(alloc, "constant ")?;
    text.push_str(name.as_str())?;
    text.push_str(" not found")?;
    Ok(Diag {
        span: reference.span,
        number: 5002,
        text: Words::from_string(text)?,
    })
}

fn is_class_or_module(kind: Option<Kind>) -> bool
    ensures { result ≡ is_body kind }
{
    match kind {
        Some(Kind::Class) => true,
        Some(Kind::Module) => true,
        _ => false,
    }
}

/// Whether what a reference stands for is one that is wanted.
fn is_wanted(world: &World, body: bool, found: Option<&Name>) -> bool
    ensures { result ≡ spec.is_wanted (kind_at world.now) body (option_copied found.entry) }
{
    match found {
        None => false,
        Some(name) => {
            if body {
                is_class_or_module(world.kind(name))
            } else {
                true
            }
        }
    }
}

/// Whether a reference stands for something, by what the table holds.
fn is_found(world: &World, reference: &Reference) -> bool
    ensures { result ≡ spec.found_at world.now reference.now }
{
    let found = resolve(world, &reference.scope, &reference.path, reference.position);
    is_wanted(world, reference.wants_body, found)
}

/// Adds an error where a reference isn't found.
#[tactic(auto, unfolding(crate::specs::References::error_by))]
fn check(
    alloc: Global,
    world: &World,
    reference: &Reference,
    found: &mut Items<Diag>,
) -> Result<(), NoMemory>
    ensures { OnOk result (found.new ≡ found.old ++ spec.error_by (spec.found_at world.now) reference.now) }
{
    if is_found(world, reference) {
        Ok(())
    } else {
        found.push(not_found(alloc, reference)?)
    }
}

/// Adds an error for each reference that isn't found.
pub fn check_each(
    alloc: Global,
    world: &World,
    references: &[Reference],
    found: &mut Items<Diag>,
) -> Result<(), NoMemory>
    ensures { OnOk result (found.new ≡ found.old ++ spec.errors_by (spec.found_at world.now) references.now) }
{
    'references: for reference in references {
        check(alloc, world, reference, found)?;
    }
    Ok(())
}

/// Adds an error for each reference that stands for nothing: `constant NAME not found`, with the name as it is written. The names in
/// front of the last one of a declared path must stand for a class or module.
///
/// Where the table stands for some facts, these are the errors that the rules give by these facts.
pub fn unresolved(
    alloc: Global,
    world: &World,
    references: &[Reference],
    found: &mut Items<Diag>,
) -> Result<(), NoMemory>
    ensures { (fs : List Fact) → Stands world.now fs → OnOk result (found.new ≡ found.old ++ spec.reference_errors fs references.now) }
{
    check_each(alloc, world, references, found)
}
