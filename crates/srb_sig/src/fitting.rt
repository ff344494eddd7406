//! Whether what a signature says fits a method's parameters.

ghost use Rattle.std.specs.Prelude.{◌≡◌, [], option_map, IfOk, OnOk};
ghost use Rattle.srb_sig.specs.Chains as spec;

use crate::chain::{Said, is_missing, said_by};
use indexmap::IndexSet;
use srb_terms::{Name, NoMemory, Outline, ParamShape};
use std::alloc::Global;

/// Whether the name is one of these.
fn is_among(names: &IndexSet<Name>, name: &Name) -> bool
    ensures { result ≡ spec.is_among names.now.keys name.now }
{
    names.contains(name)
}

/// Adds a name, if it is none of these.
fn note(names: &mut IndexSet<Name>, name: Name) -> Result<(), NoMemory>
    ensures { OnOk result (names.new.keys ≡ spec.noted names.old.keys name) }
{
    names.insert(name)?;
    Ok(())
}

/// The names of keyword arguments, in order. `None` exactly where one stands twice.
fn names_of(alloc: Global, arguments: &[Outline]) -> Result<Option<IndexSet<Name>>, NoMemory>
    ensures { IfOk result (λ names. option_map (λ s. s.keys) names ≡ spec.names_from [] arguments.now) }
{
    let mut names = IndexSet::new(alloc);
    'arguments: for argument in arguments {
        let name = Name::from_words(&argument.label.words)?;
        if is_among(&names, &name) {
            return Ok(None);
        }
        note(&mut names, name)?;
    }
    Ok(Some(names))
}

/// The arguments of `params`; without `params` there is none.
pub fn params_of<'a>(params: Option<&'a [Outline]>) -> &'a [Outline]
    ensures { result.now ≡ spec.params_of (option_map (λ a. a.now) params.entry) }
{
    match params {
        None => &[],
        Some(arguments) => arguments,
    }
}

/// Whether each parameter has one of these names.
fn are_named(names: &IndexSet<Name>, shapes: &[ParamShape]) -> bool
    ensures { result ≡ spec.are_named names.now.keys shapes.now }
{
    'shapes: for shape in shapes {
        if !is_among(names, &shape.name) {
            return false;
        }
    }
    true
}

/// Whether the names are those of the parameters, each once and in any order.
fn are_names_of(shapes: &[ParamShape], names: &Option<IndexSet<Name>>) -> bool
    ensures { result ≡ spec.are_names_of shapes.now (option_map (λ s. s.keys) names.now) }
{
    match names {
        None => false,
        Some(names) => names.len() == shapes.len() && are_named(names, shapes),
    }
}

/// Whether one result stands there.
fn has_result<'a>(said: Said<'a>) -> bool
    ensures { result ≡ spec.has_result (spec.seen_said said.entry) }
{
    !is_missing(said.returned) || said.is_void
}

/// Whether keyword arguments name these parameters. One argument for one parameter, the usual case, takes no memory.
fn are_parameters(
    alloc: Global,
    shapes: &[ParamShape],
    arguments: &[Outline],
) -> Result<bool, NoMemory>
    ensures { IfOk result (λ b. b ≡ spec.are_names_of shapes.now (spec.names_from [] arguments.now)) }
{
    match (arguments, shapes) {
        ([argument], [shape]) => Ok(shape.name.as_str() == argument.label.words.as_str()),
        _ => Ok(are_names_of(shapes, &names_of(alloc, arguments)?)),
    }
}

/// Whether what was said is a whole signature of a method with these parameters.
fn fits<'a>(alloc: Global, shapes: &[ParamShape], said: Said<'a>) -> Result<bool, NoMemory>
    ensures { IfOk result (λ b. b ≡ spec.fits shapes.now (spec.seen_said said.entry)) }
{
    let are_parameters = are_parameters(alloc, shapes, params_of(said.params))?;
    Ok(has_result(said) && are_parameters)
}

/// The well-formed signature of a method with these parameters that a `sig` statement is. `None` exactly where it is malformed.
pub fn well_formed<'a>(
    alloc: Global,
    shapes: &[ParamShape],
    sig: &'a Outline,
) -> Result<Option<Said<'a>>, NoMemory>
    ensures { IfOk result (λ s. option_map spec.seen_said s ≡ spec.well_formed shapes.now sig.now) }
{
    match said_by(sig) {
        None => Ok(None),
        Some(said) => {
            if fits(alloc, shapes, said)? {
                Ok(Some(said))
            } else {
                Ok(None)
            }
        }
    }
}
