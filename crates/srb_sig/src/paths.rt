//! Paths of constants, from trees without places.

ghost use Rattle.std.specs.Prelude.{◌≡◌, map, IfOk};
ghost use Rattle.srb_sig.specs.Forms as spec;

use crate::forms::{parts, plain_arguments};
use srb_terms::{Name, Names, NoMemory, NodeKind, Outline};
use std::alloc::Global;

/// The names of some nodes.
fn names_of(alloc: Global, suffixes: &[Outline]) -> Result<Names, NoMemory>
    ensures { IfOk result (λ n. n ≡ map spec.words_of suffixes.now) }
{
    let mut names = Names::new();
    let mut left = suffixes;
    'left: while let [rest @ .., last] = left {
        names = names.pushed(alloc, Name::from_words(&last.label.words)?)?;
        left = rest;
    }
    Ok(names)
}

/// The path that begins with this constant, if it is one, and goes on so.
fn path_from(alloc: Global, operand: &Outline, rest: Names) -> Result<Names, NoMemory>
    ensures { IfOk result (λ n. n ≡ spec.path_from (spec.kind_of operand.now) (spec.words_of operand.now) rest) }
{
    match operand.label.kind {
        NodeKind::Constant => rest.pushed(alloc, Name::from_words(&operand.label.words)?),
        NodeKind::TopConstant => rest
            .pushed(alloc, Name::from_words(&operand.label.words)?)?
            .pushed(alloc, Name::from_str(alloc, "")?),
        _ => Ok(Names::new()),
    }
}

/// The path of an operand with constants after it.
fn path_of_row(alloc: Global, parts: &[Outline]) -> Result<Names, NoMemory>
    ensures { IfOk result (λ n. n ≡ spec.path_of_row parts.now) }
{
    match parts {
        [] => Ok(Names::new()),
        [operand, suffixes @ ..] => path_from(alloc, operand, names_of(alloc, suffixes)?),
    }
}

/// The names of a path of constants; none for any other tree.
pub fn path_of(alloc: Global, tree: &Outline) -> Result<Names, NoMemory>
    ensures { IfOk result (λ n. n ≡ spec.path_of tree.now) }
{
    match tree.label.kind {
        NodeKind::Post => path_of_row(alloc, parts(tree)),
        _ => path_from(alloc, tree, Names::new()),
    }
}

/// The path of the first of some arguments.
fn first_path(alloc: Global, arguments: &[Outline]) -> Result<Names, NoMemory>
    ensures { IfOk result (λ n. n ≡ spec.first_path arguments.now) }
{
    match arguments {
        [] => Ok(Names::new()),
        [first, ..] => path_of(alloc, first),
    }
}

/// The arguments of the first call after an operand.
fn first_arguments<'a>(row: &'a [Outline]) -> &'a [Outline]
    ensures { result.now ≡ spec.first_arguments row.now }
{
    match row {
        [_, call, ..] => match plain_arguments(parts(call)) {
            None => &[],
            Some(arguments) => arguments,
        },
        _ => &[],
    }
}

/// The path C of a `T.class_of(C)`.
pub fn class_path(alloc: Global, tree: &Outline) -> Result<Names, NoMemory>
    ensures { IfOk result (λ n. n ≡ spec.class_path tree.now) }
{
    first_path(alloc, first_arguments(parts(tree)))
}
