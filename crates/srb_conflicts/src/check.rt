//! The error of each declaration.

ghost use Rattle.std.specs.Prelude.{◌≡◌, ◌++◌, List, IfOk, OnOk};
ghost use Rattle.std.specs.Option.{option_copied};
ghost use Rattle.srb_rules.specs.Standing.{Stands};
ghost use Rattle.srb_terms.specs.declared.fact.Fact.{Fact};
ghost use Rattle.srb_conflicts.specs.Conflicts as spec;
ghost use Rattle.srb_conflicts.specs.Tables.{known_at};

use crate::errors::{
    cannot_be_inherited, has_superclass, is_already_class, is_already_module, is_circular_parent,
    is_no_module,
};
use crate::known::{is_class, is_inheritable, is_module, superclass_known};
use srb_constants::{Position, resolve};
use srb_declarations::Declaration;
use srb_terms::{Diag, How, Items, Kind, Name, NoMemory, Span, World};
use std::alloc::Global;

/// The superclass that a class has, where it is another one than `parent`.
fn other_superclass<'w>(world: &'w World, class: &Name, parent: &Name) -> Option<&'w Name>
    ensures { option_copied result ≡ spec.other_than parent.now ((known_at world.now).superclass class.now) }
{
    match superclass_known(world, class) {
        Some(known) => {
            if known.as_str() == parent.as_str() {
                None
            } else {
                Some(known)
            }
        }
        None => None,
    }
}

/// The error of a circular reference from a class or module to another.
fn circle_error(
    alloc: Global,
    world: &World,
    of: &Name,
    span: Span,
    parent: &Name,
) -> Result<Option<Diag>, NoMemory>
    ensures { IfOk result (λ e. e ≡ spec.circle_error (known_at world.now) of.now span parent.now) }
{
    if world.is_circular(of, parent) {
        Ok(Some(is_circular_parent(alloc, span, of, parent)?))
    } else {
        Ok(None)
    }
}

/// The error of a class that is declared with a superclass.
fn superclass_error(
    alloc: Global,
    world: &World,
    class: &Name,
    span: Span,
    parent: &Name,
) -> Result<Option<Diag>, NoMemory>
    ensures { IfOk result (λ e. e ≡ spec.superclass_error (known_at world.now) class.now span parent.now) }
{
    if !is_inheritable(world.kind(parent), parent) {
        return Ok(Some(cannot_be_inherited(alloc, span, parent)?));
    }
    match other_superclass(world, class, parent) {
        Some(other) => Ok(Some(has_superclass(alloc, span, class, other)?)),
        None => circle_error(alloc, world, class, span, parent),
    }
}

/// The error of a class or module that mixes in what stands at a name.
fn mixin_error(
    alloc: Global,
    world: &World,
    way: How,
    of: &Name,
    span: Span,
    mixed: &Name,
) -> Result<Option<Diag>, NoMemory>
    ensures { IfOk result (λ e. e ≡ spec.mixin_error (known_at world.now) way of.now span mixed.now) }
{
    if !is_module(world.kind(mixed)) {
        return Ok(Some(is_no_module(alloc, span)?));
    }
    match way {
        How::Include => circle_error(alloc, world, of, span, mixed),
        _ => Ok(None),
    }
}

/// The error of a class or module whose name is that of another kind.
fn body_error(
    alloc: Global,
    known: Option<Kind>,
    kind: Kind,
    span: Span,
    name: &Name,
) -> Result<Option<Diag>, NoMemory>
    ensures { IfOk result (λ e. e ≡ spec.body_error known kind span name.now) }
{
    match (kind, known) {
        (Kind::Class, Some(Kind::Module)) => Ok(Some(is_already_module(alloc, span, name)?)),
        (Kind::Module, Some(Kind::Class)) => Ok(Some(is_already_class(alloc, span, name)?)),
        _ => Ok(None),
    }
}

/// The error of a constant whose name is that of a class or module.
fn constant_error(
    alloc: Global,
    known: Option<Kind>,
    span: Span,
    name: &Name,
) -> Result<Option<Diag>, NoMemory>
    ensures { IfOk result (λ e. e ≡ spec.constant_error known span name.now) }
{
    match known {
        Some(Kind::Class) => Ok(Some(is_already_class(alloc, span, name)?)),
        Some(Kind::Module) => Ok(Some(is_already_module(alloc, span, name)?)),
        _ => Ok(None),
    }
}

/// The error of a declaration, if it has one.
fn declaration_error(
    alloc: Global,
    world: &World,
    declaration: &Declaration,
) -> Result<Option<Diag>, NoMemory>
    ensures { IfOk result (λ e. e ≡ spec.declaration_error (known_at world.now) declaration.now) }
{
    match declaration {
        Declaration::Body { name, kind, span } => {
            body_error(alloc, world.kind(name), *kind, *span, name)
        }
        Declaration::Constant { name, span } => {
            constant_error(alloc, world.kind(name), *span, name)
        }
        Declaration::Superclass {
            of,
            scope,
            path,
            span,
        } => {
            if !is_class(world.kind(of)) {
                return Ok(None);
            }
            match resolve(world, scope, path, Position::Parent) {
                Some(parent) => superclass_error(alloc, world, of, *span, parent),
                None => Ok(None),
            }
        }
        Declaration::Mixin {
            of,
            scope,
            path,
            how,
            span,
        } => match resolve(world, scope, path, Position::Parent) {
            Some(mixed) => mixin_error(alloc, world, *how, of, *span, mixed),
            None => Ok(None),
        },
        Declaration::OtherMixin { span } => Ok(Some(is_no_module(alloc, *span)?)),
    }
}

/// Adds the errors of the declarations, by what the table tells.
fn add_errors(
    alloc: Global,
    world: &World,
    declarations: &[Declaration],
    found: &mut Items<Diag>,
) -> Result<(), NoMemory>
    ensures { OnOk result (found.new ≡ found.old ++ spec.errors_by (known_at world.now) declarations.now) }
{
    'declarations: for declaration in declarations {
        match declaration_error(alloc, world, declaration)? {
            Some(error) => found.push(error)?,
            None => {}
        }
    }
    Ok(())
}

/// Adds the errors of the declarations of a file, in their order, each at most one. Where the table stands for the facts of the project,
/// they are those by the rules of the language.
pub fn conflicts(
    alloc: Global,
    world: &World,
    declarations: &[Declaration],
    found: &mut Items<Diag>,
) -> Result<(), NoMemory>
    ensures { (fs : List Fact) → Stands world.now fs → OnOk result (found.new ≡ found.old ++ spec.conflict_errors fs declarations.now) }
{
    add_errors(alloc, world, declarations, found)
}
