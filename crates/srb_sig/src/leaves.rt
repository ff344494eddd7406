//! Parts in which no other type expression stands.

ghost use Rattle.std.specs.Prelude.{◌≡◌, IfOk};
ghost use Rattle.std.specs.Option.{option_copied};
ghost use Rattle.srb_sig.specs.Types as spec;
ghost use Rattle.srb_sig.specs.Views.{view_at};

use crate::forms::TypeForm;
use crate::paths::{class_path, path_of};
use crate::reading::{Leaf, Notes, Read, counted, noted};
use crate::wrong::Cause;
use srb_constants::{Position, resolve};
use srb_terms::{Boxed, Kind, Name, Names, NoMemory, Outline, Ty, World};
use srb_types::any;
use std::alloc::Global;

/// A class or module as a type.
fn class_type(alloc: Global, name: &Name) -> Result<Ty, NoMemory>
    ensures { IfOk result (λ t. t ≡ spec.class_type name.now) }
{
    if name.as_str() == "Array" {
        Ok(Ty::Arr(Boxed::new(alloc, Ty::Untyped)?))
    } else if name.as_str() == "Hash" {
        Ok(Ty::Hsh(
            Boxed::new(alloc, Ty::Untyped)?,
            Boxed::new(alloc, Ty::Untyped)?,
        ))
    } else {
        Ok(Ty::Class(name.copied()?))
    }
}

/// The type of a class or module, or that of its class object.
fn body_type(alloc: Global, object: bool, name: &Name) -> Result<Ty, NoMemory>
    ensures { IfOk result (λ t. t ≡ spec.body_type object name.now) }
{
    if object {
        Ok(Ty::Meta(name.copied()?))
    } else {
        class_type(alloc, name)
    }
}

/// A constant that names a class or module; a value constant is no type.
fn body_leaf(alloc: Global, object: bool, name: &Name, kind: Option<Kind>) -> Result<Leaf, NoMemory>
    ensures { IfOk result (λ l. l ≡ spec.body_leaf object name.now kind) }
{
    match kind {
        Some(Kind::Class) => Ok(Leaf::Known(body_type(alloc, object, name)?)),
        Some(Kind::Module) => Ok(Leaf::Known(body_type(alloc, object, name)?)),
        Some(Kind::Value) => Ok(Leaf::Wrong(Cause::Malformed)),
        None => Ok(Leaf::Wrong(Cause::Malformed)),
    }
}

/// A path of constants that stands for this name, if for any.
fn found_leaf(
    alloc: Global,
    object: bool,
    w: &World,
    found: Option<&Name>,
) -> Result<Leaf, NoMemory>
    ensures { IfOk result (λ l. l ≡ spec.found_leaf object (view_at w.now) (option_copied found.entry)) }
{
    match found {
        None => Ok(Leaf::Wrong(Cause::Unresolved)),
        Some(name) => body_leaf(alloc, object, name, w.kind(name)),
    }
}

/// A path of constants.
fn path_leaf(
    alloc: Global,
    object: bool,
    w: &World,
    scope: &Names,
    path: &Names,
) -> Result<Leaf, NoMemory>
    ensures { IfOk result (λ l. l ≡ spec.path_leaf object (view_at w.now) scope.now path.now) }
{
    found_leaf(alloc, object, w, resolve(w, scope, path, Position::Value))
}

/// Whether a name begins with `%`.
fn is_stand_in(name: &Name) -> bool
    ensures { result ≡ spec.is_stand_in name.now }
{
    match name.as_bytes() {
        [first, ..] => *first == 37,
        [] => false,
    }
}

/// A path of constants, or a name that stands for a type in the built-in table.
fn named_leaf(alloc: Global, w: &World, scope: &Names, path: &Names) -> Result<Leaf, NoMemory>
    ensures { IfOk result (λ l. l ≡ spec.named_leaf (view_at w.now) scope.now path.now) }
{
    match path.split() {
        None => path_leaf(alloc, false, w, scope, path),
        Some((name, rest)) => {
            if rest.is_empty() && is_stand_in(name) {
                Ok(Leaf::Known(Ty::Class(name.copied()?)))
            } else {
                path_leaf(alloc, false, w, scope, path)
            }
        }
    }
}

/// `T::Boolean`.
fn boolean(alloc: Global, w: &World) -> Result<Ty, NoMemory>
    ensures { IfOk result (λ t. t ≡ spec.boolean (view_at w.now).lineage) }
{
    let negative = Ty::Class(Name::from_str(alloc, "FalseClass")?);
    let positive = Ty::Class(Name::from_str(alloc, "TrueClass")?);
    any(alloc, w, &negative, &positive)
}

/// An expression in which no part stands.
fn simple_leaf(
    alloc: Global,
    w: &World,
    scope: &Names,
    form: TypeForm,
    t: &Outline,
) -> Result<Leaf, NoMemory>
    ensures { IfOk result (λ l. l ≡ spec.simple_leaf (view_at w.now) scope.now form t.now) }
{
    match form {
        TypeForm::Path => named_leaf(alloc, w, scope, &path_of(alloc, t)?),
        TypeForm::Untyped => Ok(Leaf::Known(Ty::Untyped)),
        TypeForm::Never => Ok(Leaf::Known(Ty::Never)),
        TypeForm::Boolean => Ok(Leaf::Known(boolean(alloc, w)?)),
        _ => Ok(Leaf::Wrong(Cause::Malformed)),
    }
}

/// A `T.class_of(C)`: the expression, and then C.
fn class_reading(
    alloc: Global,
    w: &World,
    scope: &Names,
    t: &Outline,
    notes: Notes,
) -> Result<Read, NoMemory>
    ensures { IfOk result (λ r. r ≡ spec.class_reading (view_at w.now) scope.now t.now notes) }
{
    let path = class_path(alloc, t)?;
    noted(path_leaf(alloc, true, w, scope, &path)?, counted(notes)?)
}

/// An expression in which no type expression stands.
pub fn simple_reading(
    alloc: Global,
    w: &World,
    scope: &Names,
    form: TypeForm,
    t: &Outline,
    notes: Notes,
) -> Result<Read, NoMemory>
    ensures { IfOk result (λ r. r ≡ spec.simple_reading (view_at w.now) scope.now form t.now notes) }
{
    match form {
        TypeForm::ClassOf => class_reading(alloc, w, scope, t, notes),
        _ => noted(simple_leaf(alloc, w, scope, form, t)?, notes),
    }
}
