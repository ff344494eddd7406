//! The types of a signature.

ghost use Rattle.std.specs.Prelude.{◌≡◌, map, IfOk};
ghost use Rattle.std.specs.Option.{option_copied};
ghost use Rattle.srb_sig.specs.Chains as chains;
ghost use Rattle.srb_sig.specs.Named.{entries_of};
ghost use Rattle.srb_sig.specs.Signatures as spec;
ghost use Rattle.srb_sig.specs.Views.{view_at};

use crate::chain::Said;
use crate::expressions::read;
use crate::fitting::params_of;
use crate::forms::parts;
use crate::named::Named;
use crate::reading::{Notes, Read, none_yet};
use srb_terms::{Items, Name, Names, NoMemory, Outline, Param, ParamShape, Ty, Words, World};
use std::alloc::Global;

/// The types that were read.
#[derive(Drop)]
pub struct Typed {
    /// Those of parameters, by their names.
    pub named: Named,
    /// That of the result.
    pub result: Ty,
    /// The parts up to the last one.
    pub notes: Notes,
}

/// No type yet.
fn no_types(alloc: Global) -> Typed
    ensures { spec.seen_types result ≡ spec.no_types }
{
    Typed {
        named: Named::Empty,
        result: Ty::Untyped,
        notes: none_yet(alloc),
    }
}

/// An expression, which is untyped as a whole where a part is wrong.
fn whole(
    alloc: Global,
    w: &World,
    scope: &Names,
    t: &Outline,
    notes: Notes,
) -> Result<Read, NoMemory>
    ensures { IfOk result (λ r. r ≡ spec.whole (view_at w.now) scope.now t.now notes) }
{
    let wrong = notes.wrong.len();
    let Read { ty, notes } = read(t, alloc, w, scope, notes)?;
    if notes.wrong.len() == wrong {
        Ok(Read { ty, notes })
    } else {
        Ok(Read {
            ty: Ty::Untyped,
            notes,
        })
    }
}

/// With the type of a keyword argument.
fn with_type(alloc: Global, name: &Words, read: Read, types: Typed) -> Result<Typed, NoMemory>
    ensures { IfOk result (λ t. spec.seen_types t ≡ spec.with_type name.now read (spec.seen_types types)) }
{
    let Read { ty, notes } = read;
    let Typed { named, result, .. } = types;
    Ok(Typed {
        named: named.with(alloc, Name::from_words(name)?, ty)?,
        result,
        notes,
    })
}

/// With the value of a keyword argument.
fn with_value(
    alloc: Global,
    w: &World,
    scope: &Names,
    name: &Words,
    value: &Outline,
    types: Typed,
) -> Result<Typed, NoMemory>
    ensures { IfOk result (λ t. spec.seen_types t ≡ spec.with_value (view_at w.now) scope.now name.now value.now (spec.seen_types types)) }
{
    let Typed {
        named,
        result,
        notes,
    } = types;
    let read = whole(alloc, w, scope, value, notes)?;
    let types = Typed {
        named,
        result,
        notes: none_yet(alloc),
    };
    with_type(alloc, name, read, types)
}

/// With the values of a keyword argument: it has one.
fn with_values(
    alloc: Global,
    w: &World,
    scope: &Names,
    name: &Words,
    values: &[Outline],
    types: Typed,
) -> Result<Typed, NoMemory>
    ensures { IfOk result (λ t. spec.seen_types t ≡ spec.with_values (view_at w.now) scope.now name.now values.now (spec.seen_types types)) }
{
    let mut so_far = types;
    'values: for value in values {
        so_far = with_value(alloc, w, scope, name, value, so_far)?;
    }
    Ok(so_far)
}

/// With the types of keyword arguments.
fn with_keywords(
    alloc: Global,
    w: &World,
    scope: &Names,
    keywords: &[Outline],
    types: Typed,
) -> Result<Typed, NoMemory>
    ensures { IfOk result (λ t. spec.seen_types t ≡ spec.with_keywords (view_at w.now) scope.now keywords.now (spec.seen_types types)) }
{
    let mut so_far = types;
    'keywords: for keyword in keywords {
        so_far = with_values(
            alloc,
            w,
            scope,
            &keyword.label.words,
            parts(keyword),
            so_far,
        )?;
    }
    Ok(so_far)
}

/// With the type of the result; that of a `void` method is untyped.
fn with_result(
    alloc: Global,
    w: &World,
    scope: &Names,
    returned: Option<&Outline>,
    types: Typed,
) -> Result<Typed, NoMemory>
    ensures { IfOk result (λ t. spec.seen_types t ≡ spec.with_result (view_at w.now) scope.now (option_copied returned.entry) (spec.seen_types types)) }
{
    match returned {
        None => Ok(types),
        Some(t) => {
            let Typed { named, notes, .. } = types;
            let Read { ty, notes } = whole(alloc, w, scope, t, notes)?;
            Ok(Typed {
                named,
                result: ty,
                notes,
            })
        }
    }
}

/// The types of a well-formed signature. Its type expressions are read in the order of the text.
#[tactic(auto, unfolding(crate::specs::Signatures::types_of))]
pub fn types_of<'a>(
    alloc: Global,
    w: &World,
    scope: &Names,
    said: Said<'a>,
) -> Result<Typed, NoMemory>
    ensures { IfOk result (λ t. spec.seen_types t ≡ spec.types_of (view_at w.now) scope.now (chains.seen_said said.entry)) }
{
    if said.returns_first {
        let types = with_result(alloc, w, scope, said.returned, no_types(alloc))?;
        with_keywords(alloc, w, scope, params_of(said.params), types)
    } else {
        let types = with_keywords(alloc, w, scope, params_of(said.params), no_types(alloc))?;
        with_result(alloc, w, scope, said.returned, types)
    }
}

/// The type that a name has, untyped where it has none.
fn type_named(named: &Named, name: &Name) -> Result<Ty, NoMemory>
    ensures { IfOk result (λ t. t ≡ spec.type_named (entries_of named.now) name.now) }
{
    match named.get(name) {
        None => Ok(Ty::Untyped),
        Some(ty) => ty.copied(),
    }
}

/// A parameter with its type.
fn param_of(named: &Named, shape: &ParamShape) -> Result<Param, NoMemory>
    ensures { IfOk result (λ p. p ≡ spec.param_of (entries_of named.now) shape.now) }
{
    Ok(Param {
        name: shape.name.copied()?,
        kind: shape.kind,
        ty: type_named(named, &shape.name)?,
    })
}

/// The parameters of a method in their order, with their types.
pub fn all_typed(
    alloc: Global,
    named: &Named,
    shapes: &[ParamShape],
) -> Result<Items<Param>, NoMemory>
    ensures { IfOk result (λ ps. ps ≡ map (spec.param_of (entries_of named.now)) shapes.now) }
{
    let mut params = Vec::with_capacity(alloc, shapes.len())?;
    'shapes: for shape in shapes {
        params.push(param_of(named, shape)?)?;
    }
    Ok(Items::from_vec(params))
}
