//! Types that the rules name, and parts of types.

ghost use Rattle.std.specs.Prelude.{◌≡◌, IfOk};
ghost use Rattle.srb_judgement.specs.Types as spec;

use crate::built_in::BuiltIn;
use crate::language::Language;
use srb_terms::{NoMemory, Ty};
use std::alloc::Global;

/// The instances of `NilClass`.
pub fn nil_type<L: Language>(language: &L) -> Result<Ty, NoMemory>
    ensures { IfOk result (λ r. r ≡ spec.nil_type (L.the language.now)) }
{
    language.built_in(BuiltIn::NilClass).copied()
}

/// `T::Boolean`.
pub fn boolean_type<L: Language>(language: &L) -> Result<Ty, NoMemory>
    ensures { IfOk result (λ r. r ≡ spec.boolean_type (L.the language.now)) }
{
    language.boolean().copied()
}

/// The type without `NilClass` and `FalseClass`.
pub fn truthy<L: Language>(alloc: Global, language: &L, t: &Ty) -> Result<Ty, NoMemory>
    ensures { IfOk result (λ r. r ≡ spec.truthy (L.the language.now) t.now) }
{
    let some = language.without(alloc, t, language.built_in(BuiltIn::NilClass))?;
    language.without(alloc, &some, language.built_in(BuiltIn::FalseClass))
}

/// What the type has of `NilClass` and `FalseClass`.
pub fn falsy<L: Language>(alloc: Global, language: &L, t: &Ty) -> Result<Ty, NoMemory>
    ensures { IfOk result (λ r. r ≡ spec.falsy (L.the language.now) t.now) }
{
    language.meet(alloc, t, language.nil_or_false())
}

/// Whether the type has `NilClass`.
pub fn has_nil<L: Language>(language: &L, t: &Ty) -> bool
    ensures { result ≡ spec.has_nil (L.the language.now) t.now }
{
    language.is_sub(language.built_in(BuiltIn::NilClass), t)
}

/// The `T.any` of a type and those of a list.
pub fn any_after<L: Language>(
    alloc: Global,
    language: &L,
    so_far: Ty,
    types: &[Ty],
) -> Result<Ty, NoMemory>
    ensures { IfOk result (λ r. r ≡ spec.any_after (L.the language.now) so_far types.now) }
{
    let mut all = so_far;
    'types: for ty in types {
        all = language.any(alloc, &all, ty)?;
    }
    Ok(all)
}

/// The `T.any` of a list of types, `T.noreturn` where it is empty.
pub fn any_of<L: Language>(alloc: Global, language: &L, types: &[Ty]) -> Result<Ty, NoMemory>
    ensures { IfOk result (λ r. r ≡ spec.any_of (L.the language.now) types.now) }
{
    any_after(alloc, language, language.never(), types)
}

/// The type where the test holds, and else `T.noreturn`.
pub fn type_if<L: Language>(language: &L, holds: bool, t: Ty) -> Ty
    ensures { result ≡ spec.type_if (L.the language.now) holds t }
{
    if holds { t } else { language.never() }
}

/// The `T.any` of two types, where a place that isn't reached adds none.
pub fn any_if<L: Language>(
    alloc: Global,
    language: &L,
    so_far: &Ty,
    holds: bool,
    t: Ty,
) -> Result<Ty, NoMemory>
    ensures { IfOk result (λ r. r ≡ (L.the language.now).any so_far.now (spec.type_if (L.the language.now) holds t)) }
{
    language.any(alloc, so_far, &type_if(language, holds, t))
}
