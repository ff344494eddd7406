//! Types by names.

ghost use Rattle.std.specs.Prelude.{◌≡◌, IfOk};
ghost use Rattle.srb_language.specs.Asked as spec;
ghost use Rattle.srb_sig.specs.Types.{class_type};

use srb_terms::{Boxed, Name, NoMemory, Ty};
use std::alloc::Global;

/// Whether a type has no part.
#[tactic(auto, unfolding(crate::specs::Asked::is_never))]
pub fn is_never(t: &Ty) -> bool
    ensures { result ≡ spec.is_never t.now }
{
    match t {
        Ty::Never => true,
        _ => false,
    }
}

/// The instances of a class or module; `Array` and `Hash` stand for those of `T.untyped`.
pub fn instance(alloc: Global, name: &Name) -> Result<Ty, NoMemory>
    ensures { IfOk result (λ t. t ≡ class_type name.now) }
{
    if name.as_str() == "Array" {
        Ok(Ty::Arr(Boxed::new(alloc, Ty::Untyped)?))
    } else if name.as_str() == "Hash" {
        Ok(Ty::Hsh(
            Boxed::new(alloc, Ty::Untyped)?,
            Boxed::new(alloc, Ty::Untyped)?,
        ))
    } else {
        Ok(Ty::Class(name.copied()?))
    }
}
