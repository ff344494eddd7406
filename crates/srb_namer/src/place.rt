//! Where a declaration stands.

ghost use Rattle.std.specs.Prelude.{◌≡◌};
ghost use Rattle.std.specs.Option.{option_copied};
ghost use Rattle.srb_namer.specs.Declarations as spec;

use rb_tree::syntax::Tree;
use srb_terms::Names;

/// Where a declaration stands.
#[derive(Clone, Copy)]
pub struct Place<'a> {
    /// The full names of the enclosing class and module bodies, the innermost first.
    pub scope: &'a Names,
    /// Whether instance variables are those of the class object.
    pub meta: bool,
    /// The `sig` statement directly before.
    pub sig: Option<&'a Tree>,
}

/// What stands in a declaration or an expression there: no `sig` statement is before it.
pub fn inside<'a>(place: Place<'a>) -> Place<'a>
    ensures { spec.seen_place result ≡ spec.inside (spec.seen_place place.entry) }
{
    Place {
        scope: place.scope,
        meta: place.meta,
        sig: None,
    }
}

/// What stands after this `sig` statement, if there is one.
pub fn after_sig<'a>(place: Place<'a>, sig: Option<&'a Tree>) -> Place<'a>
    ensures { spec.seen_place result ≡ spec.after_sig (spec.seen_place place.entry) (option_copied sig.entry) }
{
    Place {
        scope: place.scope,
        meta: place.meta,
        sig,
    }
}

/// What stands in a method, perhaps one of the class object.
pub fn method_place<'a>(place: Place<'a>, own: bool) -> Place<'a>
    ensures { spec.seen_place result ≡ spec.method_place (spec.seen_place place.entry) own }
{
    Place {
        scope: place.scope,
        meta: own,
        sig: None,
    }
}
