//! The methods of instances.

ghost use Rattle.std.specs.Prelude.{◌≡◌};
ghost use Rattle.std.specs.Option.{option_copied};
ghost use Rattle.srb_terms.specs.Worlds.{kind_at};
ghost use Rattle.srb_members.specs.Members as spec;
ghost use Rattle.srb_members.specs.Views.{members_at};

use crate::known::{kind, lin, method};
use srb_terms::{Kind, Method, Names, Ty, World};

// The method that the first of some classes and modules declares.
fn along<'w>(w: &'w World, names: &Names, name: &str) -> Option<&'w Method>
    ensures { option_copied result ≡ spec.along (members_at w.now) name.now names.now }
{
    let mut at = names;
    while let Some((c, rest)) = at.split() {
        match method(w, c, false, name) {
            Some(found) => {
                return Some(found);
            }
            None => {
                at = rest;
            }
        }
    }
    None
}

/// The method along the linearization of a class or module.
pub(crate) fn in_lin<'w>(w: &'w World, name: &str, c: &str) -> Option<&'w Method>
    ensures { option_copied result ≡ spec.in_lin (members_at w.now) name.now c.now }
{
    match lin(w, c) {
        None => None,
        Some(names) => along(w, names, name),
    }
}

// The method that a module has as an instance of `Object`.
fn of_object<'w>(w: &'w World, name: &str, c: &str) -> Option<&'w Method>
    ensures { option_copied result ≡ spec.of_object (members_at w.now) name.now (kind_at w.now c.now) }
{
    match kind(w, c) {
        Some(Kind::Module) => in_lin(w, name, "Object"),
        Some(Kind::Class) => None,
        Some(Kind::Value) => None,
        None => None,
    }
}

/// The method of an instance of a class or module.
pub(crate) fn of_instance<'w>(w: &'w World, name: &str, c: &str) -> Option<&'w Method>
    ensures { option_copied result ≡ spec.of_instance (members_at w.now) name.now c.now }
{
    match in_lin(w, name, c) {
        Some(found) => Some(found),
        None => of_object(w, name, c),
    }
}

// The method of a member of an intersection.
#[tactic(auto, unfolding(crate::specs::Members::of_member))]
fn of_member<'w>(w: &'w World, name: &str, t: &Ty) -> Option<&'w Method>
    ensures { option_copied result ≡ spec.of_member (members_at w.now) name.now t.now }
{
    match t {
        Ty::Class(c) => of_instance(w, name, c.as_str()),
        _ => None,
    }
}

/// The method of the first member of an intersection that has it.
pub(crate) fn of_members<'w>(w: &'w World, name: &str, members: &[Ty]) -> Option<&'w Method>
    ensures { option_copied result ≡ spec.of_members (members_at w.now) name.now members.now }
{
    'members: for member in members {
        match of_member(w, name, member) {
            Some(found) => {
                return Some(found);
            }
            None => {}
        }
    }
    None
}
