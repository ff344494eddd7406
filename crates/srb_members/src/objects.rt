//! The methods of class objects.

ghost use Rattle.std.specs.Prelude.{◌≡◌, [], None, if◌then◌else◌};
ghost use Rattle.std.specs.List.{filter};
ghost use Rattle.std.specs.Option.{option_copied, option_or, unwrap_or};
ghost use Rattle.srb_terms.specs.Worlds.{extended_at};
ghost use Rattle.srb_shapes.specs.Lineages.{is_class};
ghost use Rattle.srb_members.specs.Members as spec;
ghost use Rattle.srb_members.specs.Views.{members_at};

use crate::instances::in_lin;
use crate::known::method;
use srb_terms::{Kind, Method, Name, Names, World};

// The first of two that is there.
fn first<'w>(a: Option<&'w Method>, b: Option<&'w Method>) -> Option<&'w Method>
    ensures { option_copied result ≡ option_or (option_copied a.entry) (option_copied b.entry) }
{
    match a {
        Some(found) => Some(found),
        None => b,
    }
}

// The method along the linearizations of some modules. Those of a later module come first.
fn in_modules<'w>(w: &'w World, name: &str, modules: &Names) -> Option<&'w Method>
    ensures { option_copied result ≡ spec.in_modules (members_at w.now) name.now modules.now }
{
    let mut found = None;
    let mut at = modules;
    while let Some((m, rest)) = at.split() {
        found = first(in_lin(w, name, m.as_str()), found);
        at = rest;
    }
    found
}

// The method that the modules have by which a class object is extended.
fn in_extended<'w>(w: &'w World, name: &str, c: &Name) -> Option<&'w Method>
    ensures { option_copied result ≡ spec.in_modules (members_at w.now) name.now (unwrap_or (extended_at w.now c.now) []) }
{
    match w.extended(c) {
        None => None,
        Some(modules) => in_modules(w, name, modules),
    }
}

// The method that the class object of one class or module has of its own.
fn of_own<'w>(w: &'w World, name: &str, c: &Name) -> Option<&'w Method>
    ensures { option_copied result ≡ spec.of_own (members_at w.now) name.now c.now }
{
    match method(w, c, true, name) {
        Some(found) => Some(found),
        None => in_extended(w, name, c),
    }
}

fn is_class(kind: Option<Kind>) -> bool
    ensures { result ≡ is_class kind }
{
    match kind {
        Some(Kind::Class) => true,
        Some(Kind::Module) => false,
        Some(Kind::Value) => false,
        None => false,
    }
}

// The method that the class object of another class has of its own.
fn of_other<'w>(w: &'w World, name: &str, c: &Name, d: &Name) -> Option<&'w Method>
    ensures { option_copied result ≡ (if spec.is_other_class (members_at w.now) c.now d.now then spec.of_own (members_at w.now) name.now d.now else None) }
{
    if d.as_str() != c.as_str() && is_class(w.kind(d)) {
        of_own(w, name, d)
    } else {
        None
    }
}

// The method that the class object of the first other class among some names has of its own.
fn of_others<'w>(w: &'w World, name: &str, c: &Name, names: &Names) -> Option<&'w Method>
    ensures { option_copied result ≡ spec.of_owns (members_at w.now) name.now (filter (spec.is_other_class (members_at w.now) c.now) names.now) }
{
    let mut at = names;
    while let Some((d, rest)) = at.split() {
        match of_other(w, name, c, d) {
            Some(found) => {
                return Some(found);
            }
            None => {
                at = rest;
            }
        }
    }
    None
}

// The method of class objects of the other classes that a class inherits from.
fn inherited<'w>(w: &'w World, name: &str, c: &Name) -> Option<&'w Method>
    ensures { option_copied result ≡ spec.of_owns (members_at w.now) name.now (filter (spec.is_other_class (members_at w.now) c.now) (spec.lin_of (members_at w.now) c.now)) }
{
    match w.lin(c) {
        None => None,
        Some(names) => of_others(w, name, c, names),
    }
}

// The method of `Class` or `Module`.
fn of_kind<'w>(w: &'w World, name: &str, kind: Option<Kind>) -> Option<&'w Method>
    ensures { option_copied result ≡ spec.of_kind (members_at w.now) name.now kind }
{
    match kind {
        Some(Kind::Class) => in_lin(w, name, "Class"),
        Some(Kind::Module) => in_lin(w, name, "Module"),
        Some(Kind::Value) => None,
        None => None,
    }
}

/// The method of the class object of a class or module.
pub(crate) fn of_class_object<'w>(w: &'w World, name: &str, c: &Name) -> Option<&'w Method>
    ensures { option_copied result ≡ spec.of_class_object (members_at w.now) name.now c.now }
{
    match of_own(w, name, c) {
        Some(found) => Some(found),
        None => match inherited(w, name, c) {
            Some(found) => Some(found),
            None => of_kind(w, name, w.kind(c)),
        },
    }
}

/// The `initialize` that `new` calls on the class object of a class.
pub(crate) fn initialize<'w>(w: &'w World, name: &str, c: &Name) -> Option<&'w Method>
    ensures { option_copied result ≡ spec.initialize_of (members_at w.now) name.now c.now }
{
    if name == "new" && is_class(w.kind(c)) {
        in_lin(w, "initialize", c.as_str())
    } else {
        None
    }
}
