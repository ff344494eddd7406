ghost use Rattle.std.specs.Prelude.{◌≡◌};
ghost use Rattle.std.specs.Option.{option_copied};
ghost use Rattle.srb_members.specs.Members as spec;
ghost use Rattle.srb_members.specs.Views.{members_at};

use crate::instances::{of_instance, of_members};
use crate::objects::{initialize, of_class_object};
use srb_terms::{Method, Name, Ty, World};

/// What a name calls on a part of a type.
#[derive(Clone, Copy)]
pub enum Member<'w> {
    /// A method that is declared.
    Declared(&'w Method),
    /// `new` of a class object, by the `initialize` of its class: it answers an instance of the class.
    Made(&'w Method),
    /// Anything, on `T.untyped`.
    Free,
    /// Nothing.
    Missing,
}

/// What a name calls on a part of a type, where `new` counts as the `initialize` of the class.
#[derive(Clone, Copy)]
pub enum Found<'w> {
    /// This method.
    One(&'w Method),
    /// Anything, on `T.untyped`.
    Free,
    /// Nothing.
    Missing,
}

// A method that was looked for.
fn declared<'w>(found: Option<&'w Method>) -> Member<'w>
    ensures { spec.seen_member result ≡ spec.declared (option_copied found.entry) }
{
    match found {
        None => Member::Missing,
        Some(method) => Member::Declared(method),
    }
}

// The `initialize` of `new`.
fn made<'w>(found: Option<&'w Method>) -> Member<'w>
    ensures { spec.seen_member result ≡ spec.made (option_copied found.entry) }
{
    match found {
        None => Member::Missing,
        Some(method) => Member::Made(method),
    }
}

// The method of a class object, and else the `initialize` that `new` calls.
fn of_object<'w>(w: &'w World, name: &Name, c: &Name) -> Member<'w>
    ensures { spec.seen_member result ≡ spec.declared_or_made (spec.of_class_object (members_at w.now) name.now c.now) (spec.initialize_of (members_at w.now) name.now c.now) }
{
    match of_class_object(w, name.as_str(), c) {
        Some(method) => Member::Declared(method),
        None => made(initialize(w, name.as_str(), c)),
    }
}

/// What `name` calls on `part`, which is one part of a type in normal form. It takes no memory.
#[tactic(auto, unfolding(crate::specs::Members::member_of))]
pub fn look_up<'w>(w: &'w World, part: &Ty, name: &Name) -> Member<'w>
    ensures { spec.seen_member result ≡ spec.member_of (members_at w.now) name.now part.now }
{
    match part {
        Ty::Untyped => Member::Free,
        Ty::Never => Member::Missing,
        Ty::Class(c) => declared(of_instance(w, name.as_str(), c.as_str())),
        Ty::Meta(c) => of_object(w, name, c),
        Ty::Arr(_) => declared(of_instance(w, name.as_str(), "Array")),
        Ty::Hsh(_, _) => declared(of_instance(w, name.as_str(), "Hash")),
        Ty::Any(_) => Member::Missing,
        Ty::All(members) => declared(of_members(w, name.as_str(), members.get().as_slice())),
    }
}

/// The method that `name` calls on `part`, which is one part of a type in normal form: for `new` without a method of that name the
/// `initialize` of the class. `Free` comes exactly for `T.untyped`, `Missing` exactly where there is no such method. It takes no memory.
pub fn find<'w>(w: &'w World, part: &Ty, name: &Name) -> Found<'w>
    ensures { spec.seen_found result ≡ spec.found_of (spec.member_of (members_at w.now) name.now part.now) }
{
    match look_up(w, part, name) {
        Member::Declared(method) => Found::One(method),
        Member::Made(method) => Found::One(method),
        Member::Free => Found::Free,
        Member::Missing => Found::Missing,
    }
}
