//! What the symbol table tells of a name.

ghost use Rattle.std.specs.Prelude.{◌≡◌, bytes_eq, not};
ghost use Rattle.std.specs.Option.{option_copied};
ghost use Rattle.srb_rules.specs.FullNames.{ARRAY, BASIC_OBJECT, HASH};
ghost use Rattle.srb_rules.specs.Kinds as kinds;
ghost use Rattle.srb_rules.specs.Parents as parents;
ghost use Rattle.srb_terms.specs.Worlds.{kind_at};
ghost use Rattle.srb_conflicts.specs.Tables as spec;

use srb_terms::{Kind, Name, Names, World};

/// Whether it is the kind of a class.
pub fn is_class(kind: Option<Kind>) -> bool
    ensures { result ≡ kinds.is_class kind }
{
    match kind {
        Some(Kind::Class) => true,
        _ => false,
    }
}

/// Whether it is the kind of a module.
pub fn is_module(kind: Option<Kind>) -> bool
    ensures { result ≡ kinds.is_module kind }
{
    match kind {
        Some(Kind::Module) => true,
        _ => false,
    }
}

/// Whether a class may have the superclass of this name and kind.
pub fn is_inheritable(kind: Option<Kind>, name: &Name) -> bool
    ensures { result ≡ parents.is_inheritable kind name.now }
{
    is_class(kind) && name.as_str() != "Array" && name.as_str() != "Hash"
}

/// The first class among some names.
fn first_class<'w>(world: &World, names: &'w Names) -> Option<&'w Name>
    ensures { option_copied result ≡ spec.first_class (kind_at world.now) names.now }
{
    let mut at = names;
    'names: while let Some((name, rest)) = at.split() {
        if is_class(world.kind(name)) {
            return Some(name);
        }
        at = rest;
    }
    None
}

/// The class to which a class refers in a circle.
fn circular_class<'w>(world: &'w World, class: &Name) -> Option<&'w Name>
    ensures { option_copied result ≡ spec.circular_class world.now class.now }
{
    match world.circles.get(class) {
        None => None,
        Some(names) => first_class(world, names),
    }
}

/// The superclass that a class has, or for `BasicObject`, which has none, the one that is written for it and would decide.
pub fn superclass_known<'w>(world: &'w World, class: &Name) -> Option<&'w Name>
    ensures { option_copied result ≡ spec.superclass_known_at world.now class.now }
{
    if class.as_str() == "BasicObject" {
        circular_class(world, class)
    } else {
        world.superclass(class)
    }
}
