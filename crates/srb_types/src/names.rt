//! Intersections of classes and modules, by their names.

ghost use Rattle.std.specs.Prelude.{◌≡◌, ◌≤◌, [], ◌∷◌, ◌++◌, not, length, insert, map, IfOk, OnOk, if◌then◌else◌};
ghost use Rattle.std.specs.List.{filter, list_any};
ghost use Rattle.srb_shapes.specs.Lineages.{lineage_at};
ghost use Rattle.srb_terms.specs.declared.ty.Ty.{out-Ty};
ghost use Rattle.srb_terms.specs.declared.ty.Ty.TheVariants as ty;
ghost use Rattle.srb_types.specs.Normal as spec;
ghost use Rattle.srb_types.specs.Order.{placed};

use crate::order::is_before;
use srb_terms::{Boxed, Items, Kind, Name, NoMemory, Ty, World};
use std::alloc::Global;

// Adds the name of a class or module.
fn push_name(names: &mut Items<Name>, t: &Ty) -> Result<(), NoMemory>
    ensures { OnOk result (names.new ≡ names.old ++ spec.name_before (spec.class_name_at (out-Ty t.now)) []) }
{
    match t {
        Ty::Class(name) => names.push(name.copied()?),
        _ => Ok(()),
    }
}

// The names of the classes and modules of a list.
fn class_names(alloc: Global, members: &[Ty]) -> Result<Items<Name>, NoMemory>
    ensures { IfOk result (λ names. names ≡ spec.class_names members.now) }
{
    let mut names = Items::new(alloc);
    'members: for member in members {
        push_name(&mut names, member)?;
    }
    Ok(names)
}

fn one(alloc: Global, name: &Name) -> Result<Items<Name>, NoMemory>
    ensures { IfOk result (λ names. names ≡ name.now ∷ []) }
{
    let mut names = Items::new(alloc);
    names.push(name.copied()?)?;
    Ok(names)
}

/// The names of a class, a module or an intersection of these. `None` for any other part.
#[tactic(auto, unfolding(crate::specs::Normal::names_of))]
pub(crate) fn names_of(alloc: Global, t: &Ty) -> Result<Option<Items<Name>>, NoMemory>
    ensures { IfOk result (λ names. names ≡ spec.names_of t.now) }
{
    match t {
        Ty::Class(name) => Ok(Some(one(alloc, name)?)),
        Ty::All(members) => Ok(Some(class_names(alloc, members.get().as_slice())?)),
        _ => Ok(None),
    }
}

/// Whether the second name stands in the linearization of the first one.
pub(crate) fn is_under(w: &World, c: &Name, d: &Name) -> bool
    ensures { result ≡ spec.is_under (lineage_at w.now) c.now d.now }
{
    match w.lin(c) {
        None => false,
        Some(names) => names.contains(d),
    }
}

// Whether a name stands in the linearization of one of others.
fn is_under_one(w: &World, names: &[Name], c: &Name) -> bool
    ensures { result ≡ list_any (λ d. spec.is_under (lineage_at w.now) d c.now) names.now }
{
    'names: for name in names {
        if is_under(w, name, c) {
            return true;
        }
    }
    false
}

// Adds a name where it is to be kept.
fn push_if(keep: bool, names: &mut Vec<Name>, name: &Name) -> Result<(), NoMemory>
    ensures { OnOk result (names.new.items ≡ (if keep then names.old.items ++ name.now ∷ [] else names.old.items)) }
{
    if keep {
        names.push(name.copied()?)?;
    }
    Ok(())
}

// The names that don't stand in the linearization of this one.
fn names_beside(alloc: Global, w: &World, c: &Name, names: &[Name]) -> Result<Vec<Name>, NoMemory>
    ensures { IfOk result (λ ns. ns.items ≡ filter (λ d. not (spec.is_under (lineage_at w.now) c.now d)) names.now) }
{
    let mut rest = Vec::new(alloc);
    'names: for name in names {
        push_if(!is_under(w, c, name), &mut rest, name)?;
    }
    Ok(rest)
}

// The index at which a name belongs: that after the last name that doesn't come after it.
fn place(names: &[Name], c: &str) -> usize
    ensures within { result ≤ length names.now }
    ensures place { placed (λ u. u) c.now names.now ≡ insert names.now result c.now }
{
    let mut at = names.len();
    'names: while at > 0 {
        if !is_before(c, names[at - 1].as_str()) {
            return at;
        }
        at -= 1;
    }
    0
}

// Puts a name at its place.
fn put(names: &mut Vec<Name>, c: Name) -> Result<(), NoMemory>
    ensures { OnOk result (names.new.items ≡ placed (λ u. u) c names.old.items) }
{
    let at = place(names.as_slice(), c.as_str());
    names.insert(at, c)?;
    Ok(())
}

// Names with one more, at its place.
#[tactic(auto, unfolding(crate::specs::Normal::with_name))]
fn with_name(alloc: Global, w: &World, names: Vec<Name>, c: &Name) -> Result<Vec<Name>, NoMemory>
    ensures { IfOk result (λ ns. ns.items ≡ spec.with_name (lineage_at w.now) names.items c.now) }
{
    if is_under_one(w, names.as_slice(), c) {
        return Ok(names);
    }
    let mut rest = names_beside(alloc, w, c, names.as_slice())?;
    put(&mut rest, c.copied()?)?;
    Ok(rest)
}

// Names with others.
fn with_names(
    alloc: Global,
    w: &World,
    names: Vec<Name>,
    more: &[Name],
) -> Result<Vec<Name>, NoMemory>
    ensures { IfOk result (λ ns. ns.items ≡ spec.with_names (lineage_at w.now) names.items more.now) }
{
    let mut all = names;
    'more: for name in more {
        all = with_name(alloc, w, all, name)?;
    }
    Ok(all)
}

fn is_class(w: &World, c: &Name) -> bool
    ensures { result ≡ spec.is_class (lineage_at w.now) c.now }
{
    match w.kind(c) {
        Some(Kind::Class) => true,
        _ => false,
    }
}

// Whether a class stands among the names.
fn has_class(w: &World, names: &[Name]) -> bool
    ensures { result ≡ list_any (spec.is_class (lineage_at w.now)) names.now }
{
    'names: for name in names {
        if is_class(w, name) {
            return true;
        }
    }
    false
}

// Whether two classes stand among the names.
fn has_two_classes(w: &World, names: &[Name]) -> bool
    ensures { result ≡ spec.has_two_classes (lineage_at w.now) names.now }
{
    let mut left = names;
    'left: while let [first, rest @ ..] = left {
        if is_class(w, first) && has_class(w, rest) {
            return true;
        }
        left = rest;
    }
    false
}

// The types of the names.
fn classes(alloc: Global, names: &[Name]) -> Result<Items<Ty>, NoMemory>
    ensures { IfOk result (λ ts. ts ≡ map (λ c. ty.Class c) names.now) }
{
    let mut types = Items::new(alloc);
    'names: for name in names {
        types.push(Ty::Class(name.copied()?))?;
    }
    Ok(types)
}

// The class or module of one name, and the intersection of several.
fn of_names(alloc: Global, names: &[Name]) -> Result<Ty, NoMemory>
    ensures { IfOk result (λ t. t ≡ spec.of_names names.now) }
{
    match names {
        [name] => Ok(Ty::Class(name.copied()?)),
        _ => Ok(Ty::All(Boxed::new(alloc, classes(alloc, names)?)?)),
    }
}

/// The intersection of the classes and modules of both lists. `None` where no shape belongs to it.
#[tactic(auto, unfolding(crate::specs::Normal::meet_names))]
pub(crate) fn meet_names(
    alloc: Global,
    w: &World,
    names: Items<Name>,
    more: &[Name],
) -> Result<Option<Ty>, NoMemory>
    ensures { IfOk result (λ t. t ≡ spec.meet_names (lineage_at w.now) names more.now) }
{
    let all = with_names(alloc, w, names.into_vec(), more)?;
    if has_two_classes(w, all.as_slice()) {
        Ok(None)
    } else {
        Ok(Some(of_names(alloc, all.as_slice())?))
    }
}

/// The meet of two classes or modules: the one that lies in the other, nothing of two classes, and else their intersection.
#[tactic(auto, using(crate::proofs::ClassMeets::inner_class, crate::proofs::ClassMeets::outer_class, crate::proofs::ClassMeets::two_classes))]
pub(crate) fn meet_classes(
    alloc: Global,
    w: &World,
    c: &Name,
    d: &Name,
) -> Result<Option<Ty>, NoMemory>
    ensures { IfOk result (λ t. t ≡ spec.meet_names (lineage_at w.now) (c.now ∷ []) (d.now ∷ [])) }
{
    if is_under(w, c, d) {
        return Ok(Some(Ty::Class(c.copied()?)));
    }
    if is_under(w, d, c) {
        return Ok(Some(Ty::Class(d.copied()?)));
    }
    if is_class(w, c) && is_class(w, d) {
        return Ok(None);
    }
    let more = one(alloc, d)?;
    meet_names(alloc, w, one(alloc, c)?, more.as_slice())
}
