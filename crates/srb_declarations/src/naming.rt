//! Full names, paths as lists of names, and the names of the calls that refer to mixins.

ghost use Rattle.std.specs.Prelude.{◌≡◌, map, IfOk};
ghost use Rattle.rb_views.specs.Paths.{seen_names};
ghost use Rattle.srb_rules.specs.FullNames.{full_name as full};
ghost use Rattle.srb_declarations.specs.Declarations as spec;

use rb_tree::syntax::PlacedName;
use rb_views::path::PathNames;
use srb_terms::{How, Items, Name, Names, NoMemory};
use std::alloc::Global;

/// The full name of what has this name in a scope.
pub fn full_name(alloc: Global, scope: &Names, name: &Name) -> Result<Name, NoMemory>
    ensures { IfOk result (λ n. n ≡ full (spec.innermost scope.now) name.now) }
{
    match scope.split() {
        None => name.copied(),
        Some((around, _)) => {
            let mut text = String::from_str(alloc, around.as_str())?;
            text.push_str("::")?;
            text.push_str(name.as_str())?;
            Name::from_string(text)
        }
    }
}

/// The names of a path joined by `::`.
fn path_name(alloc: Global, path: &[PlacedName]) -> Result<Name, NoMemory>
    ensures { IfOk result (λ n. n ≡ spec.path_name path.now) }
{
    match path {
        [] => Name::from_str(alloc, ""),
        [only] => only.name.copied(),
        [first, rest @ ..] => {
            let mut text = String::from_str(alloc, first.name.as_str())?;
            'rest: for name in rest {
                text.push_str("::")?;
                text.push_str(name.name.as_str())?;
            }
            Name::from_string(text)
        }
    }
}

/// The full name of the class or module that a path declares in a scope.
pub fn declared_name(alloc: Global, scope: &Names, path: &[PlacedName]) -> Result<Name, NoMemory>
    ensures { IfOk result (λ n. n ≡ spec.declared_name scope.now path.now) }
{
    full_name(alloc, scope, &path_name(alloc, path)?)
}

/// The names of a path, in order.
fn names_of<'a>(alloc: Global, names: PathNames<'a>) -> Result<Items<Name>, NoMemory>
    ensures { IfOk result (λ items. items ≡ map spec.placed_name (seen_names names.entry)) }
{
    let mut items = Items::new(alloc);
    let mut left = names;
    'left: while let Some((name, _, rest)) = left.split() {
        items.push(name.copied()?)?;
        left = rest;
    }
    Ok(items)
}

/// These names as a list that shares its tails.
fn listed(alloc: Global, names: Items<Name>) -> Result<Names, NoMemory>
    ensures { IfOk result (λ list. list ≡ names) }
{
    let mut left = names;
    let mut list = Names::new();
    'left: while let Some(last) = left.pop() {
        list = list.pushed(alloc, last)?;
    }
    Ok(list)
}

/// The names of a path. That of one name makes no list in between.
fn path_names<'a>(alloc: Global, names: PathNames<'a>) -> Result<Names, NoMemory>
    ensures { IfOk result (λ list. list ≡ map spec.placed_name (seen_names names.entry)) }
{
    match names.split() {
        None => Ok(Names::new()),
        Some((name, _, rest)) => match rest.split() {
            None => Names::new().pushed(alloc, name.copied()?),
            Some(_) => listed(alloc, names_of(alloc, names)?),
        },
    }
}

/// A path as a list of names: one that begins with `::` has an empty first name.
pub fn written<'a>(alloc: Global, top: bool, names: PathNames<'a>) -> Result<Names, NoMemory>
    ensures { IfOk result (λ list. list ≡ spec.written top (seen_names names.entry)) }
{
    let list = path_names(alloc, names)?;
    if top {
        list.pushed(alloc, Name::from_str(alloc, "")?)
    } else {
        Ok(list)
    }
}

/// The way in which a call of this name refers to its arguments.
pub fn mixin_named(name: &str) -> Option<How>
    ensures { result ≡ spec.mixin_named name.now }
{
    if name == "include" {
        Some(How::Include)
    } else if name == "extend" {
        Some(How::Extend)
    } else {
        None
    }
}
