ghost use Rattle.std.specs.Prelude.{◌≡◌, OnOk, bytes_eq};
ghost use Rattle.std.specs.List.{fold};
ghost use Rattle.std.specs.Option.{option_map};
ghost use Rattle.indexmap.specs.IndexMap.{get};
ghost use Rattle.srb_rules.specs.Parents.{include_link, super_link};
ghost use Rattle.srb_table.specs.Steps.{appended, links_after, mixed_at};

use crate::references::mixed;
use indexmap::IndexMap;
use srb_rules::Link;
use srb_summary::Summary;
use srb_terms::{Fact, How, Items, Name, Names, NoMemory, Path, World};

/// Adds the links that are given by the facts of some files.
pub fn add_links(
    w: &World,
    superclasses: &IndexMap<Name, Name>,
    table: &mut Items<Link>,
    files: &[Summary],
) -> Result<(), NoMemory>
    ensures { OnOk result (table.new ≡ fold (fold (links_after (get bytes_eq superclasses.now) (mixed_at w.now))) table.old files.now) }
{
    'files: for file in files {
        add_links_of_file(w, superclasses, table, file.facts())?;
    }
    Ok(())
}

/// Adds the links that are given by the facts of a file.
pub fn add_links_of_file(
    w: &World,
    superclasses: &IndexMap<Name, Name>,
    table: &mut Items<Link>,
    facts: &[Fact],
) -> Result<(), NoMemory>
    ensures { OnOk result (table.new ≡ fold (links_after (get bytes_eq superclasses.now) (mixed_at w.now)) table.old facts.now) }
{
    'facts: for fact in facts {
        add_links_of_fact(w, superclasses, table, fact)?;
    }
    Ok(())
}

// Adds the link that a fact gives.
fn add_links_of_fact(
    w: &World,
    superclasses: &IndexMap<Name, Name>,
    table: &mut Items<Link>,
    fact: &Fact,
) -> Result<(), NoMemory>
    ensures { OnOk result (table.new ≡ links_after (get bytes_eq superclasses.now) (mixed_at w.now) table.old fact.now) }
{
    match fact {
        Fact::Scope { name, .. } => add_super(superclasses, table, name),
        Fact::Parent { of, scope, to, how } => match how {
            How::Super => Ok(()),
            How::Include => add_include(w, table, of, scope, to),
            How::Extend => Ok(()),
        },
        Fact::Value { .. } => Ok(()),
        Fact::Method { .. } => Ok(()),
        Fact::Ivar { .. } => Ok(()),
    }
}

// Adds the link of a class to its superclass.
fn add_super(
    superclasses: &IndexMap<Name, Name>,
    table: &mut Items<Link>,
    name: &Name,
) -> Result<(), NoMemory>
    ensures { OnOk result (table.new ≡ appended table.old (option_map (super_link name.now) (get bytes_eq superclasses.now name.now))) }
{
    match superclasses.get(name) {
        None => Ok(()),
        Some(to) => table.push(Link {
            of: name.copied()?,
            to: to.copied()?,
            how: How::Super,
        }),
    }
}

// Adds the link to a module that is included.
fn add_include(
    w: &World,
    table: &mut Items<Link>,
    of: &Name,
    scope: &Names,
    path: &Path,
) -> Result<(), NoMemory>
    ensures { OnOk result (table.new ≡ appended table.old (option_map (include_link of.now) (mixed_at w.now scope.now path.now))) }
{
    match mixed(w, scope, path) {
        None => Ok(()),
        Some(to) => table.push(Link {
            of: of.copied()?,
            to: to.copied()?,
            how: How::Include,
        }),
    }
}
