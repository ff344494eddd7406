ghost use Rattle.std.specs.Prelude.{◌≡◌, ℕ, List, [], ◌∷◌, Some, None, IfOk, bytes_eq, false, is_some, unwrap_or};
ghost use Rattle.indexmap.specs.IndexMap.{get};
ghost use Rattle.srb_builtin.specs.Table.{built_in};
ghost use Rattle.srb_rules.specs.Lin.{lin_of};
ghost use Rattle.srb_rules.specs.Links.{circular_links, counted};
ghost use Rattle.srb_rules.specs.Parents as parents;
ghost use Rattle.srb_rules.specs.Resolves.{lin_in};
ghost use Rattle.srb_rules.specs.Standing.{Stands};
ghost use Rattle.srb_table.specs.Names.{AreAncestry, AreLinked, AreTables, IsFilled, KnowsNames, TellsMembers};
ghost use Rattle.srb_table.specs.Steps.{facts_of};

use crate::counted::lins_by;
use crate::deciding::Deciding;
use crate::inner::Inner;
use crate::kinds::Kinds;
use crate::lins::{add_lins, add_lins_of_file};
use crate::members::{all_members, with_members};
use crate::stages::{
    all_circles, all_deciding, all_extended, all_extends, all_inner, all_kinds, all_links,
    all_superclasses,
};
use indexmap::IndexMap;
use srb_ancestors::circular;
use srb_builtin::table;
use srb_rules::Link;
use srb_summary::Summary;
use srb_terms::{Fact, Items, Name, Names, NoMemory, World};
use std::alloc::Global;

/// The symbol table of the built-in table's facts and then those of the files, in path order.
pub fn build(alloc: Global, files: &[Summary]) -> Result<World, NoMemory>
    ensures names { IfOk result (λ w. Stands w (facts_of built_in files.now)) }
    ensures members { IfOk result (λ w. TellsMembers w (facts_of built_in files.now)) }
{
    let first = table(alloc)?;
    world_of(alloc, first.as_slice(), files)
}

/// The symbol table of some facts: those of `first`, and then those of the files in their order.
pub fn world_of(alloc: Global, first: &[Fact], files: &[Summary]) -> Result<World, NoMemory>
    ensures names { IfOk result (λ w. Stands w (facts_of first.now files.now)) }
    ensures members { IfOk result (λ w. TellsMembers w (facts_of first.now files.now)) }
{
    let world = standing(alloc, first, files)?;
    let members = all_members(alloc, &world, first, files)?;
    Ok(with_members(world, members))
}

// The table with all that is told of names, without methods, instance variables and types of value constants.
fn standing(alloc: Global, first: &[Fact], files: &[Summary]) -> Result<World, NoMemory>
    ensures { IfOk result (λ w. Stands w (facts_of first.now files.now)) }
{
    let world = named(alloc, first, files)?;
    let tables = all_tables(alloc, &world, first, files)?;
    Ok(filled(world, tables))
}

// The table with the names and their kinds alone.
fn named(alloc: Global, first: &[Fact], files: &[Summary]) -> Result<World, NoMemory>
    ensures { IfOk result (λ w. KnowsNames w (facts_of first.now files.now)) }
{
    let kinds = all_kinds(alloc, first, files)?;
    let inner = all_inner(alloc, first, files)?;
    Ok(with_names(alloc, kinds, inner))
}

fn with_names(alloc: Global, kinds: Kinds, inner: Inner) -> World
    ensures kinds { result.kinds ≡ kinds }
    ensures inner { result.inner ≡ inner }
{
    World {
        kinds,
        inner,
        superclasses: IndexMap::new(alloc),
        lins: IndexMap::new(alloc),
        extended: IndexMap::new(alloc),
        methods: IndexMap::new(alloc),
        own_methods: IndexMap::new(alloc),
        ivars: IndexMap::new(alloc),
        own_ivars: IndexMap::new(alloc),
        circles: IndexMap::new(alloc),
        values: IndexMap::new(alloc),
    }
}

// The tables that are found once the names are known.
#[derive(Drop)]
struct Tables {
    ancestry: Ancestry,
    extended: IndexMap<Name, Names>,
}

// The superclasses, and what they and the included modules give.
#[derive(Drop)]
struct Ancestry {
    superclasses: IndexMap<Name, Name>,
    linked: Linked,
}

// The tables that are found by the links between classes and modules.
#[derive(Drop)]
struct Linked {
    lins: IndexMap<Name, Names>,
    circles: IndexMap<Name, Names>,
}

fn all_tables(
    alloc: Global,
    w: &World,
    first: &[Fact],
    files: &[Summary],
) -> Result<Tables, NoMemory>
    ensures { IfOk result (λ t. KnowsNames w.now (facts_of first.now files.now) → AreTables t (facts_of first.now files.now)) }
{
    let ancestry = all_ancestry(alloc, w, first, files)?;
    let extended = extended(alloc, w, first, files)?;
    Ok(Tables { ancestry, extended })
}

// The world with these tables.
fn filled(world: World, tables: Tables) -> World
    ensures { IsFilled world tables result }
{
    let mut world = world;
    let Tables { ancestry, extended } = tables;
    let Ancestry {
        superclasses,
        linked,
    } = ancestry;
    let Linked { lins, circles } = linked;
    world.superclasses = superclasses;
    world.lins = lins;
    world.extended = extended;
    world.circles = circles;
    world
}

// The superclasses of all classes, the linearizations, and which references are circular.
fn all_ancestry(
    alloc: Global,
    w: &World,
    first: &[Fact],
    files: &[Summary],
) -> Result<Ancestry, NoMemory>
    ensures { IfOk result (λ t. KnowsNames w.now (facts_of first.now files.now) → AreAncestry t (facts_of first.now files.now)) }
{
    let deciding = all_deciding(alloc, w, first, files)?;
    let superclasses = all_superclasses(alloc, w, &deciding, first, files)?;
    let linked = all_linked(alloc, w, &deciding, &superclasses, first, files)?;
    Ok(Ancestry {
        superclasses,
        linked,
    })
}

// The tables that are found by the links. Which links are circular is found once for both.
fn all_linked(
    alloc: Global,
    w: &World,
    deciding: &Deciding,
    superclasses: &IndexMap<Name, Name>,
    first: &[Fact],
    files: &[Summary],
) -> Result<Linked, NoMemory>
    ensures { IfOk result (λ t. KnowsNames w.now (facts_of first.now files.now) → ((c : List ℕ) → get bytes_eq deciding.now c ≡ parents.deciding (facts_of first.now files.now) c) → ((c : List ℕ) → get bytes_eq superclasses.now c ≡ parents.superclass_of (facts_of first.now files.now) c) → AreLinked t (facts_of first.now files.now)) }
{
    let links = all_links(alloc, w, superclasses, first, files)?;
    let circular = circular(alloc, &links)?;
    let circles = all_circles(alloc, circular.as_slice(), deciding)?;
    let lins = lins(alloc, w, circular.as_slice(), &links, first, files)?;
    Ok(Linked { lins, circles })
}

// The linearizations of all classes and modules, by the links and the circular ones.
fn lins(
    alloc: Global,
    w: &World,
    circular: &[Link],
    links: &Items<Link>,
    first: &[Fact],
    files: &[Summary],
) -> Result<IndexMap<Name, Names>, NoMemory>
    ensures { IfOk result (λ t. KnowsNames w.now (facts_of first.now files.now) → links.now ≡ parents.links (facts_of first.now files.now) → circular.now ≡ circular_links links.now → (c : List ℕ) → get bytes_eq t c ≡ lin_in (facts_of first.now files.now) c) }
{
    let linked = lins_by(alloc, circular, links)?;
    let table = all_lins(alloc, w, &linked, first, files)?;
    Ok(table)
}

// The modules that each class and module extends.
fn extended(
    alloc: Global,
    w: &World,
    first: &[Fact],
    files: &[Summary],
) -> Result<IndexMap<Name, Names>, NoMemory>
    ensures { IfOk result (λ t. KnowsNames w.now (facts_of first.now files.now) → (c : List ℕ) → get bytes_eq t c ≡ parents.extended_of (facts_of first.now files.now) c) }
{
    let extends = all_extends(alloc, w, first, files)?;
    all_extended(alloc, w, &extends, first, files)
}

// The linearizations of all classes and modules, by those of names that have links.
fn all_lins(
    alloc: Global,
    w: &World,
    lins: &IndexMap<Name, Names>,
    first: &[Fact],
    files: &[Summary],
) -> Result<IndexMap<Name, Names>, NoMemory>
    ensures { IfOk result (λ t. KnowsNames w.now (facts_of first.now files.now) → ((c : List ℕ) → unwrap_or (get bytes_eq lins.now c) (c ∷ []) ≡ lin_of (counted (parents.links (facts_of first.now files.now))) c) → (c : List ℕ) → get bytes_eq t c ≡ lin_in (facts_of first.now files.now) c) }
{
    let mut table = IndexMap::new(alloc);
    add_lins_of_file(alloc, w, lins, &mut table, first)?;
    add_lins(alloc, w, lins, &mut table, files)?;
    Ok(table)
}
