ghost use Rattle.std.specs.Prelude.{◌≡◌, ℕ, List, [], Some, None, IfOk, bytes_eq, false, is_some, unwrap_or, if◌then◌else◌};
ghost use Rattle.std.specs.List.{filter_map};
ghost use Rattle.indexmap.specs.IndexMap.{get};
ghost use Rattle.srb_rules.specs.Circles.{circle_of};
ghost use Rattle.srb_rules.specs.Kinds.{kind_of};
ghost use Rattle.srb_rules.specs.Links.{circular_links};
ghost use Rattle.srb_rules.specs.Parents as parents;
ghost use Rattle.srb_table.specs.Names.{KnowsNames};
ghost use Rattle.srb_table.specs.Steps.{facts_of};
ghost use Rattle.srb_terms.specs.Worlds.{has_colon, inner_at, is_among, joined};
ghost use Rattle.srb_terms.specs.declared.fact.Fact as fact_type;

use crate::circles::circles;
use crate::deciding::{Deciding, add_deciding, add_deciding_of_file};
use crate::extended::{add_extended, add_extended_of_file};
use crate::extends::{Extends, add_extends, add_extends_of_file};
use crate::inner::{Inner, add_inner, add_inner_of_file};
use crate::kinds::{Kinds, add_kinds, add_kinds_of_file};
use crate::links::{add_links, add_links_of_file};
use crate::superclasses::{add_superclasses, add_superclasses_of_file};
use indexmap::IndexMap;
use srb_rules::Link;
use srb_summary::Summary;
use srb_terms::{Fact, Items, Name, Names, NoMemory, World};
use std::alloc::Global;

/// The kinds of all names.
pub fn all_kinds(alloc: Global, first: &[Fact], files: &[Summary]) -> Result<Kinds, NoMemory>
    ensures { IfOk result (λ t. (c : List ℕ) → get bytes_eq t c ≡ kind_of (facts_of first.now files.now) c) }
{
    let mut table = IndexMap::new(alloc);
    add_kinds_of_file(&mut table, first)?;
    add_kinds(&mut table, files)?;
    Ok(table)
}

/// The full names by scope and last part.
pub fn all_inner(alloc: Global, first: &[Fact], files: &[Summary]) -> Result<Inner, NoMemory>
    ensures { IfOk result (λ t. (scope last : List ℕ) → has_colon last ≡ false → inner_at scope last t.entries ≡ (if is_some (kind_of (facts_of first.now files.now) (joined scope last)) then Some (joined scope last) else None)) }
{
    let mut table = IndexMap::new(alloc);
    add_inner_of_file(alloc, &mut table, first)?;
    add_inner(alloc, &mut table, files)?;
    Ok(table)
}

/// The superclasses that are written.
pub fn all_deciding(
    alloc: Global,
    w: &World,
    first: &[Fact],
    files: &[Summary],
) -> Result<Deciding, NoMemory>
    ensures { IfOk result (λ t. KnowsNames w.now (facts_of first.now files.now) → (c : List ℕ) → get bytes_eq t c ≡ parents.deciding (facts_of first.now files.now) c) }
{
    let mut table = IndexMap::new(alloc);
    add_deciding_of_file(w, &mut table, first)?;
    add_deciding(w, &mut table, files)?;
    Ok(table)
}

/// The superclasses of all classes, by those that are written.
pub fn all_superclasses(
    alloc: Global,
    w: &World,
    deciding: &Deciding,
    first: &[Fact],
    files: &[Summary],
) -> Result<IndexMap<Name, Name>, NoMemory>
    ensures { IfOk result (λ t. KnowsNames w.now (facts_of first.now files.now) → ((c : List ℕ) → get bytes_eq deciding.now c ≡ parents.deciding (facts_of first.now files.now) c) → (c : List ℕ) → get bytes_eq t c ≡ parents.superclass_of (facts_of first.now files.now) c) }
{
    let object = Name::from_str(alloc, "Object")?;
    let mut table = IndexMap::new(alloc);
    add_superclasses_of_file(w, deciding, &object, &mut table, first)?;
    add_superclasses(w, deciding, &object, &mut table, files)?;
    Ok(table)
}

/// All links.
pub fn all_links(
    alloc: Global,
    w: &World,
    superclasses: &IndexMap<Name, Name>,
    first: &[Fact],
    files: &[Summary],
) -> Result<Items<Link>, NoMemory>
    ensures { IfOk result (λ t. KnowsNames w.now (facts_of first.now files.now) → ((c : List ℕ) → get bytes_eq superclasses.now c ≡ parents.superclass_of (facts_of first.now files.now) c) → t ≡ parents.links (facts_of first.now files.now)) }
{
    let mut table = Items::new(alloc);
    add_links_of_file(w, superclasses, &mut table, first)?;
    add_links(w, superclasses, &mut table, files)?;
    Ok(table)
}

/// The circular references, by the circular links and the superclasses that are written.
pub fn all_circles(
    alloc: Global,
    circular: &[Link],
    deciding: &Deciding,
) -> Result<IndexMap<Name, Names>, NoMemory>
    ensures { IfOk result (λ t. (fs : List fact_type.Fact) → circular.now ≡ circular_links (parents.links fs) → ((c : List ℕ) → get bytes_eq deciding.now c ≡ parents.deciding fs c) → (c d : List ℕ) → is_among d (get bytes_eq t c) ≡ circle_of fs c d) }
{
    let basic_object = Name::from_str(alloc, "BasicObject")?;
    let table = circles(alloc, circular, deciding.get(&basic_object))?;
    Ok(table)
}

/// The modules that classes and modules extend, in lists that begin with the first one.
pub fn all_extends(
    alloc: Global,
    w: &World,
    first: &[Fact],
    files: &[Summary],
) -> Result<Extends, NoMemory>
    ensures { IfOk result (λ t. KnowsNames w.now (facts_of first.now files.now) → (c : List ℕ) → unwrap_or (get bytes_eq t c) [] ≡ filter_map (parents.extended_in (parents.mixed_in (facts_of first.now files.now)) c) (facts_of first.now files.now)) }
{
    let mut table = IndexMap::new(alloc);
    add_extends_of_file(alloc, w, &mut table, first)?;
    add_extends(alloc, w, &mut table, files)?;
    Ok(table)
}

/// The modules that each class and module extends.
pub fn all_extended(
    alloc: Global,
    w: &World,
    extends: &Extends,
    first: &[Fact],
    files: &[Summary],
) -> Result<IndexMap<Name, Names>, NoMemory>
    ensures { IfOk result (λ t. KnowsNames w.now (facts_of first.now files.now) → ((c : List ℕ) → unwrap_or (get bytes_eq extends.now c) [] ≡ filter_map (parents.extended_in (parents.mixed_in (facts_of first.now files.now)) c) (facts_of first.now files.now)) → (c : List ℕ) → get bytes_eq t c ≡ parents.extended_of (facts_of first.now files.now) c) }
{
    let mut table = IndexMap::new(alloc);
    add_extended_of_file(alloc, w, extends, &mut table, first)?;
    add_extended(alloc, w, extends, &mut table, files)?;
    Ok(table)
}
