ghost use Rattle.std.specs.Prelude.{◌≡◌, ℕ, List, IfOk, bytes_eq};
ghost use Rattle.indexmap.specs.IndexMap.{get};
ghost use Rattle.srb_rules.specs.Standing.{Stands};
ghost use Rattle.srb_rules.specs.Values.{value_type};
ghost use Rattle.srb_sig.specs.Views.{view_of};
ghost use Rattle.srb_table.specs.Members as spec;
ghost use Rattle.srb_table.specs.Names.{AreIvars, AreMembers, AreMethods, HasMembers};
ghost use Rattle.srb_table.specs.Steps.{facts_of};
ghost use Rattle.srb_terms.specs.Worlds.{inner_at};

use crate::ivars::{add_ivars, add_ivars_of_file};
use crate::methods::{add_methods, add_methods_of_file};
use crate::nested::Nested;
use crate::values::{add_values, add_values_of_file};
use indexmap::IndexMap;
use srb_summary::Summary;
use srb_terms::{Fact, Method, Name, NoMemory, Ty, World};
use std::alloc::Global;

/// The tables that are found once the names and their linearizations are known, by which types are read.
#[derive(Drop)]
pub struct Members {
    pub methods: MethodsOfBoth,
    pub ivars: IvarsOfBoth,
    pub values: IndexMap<Name, Ty>,
}

/// The methods of instances and those of class objects.
#[derive(Drop)]
pub struct MethodsOfBoth {
    pub instances: Nested<Method>,
    pub objects: Nested<Method>,
}

/// The types of the instance variables of instances and of those of class objects.
#[derive(Drop)]
pub struct IvarsOfBoth {
    pub instances: Nested<Ty>,
    pub objects: Nested<Ty>,
}

/// The methods, the instance variables and the types of value constants, by a table that has the names.
pub fn all_members(
    alloc: Global,
    w: &World,
    first: &[Fact],
    files: &[Summary],
) -> Result<Members, NoMemory>
    ensures { IfOk result (λ t. Stands w.now (facts_of first.now files.now) → AreMembers t (facts_of first.now files.now)) }
{
    let methods = methods_of_both(alloc, w, first, files)?;
    let ivars = ivars_of_both(alloc, w, first, files)?;
    let values = all_values(alloc, w, first, files)?;
    Ok(Members {
        methods,
        ivars,
        values,
    })
}

/// The world with these tables.
pub fn with_members(world: World, members: Members) -> World
    ensures { HasMembers world members result }
{
    let mut world = world;
    let Members {
        methods,
        ivars,
        values,
    } = members;
    world.methods = methods.instances;
    world.own_methods = methods.objects;
    world.ivars = ivars.instances;
    world.own_ivars = ivars.objects;
    world.values = values;
    world
}

fn methods_of_both(
    alloc: Global,
    w: &World,
    first: &[Fact],
    files: &[Summary],
) -> Result<MethodsOfBoth, NoMemory>
    ensures { IfOk result (λ t. Stands w.now (facts_of first.now files.now) → AreMethods t (facts_of first.now files.now)) }
{
    let instances = all_methods(alloc, w, false, first, files)?;
    let objects = all_methods(alloc, w, true, first, files)?;
    Ok(MethodsOfBoth { instances, objects })
}

fn ivars_of_both(
    alloc: Global,
    w: &World,
    first: &[Fact],
    files: &[Summary],
) -> Result<IvarsOfBoth, NoMemory>
    ensures { IfOk result (λ t. Stands w.now (facts_of first.now files.now) → AreIvars t (facts_of first.now files.now)) }
{
    let instances = all_ivars(alloc, w, false, first, files)?;
    let objects = all_ivars(alloc, w, true, first, files)?;
    Ok(IvarsOfBoth { instances, objects })
}

// All methods of instances, or all those of class objects.
fn all_methods(
    alloc: Global,
    w: &World,
    meta: bool,
    first: &[Fact],
    files: &[Summary],
) -> Result<Nested<Method>, NoMemory>
    ensures { IfOk result (λ t. Stands w.now (facts_of first.now files.now) → (owner name : List ℕ) → inner_at owner name t.entries ≡ spec.method_of (facts_of first.now files.now) owner meta name) }
{
    let mut table = IndexMap::new(alloc);
    add_methods_of_file(alloc, w, meta, &mut table, first)?;
    add_methods(alloc, w, meta, &mut table, files)?;
    Ok(table)
}

// The types of all instance variables of instances, or of all those of class objects.
fn all_ivars(
    alloc: Global,
    w: &World,
    meta: bool,
    first: &[Fact],
    files: &[Summary],
) -> Result<Nested<Ty>, NoMemory>
    ensures { IfOk result (λ t. Stands w.now (facts_of first.now files.now) → (owner name : List ℕ) → inner_at owner name t.entries ≡ spec.ivar_of (facts_of first.now files.now) owner meta name) }
{
    let mut table = IndexMap::new(alloc);
    add_ivars_of_file(alloc, w, meta, &mut table, first)?;
    add_ivars(alloc, w, meta, &mut table, files)?;
    Ok(table)
}

// The types of all value constants.
fn all_values(
    alloc: Global,
    w: &World,
    first: &[Fact],
    files: &[Summary],
) -> Result<IndexMap<Name, Ty>, NoMemory>
    ensures { IfOk result (λ t. Stands w.now (facts_of first.now files.now) → (c : List ℕ) → get bytes_eq t c ≡ value_type (spec.reads_by (view_of (facts_of first.now files.now))) (facts_of first.now files.now) c) }
{
    let mut table = IndexMap::new(alloc);
    add_values_of_file(alloc, w, &mut table, first)?;
    add_values(alloc, w, &mut table, files)?;
    Ok(table)
}
