//! Types by names.

ghost use Rattle.std.specs.Prelude.{◌≡◌, [], ◌∷◌, bytes_eq, IfOk};
ghost use Rattle.std.specs.Option.{option_copied};
ghost use Rattle.indexmap.specs.IndexMap.{insert_entry};
ghost use Rattle.srb_terms.specs.Worlds.{value_of};
ghost use Rattle.srb_sig.specs.Named.{entries_of};

use indexmap::IndexMap;
use srb_terms::{Name, NoMemory, Ty};
use std::alloc::Global;

/// Types by names. One type, the usual case, takes no memory.
#[derive(Drop)]
pub enum Named {
    Empty,
    /// The type of one name.
    One { name: Name, ty: Ty },
    Many(IndexMap<Name, Ty>),
}

/// A type after another one, of another name.
fn two(
    alloc: Global,
    first: Name,
    old: Ty,
    name: Name,
    ty: Ty,
) -> Result<IndexMap<Name, Ty>, NoMemory>
    ensures { IfOk result (λ map. map.entries ≡ insert_entry bytes_eq ((first, old) ∷ []) name ty) }
{
    let mut map = IndexMap::new(alloc);
    map.insert(first, old)?;
    map.insert(name, ty)?;
    Ok(map)
}

impl Named {
    /// With a type, in the place of one that the name had before.
    pub fn with(self, alloc: Global, name: Name, ty: Ty) -> Result<Named, NoMemory>
        ensures { IfOk result (λ all. entries_of all ≡ insert_entry bytes_eq (entries_of self) name ty) }
    {
        match self {
            Named::Empty => Ok(Named::One { name, ty }),
            Named::One {
                name: first,
                ty: old,
            } => {
                if name == first {
                    Ok(Named::One { name: first, ty })
                } else {
                    Ok(Named::Many(two(alloc, first, old, name, ty)?))
                }
            }
            Named::Many(map) => {
                let mut map = map;
                map.insert(name, ty)?;
                Ok(Named::Many(map))
            }
        }
    }

    /// The type of a name, if it has one.
    pub fn get(&self, name: &Name) -> Option<&Ty>
        ensures { option_copied result ≡ value_of name.now (entries_of self.now) }
    {
        match self {
            Named::Empty => None,
            Named::One { name: first, ty } => { if *name == *first { Some(ty) } else { None } }
            Named::Many(map) => map.get(name),
        }
    }
}
