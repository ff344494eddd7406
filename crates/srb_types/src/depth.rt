//! Arrays and hashes, which keep eight levels of their arguments.

ghost use Rattle.std.specs.Prelude.{◌≡◌, [], map, IfOk};
ghost use Rattle.std.specs.List.{list_all};
ghost use Rattle.srb_shapes.specs.Lineages.{lineage_at};
ghost use Rattle.srb_types.specs.Normal as spec;

use crate::parts::{add_part, of_parts};
use srb_terms::{Boxed, Items, NoMemory, Ty, World};
use std::alloc::Global;

// Whether each array or hash of a type stands inside fewer than so many others of it.
#[cycle(fitting)]
#[tactic(auto, unfolding(crate::specs::Normal::is_shallow))]
fn is_shallow(t: &Ty, levels: usize) -> bool
    ensures { result ≡ spec.is_shallow t.now levels }
{
    match t {
        Ty::Arr(e) => is_shallow_argument(e.get(), levels),
        Ty::Hsh(k, v) => is_shallow_argument(k.get(), levels)
            && is_shallow_argument(v.get(), levels),
        Ty::Any(parts) => are_shallow(parts.get().as_slice(), levels),
        _ => true,
    }
}

#[cycle(fitting)]
fn is_shallow_argument(e: &Ty, levels: usize) -> bool
    ensures { result ≡ spec.is_shallow_argument (spec.is_shallow e.now) levels }
{
    levels != 0 && is_shallow(e, levels - 1)
}

#[cycle(fitting)]
fn are_shallow(parts: &[Ty], levels: usize) -> bool
    ensures { result ≡ list_all (λ p. p levels) (map spec.is_shallow parts.now) }
{
    'parts: for part in parts {
        if !is_shallow(part, levels) {
            return false;
        }
    }
    true
}

// A type whose arrays and hashes inside so many others have `T.untyped` for arguments.
#[cycle(cutting)]
#[tactic(auto, unfolding(crate::specs::Normal::cut_anew))]
fn cut_anew(alloc: Global, w: &World, t: &Ty, levels: usize) -> Result<Ty, NoMemory>
    ensures { IfOk result (λ u. u ≡ spec.cut_anew (lineage_at w.now) t.now levels) }
{
    match t {
        Ty::Untyped => Ok(Ty::Untyped),
        Ty::Never => Ok(Ty::Never),
        Ty::Class(name) => Ok(Ty::Class(name.copied()?)),
        Ty::Meta(name) => Ok(Ty::Meta(name.copied()?)),
        Ty::Arr(e) => Ok(Ty::Arr(cut_argument(alloc, w, e.get(), levels)?)),
        Ty::Hsh(k, v) => {
            let key = cut_argument(alloc, w, k.get(), levels)?;
            let value = cut_argument(alloc, w, v.get(), levels)?;
            Ok(Ty::Hsh(key, value))
        }
        Ty::Any(parts) => of_parts(alloc, cut_parts(alloc, w, parts.get().as_slice(), levels)?),
        Ty::All(members) => {
            let members = cut_members(alloc, w, members.get().as_slice(), levels)?;
            Ok(Ty::All(Boxed::new(alloc, members)?))
        }
    }
}

#[cycle(cutting)]
fn cut_argument(alloc: Global, w: &World, t: &Ty, levels: usize) -> Result<Boxed<Ty>, NoMemory>
    ensures { IfOk result (λ u. u ≡ spec.cut_argument (spec.cut_anew (lineage_at w.now) t.now) levels) }
{
    if levels == 0 {
        Boxed::new(alloc, Ty::Untyped)
    } else {
        Boxed::new(alloc, cut_anew(alloc, w, t, levels - 1)?)
    }
}

// Parts, each of them cut.
#[cycle(cutting)]
fn cut_parts(alloc: Global, w: &World, parts: &[Ty], levels: usize) -> Result<Vec<Ty>, NoMemory>
    ensures { IfOk result (λ ts. ts.items ≡ spec.cut_each (lineage_at w.now) (map (spec.cut_anew (lineage_at w.now)) parts.now) levels []) }
{
    let mut cut = Vec::new(alloc);
    'parts: for part in parts {
        let part = cut_anew(alloc, w, part, levels)?;
        add_part(alloc, w, &part, &mut cut)?;
    }
    Ok(cut)
}

#[cycle(cutting)]
fn cut_members(
    alloc: Global,
    w: &World,
    members: &[Ty],
    levels: usize,
) -> Result<Items<Ty>, NoMemory>
    ensures { IfOk result (λ ts. ts ≡ map (λ m. m levels) (map (spec.cut_anew (lineage_at w.now)) members.now)) }
{
    let mut cut = Items::new(alloc);
    'members: for member in members {
        cut.push(cut_anew(alloc, w, member, levels)?)?;
    }
    Ok(cut)
}

// A type inside an array or hash. One that isn't so deep is shared.
#[tactic(auto, unfolding(crate::specs::Normal::cut))]
fn cut(alloc: Global, w: &World, levels: usize, t: &Ty) -> Result<Boxed<Ty>, NoMemory>
    ensures { IfOk result (λ u. u ≡ spec.cut (lineage_at w.now) levels t.now) }
{
    if is_shallow(t, levels) {
        Boxed::new(alloc, t.copied()?)
    } else {
        Boxed::new(alloc, cut_anew(alloc, w, t, levels)?)
    }
}

/// `T::Array` of a type in normal form.
#[tactic(auto, unfolding(crate::specs::Normal::array_of))]
pub fn array(alloc: Global, w: &World, element: &Ty) -> Result<Ty, NoMemory>
    ensures { IfOk result (λ t. t ≡ spec.array_of (lineage_at w.now) element.now) }
{
    Ok(Ty::Arr(cut(alloc, w, 7, element)?))
}

/// `T::Hash` of two types in normal form.
#[tactic(auto, unfolding(crate::specs::Normal::hash_of))]
pub fn hash(alloc: Global, w: &World, key: &Ty, value: &Ty) -> Result<Ty, NoMemory>
    ensures { IfOk result (λ t. t ≡ spec.hash_of (lineage_at w.now) key.now value.now) }
{
    let key = cut(alloc, w, 7, key)?;
    let value = cut(alloc, w, 7, value)?;
    Ok(Ty::Hsh(key, value))
}
