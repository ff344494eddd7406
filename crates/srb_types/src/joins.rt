//! The union of many types. Beside its parts their linearizations are kept, so that each of them is looked up once.

ghost use Rattle.std.specs.Prelude.{◌≡◌, ◌≤◌, length, nat_lt, not, IfOk, OnOk};
ghost use Rattle.std.specs.List.{filter, list_any};
ghost use Rattle.srb_shapes.specs.Comparing.{lies_in};
ghost use Rattle.srb_shapes.specs.Lineages.{lineage_at};
ghost use Rattle.srb_shapes.specs.Parts as shapes;
ghost use Rattle.srb_terms.specs.declared.ty.Ty.TheVariants as ty;
ghost use Rattle.srb_types.specs.Joined.{lin_of, lins_of};
ghost use Rattle.srb_types.specs.Normal as spec;
ghost use Rattle.srb_types.specs.Order.{placed};
ghost use Rattle.srb_types.specs.Shown.{shown};

use crate::parts::{self, is_untyped, lies_in_one, of_parts, outer_parts, place};
use crate::showing::show;
use crate::unions::any;
use srb_terms::{Name, Names, NoMemory, Ty, World};
use std::alloc::Global;

// The linearization of a class or module. It is empty for any other part, and where the symbol table has none.
#[tactic(auto, unfolding(crate::specs::Joined::lin_of))]
fn lin(w: &World, p: &Ty) -> Result<Names, NoMemory>
    ensures { IfOk result (λ names. names ≡ lin_of (lineage_at w.now) p.now) }
{
    match p {
        Ty::Class(c) => match w.lin(c) {
            None => Ok(Names::new()),
            Some(names) => names.copied(),
        },
        _ => Ok(Names::new()),
    }
}

// The linearizations of some parts.
fn lins(alloc: Global, w: &World, parts: &[Ty]) -> Result<Vec<Names>, NoMemory>
    ensures { IfOk result (λ ns. ns.items ≡ lins_of (lineage_at w.now) parts.now) }
{
    let mut lins = Vec::with_capacity(alloc, parts.len())?;
    'parts: for part in parts {
        lins.push(lin(w, part)?)?;
    }
    Ok(lins)
}

// Whether a part lies in the class or module `d`, by the linearization that is kept beside it.
fn is_in_class(w: &World, q: &Ty, names: &Names, p: &Ty, d: &Name) -> bool
    requires class { p.now ≡ ty.Class d.now }
    requires names { names.now ≡ lin_of (lineage_at w.now) q.now }
    ensures { result ≡ lies_in (lineage_at w.now) q.now p.now }
{
    match q {
        Ty::Class(_) => names.contains(d),
        _ => parts::lies_in(w, q, p),
    }
}

// Whether one of some parts lies in the class or module `d`.
fn has_in_class(w: &World, p: &Ty, d: &Name, parts: &[Ty], lins: &[Names]) -> bool
    requires class { p.now ≡ ty.Class d.now }
    requires lins { lins.now ≡ lins_of (lineage_at w.now) parts.now }
    ensures { result ≡ list_any (λ q. lies_in (lineage_at w.now) q p.now) parts.now }
{
    let mut at = 0;
    'parts: while at < parts.len() {
        if is_in_class(w, &parts[at], &lins[at], p, d) {
            return true;
        }
        at += 1;
    }
    false
}

// Whether one of some parts lies in another.
fn has_inner(w: &World, p: &Ty, parts: &[Ty], lins: &[Names]) -> bool
    requires { lins.now ≡ lins_of (lineage_at w.now) parts.now }
    ensures { result ≡ list_any (λ q. lies_in (lineage_at w.now) q p.now) parts.now }
{
    match p {
        Ty::Class(d) => has_in_class(w, p, d, parts, lins),
        _ => parts::has_inner(w, p, parts),
    }
}

// Drops the parts that lie in this one.
fn drop_inner(
    alloc: Global,
    w: &World,
    p: &Ty,
    parts: &mut Vec<Ty>,
    lins: &mut Vec<Names>,
) -> Result<(), NoMemory>
    requires { lins.old.items ≡ lins_of (lineage_at w.now) parts.old.items }
    ensures parts { OnOk result (parts.new.items ≡ filter (λ q. not (lies_in (lineage_at w.now) q p.now)) parts.old.items) }
    ensures lins { OnOk result (lins.new.items ≡ lins_of (lineage_at w.now) parts.new.items) }
{
    if has_inner(w, p, parts.as_slice(), lins.as_slice()) {
        *parts = outer_parts(alloc, w, p, parts.as_slice())?;
        *lins = self::lins(alloc, w, parts.as_slice())?;
    }
    Ok(())
}

// Puts a part at its place.
fn put(
    alloc: Global,
    w: &World,
    p: &Ty,
    parts: &mut Vec<Ty>,
    lins: &mut Vec<Names>,
) -> Result<(), NoMemory>
    requires { lins.old.items ≡ lins_of (lineage_at w.now) parts.old.items }
    ensures parts { OnOk result (parts.new.items ≡ placed shown p.now parts.old.items) }
    ensures lins { OnOk result (lins.new.items ≡ lins_of (lineage_at w.now) parts.new.items) }
{
    let text = show(alloc, p)?;
    let at = place(alloc, p, &text, parts.as_slice())?;
    parts.insert(at, p.copied()?)?;
    lins.insert(at, lin(w, p)?)?;
    Ok(())
}

// Adds a part at its place. It is dropped where it lies in another, and those that lie in it are dropped.
#[tactic(auto, unfolding(crate::specs::Normal::with_part))]
fn add_part(
    alloc: Global,
    w: &World,
    p: &Ty,
    parts: &mut Vec<Ty>,
    lins: &mut Vec<Names>,
) -> Result<(), NoMemory>
    requires { lins.old.items ≡ lins_of (lineage_at w.now) parts.old.items }
    ensures parts { OnOk result (parts.new.items ≡ spec.with_part (lineage_at w.now) parts.old.items p.now) }
    ensures lins { OnOk result (lins.new.items ≡ lins_of (lineage_at w.now) parts.new.items) }
{
    if lies_in_one(w, p, parts.as_slice()) {
        return Ok(());
    }
    drop_inner(alloc, w, p, parts, lins)?;
    put(alloc, w, p, parts, lins)
}

// Adds parts one by one.
fn add_parts(
    alloc: Global,
    w: &World,
    more: &[Ty],
    parts: &mut Vec<Ty>,
    lins: &mut Vec<Names>,
) -> Result<(), NoMemory>
    requires { lins.old.items ≡ lins_of (lineage_at w.now) parts.old.items }
    ensures parts { OnOk result (parts.new.items ≡ spec.with_parts (lineage_at w.now) parts.old.items more.now) }
    ensures lins { OnOk result (lins.new.items ≡ lins_of (lineage_at w.now) parts.new.items) }
{
    'more: for p in more {
        add_part(alloc, w, p, parts, lins)?;
    }
    Ok(())
}

// Copies of some parts.
fn copies(alloc: Global, parts: &[Ty]) -> Result<Vec<Ty>, NoMemory>
    ensures { IfOk result (λ ts. ts.items ≡ parts.now) }
{
    let mut copies = Vec::with_capacity(alloc, parts.len())?;
    'parts: for part in parts {
        copies.push(part.copied()?)?;
    }
    Ok(copies)
}

// Whether there are fewer than two parts.
fn is_few(parts: &[Ty]) -> bool
    ensures { result ≡ nat_lt (length parts.now) 2 }
{
    parts.len() < 2
}

// Joins two parts or more with the first of some types: as many as leave at least two parts, up to `T.untyped`. The types after them stand
// beside the union.
fn many<'a>(
    alloc: Global,
    w: &World,
    mut parts: Vec<Ty>,
    types: &'a [Ty],
) -> Result<(Ty, &'a [Ty]), NoMemory>
    ensures union { IfOk result (λ r. spec.any_after (lineage_at w.now) r.0 r.1.now
        ≡ spec.any_after (lineage_at w.now) (shapes.of_parts parts.items) types.now) }
    ensures rest { IfOk result (λ r. length r.1.now ≤ length types.now) }
{
    let mut lins = lins(alloc, w, parts.as_slice())?;
    let mut rest = types;
    'rest: while let [t, after @ ..] = rest {
        if is_few(parts.as_slice()) || is_untyped(t) {
            return Ok((of_parts(alloc, parts)?, rest));
        }
        add_parts(alloc, w, parts::parts(t), &mut parts, &mut lins)?;
        rest = after;
    }
    Ok((of_parts(alloc, parts)?, rest))
}

// The same for any type. One that isn't a union of two parts or more is left as it is, and so is any where few types follow.
fn far<'a>(alloc: Global, w: &World, union: Ty, types: &'a [Ty]) -> Result<(Ty, &'a [Ty]), NoMemory>
    ensures union { IfOk result (λ r.
        spec.any_after (lineage_at w.now) r.0 r.1.now ≡ spec.any_after (lineage_at w.now) union types.now) }
    ensures rest { IfOk result (λ r. length r.1.now ≤ length types.now) }
{
    if types.len() < 4 || is_few(parts::parts(&union)) {
        return Ok((union, types));
    }
    let parts = copies(alloc, parts::parts(&union))?;
    many(alloc, w, parts, types)
}

/// `T.any` of a type and of all types of a list, one after the other.
pub fn any_after(alloc: Global, w: &World, so_far: Ty, types: &[Ty]) -> Result<Ty, NoMemory>
    ensures { IfOk result (λ t. t ≡ spec.any_after (lineage_at w.now) so_far types.now) }
{
    let mut union = so_far;
    let mut rest = types;
    'rest: while let [t, after @ ..] = rest {
        let joined = any(alloc, w, &union, t)?;
        let (all, left) = far(alloc, w, joined, after)?;
        union = all;
        rest = left;
    }
    Ok(union)
}
