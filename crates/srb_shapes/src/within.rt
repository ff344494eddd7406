ghost use Rattle.std.specs.Prelude.{◌≡◌};
ghost use Rattle.std.specs.List.{list_all, list_any};
ghost use Rattle.srb_terms.specs.NameSets.{has_name};
ghost use Rattle.srb_terms.specs.declared.ty.Ty.TheVariants as ty;
ghost use Rattle.srb_terms.specs.declared.ty.Ty.TheOpen.{Ty-F};
ghost use Rattle.srb_shapes.specs.Comparing as spec;
ghost use Rattle.srb_shapes.specs.Comparing.{holds, part_test, within};
ghost use Rattle.srb_shapes.specs.Lineages.{is_class, lineage_at, object_lin};

use crate::known::{is_above, is_above_name};
use srb_terms::{Kind, Name, Names, Ty, World};

// Whether the names are the linearization of something that lies within `u`.
#[cycle(below)]
fn is_below(u: &Ty, names: &Names) -> bool
    ensures { result ≡ holds (spec.is_below names.now) u.now }
{
    match u {
        Ty::Untyped => true,
        Ty::Never => false,
        Ty::Class(d) => names.contains(d),
        Ty::Any(parts) => is_below_some(parts.get().as_slice(), names),
        Ty::All(members) => is_below_all(members.get().as_slice(), names),
        Ty::Meta(_) => false,
        Ty::Arr(_) => false,
        Ty::Hsh(_, _) => false,
    }
}

#[cycle(below)]
fn is_below_some(parts: &[Ty], names: &Names) -> bool
    ensures { result ≡ list_any (holds (spec.is_below names.now)) parts.now }
{
    for part in parts {
        if is_below(part, names) {
            return true;
        }
    }
    false
}

#[cycle(below)]
fn is_below_all(members: &[Ty], names: &Names) -> bool
    ensures { result ≡ list_all (holds (spec.is_below names.now)) members.now }
{
    for member in members {
        if !is_below(member, names) {
            return false;
        }
    }
    true
}

// Whether an instance of the class or module `c` and of nothing else lies within `u`. Its linearization is looked up once.
fn is_class_within(w: &World, c: &Name, u: &Ty) -> bool
    ensures { result ≡ holds (spec.is_below ((lineage_at w.now).lin c.now)) u.now }
{
    match w.lin(c) {
        None => is_below(u, &Names::new()),
        Some(names) => is_below(u, names),
    }
}

fn is_class(kind: Option<Kind>) -> bool
    ensures { result ≡ is_class kind }
{
    match kind {
        Some(Kind::Class) => true,
        Some(Kind::Module) => false,
        Some(Kind::Value) => false,
        None => false,
    }
}

// Whether the class object of `d` is one of the class objects of `c`.
fn is_meta_below(w: &World, d: &Name, c: &Name) -> bool
    ensures { result ≡ spec.is_meta_below (lineage_at w.now) d.now c.now }
{
    d.as_str() == c.as_str() || is_class(w.kind(d)) && is_class(w.kind(c)) && is_above_name(w, d, c)
}

// Whether the class object of `d` is an instance of `c`.
fn is_object_of(w: &World, d: &Name, c: &Name) -> bool
    ensures { result ≡ has_name c.now (object_lin (lineage_at w.now) ((lineage_at w.now).kind d.now)) }
{
    match w.kind(d) {
        Some(Kind::Class) => is_above(w, "Class", c),
        Some(Kind::Module) => is_above(w, "Module", c),
        Some(Kind::Value) => false,
        None => false,
    }
}

// Whether what the part `t` stands for is a class object of `c`.
fn is_meta_of(w: &World, t: &Ty, c: &Name, extra: bool) -> bool
    ensures { result ≡ part_test extra (lineage_at w.now) t.now (Ty-F.Meta c.now) }
{
    match t {
        Ty::Untyped => false,
        Ty::Never => false,
        Ty::Class(_) => false,
        Ty::Meta(d) => is_meta_below(w, d, c),
        Ty::Arr(_) => false,
        Ty::Hsh(_, _) => false,
        Ty::Any(_) => false,
        Ty::All(_) => false,
    }
}

/// Whether all that belongs to `t` belongs to `u`. With `extra` false nothing belongs to `T.untyped` in `t`; with `extra` true something
/// belongs to it that belongs to no other type. Everything belongs to `T.untyped` in `u`. It takes no memory.
#[cycle(within)]
pub fn is_within(extra: bool, w: &World, t: &Ty, u: &Ty) -> bool
    ensures { result ≡ within extra (lineage_at w.now) t.now u.now }
{
    match t {
        Ty::Untyped => !extra || is_part_within(extra, w, t, u),
        Ty::Never => true,
        Ty::Class(c) => is_class_within(w, c, u),
        Ty::Meta(_) => is_part_within(extra, w, t, u),
        Ty::Arr(_) => is_part_within(extra, w, t, u),
        Ty::Hsh(_, _) => is_part_within(extra, w, t, u),
        Ty::Any(parts) => are_within(extra, w, parts.get().as_slice(), u),
        Ty::All(_) => is_part_within(extra, w, t, u),
    }
}

// Whether each part does.
#[cycle(within)]
fn are_within(extra: bool, w: &World, parts: &[Ty], u: &Ty) -> bool
    ensures { result ≡ list_all (λ t. within extra (lineage_at w.now) t u.now) parts.now }
{
    for part in parts {
        if !is_within(extra, w, part, u) {
            return false;
        }
    }
    true
}

// Whether one of the members does.
#[cycle(within)]
fn is_some_within(extra: bool, w: &World, members: &[Ty], u: &Ty) -> bool
    ensures { result ≡ list_any (λ t. within extra (lineage_at w.now) t u.now) members.now }
{
    for member in members {
        if is_within(extra, w, member, u) {
            return true;
        }
    }
    false
}

// The same of a part that is no union.
#[cycle(within)]
fn is_part_within(extra: bool, w: &World, t: &Ty, u: &Ty) -> bool
    ensures { result ≡ holds (part_test extra (lineage_at w.now) t.now) u.now }
{
    match u {
        Ty::Untyped => true,
        Ty::Never => false,
        Ty::Class(c) => is_instance_of(extra, w, t, u, c),
        Ty::Meta(c) => is_meta_of(w, t, c, extra),
        Ty::Arr(f) => is_array_of(extra, w, t, f.get()),
        Ty::Hsh(k, v) => is_hash_of(extra, w, t, k.get(), v.get()),
        Ty::Any(parts) => is_within_some(extra, w, parts.get().as_slice(), t),
        Ty::All(members) => is_within_all(extra, w, members.get().as_slice(), t),
    }
}

// Whether a part lies within one of the parts of a union.
#[cycle(within)]
fn is_within_some(extra: bool, w: &World, parts: &[Ty], t: &Ty) -> bool
    ensures { result ≡ list_any (holds (part_test extra (lineage_at w.now) t.now)) parts.now }
{
    for part in parts {
        if is_part_within(extra, w, t, part) {
            return true;
        }
    }
    false
}

// Whether a part lies within each member of an intersection.
#[cycle(within)]
fn is_within_all(extra: bool, w: &World, members: &[Ty], t: &Ty) -> bool
    ensures { result ≡ list_all (holds (part_test extra (lineage_at w.now) t.now)) members.now }
{
    for member in members {
        if !is_part_within(extra, w, t, member) {
            return false;
        }
    }
    true
}

// Whether what the part `t` stands for is an instance of `c`, of which `u` is the type.
#[cycle(within)]
fn is_instance_of(extra: bool, w: &World, t: &Ty, u: &Ty, c: &Name) -> bool
    requires { u.now ≡ ty.Class c.now }
    ensures { result ≡ part_test extra (lineage_at w.now) t.now (Ty-F.Class c.now) }
{
    match t {
        Ty::Untyped => false,
        Ty::Never => false,
        Ty::Class(d) => is_above_name(w, d, c),
        Ty::Meta(d) => is_object_of(w, d, c),
        Ty::Arr(_) => is_above(w, "Array", c),
        Ty::Hsh(_, _) => is_above(w, "Hash", c),
        Ty::Any(_) => false,
        Ty::All(members) => is_some_within(extra, w, members.get().as_slice(), u),
    }
}

// Whether the part `t` is an array whose elements lie within `f`.
#[cycle(within)]
fn is_array_of(extra: bool, w: &World, t: &Ty, f: &Ty) -> bool
    ensures { result ≡ part_test extra (lineage_at w.now) t.now (Ty-F.Arr f.now) }
{
    match t {
        Ty::Untyped => false,
        Ty::Never => false,
        Ty::Class(_) => false,
        Ty::Meta(_) => false,
        Ty::Arr(e) => is_within(extra, w, e.get(), f),
        Ty::Hsh(_, _) => false,
        Ty::Any(_) => false,
        Ty::All(_) => false,
    }
}

// Whether the part `t` is a hash whose keys lie within `k` and whose values lie within `v`.
#[cycle(within)]
fn is_hash_of(extra: bool, w: &World, t: &Ty, k: &Ty, v: &Ty) -> bool
    ensures { result ≡ part_test extra (lineage_at w.now) t.now (Ty-F.Hsh k.now v.now) }
{
    match t {
        Ty::Untyped => false,
        Ty::Never => false,
        Ty::Class(_) => false,
        Ty::Meta(_) => false,
        Ty::Arr(_) => false,
        Ty::Hsh(key, value) => is_within(extra, w, key.get(), k)
            && is_within(extra, w, value.get(), v),
        Ty::Any(_) => false,
        Ty::All(_) => false,
    }
}
