//! Types that are seen to be the same at a glance.

ghost use Rattle.std.specs.Prelude.{◌≡◌, IsTrue};

use srb_terms::Ty;

/// Whether both types are classes or modules of the same name.
fn is_same_class(t: &Ty, u: &Ty) -> bool
    ensures { IsTrue result → t.now ≡ u.now }
{
    match t {
        Ty::Class(c) => match u {
            Ty::Class(d) => c.is_same(d),
            _ => false,
        },
        _ => false,
    }
}

/// Whether both lists are the same two classes or modules.
fn are_same_two(ts: &[Ty], us: &[Ty]) -> bool
    ensures { IsTrue result → ts.now ≡ us.now }
{
    match ts {
        [a, b] => match us {
            [c, d] => is_same_class(a, c) && is_same_class(b, d),
            _ => false,
        },
        _ => false,
    }
}

/// Whether both types are unions of the same two classes or modules. It takes no memory.
pub fn is_same_union(t: &Ty, u: &Ty) -> bool
    ensures { IsTrue result → t.now ≡ u.now }
{
    match t {
        Ty::Any(ts) => match u {
            Ty::Any(us) => are_same_two(ts.get().as_slice(), us.get().as_slice()),
            _ => false,
        },
        _ => false,
    }
}
