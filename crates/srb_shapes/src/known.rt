ghost use Rattle.std.specs.Prelude.{◌≡◌, bytes_eq};
ghost use Rattle.std.specs.Cmp.Lexicographic.{bytes_decides, nat_list_eq_equiv};
ghost use Rattle.std.specs.Hash as fed;
ghost use Rattle.std.proofs.Common.{ap};
ghost use Rattle.srb_terms.specs.NameSets.{has_name};
ghost use Rattle.srb_shapes.specs.Lineages.{lineage_at};

use indexmap::Equivalent;
use srb_terms::{Name, Names, World};

// A name by its text, for a look-up that takes no memory.
#[derive(Clone, Copy, PartialEq, Eq, Hash)]
struct Spelled<'a> {
    text: &'a str,
}

impl Equivalent<Name> for Spelled<'_> {
    ghost equivalent = { λ s name. bytes_eq s.text.now name };

    ghost respects_hash = { λ s name same. ap fed.str ((bytes_decides s.text.now name).0 same) };

    ghost respects_eq = { λ s x y. nat_list_eq_equiv.congr s.text.now x y };

    fn equivalent(&self, name: &Name) -> bool {
        self.text == name.as_str()
    }
}

// Whether `c` stands in the linearization of the class or module that is spelled so.
pub(crate) fn is_above(w: &World, text: &str, c: &Name) -> bool
    ensures { result ≡ has_name c.now ((lineage_at w.now).lin text.now) }
{
    match w.lins.get(Spelled { text }) {
        None => false,
        Some(names) => names.contains(c),
    }
}

// The same of a class or module by its name.
pub(crate) fn is_above_name(w: &World, name: &Name, c: &Name) -> bool
    ensures { result ≡ has_name c.now ((lineage_at w.now).lin name.now) }
{
    match w.lin(name) {
        None => false,
        Some(names) => names.contains(c),
    }
}
