//! Look-ups by a text, which take no memory.

ghost use Rattle.std.specs.Prelude.{◌≡◌, bytes_eq};
ghost use Rattle.std.specs.Cmp.Lexicographic.{bytes_decides, nat_list_eq_equiv};
ghost use Rattle.std.specs.Hash as fed;
ghost use Rattle.std.specs.Option.{option_and_then, option_copied};
ghost use Rattle.std.proofs.Common.{ap};
ghost use Rattle.srb_terms.specs.Worlds.{kind_at, lin_at, method_at, value_of};

use indexmap::{Equivalent, IndexMap};
use srb_terms::{Kind, Method, Name, Names, World};

// A name by its text.
#[derive(Clone, Copy, PartialEq, Eq, Hash)]
struct Spelled<'a> {
    text: &'a str,
}

impl Equivalent<Name> for Spelled<'_> {
    ghost equivalent = { λ s name. bytes_eq s.text.now name };

    ghost respects_hash = { λ s name same. ap fed.str ((bytes_decides s.text.now name).0 same) };

    ghost respects_eq = { λ s x y. nat_list_eq_equiv.congr s.text.now x y };

    fn equivalent(&self, name: &Name) -> bool {
        self.text == name.as_str()
    }
}

/// What the name `c` stands for.
pub(crate) fn kind(w: &World, c: &str) -> Option<Kind>
    ensures { result ≡ kind_at w.now c.now }
{
    w.kinds.get(Spelled { text: c }).copied()
}

/// The linearization of the class or module `c`.
pub(crate) fn lin<'w>(w: &'w World, c: &str) -> Option<&'w Names>
    ensures { option_copied result ≡ lin_at w.now c.now }
{
    w.lins.get(Spelled { text: c })
}

/// The method `name` that the class or module `owner` declares: one of the class object where `meta` is true, one of instances
/// otherwise.
pub(crate) fn method<'w>(w: &'w World, owner: &Name, meta: bool, name: &str) -> Option<&'w Method>
    ensures { option_copied result ≡ method_at w.now owner.now meta name.now }
{
    if meta {
        method_in(w.own_methods.get(owner), name)
    } else {
        method_in(w.methods.get(owner), name)
    }
}

// The method in a table, where there is one.
fn method_in<'w>(table: Option<&'w IndexMap<Name, Method>>, name: &str) -> Option<&'w Method>
    ensures { option_copied result ≡ option_and_then (λ table. value_of name.now table.entries) (option_copied table.entry) }
{
    match table {
        None => None,
        Some(table) => table.get(Spelled { text: name }),
    }
}
