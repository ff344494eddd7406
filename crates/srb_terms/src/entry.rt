ghost use Rattle.std.specs.Prelude.{◌≡◌};
ghost use Rattle.std.specs.Borrow.{Lends, sem};
ghost use Rattle.srb_terms.specs.contracts.entry.Entry.{the_row};

use crate::Name;
use std::marker::Model;

/// A path and its value, which a contract sees as the pair of the two.
#[derive(Debug, Drop)]
pub struct Entry<V> {
    path: Name,
    value: V,
}

impl<V> Model for Entry<V> {
    ghost use Rattle.std.specs.Prelude.{ℕ, List};

    ghost Value = { List ℕ × V };

    ghost view = { λ e. (e.path, e.value) };
}

impl<V> Entry<V> {
    /// The entry with this path and this value.
    pub fn new(path: Name, value: V) -> Entry<V>
        ensures { result ≡ (path, value) }
    {
        Entry { path, value }
    }

    /// The path, with `/` between its parts.
    pub fn path(&self) -> &Name
        ensures { result.now ≡ self.now.0 }
    {
        &self.path
    }

    /// The value.
    pub fn value(&self) -> &V
        ensures { result.now ≡ self.now.1 }
    {
        &self.value
    }

    /// The value, to be changed in its place.
    pub fn value_mut(&mut self) -> &mut V
        ensures* writes_back { sem 𝓛 (Lends (the_row V.row) V.row self.entry result (λ w. (self.old.0, w))) }
        ensures value { result.now ≡ self.old.1 }
    {
        &mut self.value
    }
}
