//! The variables that are visible.

ghost use Rattle.std.specs.Prelude.{◌≡◌, ◌||◌, ◌++◌, ℕ, List, [], bytes_eq, if◌then◌else◌, true, IfOk, OnOk};
ghost use Rattle.srb_terms.specs.NameSets.{has_name};
ghost use Rattle.srb_judgement.specs.Seen.{names_in};

use indexmap::IndexSet;
use srb_terms::{Name, Names, NoMemory};
use std::alloc::Global;
use std::marker::Model;
use std::mem;
use std::sync::Arc;

/// How many names wait until they go into the set.
const MOST_RECENT: u8 = 16;

/// How many wait where another one shares the set, so that it has to be copied.
const MOST_BESIDE_SHARED: u8 = 64;

/// Variables that are visible, which a contract sees as the list of their names. Copies share what they hold: a copy takes no memory.
///
/// A name is put into a short list. Once that is long, its names go into a set, at once where no other one shares it, and else, into a copy
/// of it, once the list is much longer.
#[derive(Drop)]
pub struct Visible {
    settled: Option<Arc<IndexSet<Name>>>,
    recent: Names,
    /// How many names the list has.
    count: u8,
}

impl Model for Visible {
    ghost use Rattle.std.specs.Prelude.{List, ℕ, ◌++◌};
    ghost use Rattle.srb_judgement.specs.Seen.{names_in};

    ghost Value = { List (List ℕ) };

    ghost view = { λ v. v.recent ++ names_in (λ set. set.value.keys) v.settled };
}

impl Visible {
    /// No variables. It takes no memory.
    pub fn new() -> Visible
        ensures { result ≡ [] }
    {
        Visible {
            settled: None,
            recent: Names::new(),
            count: 0,
        }
    }

    /// A copy. It takes no memory, and fails only at 2^63 copies.
    pub fn copied(&self) -> Result<Visible, NoMemory>
        ensures { IfOk result (λ v. v ≡ self.now) }
    {
        let recent = self.recent.copied()?;
        let settled = match &self.settled {
            None => None,
            Some(names) => Some(names.clone()?),
        };
        Ok(Visible {
            settled,
            recent,
            count: self.count,
        })
    }

    /// Whether the variable is one of them.
    pub fn contains(&self, name: &Name) -> bool
        ensures { result ≡ has_name name.now self.now }
    {
        self.recent.contains(name) || has_settled(&self.settled, name)
    }

    /// The list and the set, one after the other.
    pub fn parts(&self) -> (&Names, &[Name])
        ensures { self.now ≡ result.0.now ++ result.1.now }
    {
        match &self.settled {
            None => (&self.recent, &[]),
            Some(names) => (&self.recent, names.as_slice()),
        }
    }

    /// Adds a variable.
    pub fn add(&mut self, alloc: Global, name: Name) -> Result<(), NoMemory>
        ensures { OnOk result ((other : List ℕ) → has_name other self.new ≡ (if bytes_eq name other then true else has_name other self.old)) }
    {
        let old = mem::replace(self, Visible::new());
        *self = old.with(alloc, name)?;
        Ok(())
    }

    /// These variables and one more.
    fn with(self, alloc: Global, name: Name) -> Result<Visible, NoMemory>
        ensures { IfOk result (λ v. (other : List ℕ) → has_name other v ≡ (if bytes_eq name other then true else has_name other self)) }
    {
        let Visible {
            settled,
            recent,
            count,
        } = self;
        let recent = recent.pushed(alloc, name)?;
        if count < MOST_RECENT {
            return Ok(Visible {
                settled,
                recent,
                count: count + 1,
            });
        }
        match settled {
            None => settle(alloc, IndexSet::new(alloc), &recent),
            Some(names) => match Arc::try_unwrap(names) {
                Ok(names) => settle(alloc, names, &recent),
                Err(shared) => beside_shared(alloc, shared, recent, count),
            },
        }
    }
}

/// Whether the name stands in the set.
fn has_settled(settled: &Option<Arc<IndexSet<Name>>>, name: &Name) -> bool
    ensures { result ≡ has_name name.now (names_in (λ set. set.value.keys) settled.now) }
{
    match settled {
        None => false,
        Some(names) => has(names, name),
    }
}

/// Whether the set has a name.
fn has(names: &IndexSet<Name>, name: &Name) -> bool
    ensures { result ≡ has_name name.now names.now.keys }
{
    names.contains(name)
}

/// The variables of a set that is shared and of so many names. They go into a copy of it where these are many.
fn beside_shared(
    alloc: Global,
    shared: Arc<IndexSet<Name>>,
    recent: Names,
    count: u8,
) -> Result<Visible, NoMemory>
    ensures { IfOk result (λ v. (other : List ℕ) → has_name other v ≡ has_name other (recent ++ shared.value.keys)) }
{
    if count < MOST_BESIDE_SHARED {
        return Ok(Visible {
            settled: Some(shared),
            recent,
            count: count + 1,
        });
    }
    settle_in_copy(alloc, &shared, &recent)
}

/// The variables of a set and of a list, all in a copy of the set.
fn settle_in_copy(
    alloc: Global,
    names: &IndexSet<Name>,
    recent: &Names,
) -> Result<Visible, NoMemory>
    ensures { IfOk result (λ v. (other : List ℕ) → has_name other v ≡ has_name other (recent.now ++ names.now.keys)) }
{
    let copy = copied_set(alloc, names)?;
    settle(alloc, copy, recent)
}

/// The variables of a set and of a list, all in the set.
fn settle(alloc: Global, names: IndexSet<Name>, recent: &Names) -> Result<Visible, NoMemory>
    ensures { IfOk result (λ v. (other : List ℕ) → has_name other v ≡ has_name other (recent.now ++ names.keys)) }
{
    let mut names = names;
    put_all(recent, &mut names)?;
    Ok(Visible {
        settled: Some(Arc::new(alloc, names)?),
        recent: Names::new(),
        count: 0,
    })
}

/// A copy of a set.
fn copied_set(alloc: Global, names: &IndexSet<Name>) -> Result<IndexSet<Name>, NoMemory>
    ensures { IfOk result (λ copy. (other : List ℕ) → has_name other copy.keys ≡ has_name other names.now.keys) }
{
    let mut copy = IndexSet::new(alloc);
    'names: for name in names.as_slice() {
        put(name.copied()?, &mut copy)?;
    }
    Ok(copy)
}

/// Puts the names of a list into a set.
fn put_all(names: &Names, set: &mut IndexSet<Name>) -> Result<(), NoMemory>
    ensures { OnOk result ((other : List ℕ) → has_name other set.new.keys ≡ (has_name other names.now || has_name other set.old.keys)) }
{
    let mut at = names;
    'names: while let Some((name, rest)) = at.split() {
        put(name.copied()?, set)?;
        at = rest;
    }
    Ok(())
}

/// Puts a name into a set.
fn put(name: Name, set: &mut IndexSet<Name>) -> Result<(), NoMemory>
    ensures { OnOk result ((other : List ℕ) → has_name other set.new.keys ≡ (if bytes_eq name other then true else has_name other set.old.keys)) }
{
    set.insert(name)?;
    Ok(())
}
