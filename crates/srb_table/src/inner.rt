ghost use Rattle.std.specs.Prelude.{◌≡◌, ◌≢◌, ◌<◌, ◌+◌, ℕ, List, Some, OnOk, IfOk, MatchOption, bytes_eq, drop, false, length, slice_index, ◌&&◌, if◌then◌else◌};
ghost use Rattle.std.specs.List.{fold};
ghost use Rattle.srb_table.specs.Steps.{inner_after};
ghost use Rattle.std.specs.Option.{option_and_then};
ghost use Rattle.indexmap.specs.IndexMap.{get};
ghost use Rattle.srb_terms.specs.Worlds.{has_colon, inner_at, joined, value_of};

use indexmap::IndexMap;
use srb_summary::Summary;
use srb_terms::{Fact, Kind, Name, NoMemory};
use std::alloc::Global;

/// Full names by the scope's name and the last part.
pub type Inner = IndexMap<Name, IndexMap<Name, Name>>;

/// Adds the names that the facts of some files declare.
pub fn add_inner(alloc: Global, table: &mut Inner, files: &[Summary]) -> Result<(), NoMemory>
    ensures { OnOk result ((scope last : List ℕ) → has_colon last ≡ false → inner_at scope last table.new.entries ≡ fold (fold (inner_after (joined scope last))) (inner_at scope last table.old.entries) files.now) }
{
    'files: for file in files {
        add_inner_of_file(alloc, table, file.facts())?;
    }
    Ok(())
}

/// Adds the names that the facts of a file declare.
pub fn add_inner_of_file(alloc: Global, table: &mut Inner, facts: &[Fact]) -> Result<(), NoMemory>
    ensures { OnOk result ((scope last : List ℕ) → has_colon last ≡ false → inner_at scope last table.new.entries ≡ fold (inner_after (joined scope last)) (inner_at scope last table.old.entries) facts.now) }
{
    'facts: for fact in facts {
        add_inner_of_fact(alloc, table, fact)?;
    }
    Ok(())
}

// Adds the name that a fact declares.
fn add_inner_of_fact(alloc: Global, table: &mut Inner, fact: &Fact) -> Result<(), NoMemory>
    ensures { OnOk result ((scope last : List ℕ) → has_colon last ≡ false → inner_at scope last table.new.entries ≡ inner_after (joined scope last) (inner_at scope last table.old.entries) fact.now) }
{
    match fact {
        Fact::Scope { name, kind } => match kind {
            Kind::Class => add(alloc, table, name),
            Kind::Module => add(alloc, table, name),
            Kind::Value => Ok(()),
        },
        Fact::Value { name, .. } => add(alloc, table, name),
        Fact::Parent { .. } => Ok(()),
        Fact::Method { .. } => Ok(()),
        Fact::Ivar { .. } => Ok(()),
    }
}

// Adds a full name, if it has a scope.
fn add(alloc: Global, table: &mut Inner, name: &Name) -> Result<(), NoMemory>
    ensures { OnOk result ((scope last : List ℕ) → has_colon last ≡ false → inner_at scope last table.new.entries ≡ (if bytes_eq name.now (joined scope last) then Some name.now else inner_at scope last table.old.entries)) }
{
    match split(name.as_str()) {
        None => Ok(()),
        Some((scope, last)) => {
            let scope = Name::from_str(alloc, scope)?;
            put(alloc, table, &scope, Name::from_str(alloc, last)?, name)
        }
    }
}

// Puts a full name at its scope and its last part.
fn put(
    alloc: Global,
    table: &mut Inner,
    scope: &Name,
    last: Name,
    name: &Name,
) -> Result<(), NoMemory>
    ensures { OnOk result ((s l : List ℕ) → inner_at s l table.new.entries ≡ (if bytes_eq scope.now s && bytes_eq last l then Some name.now else inner_at s l table.old.entries)) }
{
    let old = replace(table, scope, IndexMap::new(alloc))?;
    let names = with_name(alloc, old, last, name)?;
    replace(table, scope, names)?;
    Ok(())
}

// Puts the names of a scope in place of the old ones, which are given back.
fn replace(
    table: &mut Inner,
    scope: &Name,
    names: IndexMap<Name, Name>,
) -> Result<Option<IndexMap<Name, Name>>, NoMemory>
    ensures old { IfOk result (λ old. old ≡ get bytes_eq table.old scope.now) }
    ensures new { OnOk result ((s : List ℕ) → get bytes_eq table.new s ≡ (if bytes_eq scope.now s then Some names else get bytes_eq table.old s)) }
{
    let old = table.insert(scope.copied()?, names)?;
    Ok(old)
}

// The names of a scope with one more, a new table where there was none.
fn with_name(
    alloc: Global,
    old: Option<IndexMap<Name, Name>>,
    last: Name,
    name: &Name,
) -> Result<IndexMap<Name, Name>, NoMemory>
    ensures { IfOk result (λ names. (l : List ℕ) → value_of l names.entries ≡ (if bytes_eq last l then Some name.now else option_and_then (λ table. value_of l table.entries) old)) }
{
    let mut names = match old {
        Some(names) => names,
        None => IndexMap::new(alloc),
    };
    names.insert(last, name.copied()?)?;
    Ok(names)
}

// The name's part before its last `::` and the part after it, in which no colon stands.
fn split(name: &str) -> Option<(&str, &str)>
    ensures { MatchOption result ((scope last : List ℕ) → has_colon last ≡ false → name.now ≢ joined scope last) (λ p. (name.now ≡ joined p.0.now p.1.now) × (has_colon p.1.now ≡ false)) }
{
    let at = last_colon(name.as_bytes())?;
    let (front, back) = name.split_at(at);
    let last = back.strip_prefix(":")?;
    match front.strip_suffix(":") {
        None => None,
        Some(scope) => Some((scope, last)),
    }
}

// Where the last colon stands.
fn last_colon(bytes: &[u8]) -> Option<usize>
    ensures { MatchOption result (has_colon bytes.now ≡ false) (λ at. (at < length bytes.now) × (slice_index bytes.now at ≡ 58) × (has_colon (drop (at + 1) bytes.now) ≡ false)) }
{
    let mut rest = bytes;
    while let Some((last, front)) = rest.split_last() {
        if *last == b':' {
            return Some(front.len());
        }
        rest = front;
    }
    None
}
