//! The keywords of a call by their names. A call with many of them has tables, so that it takes no time that is the product of their numbers.

ghost use Rattle.std.specs.Prelude.{◌≡◌, ℕ, List, Some, true, bytes_eq, is_some, IfOk, OnOk, if◌then◌else◌};
ghost use Rattle.std.specs.List.{find, list_any};
ghost use Rattle.std.specs.Option.{option_copied, option_or};
ghost use Rattle.indexmap.specs.IndexMap.{get};
ghost use Rattle.srb_calls.specs.Counts as spec;
ghost use Rattle.srb_calls.specs.Keywords.{TellsGiven, TellsParams};

use crate::args::KeyArg;
use indexmap::IndexMap;
use srb_terms::{Name, NoMemory, Param, ParamKind};
use std::alloc::Global;

// With at most so many keywords a call has no tables.
const FEW: usize = 8;

/// The tables of a call: its method's keywords, and the names that are given. A call with few keywords has none.
#[derive(Drop)]
pub(crate) struct Keywords {
    params: Option<IndexMap<Name, Param>>,
    given: Option<IndexMap<Name, bool>>,
}

fn is_key(kind: ParamKind) -> bool
    ensures { result ≡ spec.is_key kind }
{
    match kind {
        ParamKind::Required => false,
        ParamKind::Optional => false,
        ParamKind::Key => true,
        ParamKind::KeyOptional => true,
        ParamKind::Block => false,
        ParamKind::Rest => false,
    }
}

// Whether a parameter is the keyword of this name.
fn is_keyword(name: &Name, p: &Param) -> bool
    ensures { result ≡ spec.is_keyword name.now p.now }
{
    is_key(p.kind) && p.name.as_str() == name.as_str()
}

// A copy that shares what the parameter holds.
fn copied(p: &Param) -> Result<Param, NoMemory>
    ensures { IfOk result (λ q. q ≡ p.now) }
{
    Ok(Param {
        name: p.name.copied()?,
        kind: p.kind,
        ty: p.ty.copied()?,
    })
}

// Adds a parameter where it is the first keyword of its name.
fn add_param(table: &mut IndexMap<Name, Param>, p: &Param) -> Result<(), NoMemory>
    ensures { OnOk result ((c : List ℕ) → get bytes_eq table.new c ≡ (if spec.is_keyword c p.now then option_or (get bytes_eq table.old c) (Some p.now) else get bytes_eq table.old c)) }
{
    if !is_key(p.kind) || table.contains_key(&p.name) {
        return Ok(());
    }
    table.insert(p.name.copied()?, copied(p)?)?;
    Ok(())
}

// The keywords of a method by name.
fn params_table(alloc: Global, params: &[Param]) -> Result<IndexMap<Name, Param>, NoMemory>
    ensures { IfOk result (λ table. (c : List ℕ) → get bytes_eq table c ≡ find (spec.is_keyword c) params.now) }
{
    let mut table = IndexMap::new(alloc);
    'params: for p in params {
        add_param(&mut table, p)?;
    }
    Ok(table)
}

// Adds a name.
fn add_name(table: &mut IndexMap<Name, bool>, name: &Name) -> Result<(), NoMemory>
    ensures { OnOk result ((c : List ℕ) → get bytes_eq table.new c ≡ (if bytes_eq name.now c then Some true else get bytes_eq table.old c)) }
{
    table.insert(name.copied()?, true)?;
    Ok(())
}

// The names that are given.
fn given_table(alloc: Global, keys: &[KeyArg]) -> Result<IndexMap<Name, bool>, NoMemory>
    ensures { IfOk result (λ table. (c : List ℕ) → is_some (get bytes_eq table c) ≡ list_any (λ k. bytes_eq k.name c) keys.now) }
{
    let mut table = IndexMap::new(alloc);
    'keys: for k in keys {
        add_name(&mut table, &k.name)?;
    }
    Ok(table)
}

/// The tables of a call, if it has many keywords.
pub(crate) fn tables(alloc: Global, params: &[Param], keys: &[KeyArg]) -> Result<Keywords, NoMemory>
    ensures params { IfOk result (λ k. TellsParams k.params params.now) }
    ensures given { IfOk result (λ k. TellsGiven k.given keys.now) }
{
    if keys.len() <= FEW || params.len() <= FEW {
        return Ok(Keywords {
            params: None,
            given: None,
        });
    }
    Ok(Keywords {
        params: Some(params_table(alloc, params)?),
        given: Some(given_table(alloc, keys)?),
    })
}

// The first parameter that is the keyword of this name.
fn first_keyword<'a>(params: &'a [Param], name: &Name) -> Option<&'a Param>
    ensures { option_copied result ≡ find (spec.is_keyword name.now) params.now }
{
    'params: for p in params {
        if is_keyword(name, p) {
            return Some(p);
        }
    }
    None
}

/// The parameter that takes the keyword argument of this name.
pub(crate) fn keyword<'a>(
    table: &'a Keywords,
    params: &'a [Param],
    name: &Name,
) -> Option<&'a Param>
    requires { TellsParams table.now.params params.now }
    ensures { option_copied result ≡ find (spec.is_keyword name.now) params.now }
{
    match &table.params {
        None => first_keyword(params, name),
        Some(by_name) => by_name.get(name),
    }
}

fn is_among(keys: &[KeyArg], name: &Name) -> bool
    ensures { result ≡ list_any (λ k. bytes_eq k.name name.now) keys.now }
{
    'keys: for k in keys {
        if k.name.as_str() == name.as_str() {
            return true;
        }
    }
    false
}

/// Whether an argument of this name is given.
pub(crate) fn is_given(table: &Keywords, keys: &[KeyArg], name: &Name) -> bool
    requires { TellsGiven table.now.given keys.now }
    ensures { result ≡ list_any (λ k. bytes_eq k.name name.now) keys.now }
{
    match &table.given {
        None => is_among(keys, name),
        Some(by_name) => by_name.contains_key(name),
    }
}
