//! Whether the arguments of a call are as many as the parameters ask for.

ghost use Rattle.std.specs.Prelude.{◌≡◌, IfOk};
ghost use Rattle.std.specs.Option.{option_copied, option_map};
ghost use Rattle.srb_calls.specs.Counts as spec;
ghost use Rattle.srb_calls.specs.Keywords.{TellsGiven, TellsParams};
ghost use Rattle.srb_calls.specs.Messages as messages;

use crate::args::{Arg, KeyArg};
use crate::keywords::{Keywords, is_given, keyword};
use crate::messages::{missing_keyword, too_few, too_many, unknown_keyword};
use srb_terms::{Name, NoMemory, Param, ParamKind, Words};
use std::alloc::Global;

// How many arguments by place are left after a parameter that must have one.
fn left_of_few(kind: ParamKind, count: usize) -> Option<usize>
    ensures { result ≡ spec.left_of_few kind count }
{
    match kind {
        ParamKind::Required => { if count == 0 { None } else { Some(count - 1) } }
        ParamKind::Optional => Some(count),
        ParamKind::Key => Some(count),
        ParamKind::KeyOptional => Some(count),
        ParamKind::Block => Some(count),
        ParamKind::Rest => Some(count),
    }
}

// Whether so many arguments by place are too few.
fn are_few(params: &[Param], count: usize) -> bool
    ensures { result ≡ spec.are_few params.now count }
{
    let mut left = count;
    'params: for p in params {
        match left_of_few(p.kind, left) {
            None => {
                return true;
            }
            Some(count) => {
                left = count;
            }
        }
    }
    false
}

// How many arguments by place are left after a parameter that may take one.
fn left_of_many(kind: ParamKind, count: usize) -> Option<usize>
    ensures { result ≡ spec.left_of_many kind count }
{
    match kind {
        ParamKind::Required => Some(count.saturating_sub(1)),
        ParamKind::Optional => Some(count.saturating_sub(1)),
        ParamKind::Key => Some(count),
        ParamKind::KeyOptional => Some(count),
        ParamKind::Block => Some(count),
        ParamKind::Rest => None,
    }
}

// Whether so many arguments by place are too many.
fn are_many(params: &[Param], count: usize) -> bool
    ensures { result ≡ spec.are_many params.now count }
{
    let mut left = count;
    'params: for p in params {
        match left_of_many(p.kind, left) {
            None => {
                return false;
            }
            Some(count) => {
                left = count;
            }
        }
    }
    left != 0
}

fn is_required_key(kind: ParamKind) -> bool
    ensures { result ≡ spec.is_required_key kind }
{
    match kind {
        ParamKind::Required => false,
        ParamKind::Optional => false,
        ParamKind::Key => true,
        ParamKind::KeyOptional => false,
        ParamKind::Block => false,
        ParamKind::Rest => false,
    }
}

// The first keyword argument that no parameter takes.
fn unknown<'a>(table: &Keywords, params: &[Param], keys: &'a [KeyArg]) -> Option<&'a Name>
    requires { TellsParams table.now.params params.now }
    ensures { option_copied result ≡ spec.unknown params.now keys.now }
{
    'keys: for k in keys {
        if keyword(table, params, &k.name).is_none() {
            return Some(&k.name);
        }
    }
    None
}

fn is_left_out(table: &Keywords, keys: &[KeyArg], p: &Param) -> bool
    requires { TellsGiven table.now.given keys.now }
    ensures { result ≡ spec.is_left_out keys.now p.now }
{
    is_required_key(p.kind) && !is_given(table, keys, &p.name)
}

// The first keyword that may not be left out and isn't given.
fn left_out<'a>(table: &Keywords, keys: &[KeyArg], params: &'a [Param]) -> Option<&'a Name>
    requires { TellsGiven table.now.given keys.now }
    ensures { option_copied result ≡ spec.left_out keys.now params.now }
{
    'params: for p in params {
        if is_left_out(table, keys, p) {
            return Some(&p.name);
        }
    }
    None
}

fn missing(alloc: Global, m: &Name, k: Option<&Name>) -> Result<Option<Words>, NoMemory>
    ensures { IfOk result (λ text. text ≡ option_map (λ k. messages.missing_keyword k m.now) (option_copied k.entry)) }
{
    match k {
        None => Ok(None),
        Some(k) => Ok(Some(missing_keyword(alloc, k.as_str(), m.as_str())?)),
    }
}

// The first fault of keywords.
fn keyword_fault(
    alloc: Global,
    table: &Keywords,
    m: &Name,
    params: &[Param],
    keys: &[KeyArg],
) -> Result<Option<Words>, NoMemory>
    requires params { TellsParams table.now.params params.now }
    requires given { TellsGiven table.now.given keys.now }
    ensures { IfOk result (λ text. text ≡ spec.keyword_fault m.now params.now keys.now) }
{
    match unknown(table, params, keys) {
        Some(k) => Ok(Some(unknown_keyword(alloc, k.as_str(), m.as_str())?)),
        None => missing(alloc, m, left_out(table, keys, params)),
    }
}

/// The text of the first wrong count of a call of `m`. It takes no memory where there is none.
#[tactic(auto, unfolding(crate::specs::Counts::count_fault))]
pub(crate) fn count_fault(
    alloc: Global,
    table: &Keywords,
    m: &Name,
    params: &[Param],
    positional: &[Arg],
    keys: &[KeyArg],
) -> Result<Option<Words>, NoMemory>
    requires params { TellsParams table.now.params params.now }
    requires given { TellsGiven table.now.given keys.now }
    ensures { IfOk result (λ text. text ≡ spec.count_fault m.now params.now positional.now keys.now) }
{
    if are_few(params, positional.len()) {
        return Ok(Some(too_few(alloc, m.as_str())?));
    }
    if are_many(params, positional.len()) {
        return Ok(Some(too_many(alloc, m.as_str())?));
    }
    keyword_fault(alloc, table, m, params, keys)
}
