//! The arguments of a call against the parameters that take them.

ghost use Rattle.std.specs.Prelude.{◌≡◌, ◌≤◌, IfOk};
ghost use Rattle.std.specs.List.{find};
ghost use Rattle.srb_shapes.specs.Lineages.{lineage_at};
ghost use Rattle.srb_calls.specs.Counts as counts;
ghost use Rattle.srb_calls.specs.Keywords.{TellsParams};
ghost use Rattle.srb_calls.specs.Matching as spec;
ghost use Rattle.srb_calls.specs.Matching.{taken};

use crate::args::{Arg, Args, KeyArg};
use crate::blocks::block_type;
use crate::keywords::{Keywords, keyword};
use crate::letters::{has_letter, put_in};
use crate::messages::{with_error, wrong_argument};
use srb_subtype::is_sub;
use srb_terms::{Diag, Items, Name, NoMemory, Param, ParamKind, Span, Ty, World};
use srb_types::show;
use std::alloc::Global;

// An argument against the type that is expected of it.
fn expected(
    alloc: Global,
    w: &World,
    m: &Name,
    p: &Name,
    want: &Ty,
    found: &Ty,
    span: Span,
    errors: Items<Diag>,
) -> Result<Items<Diag>, NoMemory>
    ensures { IfOk result (λ es. es ≡ spec.expected (lineage_at w.now) m.now p.now want.now found.now span errors) }
{
    if is_sub(w, found, want) {
        return Ok(errors);
    }
    let want = show(alloc, want)?;
    let found = show(alloc, found)?;
    let text = wrong_argument(alloc, p.as_str(), m.as_str(), want.as_str(), found.as_str())?;
    with_error(errors, span, 7002, text)
}

// An argument against the parameter that takes it.
#[tactic(auto, unfolding(crate::specs::Matching::taken, crate::specs::Letters::put_in))]
fn take_one(
    alloc: Global,
    w: &World,
    part: &Ty,
    args: &Args,
    m: &Name,
    p: &Param,
    found: &Ty,
    span: Span,
    errors: Items<Diag>,
) -> Result<Items<Diag>, NoMemory>
    ensures { IfOk result (λ es. es ≡ taken (lineage_at w.now) part.now args.now m.now p.now found.now span errors) }
{
    if !has_letter(&p.ty) {
        return expected(alloc, w, m, &p.name, &p.ty, found, span, errors);
    }
    let block = block_type(&args.block)?;
    let want = put_in(alloc, w, &p.ty, part, args.positional.as_slice(), &block)?;
    expected(alloc, w, m, &p.name, &want, found, span, errors)
}

// Arguments against one parameter that takes them all.
fn take_all(
    alloc: Global,
    w: &World,
    part: &Ty,
    args: &Args,
    m: &Name,
    p: &Param,
    given: &[Arg],
    errors: Items<Diag>,
) -> Result<Items<Diag>, NoMemory>
    ensures { IfOk result (λ es. es ≡ spec.all_taken (taken (lineage_at w.now) part.now args.now m.now) p.now given.now errors) }
{
    let mut errors = errors;
    'given: for a in given {
        errors = take_one(alloc, w, part, args, m, p, &a.ty, a.span, errors)?;
    }
    Ok(errors)
}

fn at_most_one(left: usize) -> usize
    ensures one { result ≡ spec.at_most_one left }
    ensures within { result ≤ left }
{
    if left == 0 { 0 } else { 1 }
}

// How many of the arguments that are left a parameter takes.
fn share(kind: ParamKind, left: usize) -> usize
    ensures share { result ≡ spec.share kind left }
    ensures within { result ≤ left }
{
    match kind {
        ParamKind::Required => at_most_one(left),
        ParamKind::Optional => at_most_one(left),
        ParamKind::Key => 0,
        ParamKind::KeyOptional => 0,
        ParamKind::Block => 0,
        ParamKind::Rest => left,
    }
}

// Arguments by place.
fn take_places(
    alloc: Global,
    w: &World,
    part: &Ty,
    args: &Args,
    m: &Name,
    params: &[Param],
    errors: Items<Diag>,
) -> Result<Items<Diag>, NoMemory>
    ensures { IfOk result (λ es. es ≡ spec.places_taken (taken (lineage_at w.now) part.now args.now m.now) params.now args.now.positional errors) }
{
    let mut errors = errors;
    let mut rest = args.positional.as_slice();
    'params: for p in params {
        let (given, left) = rest.split_at(share(p.kind, rest.len()));
        errors = take_all(alloc, w, part, args, m, p, given, errors)?;
        rest = left;
    }
    Ok(errors)
}

// A keyword argument.
fn take_key(
    alloc: Global,
    w: &World,
    part: &Ty,
    args: &Args,
    m: &Name,
    table: &Keywords,
    params: &[Param],
    k: &KeyArg,
    errors: Items<Diag>,
) -> Result<Items<Diag>, NoMemory>
    requires { TellsParams table.now.params params.now }
    ensures { IfOk result (λ es. es ≡ spec.key_taken (taken (lineage_at w.now) part.now args.now m.now) (find (counts.is_keyword k.now.name) params.now) k.now errors) }
{
    match keyword(table, params, &k.name) {
        None => Ok(errors),
        Some(p) => take_one(alloc, w, part, args, m, p, &k.ty, k.span, errors),
    }
}

// Keyword arguments.
fn take_keys(
    alloc: Global,
    w: &World,
    part: &Ty,
    args: &Args,
    m: &Name,
    table: &Keywords,
    params: &[Param],
    errors: Items<Diag>,
) -> Result<Items<Diag>, NoMemory>
    requires { TellsParams table.now.params params.now }
    ensures { IfOk result (λ es. es ≡ spec.keys_taken (taken (lineage_at w.now) part.now args.now m.now) params.now args.now.keys errors) }
{
    let mut errors = errors;
    'keys: for k in args.keys.as_slice() {
        errors = take_key(alloc, w, part, args, m, table, params, k, errors)?;
    }
    Ok(errors)
}

/// What the arguments of a call of `m` on a part add to the errors, where their count is right.
pub(crate) fn take_arguments(
    alloc: Global,
    w: &World,
    part: &Ty,
    args: &Args,
    m: &Name,
    table: &Keywords,
    params: &[Param],
    errors: Items<Diag>,
) -> Result<Items<Diag>, NoMemory>
    requires { TellsParams table.now.params params.now }
    ensures { IfOk result (λ es. es ≡ spec.arguments_taken (taken (lineage_at w.now) part.now args.now m.now) params.now args.now errors) }
{
    let errors = take_places(alloc, w, part, args, m, params, errors)?;
    take_keys(alloc, w, part, args, m, table, params, errors)
}
