//! Signatures.

ghost use Rattle.std.specs.Prelude.{◌≡◌, List, map, IfOk, MatchResult};
ghost use Rattle.srb_rules.specs.Standing.{Stands};
ghost use Rattle.srb_terms.specs.declared.fact.Fact.{Fact};
ghost use Rattle.srb_sig.specs.Chains as chains;
ghost use Rattle.srb_sig.specs.Signatures as spec;
ghost use Rattle.srb_sig.specs.Views.{view_at, view_of};

use crate::chain::Said;
use crate::fitting::well_formed;
use crate::typing::{Typed, all_typed, types_of};
use crate::wrong::WrongPart;
use srb_terms::{Items, Names, NoMemory, Param, ParamShape, Shapes, SigText, Ty, World};
use std::alloc::Global;

/// What a well-formed signature says of a method.
#[derive(Drop)]
pub struct SigRead {
    /// The method's parameters in their order, with their types.
    pub params: Items<Param>,
    /// What it answers: `T.untyped` where it is `void`.
    pub result: Ty,
    /// Whether the method's body is checked against the result: not where it is `abstract`.
    pub checked: bool,
    /// The numbers of the wrong parts of the signature's type expressions, rising. The parts are numbered from 0 in the order of the text.
    pub bad: Items<u32>,
}

/// Why a signature says nothing.
#[derive(Debug, Drop)]
pub enum SigEnd {
    /// It is malformed, or doesn't fit the method's parameters.
    Malformed,
    /// Out of memory, or 2^32 parts or more.
    NoMemory,
}

impl From<NoMemory> for SigEnd {
    ghost use Rattle.srb_sig.specs.declared.signature.SigEnd.TheVariants as end;
    ghost use Rattle.std.specs.Prelude.{◌≡◌};

    ghost from_gives = { λ _ e. e ≡ end.NoMemory };

    fn from(_: NoMemory) -> SigEnd {
        SigEnd::NoMemory
    }
}

/// The numbers of wrong parts.
fn numbers(alloc: Global, wrong: &[WrongPart]) -> Result<Items<u32>, NoMemory>
    ensures { IfOk result (λ ns. ns ≡ map spec.part_of wrong.now) }
{
    let mut numbers = Vec::with_capacity(alloc, wrong.len())?;
    'wrong: for part in wrong {
        numbers.push(part.part)?;
    }
    Ok(Items::from_vec(numbers))
}

/// What a well-formed signature says.
fn sig_read<'a>(
    alloc: Global,
    w: &World,
    scope: &Names,
    params: &[ParamShape],
    said: Said<'a>,
) -> Result<SigRead, NoMemory>
    ensures { IfOk result (λ r. r ≡ spec.sig_read (view_at w.now) scope.now params.now (chains.seen_said said.entry)) }
{
    let Typed {
        named,
        result,
        notes,
    } = types_of(alloc, w, scope, said)?;
    Ok(SigRead {
        params: all_typed(alloc, &named, params)?,
        result,
        checked: !said.is_abstract,
        bad: numbers(alloc, notes.wrong.as_slice())?,
    })
}

/// What a signature says, or why it says nothing, by what the table holds.
fn sig_in(
    alloc: Global,
    w: &World,
    scope: &Names,
    params: &[ParamShape],
    s: &SigText,
) -> Result<SigRead, SigEnd>
    ensures { MatchResult result (spec.IsSigRead (view_at w.now) scope.now params.now s.now.tree) (spec.IsSigEnd params.now s.now.tree) }
{
    match well_formed(alloc, params, &s.tree)? {
        None => Err(SigEnd::Malformed),
        Some(said) => Ok(sig_read(alloc, w, scope, params, said)?),
    }
}

/// What a signature says of a method with these parameters, in the body with this scope: the list of the full names of the enclosing
/// bodies, the innermost first. A type expression with a wrong part counts as `T.untyped` as a whole. Where the table stands for some
/// facts, this is what the rules say of these facts.
pub fn read_sig(
    alloc: Global,
    w: &World,
    scope: &Names,
    params: &Shapes,
    s: &SigText,
) -> Result<SigRead, SigEnd>
    ensures table { MatchResult result (spec.IsSigRead (view_at w.now) scope.now params.now s.now.tree) (spec.IsSigEnd params.now s.now.tree) }
    ensures facts { (fs : List Fact) → Stands w.now fs → MatchResult result (spec.IsSigRead (view_of fs) scope.now params.now s.now.tree) (spec.IsSigEnd params.now s.now.tree) }
{
    read_sig_of(alloc, w, scope, params.as_slice(), s)
}

/// As `read_sig`, of parameters that stand in a slice.
pub fn read_sig_of(
    alloc: Global,
    w: &World,
    scope: &Names,
    params: &[ParamShape],
    s: &SigText,
) -> Result<SigRead, SigEnd>
    ensures table { MatchResult result (spec.IsSigRead (view_at w.now) scope.now params.now s.now.tree) (spec.IsSigEnd params.now s.now.tree) }
    ensures facts { (fs : List Fact) → Stands w.now fs → MatchResult result (spec.IsSigRead (view_of fs) scope.now params.now s.now.tree) (spec.IsSigEnd params.now s.now.tree) }
{
    sig_in(alloc, w, scope, params, s)
}
