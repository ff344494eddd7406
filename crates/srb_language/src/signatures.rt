//! Signatures of methods.

ghost use Rattle.std.specs.Prelude.{◌≡◌, map, option_map, IfOk};
ghost use Rattle.srb_judgement.specs.Views.{seen_signature, seen_typed};
ghost use Rattle.srb_sig.specs.Signatures.{IsSigRead};
ghost use Rattle.srb_language.specs.Asked as spec;
ghost use Rattle.srb_language.specs.Knowledge.{knowledge_at};
ghost use Rattle.rb_outline.specs.Outlines.{outline_of};

use rb_outline::outline;
use rb_tree::syntax::Tree;
use srb_judgement::signature::{Signature, Typed};
use srb_sig::{SigEnd, SigRead, read_sig_of};
use srb_terms::{Items, Names, NoMemory, Param, ParamShape, SigText, Ty, World};
use std::alloc::{AllocError, Global};

/// The parameters with their types.
fn typed(alloc: Global, params: Items<Param>) -> Result<Items<Typed>, NoMemory>
    ensures { IfOk result (λ ts. map seen_typed ts ≡ map spec.typed_param params) }
{
    let mut typed = Vec::with_capacity(alloc, params.len())?;
    'params: for param in params.into_vec() {
        let Param { name, ty, .. } = param;
        typed.push(Typed { name, ty })?;
    }
    Ok(Items::from_vec(typed))
}

/// The type against which results are checked.
fn checked_result(checked: bool, ty: Ty) -> Option<Ty>
    ensures { result ≡ spec.checked_result checked ty }
{
    if checked { Some(ty) } else { None }
}

/// What a well-formed signature says.
fn signature_read(alloc: Global, read: SigRead) -> Result<Signature, NoMemory>
    ensures { IfOk result (λ s. seen_signature s ≡ spec.seen_sig read) }
{
    let SigRead {
        params,
        result,
        checked,
        ..
    } = read;
    Ok(Signature {
        params: typed(alloc, params)?,
        result: checked_result(checked, result),
    })
}

/// The signature of a method with these parameters that a `sig` statement is; `None` where it is malformed.
pub fn signature(
    alloc: Global,
    w: &World,
    scope: &Names,
    sig: &Tree,
    params: &[ParamShape],
) -> Result<Option<Signature>, NoMemory>
    ensures { IfOk result (λ s. option_map seen_signature s ≡ spec.signature_of (knowledge_at w.now) scope.now (outline_of sig.now) params.now) }
{
    let text = SigText {
        tree: outline(alloc, sig)?,
    };
    match read_sig_of(alloc, w, scope, params, &text) {
        Ok(read) => Ok(Some(signature_read(alloc, read)?)),
        Err(SigEnd::Malformed) => Ok(None),
        Err(SigEnd::NoMemory) => Err(AllocError),
    }
}
