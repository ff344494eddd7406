//! What follows a `sig` statement.

ghost use Rattle.std.specs.Prelude.{◌≡◌, IfOk, OnOk};
ghost use Rattle.std.specs.Option.{option_copied};
ghost use Rattle.srb_signatures.specs.Errors as spec;
ghost use Rattle.srb_signatures.specs.Fitting as fitting;

use crate::attribute::fits_attributes;
use crate::missing::add_missing;
use rb_rewrite::declaring::{attribute_of, is_sig};
use rb_rewrite::signature::{signature_of, well_formed};
use rb_tree::syntax::{Node, Tree};
use srb_terms::{Diag, Items, NoMemory, Words};
use std::alloc::Global;

/// Whether a statement is a method, and the signature a well-formed one of it.
#[tactic(auto, unfolding(crate::specs::Fitting::fits_method))]
fn fits_method(alloc: Global, sig: &Tree, statement: &Tree) -> Result<bool, NoMemory>
    ensures { IfOk result (λ b. b ≡ fitting.fits_method sig.now statement.now) }
{
    match statement.get() {
        Node::Def { parameters, .. } => {
            match well_formed(alloc, parameters.as_slice(), sig)? {
                Some(_) => Ok(true),
                None => Ok(false),
            }
        }
        _ => Ok(false),
    }
}

/// Whether the signature is a well-formed one of the statement.
fn fits(alloc: Global, sig: &Tree, statement: &Tree) -> Result<bool, NoMemory>
    ensures { IfOk result (λ b. b ≡ fitting.fits sig.now statement.now) }
{
    match attribute_of(statement) {
        None => fits_method(alloc, sig, statement),
        Some(attribute) => Ok(fits_attributes(
            attribute.kind,
            signature_of(sig),
            attribute.arguments,
        )),
    }
}

/// The error of a malformed signature.
fn malformed(alloc: Global, sig: &Tree) -> Result<Diag, NoMemory>
    ensures { IfOk result (λ d. d ≡ spec.malformed sig.now) }
{
    Ok(Diag {
        span: sig.span(),
        number: 5003,
        text: Words::from_str(alloc, "malformed signature")?,
    })
}

/// Adds the errors of a statement and the `sig` statement directly before it, if there is one. `needed` says whether methods need signatures.
pub fn with_followed(
    alloc: Global,
    needed: bool,
    sig: Option<&Tree>,
    statement: &Tree,
    found: &mut Items<Diag>,
) -> Result<(), NoMemory>
    ensures { OnOk result (found.new ≡ spec.with_followed needed (option_copied sig.entry) statement.now found.old) }
{
    match sig {
        None => {
            if needed {
                add_missing(alloc, statement, found)
            } else {
                Ok(())
            }
        }
        Some(sig) => {
            if fits(alloc, sig, statement)? {
                Ok(())
            } else {
                found.push(malformed(alloc, sig)?)
            }
        }
    }
}

/// Adds an error where a body ends with a `sig` statement.
pub fn with_last(alloc: Global, sig: Option<&Tree>, found: &mut Items<Diag>) -> Result<(), NoMemory>
    ensures { OnOk result (found.new ≡ spec.with_last (option_copied sig.entry) found.old) }
{
    match sig {
        None => Ok(()),
        Some(sig) => found.push(malformed(alloc, sig)?),
    }
}

/// A statement that is a `sig` statement.
pub fn sig_if<'a>(statement: &'a Tree) -> Option<&'a Tree>
    ensures { option_copied result ≡ spec.sig_if statement.now }
{
    if is_sig(statement) {
        Some(statement)
    } else {
        None
    }
}
