//! The outlines of types and of `sig` statements, as trees that are read from source have them.

ghost use Rattle.std.specs.Prelude.{◌≡◌, [], ◌∷◌, IfOk};
ghost use Rattle.srb_terms.specs.declared.outline.NodeKind.TheVariants as kind;
ghost use Rattle.srb_builtin.specs.Outlines as spec;

use srb_terms::{Items, Label, NoMemory, NodeKind, Outline, Words};
use std::alloc::Global;

// The outline of a kind, with words and parts.
fn outline(
    alloc: Global,
    kind: NodeKind,
    words: &str,
    parts: Items<Outline>,
) -> Result<Outline, NoMemory>
    ensures { IfOk result (λ o. o ≡ spec.outline kind words.now parts) }
{
    let words = Words::from_str(alloc, words)?;
    Ok(Outline {
        label: Label { kind, words },
        parts,
    })
}

// The outline without parts.
fn leaf(alloc: Global, kind: NodeKind, words: &str) -> Result<Outline, NoMemory>
    ensures { IfOk result (λ o. o ≡ spec.outline kind words.now []) }
{
    outline(alloc, kind, words, Items::new(alloc))
}

// Lists of a few parts.
fn one(alloc: Global, part: Outline) -> Result<Items<Outline>, NoMemory>
    ensures { IfOk result (λ parts. parts ≡ part ∷ []) }
{
    let mut parts = Items::new(alloc);
    parts.push(part)?;
    Ok(parts)
}

fn two(alloc: Global, first: Outline, second: Outline) -> Result<Items<Outline>, NoMemory>
    ensures { IfOk result (λ parts. parts ≡ first ∷ second ∷ []) }
{
    let mut parts = one(alloc, first)?;
    parts.push(second)?;
    Ok(parts)
}

/// A constant of this name.
pub fn constant(alloc: Global, name: &str) -> Result<Outline, NoMemory>
    ensures { IfOk result (λ o. o ≡ spec.constant name.now) }
{
    leaf(alloc, NodeKind::Constant, name)
}

// Arguments in brackets.
fn brackets(alloc: Global, arguments: Items<Outline>) -> Result<Outline, NoMemory>
    ensures { IfOk result (λ o. o ≡ spec.brackets arguments) }
{
    outline(alloc, NodeKind::Brackets, "", arguments)
}

/// `name: X` among arguments.
pub fn keyword(alloc: Global, name: &str, value: Outline) -> Result<Outline, NoMemory>
    ensures { IfOk result (λ o. o ≡ spec.keyword name.now value) }
{
    outline(alloc, NodeKind::Keyword, name, one(alloc, value)?)
}

// `T` with one suffix.
fn t_one(alloc: Global, suffix: Outline) -> Result<Outline, NoMemory>
    ensures { IfOk result (λ o. o ≡ spec.t_with (suffix ∷ [])) }
{
    let t = constant(alloc, "T")?;
    outline(alloc, NodeKind::Post, "", two(alloc, t, suffix)?)
}

/// `T.untyped` or `T.noreturn`, by its name.
pub fn t_word(alloc: Global, name: &str) -> Result<Outline, NoMemory>
    ensures { IfOk result (λ o. o ≡ spec.t_word name.now) }
{
    t_one(alloc, leaf(alloc, NodeKind::SuffixCall, name)?)
}

/// `T::Boolean`.
pub fn t_boolean(alloc: Global) -> Result<Outline, NoMemory>
    ensures { IfOk result (λ o. o ≡ spec.t_boolean) }
{
    t_one(alloc, leaf(alloc, NodeKind::SuffixConstant, "Boolean")?)
}

// A call as a suffix, with its arguments.
fn suffix_call(alloc: Global, name: &str, arguments: Items<Outline>) -> Result<Outline, NoMemory>
    ensures { IfOk result (λ o. o ≡ spec.outline kind.SuffixCall name.now (spec.brackets arguments ∷ [])) }
{
    let arguments = brackets(alloc, arguments)?;
    outline(alloc, NodeKind::SuffixCall, name, one(alloc, arguments)?)
}

/// `T.nilable(X)`.
pub fn t_nilable(alloc: Global, inner: Outline) -> Result<Outline, NoMemory>
    ensures { IfOk result (λ o. o ≡ spec.t_nilable inner) }
{
    let arguments = one(alloc, inner)?;
    t_one(alloc, suffix_call(alloc, "nilable", arguments)?)
}

// `T::Array` or `T::Hash` with what stands in its brackets.
fn t_indexed(alloc: Global, name: &str, arguments: Items<Outline>) -> Result<Outline, NoMemory>
    ensures { IfOk result (λ o. o ≡ spec.t_indexed name.now arguments) }
{
    let t = constant(alloc, "T")?;
    let mut parts = two(alloc, t, leaf(alloc, NodeKind::SuffixConstant, name)?)?;
    parts.push(outline(alloc, NodeKind::Index, "", arguments)?)?;
    outline(alloc, NodeKind::Post, "", parts)
}

/// `T::Array[X]`.
pub fn t_array(alloc: Global, inner: Outline) -> Result<Outline, NoMemory>
    ensures { IfOk result (λ o. o ≡ spec.t_array inner) }
{
    let arguments = one(alloc, inner)?;
    t_indexed(alloc, "Array", arguments)
}

/// `T::Hash[X, Y]`.
pub fn t_hash(alloc: Global, key: Outline, value: Outline) -> Result<Outline, NoMemory>
    ensures { IfOk result (λ o. o ≡ spec.t_hash key value) }
{
    let arguments = two(alloc, key, value)?;
    t_indexed(alloc, "Hash", arguments)
}

// A call without a receiver, with its arguments.
fn call(alloc: Global, name: &str, arguments: Items<Outline>) -> Result<Outline, NoMemory>
    ensures { IfOk result (λ o. o ≡ spec.outline kind.Call name.now (spec.brackets arguments ∷ [])) }
{
    let arguments = brackets(alloc, arguments)?;
    outline(alloc, NodeKind::Call, name, one(alloc, arguments)?)
}

/// The chain of a signature with these keywords and this result.
#[tactic(auto, using(crate::proofs::Steps::chain_more))]
pub fn chain(
    alloc: Global,
    keywords: Items<Outline>,
    result_type: Outline,
) -> Result<Outline, NoMemory>
    ensures { IfOk result (λ o. o ≡ spec.chain keywords result_type) }
{
    let result_type = one(alloc, result_type)?;
    if keywords.is_empty() {
        return call(alloc, "returns", result_type);
    }
    let params = call(alloc, "params", keywords)?;
    let returns = suffix_call(alloc, "returns", result_type)?;
    outline(alloc, NodeKind::Post, "", two(alloc, params, returns)?)
}

/// A `sig` statement whose block holds this one.
pub fn sig(alloc: Global, statement: Outline) -> Result<Outline, NoMemory>
    ensures { IfOk result (λ o. o ≡ spec.sig statement) }
{
    let body = outline(alloc, NodeKind::Body, "", one(alloc, statement)?)?;
    let block = outline(alloc, NodeKind::Block, "", one(alloc, body)?)?;
    outline(alloc, NodeKind::Call, "sig", one(alloc, block)?)
}
