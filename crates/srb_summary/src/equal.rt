//! Whether two summaries are equal.

ghost use Rattle.std.specs.Prelude.{◌≡◌, ◌↔◌, IsTrue};
ghost use Rattle.srb_terms.specs.declared.fact.Fact.TheVariants as facts;

use crate::Summary;
use rb_outline::same_outline;
use srb_terms::{Fact, Given, How, Kind, Name, Names, ParamKind, ParamShape, SigText, TyText};

/// Whether two lists of names are equal.
fn same_names(a: &Names, b: &Names) -> bool
    ensures { IsTrue result ↔ (a.now ≡ b.now) }
{
    let mut left = a;
    let mut right = b;
    'left: while let Some((name, names)) = left.split() {
        match right.split() {
            None => return false,
            Some((other, others)) => {
                if !name.is_same(other) {
                    return false;
                }
                left = names;
                right = others;
            }
        }
    }
    right.is_empty()
}

/// Whether two kinds of parameters are equal.
fn same_param_kind(a: ParamKind, b: ParamKind) -> bool
    ensures { IsTrue result ↔ (a ≡ b) }
{
    a == b
}

/// Whether two kinds are equal.
fn same_kind(a: Kind, b: Kind) -> bool
    ensures { IsTrue result ↔ (a ≡ b) }
{
    a == b
}

/// Whether two ways are equal.
fn same_how(a: How, b: How) -> bool
    ensures { IsTrue result ↔ (a ≡ b) }
{
    a == b
}

/// Whether two parameters are equal.
fn same_shape(a: &ParamShape, b: &ParamShape) -> bool
    ensures { IsTrue result ↔ (a.now ≡ b.now) }
{
    same_param_kind(a.kind, b.kind) && a.name.is_same(&b.name)
}

/// Whether two lists of parameters are equal.
fn same_shapes(a: &[ParamShape], b: &[ParamShape]) -> bool
    ensures { IsTrue result ↔ (a.now ≡ b.now) }
{
    if a.len() != b.len() {
        return false;
    }
    'shapes: for index in 0..a.len() {
        if !same_shape(&a[index], &b[index]) {
            return false;
        }
    }
    true
}

/// Whether two texts of types are equal.
fn same_type(a: &TyText, b: &TyText) -> bool
    ensures { IsTrue result ↔ (a.now ≡ b.now) }
{
    same_outline(&a.tree, &b.tree)
}

/// Whether two texts of signatures are equal.
fn same_sig_text(a: &SigText, b: &SigText) -> bool
    ensures { IsTrue result ↔ (a.now ≡ b.now) }
{
    same_outline(&a.tree, &b.tree)
}

/// Whether two signatures are equal, or both are missing.
fn same_sig(a: &Option<SigText>, b: &Option<SigText>) -> bool
    ensures { IsTrue result ↔ (a.now ≡ b.now) }
{
    match a {
        None => match b {
            None => true,
            Some(_) => false,
        },
        Some(a) => match b {
            None => false,
            Some(b) => same_sig_text(a, b),
        },
    }
}

/// Whether what is told of two constants' types is equal.
fn same_given(a: &Given, b: &Given) -> bool
    ensures { IsTrue result ↔ (a.now ≡ b.now) }
{
    match a {
        Given::Literal(class) => match b {
            Given::Literal(other) => class.is_same(other),
            Given::Typed(_) | Given::Unknown => false,
        },
        Given::Typed(text) => match b {
            Given::Typed(other) => same_type(text, other),
            Given::Literal(_) | Given::Unknown => false,
        },
        Given::Unknown => match b {
            Given::Unknown => true,
            Given::Literal(_) | Given::Typed(_) => false,
        },
    }
}

/// Whether a fact is this scope.
fn is_scope(name: &Name, kind: Kind, fact: &Fact) -> bool
    ensures { IsTrue result ↔ (facts.Scope name.now kind ≡ fact.now) }
{
    match fact {
        Fact::Scope {
            name: other,
            kind: other_kind,
        } => same_kind(kind, *other_kind) && name.is_same(other),
        _ => false,
    }
}

/// Whether a fact is this parent.
fn is_parent(of: &Name, scope: &Names, to: &Names, how: How, fact: &Fact) -> bool
    ensures { IsTrue result ↔ (facts.Parent of.now scope.now to.now how ≡ fact.now) }
{
    match fact {
        Fact::Parent {
            of: other_of,
            scope: other_scope,
            to: other_to,
            how: other_how,
        } => {
            same_how(how, *other_how)
                && of.is_same(other_of)
                && same_names(to, other_to)
                && same_names(scope, other_scope)
        }
        _ => false,
    }
}

/// Whether a fact is this value constant.
fn is_value(name: &Name, scope: &Names, given: &Given, fact: &Fact) -> bool
    ensures { IsTrue result ↔ (facts.Value name.now scope.now given.now ≡ fact.now) }
{
    match fact {
        Fact::Value {
            name: other_name,
            scope: other_scope,
            given: other_given,
        } => {
            name.is_same(other_name)
                && same_names(scope, other_scope)
                && same_given(given, other_given)
        }
        _ => false,
    }
}

/// Whether a fact is this method.
fn is_method(
    owner: &Name,
    scope: &Names,
    meta: bool,
    name: &Name,
    params: &[ParamShape],
    sig: &Option<SigText>,
    fact: &Fact,
) -> bool
    ensures { IsTrue result ↔ (facts.Method owner.now scope.now meta name.now params.now sig.now ≡ fact.now) }
{
    match fact {
        Fact::Method {
            owner: other_owner,
            scope: other_scope,
            meta: other_meta,
            name: other_name,
            params: other_params,
            sig: other_sig,
        } => {
            meta == *other_meta
                && name.is_same(other_name)
                && owner.is_same(other_owner)
                && same_names(scope, other_scope)
                && same_shapes(params, other_params.as_slice())
                && same_sig(sig, other_sig)
        }
        _ => false,
    }
}

/// Whether a fact is this instance variable.
fn is_ivar(
    owner: &Name,
    scope: &Names,
    meta: bool,
    name: &Name,
    given: &TyText,
    fact: &Fact,
) -> bool
    ensures { IsTrue result ↔ (facts.Ivar owner.now scope.now meta name.now given.now ≡ fact.now) }
{
    match fact {
        Fact::Ivar {
            owner: other_owner,
            scope: other_scope,
            meta: other_meta,
            name: other_name,
            given: other_given,
        } => {
            meta == *other_meta
                && name.is_same(other_name)
                && owner.is_same(other_owner)
                && same_names(scope, other_scope)
                && same_type(given, other_given)
        }
        _ => false,
    }
}

/// Whether two facts are equal.
fn same_fact(a: &Fact, b: &Fact) -> bool
    ensures { IsTrue result ↔ (a.now ≡ b.now) }
{
    match a {
        Fact::Scope { name, kind } => is_scope(name, *kind, b),
        Fact::Parent { of, scope, to, how } => is_parent(of, scope, to, *how, b),
        Fact::Value { name, scope, given } => is_value(name, scope, given, b),
        Fact::Method {
            owner,
            scope,
            meta,
            name,
            params,
            sig,
        } => is_method(owner, scope, *meta, name, params.as_slice(), sig, b),
        Fact::Ivar {
            owner,
            scope,
            meta,
            name,
            given,
        } => is_ivar(owner, scope, *meta, name, given, b),
    }
}

/// Whether two lists of facts are equal.
fn same_facts(a: &[Fact], b: &[Fact]) -> bool
    ensures { IsTrue result ↔ (a.now ≡ b.now) }
{
    if a.len() != b.len() {
        return false;
    }
    'facts: for index in 0..a.len() {
        if !same_fact(&a[index], &b[index]) {
            return false;
        }
    }
    true
}

/// Whether two summaries have the same facts, in the same order. It takes no memory.
pub fn same(a: &Summary, b: &Summary) -> bool
    ensures { IsTrue result ↔ (a.now ≡ b.now) }
{
    same_facts(a.facts(), b.facts())
}
