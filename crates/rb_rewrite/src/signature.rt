//! Signatures: what a `sig` statement says of a method, and whether it is well-formed.

ghost use Rattle.std.specs.Prelude.{◌≡◌, [], Some, option_map, IfOk, OnOk};
ghost use Rattle.std.specs.List.{list_all};
ghost use Rattle.std.specs.Option.{option_copied};
ghost use Rattle.rb_rewrite.specs.Signatures as spec;
ghost use Rattle.rb_views.specs.Calls.{arguments_of as spec_arguments, seen_call, seen_receiver};

use crate::declaring::{is_missing, is_sig_call};
use indexmap::IndexSet;
use rb_tree::syntax::{Argument, Block, Dot, Node, Parameter, Suffix, Tree};
use rb_views::call::{Call, Receiver};
use srb_terms::{Items, Name, NoMemory};
use std::alloc::Global;

/// What the calls of a signature's chain say. They may stand in any order.
#[derive(Clone, Copy)]
pub struct Signature<'a> {
    /// The arguments of `params`, by keyword alone. `None` where no `params` stands.
    pub params: Option<&'a [Argument<Tree>]>,
    /// X, where `returns(X)` stands.
    pub returned: Option<&'a Tree>,
    /// Whether `void` stands.
    pub is_void: bool,
    /// Whether `abstract` stands.
    pub is_abstract: bool,
    /// Whether `override` stands.
    pub is_override: bool,
    /// Whether `overridable` stands.
    pub is_overridable: bool,
    /// Whether `checked(:name)` stands.
    pub is_checked: bool,
}

/// No call yet.
fn nothing<'a>() -> Signature<'a>
    ensures { spec.seen_signature result ≡ spec.nothing }
{
    Signature {
        params: None,
        returned: None,
        is_void: false,
        is_abstract: false,
        is_override: false,
        is_overridable: false,
        is_checked: false,
    }
}

/// Whether an argument is one by name.
fn is_keyword(argument: &Argument<Tree>) -> bool
    ensures { result ≡ spec.is_keyword argument.now }
{
    match argument {
        Argument::Keyword { .. } => true,
        _ => false,
    }
}

/// Whether each argument is one by name.
fn all_keywords(arguments: &[Argument<Tree>]) -> bool
    ensures { result ≡ list_all spec.is_keyword arguments.now }
{
    for argument in arguments {
        if !is_keyword(argument) {
            return false;
        }
    }
    true
}

/// Whether a tree is a symbol.
#[tactic(auto, unfolding(crate::specs::Signatures::is_symbol))]
fn is_symbol(tree: &Tree) -> bool
    ensures { result ≡ spec.is_symbol tree.now }
{
    match tree.get() {
        Node::Symbol { .. } => true,
        _ => false,
    }
}

/// With `params`, which stands at most once and has keyword arguments alone.
fn with_params<'a>(said: Signature<'a>, arguments: &'a [Argument<Tree>]) -> Option<Signature<'a>>
    ensures { option_map spec.seen_signature result ≡ spec.with_params (spec.seen_signature said.entry) arguments.now }
{
    if is_missing(said.params) && all_keywords(arguments) {
        Some(Signature {
            params: Some(arguments),
            ..said
        })
    } else {
        None
    }
}

/// With `returns`, which has one argument, where no result stands yet.
fn with_returns<'a>(said: Signature<'a>, arguments: &'a [Argument<Tree>]) -> Option<Signature<'a>>
    ensures { option_map spec.seen_signature result ≡ spec.with_returns (spec.seen_signature said.entry) arguments.now }
{
    match arguments {
        [Argument::Positional { value }] => {
            if is_missing(said.returned) && !said.is_void {
                Some(Signature {
                    returned: Some(value),
                    ..said
                })
            } else {
                None
            }
        }
        _ => None,
    }
}

/// With `void`, which has no argument, where no result stands yet.
fn with_void<'a>(said: Signature<'a>, arguments: &'a [Argument<Tree>]) -> Option<Signature<'a>>
    ensures { option_map spec.seen_signature result ≡ spec.with_void (spec.seen_signature said.entry) arguments.now }
{
    match arguments {
        [] => {
            if is_missing(said.returned) && !said.is_void {
                Some(Signature {
                    is_void: true,
                    ..said
                })
            } else {
                None
            }
        }
        _ => None,
    }
}

/// With `abstract`, which has no argument and stands at most once.
fn with_abstract<'a>(said: Signature<'a>, arguments: &'a [Argument<Tree>]) -> Option<Signature<'a>>
    ensures { option_map spec.seen_signature result ≡ spec.with_abstract (spec.seen_signature said.entry) arguments.now }
{
    match arguments {
        [] => {
            if said.is_abstract {
                None
            } else {
                Some(Signature {
                    is_abstract: true,
                    ..said
                })
            }
        }
        _ => None,
    }
}

/// With `override`, which has no argument and stands at most once.
fn with_override<'a>(said: Signature<'a>, arguments: &'a [Argument<Tree>]) -> Option<Signature<'a>>
    ensures { option_map spec.seen_signature result ≡ spec.with_override (spec.seen_signature said.entry) arguments.now }
{
    match arguments {
        [] => {
            if said.is_override {
                None
            } else {
                Some(Signature {
                    is_override: true,
                    ..said
                })
            }
        }
        _ => None,
    }
}

/// With `overridable`, which has no argument and stands at most once.
fn with_overridable<'a>(
    said: Signature<'a>,
    arguments: &'a [Argument<Tree>],
) -> Option<Signature<'a>>
    ensures { option_map spec.seen_signature result ≡ spec.with_overridable (spec.seen_signature said.entry) arguments.now }
{
    match arguments {
        [] => {
            if said.is_overridable {
                None
            } else {
                Some(Signature {
                    is_overridable: true,
                    ..said
                })
            }
        }
        _ => None,
    }
}

/// With `checked`, which has a symbol as its argument and stands at most once.
fn with_checked<'a>(said: Signature<'a>, arguments: &'a [Argument<Tree>]) -> Option<Signature<'a>>
    ensures { option_map spec.seen_signature result ≡ spec.with_checked (spec.seen_signature said.entry) arguments.now }
{
    match arguments {
        [Argument::Positional { value }] => {
            if is_symbol(value) && !said.is_checked {
                Some(Signature {
                    is_checked: true,
                    ..said
                })
            } else {
                None
            }
        }
        _ => None,
    }
}

/// With one more call. `None` exactly where it may not stand there.
fn with_call<'a>(
    said: Option<Signature<'a>>,
    name: &str,
    arguments: &'a [Argument<Tree>],
) -> Option<Signature<'a>>
    ensures { option_map spec.seen_signature result ≡ spec.with_call (option_map spec.seen_signature said.entry) name.now arguments.now }
{
    match said {
        None => None,
        Some(said) => {
            if name == "params" {
                with_params(said, arguments)
            } else if name == "returns" {
                with_returns(said, arguments)
            } else if name == "void" {
                with_void(said, arguments)
            } else if name == "abstract" {
                with_abstract(said, arguments)
            } else if name == "override" {
                with_override(said, arguments)
            } else if name == "overridable" {
                with_overridable(said, arguments)
            } else if name == "checked" {
                with_checked(said, arguments)
            } else {
                None
            }
        }
    }
}

/// Arguments in brackets; none where no brackets stand.
fn arguments_of<'a>(arguments: &'a Option<Items<Argument<Tree>>>) -> &'a [Argument<Tree>]
    ensures { result.now ≡ spec_arguments arguments.now }
{
    match arguments {
        Some(items) => items.as_slice(),
        None => &[],
    }
}

/// With one more call by `.`. `None` exactly where something else stands there.
fn with_suffix<'a>(said: Option<Signature<'a>>, suffix: &'a Suffix<Tree>) -> Option<Signature<'a>>
    ensures { option_map spec.seen_signature result ≡ spec.with_suffix (option_map spec.seen_signature said.entry) suffix.now }
{
    match suffix {
        Suffix::Call {
            dot: Dot::Plain,
            name,
            arguments,
            block: None,
            ..
        } => with_call(said, name.as_str(), arguments_of(arguments)),
        _ => None,
    }
}

/// With more calls by `.`.
fn with_suffixes<'a>(
    said: Option<Signature<'a>>,
    suffixes: &'a [Suffix<Tree>],
) -> Option<Signature<'a>>
    ensures { option_map spec.seen_signature result ≡ spec.with_suffixes (option_map spec.seen_signature said.entry) suffixes.now }
{
    let mut so_far = said;
    'suffixes: for suffix in suffixes {
        so_far = with_suffix(so_far, suffix);
    }
    so_far
}

/// The call with which a chain begins.
#[tactic(auto, unfolding(crate::specs::Signatures::first_call))]
fn first_call<'a>(tree: &'a Tree) -> Option<Signature<'a>>
    ensures { option_map spec.seen_signature result ≡ spec.first_call tree.now }
{
    match tree.get() {
        Node::Name { name, .. } => with_call(Some(nothing()), name.as_str(), &[]),
        Node::Call {
            name,
            arguments,
            block: None,
            ..
        } => with_call(Some(nothing()), name.as_str(), arguments_of(arguments)),
        _ => None,
    }
}

/// What stands before the last call of a chain.
fn before_last<'a>(receiver: Option<Receiver<'a>>) -> Option<Signature<'a>>
    ensures { option_map spec.seen_signature result ≡ spec.before_last (option_map seen_receiver receiver.entry) }
{
    match receiver {
        None => Some(nothing()),
        Some(receiver) => match receiver.dot {
            Dot::Plain => with_suffixes(
                first_call(receiver.prefix.operand),
                receiver.prefix.suffixes,
            ),
            Dot::Safe => None,
        },
    }
}

/// What a chain says whose last call this is.
fn chain_by_last<'a>(call: Option<Call<'a>>) -> Option<Signature<'a>>
    ensures { option_map spec.seen_signature result ≡ spec.chain_by_last (option_map seen_call call.entry) }
{
    match call {
        None => None,
        Some(call) => {
            if is_missing(call.block) {
                with_call(before_last(call.receiver), call.name, call.arguments)
            } else {
                None
            }
        }
    }
}

/// What a chain says. `None` exactly where it is none, or a call may not stand in it.
#[tactic(auto, unfolding(crate::specs::Signatures::chain_of))]
fn chain_of<'a>(tree: &'a Tree) -> Option<Signature<'a>>
    ensures { option_map spec.seen_signature result ≡ spec.chain_of tree.now }
{
    chain_by_last(Call::of(tree))
}

/// What a body of one statement says, a chain.
#[tactic(auto, unfolding(crate::specs::Signatures::single))]
fn single<'a>(body: &'a Tree) -> Option<Signature<'a>>
    ensures { option_map spec.seen_signature result ≡ spec.single body.now }
{
    match body.get() {
        Node::Body { statements, .. } => match statements.as_slice() {
            [statement] => chain_of(statement),
            _ => None,
        },
        _ => None,
    }
}

/// What a block says that has no parameters and one chain in it.
fn in_block<'a>(
    arguments: &'a [Argument<Tree>],
    block: Option<&'a Block<Tree>>,
) -> Option<Signature<'a>>
    ensures { option_map spec.seen_signature result ≡ spec.in_block arguments.now (option_copied block.entry) }
{
    match (arguments, block) {
        ([], Some(block)) => {
            if block.parameters.is_empty() {
                single(&block.body)
            } else {
                None
            }
        }
        _ => None,
    }
}

/// What a call of `sig` says.
fn signature_by<'a>(call: Option<Call<'a>>) -> Option<Signature<'a>>
    ensures { option_map spec.seen_signature result ≡ spec.signature_by (option_map seen_call call.entry) }
{
    if is_sig_call(call) {
        match call {
            None => None,
            Some(call) => in_block(call.arguments, call.block),
        }
    } else {
        None
    }
}

/// What a `sig` statement says: it has no arguments, and a block that holds one chain. `None` exactly where it isn't so.
#[tactic(auto, unfolding(crate::specs::Signatures::signature_of))]
pub fn signature_of<'a>(statement: &'a Tree) -> Option<Signature<'a>>
    ensures { option_map spec.seen_signature result ≡ spec.signature_of statement.now }
{
    signature_by(Call::of(statement))
}

/// Whether the name is one of these.
fn is_among(names: &IndexSet<Name>, name: &Name) -> bool
    ensures { result ≡ spec.is_among names.now.keys name.now }
{
    names.contains(name)
}

/// Adds a name, if it is none of these.
fn note(names: &mut IndexSet<Name>, name: &Name) -> Result<(), NoMemory>
    ensures { OnOk result (names.new.keys ≡ spec.noted names.old.keys name.now) }
{
    names.insert(name.copied()?)?;
    Ok(())
}

/// The names of keyword arguments, in order. `None` exactly where one stands twice.
fn names_of(alloc: Global, arguments: &[Argument<Tree>]) -> Result<Option<IndexSet<Name>>, NoMemory>
    ensures { IfOk result (λ names. option_map (λ s. s.keys) names ≡ spec.names_from [] arguments.now) }
{
    let mut names = IndexSet::new(alloc);
    'arguments: for argument in arguments {
        match argument {
            Argument::Keyword { name, .. } => {
                if is_among(&names, name) {
                    return Ok(None);
                }
                note(&mut names, name)?;
            }
            Argument::Positional { .. } | Argument::Block { .. } => {}
        }
    }
    Ok(Some(names))
}

/// The names that `params` has; without `params` there is none.
fn named(
    alloc: Global,
    arguments: Option<&[Argument<Tree>]>,
) -> Result<Option<IndexSet<Name>>, NoMemory>
    ensures { IfOk result (λ names. option_map (λ s. s.keys) names ≡ spec.named (option_map (λ a. a.now) arguments.entry)) }
{
    match arguments {
        None => Ok(Some(IndexSet::new(alloc))),
        Some(arguments) => names_of(alloc, arguments),
    }
}

/// Whether each parameter has one of these names.
fn are_named(names: &IndexSet<Name>, parameters: &[Parameter<Tree>]) -> bool
    ensures { result ≡ spec.are_named names.now.keys parameters.now }
{
    'parameters: for parameter in parameters {
        if !is_among(names, &parameter.name) {
            return false;
        }
    }
    true
}

/// Whether the names are those of the parameters, each once and in any order.
fn are_names_of(parameters: &[Parameter<Tree>], names: &Option<IndexSet<Name>>) -> bool
    ensures { result ≡ spec.are_names_of parameters.now (option_map (λ s. s.keys) names.now) }
{
    match names {
        None => false,
        Some(names) => names.len() == parameters.len() && are_named(names, parameters),
    }
}

/// Whether one result stands there.
fn has_result<'a>(said: Signature<'a>) -> bool
    ensures { result ≡ spec.has_result (spec.seen_signature said.entry) }
{
    !is_missing(said.returned) || said.is_void
}

/// Whether the arguments of `params` name these parameters. One argument for one parameter, the usual case, takes no memory.
fn are_parameters(
    alloc: Global,
    parameters: &[Parameter<Tree>],
    arguments: Option<&[Argument<Tree>]>,
) -> Result<bool, NoMemory>
    ensures { IfOk result (λ b. b ≡ spec.are_names_of parameters.now (spec.named (option_map (λ a. a.now) arguments.entry))) }
{
    match (arguments, parameters) {
        (Some([Argument::Keyword { name, .. }]), [parameter]) => Ok(parameter.name == *name),
        _ => Ok(are_names_of(parameters, &named(alloc, arguments)?)),
    }
}

/// Whether what was said is a whole signature of a method with these parameters.
fn fits<'a>(
    alloc: Global,
    parameters: &[Parameter<Tree>],
    said: Signature<'a>,
) -> Result<bool, NoMemory>
    ensures { IfOk result (λ b. b ≡ spec.fits parameters.now (spec.seen_signature said.entry)) }
{
    let are_parameters = are_parameters(alloc, parameters, said.params)?;
    Ok(has_result(said) && are_parameters)
}

/// The well-formed signature of a method with these parameters that a `sig` statement is. `None` exactly where it is malformed.
pub fn well_formed<'a>(
    alloc: Global,
    parameters: &[Parameter<Tree>],
    sig: &'a Tree,
) -> Result<Option<Signature<'a>>, NoMemory>
    ensures { IfOk result (λ s. option_map spec.seen_signature s ≡ spec.well_formed parameters.now sig.now) }
{
    match signature_of(sig) {
        None => Ok(None),
        Some(said) => {
            if fits(alloc, parameters, said)? {
                Ok(Some(said))
            } else {
                Ok(None)
            }
        }
    }
}
