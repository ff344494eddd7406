//! The chain of a `sig` statement.

ghost use Rattle.std.specs.Prelude.{◌≡◌, [], Some, option_map};
ghost use Rattle.std.specs.List.{list_all, list_any};
ghost use Rattle.srb_sig.specs.Forms.{kind_of, parts_of, words_of};
ghost use Rattle.srb_sig.specs.Chains as spec;

use crate::forms::{is_positional, parts, plain_arguments};
use srb_terms::{NodeKind, Outline};

/// What the calls of a signature's chain say. They may stand in any order.
#[derive(Clone, Copy)]
pub struct Said<'a> {
    /// The arguments of `params`, by keyword alone. `None` where no `params` stands.
    pub params: Option<&'a [Outline]>,
    /// X, where `returns(X)` stands.
    pub returned: Option<&'a Outline>,
    /// Whether `returns` stands without a `params` before it.
    pub returns_first: bool,
    /// Whether `void` stands.
    pub is_void: bool,
    /// Whether `abstract` stands.
    pub is_abstract: bool,
    /// Whether `override` stands.
    pub is_override: bool,
    /// Whether `overridable` stands.
    pub is_overridable: bool,
    /// Whether `checked(:name)` stands.
    pub is_checked: bool,
}

/// No call yet.
fn nothing<'a>() -> Said<'a>
    ensures { spec.seen_said result ≡ spec.nothing }
{
    Said {
        params: None,
        returned: None,
        returns_first: false,
        is_void: false,
        is_abstract: false,
        is_override: false,
        is_overridable: false,
        is_checked: false,
    }
}

/// Whether something is missing.
pub fn is_missing<T: Copy>(it: Option<T>) -> bool
    ensures { result ≡ spec.is_missing it }
{
    match it {
        None => true,
        Some(_) => false,
    }
}

/// Whether an argument is one by name.
fn is_keyword(argument: &Outline) -> bool
    ensures { result ≡ spec.is_keyword argument.now }
{
    match argument.label.kind {
        NodeKind::Keyword => true,
        _ => false,
    }
}

/// Whether each argument is one by name.
fn all_keywords(arguments: &[Outline]) -> bool
    ensures { result ≡ list_all spec.is_keyword arguments.now }
{
    for argument in arguments {
        if !is_keyword(argument) {
            return false;
        }
    }
    true
}

/// Whether an argument is a symbol by its place.
fn is_symbol(argument: &Outline) -> bool
    ensures { result ≡ spec.is_symbol argument.now }
{
    match argument.label.kind {
        NodeKind::Symbol => true,
        _ => false,
    }
}

/// With `params`, which stands at most once and has keyword arguments alone.
fn with_params<'a>(said: Said<'a>, arguments: &'a [Outline]) -> Option<Said<'a>>
    ensures { option_map spec.seen_said result ≡ spec.with_params (spec.seen_said said.entry) arguments.now }
{
    if is_missing(said.params) && all_keywords(arguments) {
        Some(Said {
            params: Some(arguments),
            ..said
        })
    } else {
        None
    }
}

/// With `returns`, which has one argument, where no result stands yet.
fn with_returns<'a>(said: Said<'a>, arguments: &'a [Outline]) -> Option<Said<'a>>
    ensures { option_map spec.seen_said result ≡ spec.with_returns (spec.seen_said said.entry) arguments.now }
{
    match arguments {
        [only] => {
            if is_positional(only) && is_missing(said.returned) && !said.is_void {
                Some(Said {
                    returned: Some(only),
                    returns_first: is_missing(said.params),
                    ..said
                })
            } else {
                None
            }
        }
        _ => None,
    }
}

/// With `void`, which has no argument, where no result stands yet.
fn with_void<'a>(said: Said<'a>, arguments: &'a [Outline]) -> Option<Said<'a>>
    ensures { option_map spec.seen_said result ≡ spec.with_void (spec.seen_said said.entry) arguments.now }
{
    match arguments {
        [] => {
            if is_missing(said.returned) && !said.is_void {
                Some(Said {
                    is_void: true,
                    ..said
                })
            } else {
                None
            }
        }
        _ => None,
    }
}

/// With `abstract`, which has no argument and stands at most once.
fn with_abstract<'a>(said: Said<'a>, arguments: &'a [Outline]) -> Option<Said<'a>>
    ensures { option_map spec.seen_said result ≡ spec.with_abstract (spec.seen_said said.entry) arguments.now }
{
    match arguments {
        [] => {
            if said.is_abstract {
                None
            } else {
                Some(Said {
                    is_abstract: true,
                    ..said
                })
            }
        }
        _ => None,
    }
}

/// With `override`, which has no argument and stands at most once.
fn with_override<'a>(said: Said<'a>, arguments: &'a [Outline]) -> Option<Said<'a>>
    ensures { option_map spec.seen_said result ≡ spec.with_override (spec.seen_said said.entry) arguments.now }
{
    match arguments {
        [] => {
            if said.is_override {
                None
            } else {
                Some(Said {
                    is_override: true,
                    ..said
                })
            }
        }
        _ => None,
    }
}

/// With `overridable`, which has no argument and stands at most once.
fn with_overridable<'a>(said: Said<'a>, arguments: &'a [Outline]) -> Option<Said<'a>>
    ensures { option_map spec.seen_said result ≡ spec.with_overridable (spec.seen_said said.entry) arguments.now }
{
    match arguments {
        [] => {
            if said.is_overridable {
                None
            } else {
                Some(Said {
                    is_overridable: true,
                    ..said
                })
            }
        }
        _ => None,
    }
}

/// With `checked`, which has a symbol as its argument and stands at most once.
fn with_checked<'a>(said: Said<'a>, arguments: &'a [Outline]) -> Option<Said<'a>>
    ensures { option_map spec.seen_said result ≡ spec.with_checked (spec.seen_said said.entry) arguments.now }
{
    match arguments {
        [only] => {
            if is_symbol(only) && !said.is_checked {
                Some(Said {
                    is_checked: true,
                    ..said
                })
            } else {
                None
            }
        }
        _ => None,
    }
}

/// With one more call of this name. `None` exactly where it may not stand there.
fn with_named<'a>(said: Said<'a>, name: &str, arguments: &'a [Outline]) -> Option<Said<'a>>
    ensures { option_map spec.seen_said result ≡ spec.with_named (spec.seen_said said.entry) name.now arguments.now }
{
    if name == "params" {
        with_params(said, arguments)
    } else if name == "returns" {
        with_returns(said, arguments)
    } else if name == "void" {
        with_void(said, arguments)
    } else if name == "abstract" {
        with_abstract(said, arguments)
    } else if name == "override" {
        with_override(said, arguments)
    } else if name == "overridable" {
        with_overridable(said, arguments)
    } else if name == "checked" {
        with_checked(said, arguments)
    } else {
        None
    }
}

/// With one more call, which has arguments unless a block stands there.
fn with_call<'a>(
    said: Option<Said<'a>>,
    name: &str,
    arguments: Option<&'a [Outline]>,
) -> Option<Said<'a>>
    ensures { option_map spec.seen_said result ≡ spec.with_call (option_map spec.seen_said said.entry) name.now (option_map (λ a. a.now) arguments.entry) }
{
    match (said, arguments) {
        (Some(said), Some(arguments)) => with_named(said, name, arguments),
        _ => None,
    }
}

/// With one more call by `.`. `None` exactly where something else stands there.
fn with_suffix<'a>(said: Option<Said<'a>>, suffix: &'a Outline) -> Option<Said<'a>>
    ensures { option_map spec.seen_said result ≡ spec.with_suffix (option_map spec.seen_said said.entry) suffix.now }
{
    match suffix.label.kind {
        NodeKind::SuffixCall => with_call(
            said,
            suffix.label.words.as_str(),
            plain_arguments(parts(suffix)),
        ),
        _ => None,
    }
}

/// With more calls by `.`.
fn with_suffixes<'a>(said: Option<Said<'a>>, suffixes: &'a [Outline]) -> Option<Said<'a>>
    ensures { option_map spec.seen_said result ≡ spec.with_suffixes (option_map spec.seen_said said.entry) suffixes.now }
{
    let mut so_far = said;
    'suffixes: for suffix in suffixes {
        so_far = with_suffix(so_far, suffix);
    }
    so_far
}

/// The call with which a chain begins.
fn first_call<'a>(tree: &'a Outline) -> Option<Said<'a>>
    ensures { option_map spec.seen_said result ≡ spec.first_call tree.now }
{
    match tree.label.kind {
        NodeKind::Name => with_call(
            Some(nothing()),
            tree.label.words.as_str(),
            plain_arguments(parts(tree)),
        ),
        NodeKind::Call => with_call(
            Some(nothing()),
            tree.label.words.as_str(),
            plain_arguments(parts(tree)),
        ),
        _ => None,
    }
}

/// A call with calls on it.
fn with_row<'a>(row: &'a [Outline]) -> Option<Said<'a>>
    ensures { option_map spec.seen_said result ≡ spec.with_row row.now }
{
    match row {
        [] => None,
        [_] => None,
        [operand, suffixes @ ..] => with_suffixes(first_call(operand), suffixes),
    }
}

/// Whether a part of a command is its block.
fn is_block(tree: &Outline) -> bool
    ensures { result ≡ spec.is_block tree.now }
{
    match tree.label.kind {
        NodeKind::Block => true,
        _ => false,
    }
}

/// Whether a block stands among the parts of a command.
fn has_block(parts: &[Outline]) -> bool
    ensures { result ≡ list_any spec.is_block parts.now }
{
    for part in parts {
        if is_block(part) {
            return true;
        }
    }
    false
}

/// The arguments of a command. `None` exactly where a block stands there.
fn command_arguments<'a>(parts: &'a [Outline]) -> Option<&'a [Outline]>
    ensures { option_map (λ a. a.now) result ≡ spec.command_arguments parts.now }
{
    if has_block(parts) { None } else { Some(parts) }
}

/// The last call of a chain, which has no arguments in brackets.
fn last_call<'a>(
    said: Option<Said<'a>>,
    last: &'a Outline,
    arguments: Option<&'a [Outline]>,
) -> Option<Said<'a>>
    ensures { option_map spec.seen_said result ≡ spec.last_call_at (option_map spec.seen_said said.entry) (kind_of last.now) (words_of last.now) (parts_of last.now) (option_map (λ a. a.now) arguments.entry) }
{
    match last.label.kind {
        NodeKind::SuffixCall => match parts(last) {
            [] => with_call(said, last.label.words.as_str(), arguments),
            _ => None,
        },
        _ => None,
    }
}

/// A chain whose last call has these arguments.
fn with_last<'a>(
    said: Option<Said<'a>>,
    suffixes: &'a [Outline],
    arguments: Option<&'a [Outline]>,
) -> Option<Said<'a>>
    ensures { option_map spec.seen_said result ≡ spec.with_last (option_map spec.seen_said said.entry) suffixes.now (option_map (λ a. a.now) arguments.entry) }
{
    match suffixes {
        [] => None,
        [front @ .., last] => last_call(with_suffixes(said, front), last, arguments),
    }
}

/// A chain of an operand and these suffixes, whose last call has these arguments.
fn with_last_of<'a>(row: &'a [Outline], arguments: Option<&'a [Outline]>) -> Option<Said<'a>>
    ensures { option_map spec.seen_said result ≡ spec.with_last_of row.now (option_map (λ a. a.now) arguments.entry) }
{
    match row {
        [] => None,
        [operand, suffixes @ ..] => with_last(first_call(operand), suffixes, arguments),
    }
}

/// What is called, with these arguments.
fn with_callee<'a>(callee: &'a Outline, arguments: Option<&'a [Outline]>) -> Option<Said<'a>>
    ensures { option_map spec.seen_said result ≡ spec.with_callee (kind_of callee.now) (words_of callee.now) (parts_of callee.now) (option_map (λ a. a.now) arguments.entry) }
{
    match callee.label.kind {
        NodeKind::Name => with_call(Some(nothing()), callee.label.words.as_str(), arguments),
        NodeKind::Post => with_last_of(parts(callee), arguments),
        _ => None,
    }
}

/// A chain whose last call has its arguments without brackets.
fn command_chain<'a>(row: &'a [Outline]) -> Option<Said<'a>>
    ensures { option_map spec.seen_said result ≡ spec.command_chain row.now }
{
    match row {
        [] => None,
        [callee, rest @ ..] => with_callee(callee, command_arguments(rest)),
    }
}

/// What a chain says. `None` exactly where it is none, or a call may not stand in it.
fn chain_of<'a>(tree: &'a Outline) -> Option<Said<'a>>
    ensures { option_map spec.seen_said result ≡ spec.chain_of tree.now }
{
    match tree.label.kind {
        NodeKind::Post => with_row(parts(tree)),
        NodeKind::Command => command_chain(parts(tree)),
        _ => first_call(tree),
    }
}

/// What a body of one statement says, a chain.
fn single<'a>(body: &'a Outline) -> Option<Said<'a>>
    ensures { option_map spec.seen_said result ≡ spec.single body.now }
{
    match body.label.kind {
        NodeKind::Body => match parts(body) {
            [only] => chain_of(only),
            _ => None,
        },
        _ => None,
    }
}

/// What a block says that has no parameters and one chain in it.
fn in_block<'a>(block: &'a Outline) -> Option<Said<'a>>
    ensures { option_map spec.seen_said result ≡ spec.in_block block.now }
{
    match block.label.kind {
        NodeKind::Block => match parts(block) {
            [only] => single(only),
            _ => None,
        },
        _ => None,
    }
}

/// Whether a part of a call is brackets without arguments.
fn is_empty(tree: &Outline) -> bool
    ensures { result ≡ spec.is_empty tree.now }
{
    match tree.label.kind {
        NodeKind::Brackets => match parts(tree) {
            [] => true,
            _ => false,
        },
        _ => false,
    }
}

/// What stands after `sig`: no arguments, and a block.
fn after_sig<'a>(row: &'a [Outline]) -> Option<Said<'a>>
    ensures { option_map spec.seen_said result ≡ spec.after_sig row.now }
{
    match row {
        [only] => in_block(only),
        [brackets, block] => {
            if is_empty(brackets) {
                in_block(block)
            } else {
                None
            }
        }
        _ => None,
    }
}

/// Whether what is called is `sig`.
fn is_sig(callee: &Outline) -> bool
    ensures { result ≡ spec.is_sig_at (kind_of callee.now) (words_of callee.now) }
{
    match callee.label.kind {
        NodeKind::Name => callee.label.words.as_str() == "sig",
        _ => false,
    }
}

/// A command `sig` that has a block alone.
fn sig_command<'a>(row: &'a [Outline]) -> Option<Said<'a>>
    ensures { option_map spec.seen_said result ≡ spec.sig_command row.now }
{
    match row {
        [callee, block] => {
            if is_sig(callee) {
                in_block(block)
            } else {
                None
            }
        }
        _ => None,
    }
}

/// What a `sig` statement says: it has no arguments, and a block that holds one chain. `None` exactly where it isn't so.
#[tactic(auto, unfolding(crate::specs::Chains::said_by))]
pub fn said_by<'a>(sig: &'a Outline) -> Option<Said<'a>>
    ensures { option_map spec.seen_said result ≡ spec.said_by sig.now }
{
    match sig.label.kind {
        NodeKind::Call => {
            if sig.label.words.as_str() == "sig" {
                after_sig(parts(sig))
            } else {
                None
            }
        }
        NodeKind::Command => sig_command(parts(sig)),
        _ => None,
    }
}
