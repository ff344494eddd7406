//! The forms of type expressions.

ghost use Rattle.std.specs.Prelude.{◌≡◌};
ghost use Rattle.std.specs.List.{list_all};
ghost use Rattle.rb_views.specs.Calls as calls;
ghost use Rattle.srb_references.specs.TypeForms as spec;

use rb_tree::syntax::{Argument, Dot, Node, Suffix, Tree};
use srb_terms::Items;

/// The forms of type expressions, by their exact spellings.
#[derive(Clone, Copy, PartialEq, Eq, Debug)]
pub enum TypeForm {
    /// A path of constants.
    Path,
    /// `T.untyped`.
    Untyped,
    /// `T.noreturn`.
    Never,
    /// `T::Boolean`.
    Boolean,
    /// `T.nilable(X)`.
    Nilable,
    /// `T.any(X, Y, ..)`, of two or more.
    AnyOf,
    /// `T.all(X, Y, ..)`, of two or more.
    AllOf,
    /// `T::Array[X]`.
    ArrayOf,
    /// `T::Hash[X, Y]`.
    HashOf,
    /// `T.class_of(C)`, where C is a path of constants.
    ClassOf,
    /// A chain that begins by `T.proc`.
    ProcOf,
    /// None of these: the expression is malformed.
    Other,
}

/// Whether a tree is a constant, perhaps with `::` in front.
#[tactic(auto, unfolding(crate::specs::TypeForms::begins_path))]
pub fn begins_path(tree: &Tree) -> bool
    ensures { result ≡ spec.begins_path tree.now }
{
    match tree.get() {
        Node::Constant { .. } => true,
        Node::TopConstant { .. } => true,
        _ => false,
    }
}

/// Whether a tree is the constant `T`.
#[tactic(auto, unfolding(crate::specs::TypeForms::is_t))]
pub fn is_t(tree: &Tree) -> bool
    ensures { result ≡ spec.is_t tree.now }
{
    match tree.get() {
        Node::Constant { name, .. } => name.as_str() == "T",
        _ => false,
    }
}

/// Whether a suffix is a constant.
fn is_within(suffix: &Suffix<Tree>) -> bool
    ensures { result ≡ spec.is_within suffix.now }
{
    match suffix {
        Suffix::Constant { .. } => true,
        _ => false,
    }
}

/// Whether each suffix is a constant.
fn all_within(suffixes: &[Suffix<Tree>]) -> bool
    ensures { result ≡ list_all spec.is_within suffixes.now }
{
    for suffix in suffixes {
        if !is_within(suffix) {
            return false;
        }
    }
    true
}

/// Whether a tree is a path of constants and nothing else.
#[tactic(auto, unfolding(crate::specs::TypeForms::is_path))]
fn is_path(tree: &Tree) -> bool
    ensures { result ≡ spec.is_path tree.now }
{
    match tree.get() {
        Node::Constant { .. } => true,
        Node::TopConstant { .. } => true,
        Node::Post {
            receiver,
            suffixes,
            ..
        } => begins_path(receiver) && all_within(suffixes.as_slice()),
        _ => false,
    }
}

/// Whether an argument is given by its place.
fn is_positional(argument: &Argument<Tree>) -> bool
    ensures { result ≡ spec.is_positional argument.now }
{
    match argument {
        Argument::Positional { .. } => true,
        _ => false,
    }
}

/// Whether each argument is given by its place.
fn all_positional(arguments: &[Argument<Tree>]) -> bool
    ensures { result ≡ list_all spec.is_positional arguments.now }
{
    for argument in arguments {
        if !is_positional(argument) {
            return false;
        }
    }
    true
}

/// Whether there is one argument, given by its place.
fn has_one(arguments: &[Argument<Tree>]) -> bool
    ensures { result ≡ spec.has_one arguments.now }
{
    match arguments {
        [Argument::Positional { .. }] => true,
        _ => false,
    }
}

/// Whether there are two arguments, given by their places.
fn has_two(arguments: &[Argument<Tree>]) -> bool
    ensures { result ≡ spec.has_two arguments.now }
{
    match arguments {
        [Argument::Positional { .. }, Argument::Positional { .. }] => true,
        _ => false,
    }
}

/// Whether there are two or more arguments, all given by their places.
fn has_more(arguments: &[Argument<Tree>]) -> bool
    ensures { result ≡ spec.has_more arguments.now }
{
    match arguments {
        [_, _, ..] => all_positional(arguments),
        _ => false,
    }
}

/// Whether there is one argument, given by its place, and a path of constants.
fn has_path(arguments: &[Argument<Tree>]) -> bool
    ensures { result ≡ spec.has_path (λ t. t) arguments.now }
{
    match arguments {
        [Argument::Positional { value }] => is_path(value),
        _ => false,
    }
}

/// Whether an argument is given by its place or its name.
fn is_given(argument: &Argument<Tree>) -> bool
    ensures { result ≡ spec.is_given argument.now }
{
    match argument {
        Argument::Block { .. } => false,
        _ => true,
    }
}

/// Whether each argument is given by its place or its name.
fn all_given(arguments: &[Argument<Tree>]) -> bool
    ensures { result ≡ list_all spec.is_given arguments.now }
{
    for argument in arguments {
        if !is_given(argument) {
            return false;
        }
    }
    true
}

/// The arguments in brackets; none where no brackets stand.
pub fn in_brackets<'a>(arguments: &'a Option<Items<Argument<Tree>>>) -> &'a [Argument<Tree>]
    ensures { result.now ≡ calls.arguments_of arguments.now }
{
    match arguments {
        Some(items) => items.as_slice(),
        None => &[],
    }
}

/// Whether a suffix is a call by `.`, without a block and without `&`.
fn is_plain_call(suffix: &Suffix<Tree>) -> bool
    ensures { result ≡ spec.is_plain_call suffix.now }
{
    match suffix {
        Suffix::Call {
            dot: Dot::Plain,
            arguments,
            block: None,
            ..
        } => all_given(in_brackets(arguments)),
        _ => false,
    }
}

/// Whether each suffix is such a call.
fn all_plain_calls(suffixes: &[Suffix<Tree>]) -> bool
    ensures { result ≡ list_all spec.is_plain_call suffixes.now }
{
    for suffix in suffixes {
        if !is_plain_call(suffix) {
            return false;
        }
    }
    true
}

/// This form, where a test holds.
fn form_if(holds: bool, form: TypeForm) -> TypeForm
    ensures { result ≡ spec.form_if holds form }
{
    if holds { form } else { TypeForm::Other }
}

/// The form of `T.name(..)`.
fn named_form(name: &str, arguments: &[Argument<Tree>]) -> TypeForm
    ensures { result ≡ spec.named_form name.now (spec.has_none arguments.now) (spec.has_one arguments.now) (spec.has_more arguments.now) (spec.has_path (λ t. t) arguments.now) }
{
    if name == "untyped" {
        form_if(arguments.is_empty(), TypeForm::Untyped)
    } else if name == "noreturn" {
        form_if(arguments.is_empty(), TypeForm::Never)
    } else if name == "nilable" {
        form_if(has_one(arguments), TypeForm::Nilable)
    } else if name == "any" {
        form_if(has_more(arguments), TypeForm::AnyOf)
    } else if name == "all" {
        form_if(has_more(arguments), TypeForm::AllOf)
    } else if name == "class_of" {
        form_if(has_path(arguments), TypeForm::ClassOf)
    } else {
        TypeForm::Other
    }
}

/// The form of `T::Name[..]`.
fn index_form(name: &str, arguments: &[Argument<Tree>]) -> TypeForm
    ensures { result ≡ spec.index_form name.now (spec.has_one arguments.now) (spec.has_two arguments.now) }
{
    if name == "Array" {
        form_if(has_one(arguments), TypeForm::ArrayOf)
    } else if name == "Hash" {
        form_if(has_two(arguments), TypeForm::HashOf)
    } else {
        TypeForm::Other
    }
}

/// The form of `T::Name`.
fn constant_form(name: &str) -> TypeForm
    ensures { result ≡ spec.constant_form name.now }
{
    if name == "Boolean" {
        TypeForm::Boolean
    } else {
        TypeForm::Path
    }
}

/// The form of `T.name(..)` and what follows it.
fn call_form(name: &str, arguments: &[Argument<Tree>], rest: &[Suffix<Tree>]) -> TypeForm
    ensures { result ≡ spec.call_form (λ t. t) name.now arguments.now rest.now }
{
    if name == "proc" {
        form_if(
            arguments.is_empty() && all_plain_calls(rest),
            TypeForm::ProcOf,
        )
    } else if rest.is_empty() {
        named_form(name, arguments)
    } else {
        TypeForm::Other
    }
}

/// The form of `T` with these suffixes.
fn t_form(suffixes: &[Suffix<Tree>]) -> TypeForm
    ensures { result ≡ spec.t_form (λ t. t) suffixes.now }
{
    match suffixes {
        [Suffix::Constant { name, .. }] => constant_form(name.as_str()),
        [
            Suffix::Constant { name, .. },
            Suffix::Index { arguments, .. },
        ] => index_form(name.as_str(), arguments.as_slice()),
        [
            Suffix::Call {
                dot: Dot::Plain,
                name,
                arguments,
                block: None,
                ..
            },
            rest @ ..,
        ] => call_form(name.as_str(), in_brackets(arguments), rest),
        _ => form_if(all_within(suffixes), TypeForm::Path),
    }
}

/// The form of an operand with suffixes.
pub fn post_form(receiver: &Tree, suffixes: &[Suffix<Tree>]) -> TypeForm
    ensures { result ≡ spec.post_form (λ t. t) receiver.now suffixes.now }
{
    if is_t(receiver) {
        t_form(suffixes)
    } else {
        form_if(
            begins_path(receiver) && all_within(suffixes),
            TypeForm::Path,
        )
    }
}

/// The form that a tree has as a type expression, whatever stands in it.
#[tactic(auto, unfolding(crate::specs::TypeForms::type_form))]
pub fn type_form(tree: &Tree) -> TypeForm
    ensures { result ≡ spec.type_form tree.now }
{
    match tree.get() {
        Node::Constant { .. } => TypeForm::Path,
        Node::TopConstant { .. } => TypeForm::Path,
        Node::Post {
            receiver,
            suffixes,
            ..
        } => post_form(receiver, suffixes.as_slice()),
        _ => TypeForm::Other,
    }
}
