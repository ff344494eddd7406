//! The forms of type expressions, on trees without places.

ghost use Rattle.std.specs.Prelude.{◌≡◌, option_map};
ghost use Rattle.std.specs.List.{list_all};
ghost use Rattle.srb_sig.specs.Forms as spec;

use srb_terms::{NodeKind, Outline};

/// The forms of type expressions, by their exact spellings.
#[derive(Clone, Copy, PartialEq, Eq, Debug)]
pub enum TypeForm {
    /// A path of constants.
    Path,
    /// `T.untyped`.
    Untyped,
    /// `T.noreturn`.
    Never,
    /// `T::Boolean`.
    Boolean,
    /// `T.nilable(X)`.
    Nilable,
    /// `T.any(X, Y, ..)`, of two or more.
    AnyOf,
    /// `T.all(X, Y, ..)`, of two or more.
    AllOf,
    /// `T::Array[X]`.
    ArrayOf,
    /// `T::Hash[X, Y]`.
    HashOf,
    /// `T.class_of(C)`, where C is a path of constants.
    ClassOf,
    /// A chain that begins by `T.proc`.
    ProcOf,
    /// None of these: the expression is malformed.
    Other,
}

/// The parts of a node.
pub fn parts(tree: &Outline) -> &[Outline]
    ensures { result.now ≡ spec.parts_of tree.now }
{
    tree.parts.as_slice()
}

/// Whether a tree is a constant, perhaps with `::` in front.
fn begins_path(tree: &Outline) -> bool
    ensures { result ≡ spec.begins_path tree.now }
{
    match tree.label.kind {
        NodeKind::Constant => true,
        NodeKind::TopConstant => true,
        _ => false,
    }
}

/// Whether a tree is the constant `T`.
fn is_t(tree: &Outline) -> bool
    ensures { result ≡ spec.is_t tree.now }
{
    match tree.label.kind {
        NodeKind::Constant => tree.label.words.as_str() == "T",
        _ => false,
    }
}

/// Whether a suffix is a constant.
fn is_within(suffix: &Outline) -> bool
    ensures { result ≡ spec.is_within suffix.now }
{
    match suffix.label.kind {
        NodeKind::SuffixConstant => true,
        _ => false,
    }
}

/// Whether each suffix is a constant.
fn all_within(suffixes: &[Outline]) -> bool
    ensures { result ≡ list_all spec.is_within suffixes.now }
{
    for suffix in suffixes {
        if !is_within(suffix) {
            return false;
        }
    }
    true
}

/// Whether an operand with suffixes is a path of constants.
fn is_path_row(parts: &[Outline]) -> bool
    ensures { result ≡ spec.is_path_row parts.now }
{
    match parts {
        [] => false,
        [operand, suffixes @ ..] => begins_path(operand) && all_within(suffixes),
    }
}

/// Whether a tree is a path of constants and nothing else.
fn is_path(tree: &Outline) -> bool
    ensures { result ≡ spec.is_path tree.now }
{
    match tree.label.kind {
        NodeKind::Constant => true,
        NodeKind::TopConstant => true,
        NodeKind::Post => is_path_row(parts(tree)),
        _ => false,
    }
}

/// Whether an argument is given by its place.
pub fn is_positional(argument: &Outline) -> bool
    ensures { result ≡ spec.is_positional argument.now }
{
    match argument.label.kind {
        NodeKind::Keyword => false,
        NodeKind::BlockArgument => false,
        _ => true,
    }
}

/// Whether each argument is given by its place.
fn all_positional(arguments: &[Outline]) -> bool
    ensures { result ≡ list_all spec.is_positional arguments.now }
{
    for argument in arguments {
        if !is_positional(argument) {
            return false;
        }
    }
    true
}

/// Whether an argument is given by its place or its name.
fn is_given(argument: &Outline) -> bool
    ensures { result ≡ spec.is_given argument.now }
{
    match argument.label.kind {
        NodeKind::BlockArgument => false,
        _ => true,
    }
}

/// Whether each argument is given by its place or its name.
fn each_given(arguments: &[Outline]) -> bool
    ensures { result ≡ list_all spec.is_given arguments.now }
{
    for argument in arguments {
        if !is_given(argument) {
            return false;
        }
    }
    true
}

/// Whether there is no argument.
fn has_none(arguments: &[Outline]) -> bool
    ensures { result ≡ spec.has_none arguments.now }
{
    match arguments {
        [] => true,
        _ => false,
    }
}

/// Whether there is one argument, given by its place.
fn has_one(arguments: &[Outline]) -> bool
    ensures { result ≡ spec.has_one arguments.now }
{
    match arguments {
        [only] => is_positional(only),
        _ => false,
    }
}

/// Whether there are two arguments, given by their places.
fn has_two(arguments: &[Outline]) -> bool
    ensures { result ≡ spec.has_two arguments.now }
{
    match arguments {
        [first, second] => is_positional(first) && is_positional(second),
        _ => false,
    }
}

/// Whether there are two or more arguments, all given by their places.
fn has_more(arguments: &[Outline]) -> bool
    ensures { result ≡ spec.has_more arguments.now }
{
    match arguments {
        [_, _, ..] => all_positional(arguments),
        _ => false,
    }
}

/// Whether there is one argument, given by its place, and a path of constants.
fn has_path(arguments: &[Outline]) -> bool
    ensures { result ≡ spec.has_path arguments.now }
{
    match arguments {
        [only] => is_path(only),
        _ => false,
    }
}

/// The arguments in brackets.
fn in_brackets<'a>(tree: &'a Outline) -> Option<&'a [Outline]>
    ensures { option_map (λ a. a.now) result ≡ spec.in_brackets_at (spec.kind_of tree.now) (spec.parts_of tree.now) }
{
    match tree.label.kind {
        NodeKind::Brackets => Some(parts(tree)),
        _ => None,
    }
}

/// The arguments of a call whose name has these parts after it, none where no brackets stand. `None` exactly where a block stands there.
pub fn plain_arguments<'a>(parts: &'a [Outline]) -> Option<&'a [Outline]>
    ensures { option_map (λ a. a.now) result ≡ spec.plain_arguments parts.now }
{
    match parts {
        [] => Some(&[]),
        [only] => in_brackets(only),
        _ => None,
    }
}

/// Whether each of a call's arguments is given by its place or its name, and no block stands there.
fn all_given(arguments: Option<&[Outline]>) -> bool
    ensures { result ≡ spec.all_given (option_map (λ a. a.now) arguments.entry) }
{
    match arguments {
        None => false,
        Some(arguments) => each_given(arguments),
    }
}

/// Whether a suffix is a call by `.`, without a block and without `&`.
fn is_plain_call(suffix: &Outline) -> bool
    ensures { result ≡ spec.is_plain_call suffix.now }
{
    match suffix.label.kind {
        NodeKind::SuffixCall => all_given(plain_arguments(parts(suffix))),
        _ => false,
    }
}

/// Whether each suffix is such a call.
fn all_plain_calls(suffixes: &[Outline]) -> bool
    ensures { result ≡ list_all spec.is_plain_call suffixes.now }
{
    for suffix in suffixes {
        if !is_plain_call(suffix) {
            return false;
        }
    }
    true
}

/// This form, where a test holds.
fn form_if(holds: bool, form: TypeForm) -> TypeForm
    ensures { result ≡ spec.form_if holds form }
{
    if holds { form } else { TypeForm::Other }
}

/// The form of `T.name(..)`.
fn named_form(name: &str, arguments: &[Outline]) -> TypeForm
    ensures { result ≡ spec.named_form name.now arguments.now }
{
    if name == "untyped" {
        form_if(has_none(arguments), TypeForm::Untyped)
    } else if name == "noreturn" {
        form_if(has_none(arguments), TypeForm::Never)
    } else if name == "nilable" {
        form_if(has_one(arguments), TypeForm::Nilable)
    } else if name == "any" {
        form_if(has_more(arguments), TypeForm::AnyOf)
    } else if name == "all" {
        form_if(has_more(arguments), TypeForm::AllOf)
    } else if name == "class_of" {
        form_if(has_path(arguments), TypeForm::ClassOf)
    } else {
        TypeForm::Other
    }
}

/// The form of `T.name(..)` and what follows it.
fn call_form(name: &str, arguments: Option<&[Outline]>, rest: &[Outline]) -> TypeForm
    ensures { result ≡ spec.call_form name.now (option_map (λ a. a.now) arguments.entry) rest.now }
{
    match arguments {
        None => TypeForm::Other,
        Some(arguments) => {
            if name == "proc" {
                form_if(
                    has_none(arguments) && all_plain_calls(rest),
                    TypeForm::ProcOf,
                )
            } else if has_none(rest) {
                named_form(name, arguments)
            } else {
                TypeForm::Other
            }
        }
    }
}

/// The form of `T::Name[..]`.
fn index_form(name: &str, arguments: &[Outline]) -> TypeForm
    ensures { result ≡ spec.index_form name.now arguments.now }
{
    if name == "Array" {
        form_if(has_one(arguments), TypeForm::ArrayOf)
    } else if name == "Hash" {
        form_if(has_two(arguments), TypeForm::HashOf)
    } else {
        TypeForm::Other
    }
}

/// The form of `T::Name` and one more suffix.
fn followed_form(name: &str, suffix: &Outline) -> TypeForm
    ensures { result ≡ spec.followed_form name.now (spec.kind_of suffix.now) (spec.parts_of suffix.now) }
{
    match suffix.label.kind {
        NodeKind::Index => index_form(name, parts(suffix)),
        NodeKind::SuffixConstant => TypeForm::Path,
        _ => TypeForm::Other,
    }
}

/// The form of `T::Name` and what follows it.
fn constant_form(name: &str, rest: &[Outline]) -> TypeForm
    ensures { result ≡ spec.constant_form name.now rest.now }
{
    match rest {
        [] => {
            if name == "Boolean" {
                TypeForm::Boolean
            } else {
                TypeForm::Path
            }
        }
        [only] => followed_form(name, only),
        _ => form_if(all_within(rest), TypeForm::Path),
    }
}

/// The form of `T` with this suffix and what follows it.
fn first_form(first: &Outline, rest: &[Outline]) -> TypeForm
    ensures { result ≡ spec.t_form_at (spec.kind_of first.now) (spec.words_of first.now) (spec.parts_of first.now) rest.now }
{
    match first.label.kind {
        NodeKind::SuffixCall => call_form(
            first.label.words.as_str(),
            plain_arguments(parts(first)),
            rest,
        ),
        NodeKind::SuffixConstant => constant_form(first.label.words.as_str(), rest),
        _ => TypeForm::Other,
    }
}

/// The form of `T` with these suffixes.
fn t_form(suffixes: &[Outline]) -> TypeForm
    ensures { result ≡ spec.t_form suffixes.now }
{
    match suffixes {
        [] => TypeForm::Path,
        [first, rest @ ..] => first_form(first, rest),
    }
}

/// The form of an operand with suffixes.
fn post_form(parts: &[Outline]) -> TypeForm
    ensures { result ≡ spec.post_form parts.now }
{
    match parts {
        [] => TypeForm::Other,
        [operand, suffixes @ ..] => {
            if is_t(operand) {
                t_form(suffixes)
            } else {
                form_if(begins_path(operand) && all_within(suffixes), TypeForm::Path)
            }
        }
    }
}

/// The form that a tree has as a type expression, whatever stands in it.
#[tactic(auto, unfolding(crate::specs::Forms::type_form))]
pub fn type_form(tree: &Outline) -> TypeForm
    ensures { result ≡ spec.type_form tree.now }
{
    match tree.label.kind {
        NodeKind::Constant => TypeForm::Path,
        NodeKind::TopConstant => TypeForm::Path,
        NodeKind::Post => post_form(parts(tree)),
        _ => TypeForm::Other,
    }
}

/// Whether type expressions stand in one of this form.
pub fn has_inner(form: TypeForm) -> bool
    ensures { result ≡ spec.has_inner form }
{
    match form {
        TypeForm::Nilable => true,
        TypeForm::AnyOf => true,
        TypeForm::AllOf => true,
        TypeForm::ArrayOf => true,
        TypeForm::HashOf => true,
        TypeForm::ProcOf => true,
        _ => false,
    }
}
