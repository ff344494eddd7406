//! How arguments, blocks and other parts are read.

ghost use Rattle.std.specs.Prelude.{◌≡◌, option_map};
ghost use Rattle.std.specs.List.{list_all};
ghost use Rattle.rb_views.specs.Targets.{seen_callee};
ghost use Rattle.srb_references.specs.Readings as spec;

use crate::reading::{Reading, Taken};
use crate::type_form::{TypeForm, begins_path, is_t};
use rb_tree::syntax::{Dot, Node, Suffix, Tree};
use rb_views::target::Callee;
use srb_declarations::naming::mixin_named;

/// Whether a tree is a constant without `::`.
#[tactic(auto, unfolding(crate::specs::Readings::is_constant))]
fn is_constant(tree: &Tree) -> bool
    ensures { result ≡ spec.is_constant tree.now }
{
    match tree.get() {
        Node::Constant { .. } => true,
        _ => false,
    }
}

/// Whether an operand with these suffixes is the constant `T` alone.
fn is_t_alone(operand: &Tree, suffixes: &[Suffix<Tree>]) -> bool
    ensures { result ≡ spec.is_t_alone operand.now suffixes.now }
{
    match suffixes {
        [] => is_t(operand),
        _ => false,
    }
}

fn is_plain_dot(dot: Dot) -> bool
    ensures { result ≡ spec.is_plain_dot dot }
{
    match dot {
        Dot::Plain => true,
        Dot::Safe => false,
    }
}

/// Whether a call is `T.let` or `T.cast` without a block, where it is on `T`.
fn asserts(on_t: bool, dot: Dot, name: &str, block: bool) -> bool
    ensures { result ≡ spec.asserts on_t dot name.now block }
{
    if on_t && is_plain_dot(dot) && !block {
        if name == "let" { true } else { name == "cast" }
    } else {
        false
    }
}

/// How the arguments of a call of a signature's chain are read.
fn taken_in_chain(name: &str) -> Taken
    ensures { result ≡ spec.taken_in_chain name.now }
{
    if name == "returns" {
        Taken::TypesByPlace
    } else if name == "params" {
        Taken::TypesByName
    } else {
        Taken::All
    }
}

/// How the arguments of a call are read, by its name alone.
fn taken_by_name(reading: Reading, name: &str) -> Taken
    ensures { result ≡ spec.taken_by_name reading name.now }
{
    match reading {
        Reading::Chain => taken_in_chain(name),
        _ => Taken::All,
    }
}

/// How the arguments of a call on a receiver are read, which may be `T`.
pub fn taken_on(reading: Reading, on_t: bool, dot: Dot, name: &str, block: bool) -> Taken
    ensures { result ≡ spec.taken_on reading on_t dot name.now block }
{
    if asserts(on_t, dot, name, block) {
        Taken::SecondIsType
    } else {
        taken_by_name(reading, name)
    }
}

/// Whether a suffix is a call.
fn is_call(suffix: &Suffix<Tree>) -> bool
    ensures { result ≡ spec.is_call suffix.now }
{
    match suffix {
        Suffix::Call { .. } => true,
        _ => false,
    }
}

/// Whether suffixes are calls alone.
fn all_calls(suffixes: &[Suffix<Tree>]) -> bool
    ensures { result ≡ list_all spec.is_call suffixes.now }
{
    for suffix in suffixes {
        if !is_call(suffix) {
            return false;
        }
    }
    true
}

/// How what these suffixes make is read: in a signature's chain there are calls alone.
pub fn row_reading(reading: Reading, suffixes: &[Suffix<Tree>]) -> Reading
    ensures { result ≡ spec.row_reading reading suffixes.now }
{
    match reading {
        Reading::Chain => {
            if all_calls(suffixes) {
                Reading::Chain
            } else {
                Reading::Plain
            }
        }
        _ => reading,
    }
}

/// How the arguments of a call on `self` are read, with or without a block.
pub fn taken_by_self(reading: Reading, name: &str, block: bool) -> Taken
    ensures { result ≡ spec.taken_by_self reading name.now block }
{
    match (reading, block) {
        (Reading::Direct, false) => match mixin_named(name) {
            Some(_) => Taken::Mixins,
            None => Taken::All,
        },
        _ => taken_by_name(reading, name),
    }
}

/// How the arguments of a command that calls this are read, with or without a block.
pub fn taken_by_callee<'a>(reading: Reading, callee: Option<Callee<'a>>, block: bool) -> Taken
    ensures { result ≡ spec.taken_by_callee reading (option_map seen_callee callee.entry) block }
{
    match callee {
        Some(Callee::Name { name, .. }) => taken_by_self(reading, name.as_str(), block),
        Some(
            Callee::Call {
                receiver,
                dot,
                name,
                ..
            },
        ) => taken_on(
            row_reading(reading, receiver.suffixes),
            is_t_alone(receiver.operand, receiver.suffixes),
            dot,
            name.as_str(),
            block,
        ),
        _ => Taken::All,
    }
}

/// How the arguments in a type expression of this form are read. `None` exactly where the form has no such arguments, or isn't one.
fn taken_of_form(form: TypeForm) -> Option<Taken>
    ensures { result ≡ spec.taken_of_form form }
{
    match form {
        TypeForm::Path => None,
        TypeForm::Other => None,
        TypeForm::ClassOf => Some(Taken::ClassNames),
        _ => Some(Taken::Types),
    }
}

/// The same, where it is read as a type expression.
pub fn taken_in_type(reading: Reading, form: TypeForm) -> Option<Taken>
    ensures { result ≡ spec.taken_in_type reading form }
{
    match reading {
        Reading::TypeExpression => taken_of_form(form),
        _ => None,
    }
}

/// How an argument by its place is read.
pub fn positional_reading(taken: Taken) -> Reading
    ensures { result ≡ spec.positional_reading taken }
{
    match taken {
        Taken::Mixins => Reading::Mixin,
        Taken::Types => Reading::TypeExpression,
        Taken::TypesByPlace => Reading::TypeExpression,
        Taken::ClassNames => Reading::ClassName,
        _ => Reading::Plain,
    }
}

/// How a keyword argument is read.
pub fn keyword_reading(taken: Taken) -> Reading
    ensures { result ≡ spec.keyword_reading taken }
{
    match taken {
        Taken::Types => Reading::TypeExpression,
        Taken::TypesByName => Reading::TypeExpression,
        _ => Reading::Plain,
    }
}

/// How the block of a call on `self` is read.
pub fn block_by_self(reading: Reading, name: &str) -> Reading
    ensures { result ≡ spec.block_by_self reading name.now }
{
    match reading {
        Reading::Direct => {
            if name == "sig" {
                Reading::SigBody
            } else {
                Reading::Plain
            }
        }
        _ => Reading::Plain,
    }
}

/// How the block of a command that calls this is read.
pub fn block_by_callee<'a>(reading: Reading, callee: Option<Callee<'a>>) -> Reading
    ensures { result ≡ spec.block_by_callee reading (option_map seen_callee callee.entry) }
{
    match callee {
        Some(Callee::Name { name, .. }) => block_by_self(reading, name.as_str()),
        _ => Reading::Plain,
    }
}

/// Whether there is a single tree.
pub fn is_single(trees: &[Tree]) -> bool
    ensures { result ≡ spec.is_single trees.now }
{
    match trees {
        [_] => true,
        _ => false,
    }
}

/// How the statements of a body are read, by whether there is a single one.
pub fn statement_reading(reading: Reading, single: bool) -> Reading
    ensures { result ≡ spec.statement_reading reading single }
{
    match (reading, single) {
        (Reading::Inner, _) => Reading::Direct,
        (Reading::SigBody, true) => Reading::Chain,
        _ => Reading::Plain,
    }
}

/// How what a call is on is read.
pub fn inner_reading(reading: Reading) -> Reading
    ensures { result ≡ spec.inner_reading reading }
{
    match reading {
        Reading::Chain => Reading::Chain,
        _ => Reading::Plain,
    }
}

/// How what suffixes stand after is read. `None` exactly for a constant, which belongs to the path that begins with it.
pub fn receiver_reading(reading: Reading, receiver: &Tree) -> Option<Reading>
    ensures { result ≡ spec.receiver_reading reading receiver.now }
{
    if begins_path(receiver) {
        None
    } else {
        Some(inner_reading(reading))
    }
}

/// How what is assigned to is read. `None` exactly for a constant, which is declared there.
pub fn target_reading(target: &Tree) -> Option<Reading>
    ensures { result ≡ spec.target_reading target.now }
{
    if is_constant(target) {
        None
    } else {
        Some(Reading::Plain)
    }
}
