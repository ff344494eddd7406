//! Adds the parts of a node to what is still to be read.

ghost use Rattle.std.specs.Prelude.{◌≡◌, ◌++◌, ◌∷◌, [], OnOk, map};
ghost use Rattle.std.specs.List.{flat_map};
ghost use Rattle.std.specs.Option.{is_some};
ghost use Rattle.rb_tree.specs.declared.syntax.Node.{out-Node};
ghost use Rattle.rb_views.specs.Calls as calls;
ghost use Rattle.rb_views.specs.Targets.{callee_of};
ghost use Rattle.srb_references.specs.Readings as spec;
ghost use Rattle.srb_references.specs.TypeForms as forms;
ghost use Rattle.srb_declarations.specs.Declarations as declared;

use crate::reading::{Reading, Taken};
use crate::rows::{
    arms, call, form_suffixes, guarded, if_any, pairs, parameters, part_if, pieces, plain, row,
    suffixes, trees, two, whens,
};
use crate::taken::{
    block_by_callee, block_by_self, inner_reading, is_single, receiver_reading, row_reading,
    statement_reading, taken_by_callee, taken_by_self, taken_in_type, target_reading,
};
use crate::type_form::{in_brackets, is_t, post_form};
use crate::visit::Worklist;
use rb_tree::syntax::{
    Argument, Arm, Block, Guarded, Node, Parameter, PlacedName, Suffix, Tree, When,
};
use rb_views::target::Callee;
use srb_declarations::naming::declared_name;
use srb_terms::{Boxed, Items, Names, NoMemory};
use std::alloc::Global;

/// Adds the statements of a body.
fn body<'a>(
    list: &mut Worklist<'a>,
    reading: Reading,
    scope: &Names,
    statements: &'a [Tree],
) -> Result<(), NoMemory>
    ensures { OnOk result (list.new ≡ list.old ++ map (spec.visit (spec.statement_reading reading (spec.is_single statements.now)) scope.now) statements.now) }
{
    let reading = statement_reading(reading, is_single(statements));
    trees(list, reading, scope, statements)
}

/// Adds the parts of an assignment.
fn assignment<'a>(
    list: &mut Worklist<'a>,
    scope: &Names,
    target: &'a Tree,
    value: &'a Tree,
) -> Result<(), NoMemory>
    ensures { OnOk result (list.new ≡ list.old ++ (spec.part_if scope.now (spec.target_reading target.now) target.now ++ spec.plain scope.now value.now ∷ [])) }
{
    part_if(list, scope, target_reading(target), target)?;
    plain(list, scope, value)
}

/// Adds the parts of a command.
fn command<'a>(
    list: &mut Worklist<'a>,
    reading: Reading,
    scope: &Names,
    callee: &'a Tree,
    given: &'a [Argument<Tree>],
    block: &'a Option<Boxed<Block<Tree>>>,
) -> Result<(), NoMemory>
    ensures { OnOk result (list.new ≡ list.old ++ spec.visit (spec.inner_reading reading) scope.now callee.now
        ∷ spec.call_parts scope.now (spec.taken_by_callee reading (callee_of callee.now) (is_some block.now)) given.now (spec.block_by_callee reading (callee_of callee.now)) block.now) }
{
    let called = Callee::of(callee);
    let taken = taken_by_callee(reading, called, block.is_some());
    let inner = block_by_callee(reading, called);
    list.push(inner_reading(reading), scope, callee)?;
    call(list, scope, taken, given, inner, block)
}

/// Adds three parts that are read as expressions.
fn three<'a>(
    list: &mut Worklist<'a>,
    scope: &Names,
    first: &'a Tree,
    second: &'a Tree,
    third: &'a Tree,
) -> Result<(), NoMemory>
    ensures { OnOk result (list.new ≡ list.old ++ spec.plain scope.now first.now ∷ spec.plain scope.now second.now ∷ spec.plain scope.now third.now ∷ []) }
{
    two(list, scope, first, second)?;
    plain(list, scope, third)
}

/// Adds the parts of an operand with suffixes; of a type expression of a form, where it is read as one, the arguments alone.
fn post_by<'a>(
    list: &mut Worklist<'a>,
    taken: Option<Taken>,
    reading: Reading,
    scope: &Names,
    receiver: &'a Tree,
    row: &'a [Suffix<Tree>],
) -> Result<(), NoMemory>
    ensures { OnOk result (list.new ≡ list.old ++ spec.post_parts scope.now taken reading receiver.now receiver.now row.now) }
{
    match taken {
        Some(taken) => form_suffixes(list, scope, taken, row),
        None => {
            part_if(list, scope, receiver_reading(reading, receiver), receiver)?;
            suffixes(list, scope, reading, is_t(receiver), row)
        }
    }
}

/// Adds the parts of an operand with suffixes.
fn post<'a>(
    list: &mut Worklist<'a>,
    reading: Reading,
    scope: &Names,
    receiver: &'a Tree,
    row: &'a [Suffix<Tree>],
) -> Result<(), NoMemory>
    ensures { OnOk result (list.new ≡ list.old ++ spec.post_parts scope.now (spec.taken_in_type reading (forms.post_form (λ t. t) receiver.now row.now))
        (spec.row_reading reading row.now) receiver.now receiver.now row.now) }
{
    let taken = taken_in_type(reading, post_form(receiver, row));
    post_by(list, taken, row_reading(reading, row), scope, receiver, row)
}

/// Adds the parts of a call on `self`.
fn own_call<'a>(
    list: &mut Worklist<'a>,
    reading: Reading,
    scope: &Names,
    name: &str,
    given: &'a Option<Items<Argument<Tree>>>,
    block: &'a Option<Boxed<Block<Tree>>>,
) -> Result<(), NoMemory>
    ensures { OnOk result (list.new ≡ list.old ++ spec.call_parts scope.now (spec.taken_by_self reading name.now (is_some block.now)) (calls.arguments_of given.now) (spec.block_by_self reading name.now) block.now) }
{
    let taken = taken_by_self(reading, name, block.is_some());
    let inner = block_by_self(reading, name);
    call(list, scope, taken, in_brackets(given), inner, block)
}

/// Adds the parts of an `if`.
fn branches<'a>(
    list: &mut Worklist<'a>,
    scope: &Names,
    condition: &'a Tree,
    body: &'a Tree,
    row: &'a [Arm<Tree>],
    otherwise: &'a Option<Tree>,
) -> Result<(), NoMemory>
    ensures { OnOk result (list.new ≡ list.old ++ spec.plain scope.now condition.now ∷ spec.plain scope.now body.now
        ∷ (flat_map (spec.arm_parts scope.now) row.now ++ spec.if_any scope.now otherwise.now)) }
{
    two(list, scope, condition, body)?;
    arms(list, scope, row)?;
    if_any(list, scope, otherwise)
}

/// Adds the parts of a `case`.
fn cases<'a>(
    list: &mut Worklist<'a>,
    scope: &Names,
    subject: &'a Option<Tree>,
    row: &'a [When<Tree>],
    otherwise: &'a Option<Tree>,
) -> Result<(), NoMemory>
    ensures { OnOk result (list.new ≡ list.old ++ (spec.if_any scope.now subject.now ++ (flat_map (spec.when_parts scope.now) row.now ++ spec.if_any scope.now otherwise.now))) }
{
    if_any(list, scope, subject)?;
    whens(list, scope, row)?;
    if_any(list, scope, otherwise)
}

/// Adds the body of a class or module.
fn inner_body<'a>(
    alloc: Global,
    list: &mut Worklist<'a>,
    scope: &Names,
    path: &[PlacedName],
    body: &'a Tree,
) -> Result<(), NoMemory>
    ensures { OnOk result (list.new ≡ list.old ++ spec.body_parts scope.now (declared.declared_name scope.now path.now) body.now) }
{
    let name = declared_name(alloc, scope, path)?;
    let inner = scope.copied()?.pushed(alloc, name)?;
    list.push(Reading::Inner, &inner, body)
}

/// Adds the parts of a method.
fn method<'a>(
    list: &mut Worklist<'a>,
    scope: &Names,
    row: &'a [Parameter<Tree>],
    body: &'a Guarded<Tree>,
) -> Result<(), NoMemory>
    ensures { OnOk result (list.new ≡ list.old ++ (flat_map (spec.parameter_parts scope.now) row.now ++ spec.guarded_parts scope.now body.now)) }
{
    parameters(list, scope, row)?;
    guarded(list, scope, body)
}

/// Adds the parts of a node that are read, by its reading and its scope.
pub fn parts<'a>(
    alloc: Global,
    list: &mut Worklist<'a>,
    reading: Reading,
    scope: &Names,
    node: &'a Node,
) -> Result<(), NoMemory>
    ensures { OnOk result (list.new ≡ list.old ++ spec.parts (λ x. x) reading scope.now (out-Node node.now)) }
{
    match node {
        Node::Body { statements, .. } => body(list, reading, scope, statements.as_slice()),
        Node::Modified {
            statement,
            condition,
            ..
        } => two(list, scope, statement, condition),
        Node::Jump { value, .. } => if_any(list, scope, value),
        Node::Assign { target, value, .. } => assignment(list, scope, target, value),
        Node::OperatorAssign { target, value, .. } => two(list, scope, target, value),
        Node::Command {
            callee,
            arguments,
            block,
            ..
        } => command(list, reading, scope, callee, arguments.as_slice(), block),
        Node::Conditional {
            condition,
            positive,
            negative,
            ..
        } => three(list, scope, condition, positive, negative),
        Node::Binary { left, right, .. } => two(list, scope, left, right),
        Node::Unary { operand, .. } => plain(list, scope, operand),
        Node::Post {
            receiver,
            suffixes,
            ..
        } => post(list, reading, scope, receiver, suffixes.as_slice()),
        Node::Text { pieces: inner, .. } => pieces(list, scope, inner.as_slice()),
        Node::Call {
            name,
            arguments,
            block,
            ..
        } => own_call(list, reading, scope, name.as_str(), arguments, block),
        Node::Yield { arguments, .. } | Node::Super { arguments, .. } => {
            row(list, scope, Taken::All, in_brackets(arguments))
        }
        Node::Array { elements, .. } => trees(list, Reading::Plain, scope, elements.as_slice()),
        Node::Hash { pairs: inner, .. } => pairs(list, scope, inner.as_slice()),
        Node::Parens { body, .. } => plain(list, scope, body),
        Node::If {
            condition,
            body,
            arms,
            otherwise,
            ..
        } => branches(list, scope, condition, body, arms.as_slice(), otherwise),
        Node::While {
            condition,
            body,
            ..
        } => two(list, scope, condition, body),
        Node::Case {
            subject,
            arms,
            otherwise,
            ..
        } => cases(list, scope, subject, arms.as_slice(), otherwise),
        Node::Begin { guarded: inner, .. } => guarded(list, scope, inner.get()),
        Node::Class { path, body, .. } | Node::Module { path, body, .. } => {
            inner_body(alloc, list, scope, path.as_slice(), body)
        }
        Node::Def {
            parameters,
            guarded,
            ..
        } => method(list, scope, parameters.as_slice(), guarded.get()),
        _ => Ok(()),
    }
}
