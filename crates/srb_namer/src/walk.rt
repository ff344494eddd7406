//! The facts of a tree, by a walk in the order of the text.

ghost use Rattle.std.specs.Prelude.{◌≡◌, true, None, IfOk, OnOk};
ghost use Rattle.std.specs.Option.{option_copied};
ghost use Rattle.srb_namer.specs.Declarations.{seen_place};
ghost use Rattle.srb_namer.specs.Declarations as declared;
ghost use Rattle.srb_namer.specs.Facts as spec;

use crate::declarations::{mixed, with_assigned, with_class, with_method, with_module};
use crate::place::{Place, after_sig, inside, method_place};
use rb_rewrite::declaring::is_sig;
use rb_tree::syntax::{
    Argument, Arm, Block, Guarded, Node, Pair, Parameter, Piece, Reference, Rescue, Suffix, Tree,
    When,
};
use srb_declarations::naming::declared_name;
use srb_terms::{Boxed, Fact, Items, Names, NoMemory};
use std::alloc::Global;

/// The `sig` statement that a statement is, if it is one.
fn sig_if<'a>(statement: &'a Tree) -> Option<&'a Tree>
    ensures { option_copied result ≡ spec.sig_if statement.now }
{
    if is_sig(statement) {
        Some(statement)
    } else {
        None
    }
}

/// A superclass out of its box.
fn superclass_of<'a>(superclass: &'a Option<Boxed<Reference>>) -> Option<&'a Reference>
    ensures { option_copied result ≡ superclass.now }
{
    match superclass {
        None => None,
        Some(superclass) => Some(superclass.get()),
    }
}

/// Trees in a row.
#[cycle(walks)]
fn trees<'a>(
    alloc: Global,
    place: Place<'a>,
    row: &[Tree],
    facts: &mut Items<Fact>,
) -> Result<(), NoMemory>
    ensures { OnOk result (facts.new ≡ spec.each spec.plain_of row.now (seen_place place.entry) facts.old) }
{
    'row: for tree in row {
        plain(alloc, place, tree, facts)?;
    }
    Ok(())
}

/// A tree, if there is one.
#[cycle(walks)]
fn maybe<'a>(
    alloc: Global,
    place: Place<'a>,
    tree: &Option<Tree>,
    facts: &mut Items<Fact>,
) -> Result<(), NoMemory>
    ensures { OnOk result (facts.new ≡ spec.if_there spec.plain_of tree.now (seen_place place.entry) facts.old) }
{
    match tree {
        None => Ok(()),
        Some(tree) => plain(alloc, place, tree, facts),
    }
}

/// An argument.
#[cycle(walks)]
fn argument<'a>(
    alloc: Global,
    place: Place<'a>,
    argument: &Argument<Tree>,
    facts: &mut Items<Fact>,
) -> Result<(), NoMemory>
    ensures { OnOk result (facts.new ≡ spec.by_argument spec.plain_of argument.now (seen_place place.entry) facts.old) }
{
    match argument {
        Argument::Positional { value }
        | Argument::Keyword { value, .. }
        | Argument::Block { value, .. } => plain(alloc, place, value, facts),
    }
}

/// Arguments.
#[cycle(walks)]
fn arguments<'a>(
    alloc: Global,
    place: Place<'a>,
    row: &[Argument<Tree>],
    facts: &mut Items<Fact>,
) -> Result<(), NoMemory>
    ensures { OnOk result (facts.new ≡ spec.each (spec.by_argument spec.plain_of) row.now (seen_place place.entry) facts.old) }
{
    'row: for one in row {
        argument(alloc, place, one, facts)?;
    }
    Ok(())
}

/// Arguments, if brackets stand.
#[cycle(walks)]
fn brackets<'a>(
    alloc: Global,
    place: Place<'a>,
    row: &Option<Items<Argument<Tree>>>,
    facts: &mut Items<Fact>,
) -> Result<(), NoMemory>
    ensures { OnOk result (facts.new ≡ spec.if_there (spec.each (spec.by_argument spec.plain_of)) row.now (seen_place place.entry) facts.old) }
{
    match row {
        None => Ok(()),
        Some(row) => arguments(alloc, place, row.as_slice(), facts),
    }
}

/// A block, if there is one.
#[cycle(walks)]
fn block<'a>(
    alloc: Global,
    place: Place<'a>,
    block: &Option<Boxed<Block<Tree>>>,
    facts: &mut Items<Fact>,
) -> Result<(), NoMemory>
    ensures { OnOk result (facts.new ≡ spec.if_there (spec.by_block spec.plain_of) block.now (seen_place place.entry) facts.old) }
{
    match block {
        None => Ok(()),
        Some(block) => plain(alloc, place, &block.get().body, facts),
    }
}

/// A suffix.
#[cycle(walks)]
fn suffix<'a>(
    alloc: Global,
    place: Place<'a>,
    suffix: &Suffix<Tree>,
    facts: &mut Items<Fact>,
) -> Result<(), NoMemory>
    ensures { OnOk result (facts.new ≡ spec.by_suffix spec.plain_of suffix.now (seen_place place.entry) facts.old) }
{
    match suffix {
        Suffix::Call {
            arguments: row,
            block: after,
            ..
        } => {
            brackets(alloc, place, row, facts)?;
            block(alloc, place, after, facts)
        }
        Suffix::Constant { .. } => Ok(()),
        Suffix::Index { arguments: row, .. } => arguments(alloc, place, row.as_slice(), facts),
    }
}

/// Suffixes.
#[cycle(walks)]
fn suffixes<'a>(
    alloc: Global,
    place: Place<'a>,
    row: &[Suffix<Tree>],
    facts: &mut Items<Fact>,
) -> Result<(), NoMemory>
    ensures { OnOk result (facts.new ≡ spec.each (spec.by_suffix spec.plain_of) row.now (seen_place place.entry) facts.old) }
{
    'row: for one in row {
        suffix(alloc, place, one, facts)?;
    }
    Ok(())
}

/// A piece of a string.
#[cycle(walks)]
fn piece<'a>(
    alloc: Global,
    place: Place<'a>,
    piece: &Piece<Tree>,
    facts: &mut Items<Fact>,
) -> Result<(), NoMemory>
    ensures { OnOk result (facts.new ≡ spec.by_piece spec.plain_of piece.now (seen_place place.entry) facts.old) }
{
    match piece {
        Piece::Words { .. } => Ok(()),
        Piece::Code { body, .. } => plain(alloc, place, body, facts),
    }
}

/// The pieces of a string.
#[cycle(walks)]
fn pieces<'a>(
    alloc: Global,
    place: Place<'a>,
    row: &[Piece<Tree>],
    facts: &mut Items<Fact>,
) -> Result<(), NoMemory>
    ensures { OnOk result (facts.new ≡ spec.each (spec.by_piece spec.plain_of) row.now (seen_place place.entry) facts.old) }
{
    'row: for one in row {
        piece(alloc, place, one, facts)?;
    }
    Ok(())
}

/// A pair of a hash.
#[cycle(walks)]
fn pair<'a>(
    alloc: Global,
    place: Place<'a>,
    pair: &Pair<Tree>,
    facts: &mut Items<Fact>,
) -> Result<(), NoMemory>
    ensures { OnOk result (facts.new ≡ spec.by_pair spec.plain_of pair.now (seen_place place.entry) facts.old) }
{
    match pair {
        Pair::Arrow { key, value } => {
            plain(alloc, place, key, facts)?;
            plain(alloc, place, value, facts)
        }
        Pair::Label { value, .. } => plain(alloc, place, value, facts),
    }
}

/// The pairs of a hash.
#[cycle(walks)]
fn pairs<'a>(
    alloc: Global,
    place: Place<'a>,
    row: &[Pair<Tree>],
    facts: &mut Items<Fact>,
) -> Result<(), NoMemory>
    ensures { OnOk result (facts.new ≡ spec.each (spec.by_pair spec.plain_of) row.now (seen_place place.entry) facts.old) }
{
    'row: for one in row {
        pair(alloc, place, one, facts)?;
    }
    Ok(())
}

/// `elsif` arms.
#[cycle(walks)]
fn arms<'a>(
    alloc: Global,
    place: Place<'a>,
    row: &[Arm<Tree>],
    facts: &mut Items<Fact>,
) -> Result<(), NoMemory>
    ensures { OnOk result (facts.new ≡ spec.each (spec.by_arm spec.plain_of) row.now (seen_place place.entry) facts.old) }
{
    'row: for one in row {
        plain(alloc, place, &one.condition, facts)?;
        plain(alloc, place, &one.body, facts)?;
    }
    Ok(())
}

/// A `when` arm.
#[cycle(walks)]
fn when<'a>(
    alloc: Global,
    place: Place<'a>,
    when: &When<Tree>,
    facts: &mut Items<Fact>,
) -> Result<(), NoMemory>
    ensures { OnOk result (facts.new ≡ spec.by_when spec.plain_of when.now (seen_place place.entry) facts.old) }
{
    trees(alloc, place, when.patterns.as_slice(), facts)?;
    plain(alloc, place, &when.body, facts)
}

/// `when` arms.
#[cycle(walks)]
fn whens<'a>(
    alloc: Global,
    place: Place<'a>,
    row: &[When<Tree>],
    facts: &mut Items<Fact>,
) -> Result<(), NoMemory>
    ensures { OnOk result (facts.new ≡ spec.each (spec.by_when spec.plain_of) row.now (seen_place place.entry) facts.old) }
{
    'row: for one in row {
        when(alloc, place, one, facts)?;
    }
    Ok(())
}

/// A `rescue` clause.
#[cycle(walks)]
fn rescue<'a>(
    alloc: Global,
    place: Place<'a>,
    rescue: &Rescue<Tree>,
    facts: &mut Items<Fact>,
) -> Result<(), NoMemory>
    ensures { OnOk result (facts.new ≡ spec.by_rescue spec.plain_of rescue.now (seen_place place.entry) facts.old) }
{
    trees(alloc, place, rescue.patterns.as_slice(), facts)?;
    plain(alloc, place, &rescue.body, facts)
}

/// `rescue` clauses.
#[cycle(walks)]
fn rescues<'a>(
    alloc: Global,
    place: Place<'a>,
    row: &[Rescue<Tree>],
    facts: &mut Items<Fact>,
) -> Result<(), NoMemory>
    ensures { OnOk result (facts.new ≡ spec.each (spec.by_rescue spec.plain_of) row.now (seen_place place.entry) facts.old) }
{
    'row: for one in row {
        rescue(alloc, place, one, facts)?;
    }
    Ok(())
}

/// A body with its `rescue` clauses, `else` and `ensure`.
#[cycle(walks)]
fn guarded<'a>(
    alloc: Global,
    place: Place<'a>,
    guarded: &Guarded<Tree>,
    facts: &mut Items<Fact>,
) -> Result<(), NoMemory>
    ensures { OnOk result (facts.new ≡ spec.by_guarded spec.plain_of guarded.now (seen_place place.entry) facts.old) }
{
    plain(alloc, place, &guarded.body, facts)?;
    rescues(alloc, place, guarded.rescues.as_slice(), facts)?;
    maybe(alloc, place, &guarded.otherwise, facts)?;
    maybe(alloc, place, &guarded.ensure, facts)
}

/// The parameters of a method.
#[cycle(walks)]
fn parameters<'a>(
    alloc: Global,
    place: Place<'a>,
    row: &[Parameter<Tree>],
    facts: &mut Items<Fact>,
) -> Result<(), NoMemory>
    ensures { OnOk result (facts.new ≡ spec.each (spec.by_parameter spec.plain_of) row.now (seen_place place.entry) facts.old) }
{
    'row: for one in row {
        maybe(alloc, place, &one.default, facts)?;
    }
    Ok(())
}

/// The body of a class or module of this name.
#[cycle(walks)]
fn class(alloc: Global, inner: &Tree, scope: Names, facts: &mut Items<Fact>) -> Result<(), NoMemory>
    ensures { OnOk result (facts.new ≡ spec.body_of inner.now (declared.place scope true None) facts.old) }
{
    let within = Place {
        scope: &scope,
        meta: true,
        sig: None,
    };
    body(alloc, within, inner, facts)
}

/// The statements of a class or module body.
#[cycle(walks)]
fn statements<'a>(
    alloc: Global,
    place: Place<'a>,
    row: &[Tree],
    facts: &mut Items<Fact>,
) -> Result<(), NoMemory>
    ensures { OnOk result (facts.new ≡ spec.by_statements (λ t. t) spec.plain_of spec.body_of None row.now (seen_place place.entry) facts.old) }
{
    let mut sig = None;
    'row: for statement in row {
        mixed(alloc, place, statement, facts)?;
        plain(alloc, after_sig(place, sig), statement, facts)?;
        sig = sig_if(statement);
    }
    Ok(())
}

/// A statement or an expression.
#[cycle(walks)]
#[tactic(auto, using(crate::proofs::Equations::plain_is))]
fn plain<'a>(
    alloc: Global,
    place: Place<'a>,
    tree: &Tree,
    facts: &mut Items<Fact>,
) -> Result<(), NoMemory>
    ensures { OnOk result (facts.new ≡ spec.plain_of tree.now (seen_place place.entry) facts.old) }
{
    plain_by_node(alloc, place, tree, facts)
}

/// The body of a class or module.
#[cycle(walks)]
#[tactic(auto, using(crate::proofs::Equations::body_is))]
fn body<'a>(
    alloc: Global,
    place: Place<'a>,
    tree: &Tree,
    facts: &mut Items<Fact>,
) -> Result<(), NoMemory>
    ensures { OnOk result (facts.new ≡ spec.body_of tree.now (seen_place place.entry) facts.old) }
{
    body_by_node(alloc, place, tree, facts)
}

/// The same by the node of the tree.
#[cycle(walks)]
#[tactic(auto, unfolding(crate::specs::Facts::body_by_node, crate::specs::Facts::plain_by_node))]
fn body_by_node<'a>(
    alloc: Global,
    place: Place<'a>,
    tree: &Tree,
    facts: &mut Items<Fact>,
) -> Result<(), NoMemory>
    ensures { OnOk result (facts.new ≡ spec.body_by_node tree.now (seen_place place.entry) facts.old) }
{
    match tree.get() {
        Node::Body {
            statements: row,
            ..
        } => statements(alloc, place, row.as_slice(), facts),
        _ => plain_by_node(alloc, place, tree, facts),
    }
}

/// The same by the node of the tree.
#[cycle(walks)]
#[tactic(auto, unfolding(crate::specs::Facts::plain_by_node))]
fn plain_by_node<'a>(
    alloc: Global,
    place: Place<'a>,
    tree: &Tree,
    facts: &mut Items<Fact>,
) -> Result<(), NoMemory>
    ensures { OnOk result (facts.new ≡ spec.plain_by_node tree.now (seen_place place.entry) facts.old) }
{
    let within = inside(place);
    match tree.get() {
        Node::Body { statements, .. } => trees(alloc, within, statements.as_slice(), facts),
        Node::Modified {
            statement,
            condition,
            ..
        } => {
            plain(alloc, within, statement, facts)?;
            plain(alloc, within, condition, facts)
        }
        Node::Jump { value, .. } => maybe(alloc, within, value, facts),
        Node::Assign { target, value, .. } => {
            with_assigned(alloc, place, target, value, facts)?;
            plain(alloc, within, target, facts)?;
            plain(alloc, within, value, facts)
        }
        Node::OperatorAssign { target, value, .. } => {
            plain(alloc, within, target, facts)?;
            plain(alloc, within, value, facts)
        }
        Node::Command {
            callee,
            arguments: row,
            block: after,
            ..
        } => {
            plain(alloc, within, callee, facts)?;
            arguments(alloc, within, row.as_slice(), facts)?;
            block(alloc, within, after, facts)
        }
        Node::Conditional {
            condition,
            positive,
            negative,
            ..
        } => {
            plain(alloc, within, condition, facts)?;
            plain(alloc, within, positive, facts)?;
            plain(alloc, within, negative, facts)
        }
        Node::Binary { left, right, .. } => {
            plain(alloc, within, left, facts)?;
            plain(alloc, within, right, facts)
        }
        Node::Unary { operand, .. } => plain(alloc, within, operand, facts),
        Node::Post {
            receiver,
            suffixes: row,
            ..
        } => {
            plain(alloc, within, receiver, facts)?;
            suffixes(alloc, within, row.as_slice(), facts)
        }
        Node::Text { pieces: row, .. } => pieces(alloc, within, row.as_slice(), facts),
        Node::Call {
            arguments: row,
            block: after,
            ..
        } => {
            brackets(alloc, within, row, facts)?;
            block(alloc, within, after, facts)
        }
        Node::Yield { arguments, .. } | Node::Super { arguments, .. } => {
            brackets(alloc, within, arguments, facts)
        }
        Node::Array { elements, .. } => trees(alloc, within, elements.as_slice(), facts),
        Node::Hash { pairs: row, .. } => pairs(alloc, within, row.as_slice(), facts),
        Node::Parens { body, .. } => plain(alloc, within, body, facts),
        Node::If {
            condition,
            body,
            arms: row,
            otherwise,
            ..
        } => {
            plain(alloc, within, condition, facts)?;
            plain(alloc, within, body, facts)?;
            arms(alloc, within, row.as_slice(), facts)?;
            maybe(alloc, within, otherwise, facts)
        }
        Node::While {
            condition,
            body,
            ..
        } => {
            plain(alloc, within, condition, facts)?;
            plain(alloc, within, body, facts)
        }
        Node::Case {
            subject,
            arms: row,
            otherwise,
            ..
        } => {
            maybe(alloc, within, subject, facts)?;
            whens(alloc, within, row.as_slice(), facts)?;
            maybe(alloc, within, otherwise, facts)
        }
        Node::Begin { guarded: whole, .. } => guarded(alloc, within, whole.get(), facts),
        Node::Class {
            path,
            superclass,
            body,
            ..
        } => {
            let name = declared_name(alloc, place.scope, path.as_slice())?;
            with_class(alloc, place, &name, superclass_of(superclass), facts)?;
            let scope = place.scope.copied()?.pushed(alloc, name)?;
            class(alloc, body, scope, facts)
        }
        Node::Module { path, body, .. } => {
            let name = declared_name(alloc, place.scope, path.as_slice())?;
            with_module(&name, facts)?;
            let scope = place.scope.copied()?.pushed(alloc, name)?;
            class(alloc, body, scope, facts)
        }
        Node::Def {
            own,
            name,
            parameters: row,
            guarded: whole,
            ..
        } => {
            with_method(alloc, place, *own, name, row.as_slice(), facts)?;
            let method = method_place(place, *own);
            parameters(alloc, method, row.as_slice(), facts)?;
            guarded(alloc, method, whole.get(), facts)
        }
        Node::Whole { .. }
        | Node::Float { .. }
        | Node::Symbol { .. }
        | Node::InstanceVariable { .. }
        | Node::Constant { .. }
        | Node::TopConstant { .. }
        | Node::SelfWord { .. }
        | Node::Nil { .. }
        | Node::True { .. }
        | Node::False { .. }
        | Node::Name { .. } => Ok(()),
    }
}

/// The facts of a program after the rewriting of its attributes and initializers, in the order of the text.
///
/// Facts are syntactic: one that declares nothing, as a second superclass, is among them. Each belongs to the innermost class or module
/// body, and to `Object` at the program's level.
#[tactic(auto, unfolding(crate::specs::Facts::facts_of))]
pub fn facts(alloc: Global, tree: &Tree) -> Result<Items<Fact>, NoMemory>
    ensures { IfOk result (λ facts. facts ≡ spec.facts_of tree.now) }
{
    let scope = Names::new();
    let place = Place {
        scope: &scope,
        meta: false,
        sig: None,
    };
    let mut found = Items::new(alloc);
    plain(alloc, place, tree, &mut found)?;
    Ok(found)
}
