//! Attributes: the methods that `attr_reader`, `attr_writer` and `attr_accessor` stand for.

ghost use Rattle.std.specs.Prelude.{◌≡◌, [], ◌∷◌, ◌++◌, codes, option_map, IfOk, OnOk};
ghost use Rattle.std.specs.Option.{option_copied};
ghost use Rattle.rb_rewrite.specs.Attributes as spec;

use crate::copies::{copied_arguments, copied_block, copied_brackets, copied_names, copied_suffix};
use crate::declaring::Attribute;
use crate::signature::signature_of;
use rb_tree::syntax::{Argument, Block, Dot, Guarded, Node, Parameter, Suffix, Tree};
use srb_terms::{Boxed, Items, Name, NoMemory, ParamKind, Span};
use std::alloc::Global;

/// A list of one thing.
fn one<T: Drop>(alloc: Global, first: T) -> Result<Items<T>, NoMemory>
    ensures { IfOk result (λ items. items ≡ first ∷ []) }
{
    let mut items = Items::new(alloc);
    items.push(first)?;
    Ok(items)
}

/// A body of one statement, at this place.
fn body_with(alloc: Global, statement: Tree, span: Span) -> Result<Tree, NoMemory>
    ensures { IfOk result (λ t. t ≡ spec.body_with span statement) }
{
    let statements = one(alloc, statement)?;
    let node = Node::Body { statements, span };
    Tree::new(alloc, node)
}

/// A method's body of one statement.
fn body_of(alloc: Global, statement: Tree, span: Span) -> Result<Boxed<Guarded<Tree>>, NoMemory>
    ensures { IfOk result (λ g. g ≡ spec.body_of statement span) }
{
    let body = body_with(alloc, statement, span)?;
    let guarded = Guarded {
        body,
        rescues: Items::new(alloc),
        otherwise: None,
        ensure: None,
    };
    Boxed::new(alloc, guarded)
}

/// `@x`
fn instance_variable(alloc: Global, name: &Name, span: Span) -> Result<Tree, NoMemory>
    ensures { IfOk result (λ t. t ≡ spec.instance_variable name.now span) }
{
    let node = Node::InstanceVariable {
        name: name.copied()?,
        span,
    };
    Tree::new(alloc, node)
}

/// `def x` with the body `@x`.
fn reader(alloc: Global, name: &Name, span: Span) -> Result<Tree, NoMemory>
    ensures { IfOk result (λ t. t ≡ spec.reader name.now span) }
{
    let guarded = body_of(alloc, instance_variable(alloc, name, span)?, span)?;
    let node = Node::Def {
        visibility: None,
        own: false,
        name: name.copied()?,
        name_span: span,
        parameters: Items::new(alloc),
        guarded,
        span,
    };
    Tree::new(alloc, node)
}

/// `@x = x`
fn assignment(alloc: Global, name: &Name, span: Span) -> Result<Tree, NoMemory>
    ensures { IfOk result (λ t. t ≡ spec.assignment name.now span) }
{
    let target = instance_variable(alloc, name, span)?;
    let variable = Node::Name {
        name: name.copied()?,
        span,
    };
    let value = Tree::new(alloc, variable)?;
    let node = Node::Assign {
        target,
        value,
        span,
    };
    Tree::new(alloc, node)
}

/// `x=`
fn writer_name(alloc: Global, name: &Name) -> Result<Name, NoMemory>
    ensures { IfOk result (λ n. n ≡ name.now ++ codes "=") }
{
    let mut text = String::from_str(alloc, name.as_str())?;
    text.push_str("=")?;
    Name::from_string(text)
}

/// The parameter of a writer.
fn writer_parameter(name: &Name, span: Span) -> Result<Parameter<Tree>, NoMemory>
    ensures { IfOk result (λ p. p ≡ spec.writer_parameter name.now span) }
{
    Ok(Parameter {
        kind: ParamKind::Required,
        name: name.copied()?,
        span,
        default: None,
    })
}

/// `def x=(x)` with the body `@x = x`.
fn writer(alloc: Global, name: &Name, span: Span) -> Result<Tree, NoMemory>
    ensures { IfOk result (λ t. t ≡ spec.writer name.now span) }
{
    let guarded = body_of(alloc, assignment(alloc, name, span)?, span)?;
    let parameters = one(alloc, writer_parameter(name, span)?)?;
    let node = Node::Def {
        visibility: None,
        own: false,
        name: writer_name(alloc, name)?,
        name_span: span,
        parameters,
        guarded,
        span,
    };
    Tree::new(alloc, node)
}

/// `params(x: X)` at a place.
fn params_call(alloc: Global, name: &Name, given: &Tree, span: Span) -> Result<Tree, NoMemory>
    ensures { IfOk result (λ t. t ≡ spec.params_call name.now given.now span) }
{
    let argument = Argument::Keyword {
        name: name.copied()?,
        span,
        value: given.copied()?,
    };
    let node = Node::Call {
        name: Name::from_str(alloc, "params")?,
        name_span: span,
        arguments: Some(one(alloc, argument)?),
        block: None,
        span,
    };
    Tree::new(alloc, node)
}

/// The call of a name, as a call after a dot. `None` exactly where the tree is none.
#[tactic(auto, unfolding(crate::specs::Attributes::as_suffix))]
fn as_suffix(alloc: Global, tree: &Tree) -> Result<Option<Suffix<Tree>>, NoMemory>
    ensures { IfOk result (λ s. s ≡ spec.as_suffix tree.now) }
{
    match tree.get() {
        Node::Name { name, span } => Ok(Some(Suffix::Call {
            dot: Dot::Plain,
            name: name.copied()?,
            name_span: *span,
            arguments: None,
            block: None,
            span: *span,
        })),
        Node::Call {
            name,
            name_span,
            arguments,
            block,
            span,
        } => Ok(Some(Suffix::Call {
            dot: Dot::Plain,
            name: name.copied()?,
            name_span: *name_span,
            arguments: copied_brackets(alloc, arguments)?,
            block: copied_block(block)?,
            span: *span,
        })),
        _ => Ok(None),
    }
}

/// A call and those that follow it.
fn with_following(
    alloc: Global,
    first: Suffix<Tree>,
    following: &[Suffix<Tree>],
) -> Result<Items<Suffix<Tree>>, NoMemory>
    ensures { IfOk result (λ row. row ≡ first ∷ following.now) }
{
    let mut row = one(alloc, first)?;
    'following: for suffix in following {
        row.push(copied_suffix(alloc, suffix)?)?;
    }
    Ok(row)
}

/// A call, and the calls that follow it, after `first`.
fn after_first(
    alloc: Global,
    first: Tree,
    call: Option<Suffix<Tree>>,
    following: &[Suffix<Tree>],
    span: Span,
) -> Result<Option<Tree>, NoMemory>
    ensures { IfOk result (λ t. t ≡ spec.after_first first call following.now span) }
{
    match call {
        None => Ok(None),
        Some(call) => {
            let suffixes = with_following(alloc, call, following)?;
            let node = Node::Post {
                receiver: first,
                suffixes,
                span,
            };
            Ok(Some(Tree::new(alloc, node)?))
        }
    }
}

/// A chain in which each call with arguments has brackets, after `params(x: X)`.
#[tactic(auto, unfolding(crate::specs::Attributes::row_after))]
fn row_after(
    alloc: Global,
    name: &Name,
    given: &Tree,
    tree: &Tree,
) -> Result<Option<Tree>, NoMemory>
    ensures { IfOk result (λ t. t ≡ spec.row_after (spec.params_call name.now given.now) tree.now) }
{
    match tree.get() {
        Node::Name { span, .. } | Node::Call { span, .. } => {
            let first = params_call(alloc, name, given, *span)?;
            after_first(alloc, first, as_suffix(alloc, tree)?, &[], *span)
        }
        Node::Post {
            receiver,
            suffixes,
            span,
        } => {
            let first = params_call(alloc, name, given, receiver.span())?;
            after_first(
                alloc,
                first,
                as_suffix(alloc, receiver)?,
                suffixes.as_slice(),
                *span,
            )
        }
        _ => Ok(None),
    }
}

/// A command of this callee.
fn command_of(
    alloc: Global,
    arguments: &[Argument<Tree>],
    block: &Option<Boxed<Block<Tree>>>,
    span: Span,
    callee: Option<Tree>,
) -> Result<Option<Tree>, NoMemory>
    ensures { IfOk result (λ t. t ≡ option_map (spec.command_of arguments.now block.now span) callee) }
{
    match callee {
        None => Ok(None),
        Some(callee) => {
            let node = Node::Command {
                callee,
                arguments: copied_arguments(alloc, arguments)?,
                block: copied_block(block)?,
                span,
            };
            Ok(Some(Tree::new(alloc, node)?))
        }
    }
}

/// A chain after `params(x: X)`.
#[tactic(auto, unfolding(crate::specs::Attributes::chain_after))]
fn chain_after(
    alloc: Global,
    name: &Name,
    given: &Tree,
    tree: &Tree,
) -> Result<Option<Tree>, NoMemory>
    ensures { IfOk result (λ t. t ≡ spec.chain_after (spec.params_call name.now given.now) tree.now) }
{
    match tree.get() {
        Node::Command {
            callee,
            arguments,
            block,
            span,
        } => {
            let callee = row_after(alloc, name, given, callee)?;
            command_of(alloc, arguments.as_slice(), block, *span, callee)
        }
        _ => row_after(alloc, name, given, tree),
    }
}

/// A body of this statement, if there is one.
fn body_if(alloc: Global, statement: Option<Tree>, span: Span) -> Result<Option<Tree>, NoMemory>
    ensures { IfOk result (λ t. t ≡ option_map (spec.body_with span) statement) }
{
    match statement {
        None => Ok(None),
        Some(statement) => Ok(Some(body_with(alloc, statement, span)?)),
    }
}

/// A body of one chain, after `params(x: X)`.
#[tactic(auto, unfolding(crate::specs::Attributes::body_after))]
fn body_after(
    alloc: Global,
    name: &Name,
    given: &Tree,
    body: &Tree,
) -> Result<Option<Tree>, NoMemory>
    ensures { IfOk result (λ t. t ≡ spec.body_after (spec.params_call name.now given.now) body.now) }
{
    match body.get() {
        Node::Body { statements, span } => match statements.as_slice() {
            [statement] => {
                let statement = chain_after(alloc, name, given, statement)?;
                body_if(alloc, statement, *span)
            }
            _ => Ok(None),
        },
        _ => Ok(None),
    }
}

/// The block with another body, if there is one.
fn block_with(
    alloc: Global,
    block: &Block<Tree>,
    body: Option<Tree>,
) -> Result<Option<Boxed<Block<Tree>>>, NoMemory>
    ensures { IfOk result (λ b. b ≡ option_map (spec.block_with block.now) body) }
{
    match body {
        None => Ok(None),
        Some(body) => {
            let block = Block {
                parameters: copied_names(alloc, block.parameters.as_slice())?,
                body,
                span: block.span,
            };
            Ok(Some(Boxed::new(alloc, block)?))
        }
    }
}

/// A block whose chain stands after `params(x: X)`.
fn block_after(
    alloc: Global,
    name: &Name,
    given: &Tree,
    block: &Option<Boxed<Block<Tree>>>,
) -> Result<Option<Boxed<Block<Tree>>>, NoMemory>
    ensures { IfOk result (λ b. b ≡ spec.block_after (spec.params_call name.now given.now) block.now) }
{
    match block {
        None => Ok(None),
        Some(block) => {
            let block = block.get();
            let body = body_after(alloc, name, given, &block.body)?;
            block_with(alloc, block, body)
        }
    }
}

/// A call with this block, if there is one.
fn call_with(
    alloc: Global,
    name: &Name,
    name_span: Span,
    arguments: &Option<Items<Argument<Tree>>>,
    span: Span,
    block: Option<Boxed<Block<Tree>>>,
) -> Result<Option<Tree>, NoMemory>
    ensures { IfOk result (λ t. t ≡ option_map (spec.call_with name.now name_span arguments.now span) block) }
{
    match block {
        None => Ok(None),
        Some(block) => {
            let node = Node::Call {
                name: name.copied()?,
                name_span,
                arguments: copied_brackets(alloc, arguments)?,
                block: Some(block),
                span,
            };
            Ok(Some(Tree::new(alloc, node)?))
        }
    }
}

/// A command with this block, if there is one.
fn command_with(
    alloc: Global,
    callee: &Tree,
    arguments: &[Argument<Tree>],
    span: Span,
    block: Option<Boxed<Block<Tree>>>,
) -> Result<Option<Tree>, NoMemory>
    ensures { IfOk result (λ t. t ≡ option_map (spec.command_with callee.now arguments.now span) block) }
{
    match block {
        None => Ok(None),
        Some(block) => {
            let node = Node::Command {
                callee: callee.copied()?,
                arguments: copied_arguments(alloc, arguments)?,
                block: Some(block),
                span,
            };
            Ok(Some(Tree::new(alloc, node)?))
        }
    }
}

/// A `sig` statement whose chain stands after `params(x: X)`. `None` exactly where it has no chain.
#[tactic(auto, unfolding(crate::specs::Attributes::sig_after))]
fn sig_after(alloc: Global, name: &Name, given: &Tree, sig: &Tree) -> Result<Option<Tree>, NoMemory>
    ensures { IfOk result (λ t. t ≡ spec.sig_after (spec.params_call name.now given.now) sig.now) }
{
    match sig.get() {
        Node::Call {
            name: word,
            name_span,
            arguments,
            block,
            span,
        } => {
            let block = block_after(alloc, name, given, block)?;
            call_with(alloc, word, *name_span, arguments, *span, block)
        }
        Node::Command {
            callee,
            arguments,
            block,
            span,
        } => {
            let block = block_after(alloc, name, given, block)?;
            command_with(alloc, callee, arguments.as_slice(), *span, block)
        }
        _ => Ok(None),
    }
}

/// The X of `returns(X)`.
fn returned_of<'a>(sig: &'a Tree) -> Option<&'a Tree>
    ensures { option_copied result ≡ spec.returned_of sig.now }
{
    match signature_of(sig) {
        None => None,
        Some(said) => said.returned,
    }
}

/// The tree, or the other one, if there is one.
fn or_else(tree: &Tree, other: Option<Tree>) -> Result<Tree, NoMemory>
    ensures { IfOk result (λ t. t ≡ spec.or_else tree.now other) }
{
    match other {
        None => tree.copied(),
        Some(other) => Ok(other),
    }
}

/// The signature of the writer of an accessor: the chain with `params(x: X)` put first, where it has `returns(X)`.
fn writer_sig(alloc: Global, name: &Name, sig: &Tree) -> Result<Tree, NoMemory>
    ensures { IfOk result (λ t. t ≡ spec.writer_sig name.now sig.now) }
{
    match returned_of(sig) {
        None => sig.copied(),
        Some(given) => or_else(sig, sig_after(alloc, name, given, sig)?),
    }
}

/// Adds the `sig` statement, if there is one.
pub fn with_sig(so_far: &mut Items<Tree>, sig: Option<&Tree>) -> Result<(), NoMemory>
    ensures { OnOk result (so_far.new ≡ spec.with_sig so_far.old (option_copied sig.entry)) }
{
    match sig {
        None => Ok(()),
        Some(sig) => so_far.push(sig.copied()?),
    }
}

/// Adds the reader of a name.
fn with_reader(
    alloc: Global,
    sig: Option<&Tree>,
    name: &Name,
    span: Span,
    so_far: &mut Items<Tree>,
) -> Result<(), NoMemory>
    ensures { OnOk result (so_far.new ≡ spec.with_method so_far.old (option_copied sig.entry) (spec.reader name.now span)) }
{
    with_sig(so_far, sig)?;
    so_far.push(reader(alloc, name, span)?)
}

/// Adds the writer of a name.
fn with_writer(
    alloc: Global,
    sig: Option<&Tree>,
    name: &Name,
    span: Span,
    so_far: &mut Items<Tree>,
) -> Result<(), NoMemory>
    ensures { OnOk result (so_far.new ≡ spec.with_method so_far.old (option_copied sig.entry) (spec.writer name.now span)) }
{
    with_sig(so_far, sig)?;
    so_far.push(writer(alloc, name, span)?)
}

/// Adds the writer of an accessor.
fn with_accessor_writer(
    alloc: Global,
    sig: Option<&Tree>,
    name: &Name,
    span: Span,
    so_far: &mut Items<Tree>,
) -> Result<(), NoMemory>
    ensures { OnOk result (so_far.new ≡ spec.with_method so_far.old (option_map (spec.writer_sig name.now) (option_copied sig.entry)) (spec.writer name.now span)) }
{
    match sig {
        None => with_writer(alloc, None, name, span, so_far),
        Some(sig) => {
            let own = writer_sig(alloc, name, sig)?;
            with_writer(alloc, Some(&own), name, span, so_far)
        }
    }
}

/// Adds the methods of one name.
fn with_attribute(
    alloc: Global,
    kind: Attribute,
    sig: Option<&Tree>,
    name: &Name,
    span: Span,
    so_far: &mut Items<Tree>,
) -> Result<(), NoMemory>
    ensures { OnOk result (so_far.new ≡ spec.with_attribute kind (option_copied sig.entry) name.now span so_far.old) }
{
    match kind {
        Attribute::Reader => with_reader(alloc, sig, name, span, so_far),
        Attribute::Writer => with_writer(alloc, sig, name, span, so_far),
        Attribute::Accessor => {
            with_reader(alloc, sig, name, span, so_far)?;
            with_accessor_writer(alloc, sig, name, span, so_far)
        }
    }
}

/// Adds the methods of a tree that is a symbol.
#[tactic(auto, unfolding(crate::specs::Attributes::with_symbol))]
fn with_symbol(
    alloc: Global,
    kind: Attribute,
    sig: Option<&Tree>,
    so_far: &mut Items<Tree>,
    tree: &Tree,
) -> Result<(), NoMemory>
    ensures { OnOk result (so_far.new ≡ spec.with_symbol kind (option_copied sig.entry) so_far.old tree.now) }
{
    match tree.get() {
        Node::Symbol { words, span } => {
            let name = Name::from_words(words)?;
            with_attribute(alloc, kind, sig, &name, *span, so_far)
        }
        _ => Ok(()),
    }
}

/// Adds the methods of an argument.
fn with_argument(
    alloc: Global,
    kind: Attribute,
    sig: Option<&Tree>,
    so_far: &mut Items<Tree>,
    argument: &Argument<Tree>,
) -> Result<(), NoMemory>
    ensures { OnOk result (so_far.new ≡ spec.with_argument kind (option_copied sig.entry) so_far.old argument.now) }
{
    match argument {
        Argument::Positional { value } => with_symbol(alloc, kind, sig, so_far, value),
        _ => Ok(()),
    }
}

/// Adds the methods of each symbol among the arguments of an attribute statement, each after a copy of the `sig` statement before it.
pub fn with_attributes(
    alloc: Global,
    kind: Attribute,
    sig: Option<&Tree>,
    arguments: &[Argument<Tree>],
    so_far: &mut Items<Tree>,
) -> Result<(), NoMemory>
    ensures { OnOk result (so_far.new ≡ spec.with_attributes kind (option_copied sig.entry) arguments.now so_far.old) }
{
    'arguments: for argument in arguments {
        with_argument(alloc, kind, sig, so_far, argument)?;
    }
    Ok(())
}
