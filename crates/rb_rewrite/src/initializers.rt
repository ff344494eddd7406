//! Initializers: in a method `initialize` with a well-formed signature a direct statement `@x = p` of the outermost body, p a typed
//! parameter other than the block, reads as `@x = T.let(p, P)`.

ghost use Rattle.std.specs.Prelude.{◌≡◌, ℕ, List, None, bytes_eq, map, option_map, IfOk, OnOk};
ghost use Rattle.std.specs.Option.{option_copied};
ghost use Rattle.indexmap.specs.IndexMap.{get};
ghost use Rattle.rb_rewrite.specs.Initializers as spec;
ghost use Rattle.rb_rewrite.specs.Signatures.{seen_signature};

use crate::copies::{copied_otherwise, copied_parameters, copied_rescues};
use crate::signature::{Signature, well_formed};
use indexmap::IndexMap;
use rb_tree::syntax::{Argument, Dot, Guarded, Node, Parameter, Suffix, Tree};
use srb_terms::{Boxed, Items, Name, NoMemory, ParamKind, Span};
use std::alloc::Global;

/// The types of parameters, by their names.
type Types = IndexMap<Name, Tree>;

/// Whether a parameter is a block.
fn is_block(kind: ParamKind) -> bool
    ensures { result ≡ spec.is_block kind }
{
    match kind {
        ParamKind::Block => true,
        _ => false,
    }
}

/// Notes the type that an argument of `params` gives to its name.
fn note(types: &mut Types, argument: &Argument<Tree>) -> Result<(), NoMemory>
    ensures { OnOk result ((n : List ℕ) → get bytes_eq types.new n ≡ spec.type_with n (get bytes_eq types.old n) argument.now) }
{
    match argument {
        Argument::Keyword { name, value, .. } => {
            types.insert(name.copied()?, value.copied()?)?;
            Ok(())
        }
        Argument::Positional { .. } | Argument::Block { .. } => Ok(()),
    }
}

/// The types that these arguments of `params` give to names.
fn noted(alloc: Global, arguments: &[Argument<Tree>]) -> Result<Types, NoMemory>
    ensures { IfOk result (λ types. (n : List ℕ) → get bytes_eq types n ≡ spec.type_from n None arguments.now) }
{
    let mut types = IndexMap::new(alloc);
    'arguments: for argument in arguments {
        note(&mut types, argument)?;
    }
    Ok(types)
}

/// The types that `params` gives to names.
fn types_in(alloc: Global, arguments: Option<&[Argument<Tree>]>) -> Result<Types, NoMemory>
    ensures { IfOk result (λ types. (n : List ℕ) → get bytes_eq types n ≡ spec.type_in n (option_map (λ a. a.now) arguments.entry)) }
{
    match arguments {
        None => Ok(IndexMap::new(alloc)),
        Some(arguments) => noted(alloc, arguments),
    }
}

/// Takes the type of a block away.
fn take_block(types: &mut Types, parameter: &Parameter<Tree>)
    ensures { (n : List ℕ) → get bytes_eq types.new n ≡ spec.type_without n (get bytes_eq types.old n) parameter.now }
{
    if is_block(parameter.kind) {
        types.swap_remove(&parameter.name);
    }
}

/// Takes the types of blocks away.
fn take_blocks(types: &mut Types, parameters: &[Parameter<Tree>])
    ensures { (n : List ℕ) → get bytes_eq types.new n ≡ spec.without_blocks n (get bytes_eq types.old n) parameters.now }
{
    'parameters: for parameter in parameters {
        take_block(types, parameter);
    }
}

/// The types of the parameters other than the block, by their names.
#[tactic(auto, using(crate::proofs::Types::all_types))]
fn types_of<'a>(
    alloc: Global,
    parameters: &[Parameter<Tree>],
    said: Signature<'a>,
) -> Result<Types, NoMemory>
    ensures { IfOk result (λ types. get bytes_eq types ≡ spec.type_of parameters.now (seen_signature said.entry)) }
{
    let mut types = types_in(alloc, said.params)?;
    take_blocks(&mut types, parameters);
    Ok(types)
}

/// The type of a name.
fn type_of<'a>(types: &'a Types, name: &Name) -> Option<&'a Tree>
    ensures { option_copied result ≡ get bytes_eq types.now name.now }
{
    types.get(name)
}

/// The arguments `value` and `type`.
fn let_arguments(
    alloc: Global,
    value: &Tree,
    given: &Tree,
) -> Result<Items<Argument<Tree>>, NoMemory>
    ensures { IfOk result (λ a. a ≡ spec.let_arguments value.now given.now) }
{
    let mut arguments = Items::new(alloc);
    arguments.push(Argument::Positional {
        value: value.copied()?,
    })?;
    arguments.push(Argument::Positional {
        value: given.copied()?,
    })?;
    Ok(arguments)
}

/// `.let(value, type)`
fn let_suffix(
    alloc: Global,
    value: &Tree,
    given: &Tree,
    span: Span,
) -> Result<Suffix<Tree>, NoMemory>
    ensures { IfOk result (λ s. s ≡ spec.let_suffix value.now given.now span) }
{
    Ok(Suffix::Call {
        dot: Dot::Plain,
        name: Name::from_str(alloc, "let")?,
        name_span: span,
        arguments: Some(let_arguments(alloc, value, given)?),
        block: None,
        span,
    })
}

/// `T`
fn constant_t(alloc: Global, span: Span) -> Result<Tree, NoMemory>
    ensures { IfOk result (λ t. t ≡ spec.constant_t span) }
{
    let node = Node::Constant {
        name: Name::from_str(alloc, "T")?,
        span,
    };
    Tree::new(alloc, node)
}

/// `T.let(value, type)`
fn let_call(alloc: Global, value: &Tree, given: &Tree, span: Span) -> Result<Tree, NoMemory>
    ensures { IfOk result (λ t. t ≡ spec.let_call value.now given.now span) }
{
    let receiver = constant_t(alloc, span)?;
    let mut suffixes = Items::new(alloc);
    suffixes.push(let_suffix(alloc, value, given, span)?)?;
    let node = Node::Post {
        receiver,
        suffixes,
        span,
    };
    Tree::new(alloc, node)
}

/// Whether a tree is an instance variable.
#[tactic(auto, unfolding(crate::specs::Initializers::is_instance_variable))]
fn is_instance_variable(tree: &Tree) -> bool
    ensures { result ≡ spec.is_instance_variable tree.now }
{
    match tree.get() {
        Node::InstanceVariable { .. } => true,
        _ => false,
    }
}

/// A value with its type, if there is one.
fn asserted_by(
    alloc: Global,
    value: &Tree,
    span: Span,
    given: Option<&Tree>,
) -> Result<Tree, NoMemory>
    ensures { IfOk result (λ t. t ≡ spec.asserted_by value.now span (option_copied given.entry)) }
{
    match given {
        None => value.copied(),
        Some(given) => let_call(alloc, value, given, span),
    }
}

/// A value that is a typed parameter, with its type; any other value stays.
#[tactic(auto, unfolding(crate::specs::Initializers::asserted))]
fn asserted(alloc: Global, types: &Types, value: &Tree) -> Result<Tree, NoMemory>
    ensures { IfOk result (λ t. t ≡ spec.asserted (get bytes_eq types.now) value.now) }
{
    match value.get() {
        Node::Name { name, span } => { asserted_by(alloc, value, *span, type_of(types, name)) }
        _ => value.copied(),
    }
}

/// A direct statement of the outermost body.
#[tactic(auto, unfolding(crate::specs::Initializers::assigned))]
fn assigned(alloc: Global, types: &Types, statement: &Tree) -> Result<Tree, NoMemory>
    ensures { IfOk result (λ t. t ≡ spec.assigned (get bytes_eq types.now) statement.now) }
{
    match statement.get() {
        Node::Assign {
            target,
            value,
            span,
        } => {
            if is_instance_variable(target) {
                let value = asserted(alloc, types, value)?;
                let node = Node::Assign {
                    target: target.copied()?,
                    value,
                    span: *span,
                };
                Tree::new(alloc, node)
            } else {
                statement.copied()
            }
        }
        _ => statement.copied(),
    }
}

/// The direct statements of the outermost body.
fn assigned_statements(
    alloc: Global,
    types: &Types,
    statements: &[Tree],
) -> Result<Items<Tree>, NoMemory>
    ensures { IfOk result (λ ts. ts ≡ map (spec.assigned (get bytes_eq types.now)) statements.now) }
{
    let mut made = Items::new(alloc);
    'statements: for statement in statements {
        made.push(assigned(alloc, types, statement)?)?;
    }
    Ok(made)
}

/// The outermost body.
#[tactic(auto, unfolding(crate::specs::Initializers::assigned_body))]
fn assigned_body(alloc: Global, types: &Types, body: &Tree) -> Result<Tree, NoMemory>
    ensures { IfOk result (λ t. t ≡ spec.assigned_body (get bytes_eq types.now) body.now) }
{
    match body.get() {
        Node::Body { statements, span } => {
            let statements = assigned_statements(alloc, types, statements.as_slice())?;
            let node = Node::Body {
                statements,
                span: *span,
            };
            Tree::new(alloc, node)
        }
        _ => body.copied(),
    }
}

/// A method's body with what stands after it.
fn assigned_guarded(
    alloc: Global,
    types: &Types,
    guarded: &Guarded<Tree>,
) -> Result<Boxed<Guarded<Tree>>, NoMemory>
    ensures { IfOk result (λ g. g ≡ spec.assigned_guarded (get bytes_eq types.now) guarded.now) }
{
    let body = assigned_body(alloc, types, &guarded.body)?;
    let guarded = Guarded {
        body,
        rescues: copied_rescues(alloc, guarded.rescues.as_slice())?,
        otherwise: copied_otherwise(&guarded.otherwise)?,
        ensure: copied_otherwise(&guarded.ensure)?,
    };
    Boxed::new(alloc, guarded)
}

/// The signature that the `sig` statement before a method is. `None` exactly where there is none, or it is malformed.
fn signature_before<'a>(
    alloc: Global,
    parameters: &[Parameter<Tree>],
    sig: Option<&'a Tree>,
) -> Result<Option<Signature<'a>>, NoMemory>
    ensures { IfOk result (λ s. option_map seen_signature s ≡ spec.signature_before parameters.now (option_copied sig.entry)) }
{
    match sig {
        None => Ok(None),
        Some(sig) => well_formed(alloc, parameters, sig),
    }
}

/// Whether a method is an initializer.
pub fn is_initializer(own: bool, name: &Name) -> bool
    ensures { result ≡ spec.is_initializer own name.now }
{
    !own && name.as_str() == "initialize"
}

/// The initializer, with its assignments read by its signature.
#[tactic(auto, unfolding(crate::specs::Initializers::with_types))]
fn with_types<'a>(alloc: Global, method: &Tree, said: Signature<'a>) -> Result<Tree, NoMemory>
    ensures { IfOk result (λ t. t ≡ spec.with_types method.now (seen_signature said.entry)) }
{
    match method.get() {
        Node::Def {
            visibility,
            own,
            name,
            name_span,
            parameters,
            guarded,
            span,
        } => {
            let types = types_of(alloc, parameters.as_slice(), said)?;
            let guarded = assigned_guarded(alloc, &types, guarded.get())?;
            let node = Node::Def {
                visibility: *visibility,
                own: *own,
                name: name.copied()?,
                name_span: *name_span,
                parameters: copied_parameters(alloc, parameters.as_slice())?,
                guarded,
                span: *span,
            };
            Tree::new(alloc, node)
        }
        _ => method.copied(),
    }
}

/// The statement, read by this signature, if there is one.
fn initialized_by<'a>(
    alloc: Global,
    statement: &Tree,
    said: Option<Signature<'a>>,
) -> Result<Tree, NoMemory>
    ensures { IfOk result (λ t. t ≡ spec.initialized_by statement.now (option_map seen_signature said.entry)) }
{
    match said {
        None => statement.copied(),
        Some(said) => with_types(alloc, statement, said),
    }
}

/// A statement after this `sig` statement, if one stands directly before it: an initializer is read by its signature, and any other
/// statement stays.
#[tactic(auto, unfolding(crate::specs::Initializers::initialized))]
pub fn initialized(alloc: Global, sig: Option<&Tree>, statement: &Tree) -> Result<Tree, NoMemory>
    ensures { IfOk result (λ t. t ≡ spec.initialized (option_copied sig.entry) statement.now) }
{
    match statement.get() {
        Node::Def {
            own,
            name,
            parameters,
            ..
        } => {
            if is_initializer(*own, name) {
                let said = signature_before(alloc, parameters.as_slice(), sig)?;
                initialized_by(alloc, statement, said)
            } else {
                statement.copied()
            }
        }
        _ => statement.copied(),
    }
}
