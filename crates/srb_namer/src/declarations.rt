//! What single declarations declare.

ghost use Rattle.std.specs.Prelude.{◌≡◌, ◌∷◌, map, option_map, IfOk, OnOk};
ghost use Rattle.std.specs.Option.{option_copied};
ghost use Rattle.rb_views.specs.Calls.{seen_call, seen_receiver};
ghost use Rattle.rb_views.specs.Paths.{seen_path};
ghost use Rattle.srb_namer.specs.Declarations as spec;

use crate::place::Place;
use rb_outline::outline;
use rb_rewrite::declaring::is_missing;
use rb_tree::syntax::{Argument, Dot, Node, Parameter, Reference, Suffix, Tree};
use rb_views::call::{Call, Receiver};
use rb_views::path::Path;
use srb_declarations::naming::{full_name, mixin_named, written};
use srb_terms::{
    Fact, Given, How, Items, Kind, Name, Names, NoMemory, ParamShape, SigText, TyText,
};
use std::alloc::Global;

/// What has its body there: the innermost class or module, `Object` at the program's level.
fn owner(alloc: Global, scope: &Names) -> Result<Name, NoMemory>
    ensures { IfOk result (λ n. n ≡ spec.owner scope.now) }
{
    match scope.split() {
        None => Name::from_str(alloc, "Object"),
        Some((first, _)) => first.copied(),
    }
}

/// The whole path, if nothing follows it.
fn path_if<'a>(alloc: Global, path: Option<Path<'a>>) -> Result<Option<Names>, NoMemory>
    ensures { IfOk result (λ p. p ≡ spec.path_if (option_map seen_path path.entry)) }
{
    match path {
        None => Ok(None),
        Some(path) => {
            if path.rest.is_empty() {
                Ok(Some(written(alloc, path.top, path.names)?))
            } else {
                Ok(None)
            }
        }
    }
}

/// Adds the superclass, where one is written.
fn with_superclass<'a>(
    alloc: Global,
    place: Place<'a>,
    name: &Name,
    superclass: Option<&Reference>,
    facts: &mut Items<Fact>,
) -> Result<(), NoMemory>
    ensures { OnOk result (facts.new ≡ spec.with_superclass (spec.seen_place place.entry) name.now (option_copied superclass.entry) facts.old) }
{
    match superclass {
        None => Ok(()),
        Some(reference) => {
            let path = Path::of_reference(reference);
            facts.push(Fact::Parent {
                of: name.copied()?,
                scope: place.scope.copied()?,
                to: written(alloc, path.top, path.names)?,
                how: How::Super,
            })
        }
    }
}

/// Adds a class and its superclass, where one is written.
pub fn with_class<'a>(
    alloc: Global,
    place: Place<'a>,
    name: &Name,
    superclass: Option<&Reference>,
    facts: &mut Items<Fact>,
) -> Result<(), NoMemory>
    ensures { OnOk result (facts.new ≡ spec.with_class (spec.seen_place place.entry) name.now (option_copied superclass.entry) facts.old) }
{
    facts.push(Fact::Scope {
        name: name.copied()?,
        kind: Kind::Class,
    })?;
    with_superclass(alloc, place, name, superclass, facts)
}

/// Adds a module.
pub fn with_module(name: &Name, facts: &mut Items<Fact>) -> Result<(), NoMemory>
    ensures { OnOk result (facts.new ≡ spec.with_module name.now facts.old) }
{
    facts.push(Fact::Scope {
        name: name.copied()?,
        kind: Kind::Module,
    })
}

/// Adds a mixin of this path, if there is one.
fn with_path<'a>(
    alloc: Global,
    place: Place<'a>,
    way: How,
    path: Option<Names>,
    facts: &mut Items<Fact>,
) -> Result<(), NoMemory>
    ensures { OnOk result (facts.new ≡ spec.with_path (spec.seen_place place.entry) way path facts.old) }
{
    match path {
        None => Ok(()),
        Some(path) => facts.push(Fact::Parent {
            of: owner(alloc, place.scope)?,
            scope: place.scope.copied()?,
            to: path,
            how: way,
        }),
    }
}

/// Adds the mixin of an argument that is a path of constants.
fn with_mixin<'a>(
    alloc: Global,
    place: Place<'a>,
    way: How,
    argument: &Argument<Tree>,
    facts: &mut Items<Fact>,
) -> Result<(), NoMemory>
    ensures { OnOk result (facts.new ≡ spec.with_mixin (spec.seen_place place.entry) way argument.now facts.old) }
{
    match argument {
        Argument::Positional { value } => {
            let path = path_if(alloc, Path::of(value))?;
            with_path(alloc, place, way, path, facts)
        }
        _ => Ok(()),
    }
}

/// Adds the mixins of the arguments, from last to first.
#[tactic(auto, using(crate::proofs::Mixins::ended, crate::proofs::Mixins::whole))]
fn with_mixins<'a>(
    alloc: Global,
    place: Place<'a>,
    way: How,
    arguments: &[Argument<Tree>],
    facts: &mut Items<Fact>,
) -> Result<(), NoMemory>
    ensures { OnOk result (facts.new ≡ spec.with_mixins (spec.seen_place place.entry) way arguments.now facts.old) }
{
    let mut count = arguments.len();
    'count: while count > 0 {
        count -= 1;
        with_mixin(alloc, place, way, &arguments[count], facts)?;
    }
    Ok(())
}

/// Adds the mixins of a call of `include` or `extend`.
fn mixed_by<'a>(
    alloc: Global,
    place: Place<'a>,
    way: Option<How>,
    arguments: &[Argument<Tree>],
    facts: &mut Items<Fact>,
) -> Result<(), NoMemory>
    ensures { OnOk result (facts.new ≡ spec.mixed_by (spec.seen_place place.entry) way arguments.now facts.old) }
{
    match way {
        None => Ok(()),
        Some(way) => with_mixins(alloc, place, way, arguments, facts),
    }
}

/// Adds the mixins that a call gives.
fn mixed_call<'a>(
    alloc: Global,
    place: Place<'a>,
    call: Option<Call<'a>>,
    facts: &mut Items<Fact>,
) -> Result<(), NoMemory>
    ensures { OnOk result (facts.new ≡ spec.mixed_call (spec.seen_place place.entry) (option_map seen_call call.entry) facts.old) }
{
    match call {
        None => Ok(()),
        Some(call) => {
            if is_missing(call.receiver) && is_missing(call.block) {
                mixed_by(alloc, place, mixin_named(call.name), call.arguments, facts)
            } else {
                Ok(())
            }
        }
    }
}

/// Adds the mixins that a statement of a class or module body gives.
pub fn mixed<'a>(
    alloc: Global,
    place: Place<'a>,
    statement: &'a Tree,
    facts: &mut Items<Fact>,
) -> Result<(), NoMemory>
    ensures { OnOk result (facts.new ≡ spec.mixed (spec.seen_place place.entry) statement.now facts.old) }
{
    mixed_call(alloc, place, Call::of(statement), facts)
}

/// The text of a type expression.
fn type_text(alloc: Global, tree: &Tree) -> Result<TyText, NoMemory>
    ensures { IfOk result (λ t. t ≡ spec.type_text tree.now) }
{
    Ok(TyText {
        tree: outline(alloc, tree)?,
    })
}

/// Whether a tree is the constant `T`.
#[tactic(auto, unfolding(crate::specs::Declarations::is_t))]
fn is_t(tree: &Tree) -> bool
    ensures { result ≡ spec.is_t tree.now }
{
    match tree.get() {
        Node::Constant { name, .. } => name.as_str() == "T",
        _ => false,
    }
}

/// Whether an operand without suffixes is `T`.
fn is_t_alone(operand: &Tree, suffixes: &[Suffix<Tree>]) -> bool
    ensures { result ≡ spec.is_t_alone operand.now suffixes.now }
{
    match suffixes {
        [] => is_t(operand),
        _ => false,
    }
}

/// Whether it is `.`.
fn is_plain_dot(dot: Dot) -> bool
    ensures { result ≡ spec.is_plain_dot dot }
{
    match dot {
        Dot::Plain => true,
        Dot::Safe => false,
    }
}

/// Whether a call is on `T` itself, by `.`.
fn is_on_t<'a>(receiver: Option<Receiver<'a>>) -> bool
    ensures { result ≡ spec.is_on_t (option_map seen_receiver receiver.entry) }
{
    match receiver {
        None => false,
        Some(receiver) => {
            is_plain_dot(receiver.dot)
                && is_t_alone(receiver.prefix.operand, receiver.prefix.suffixes)
        }
    }
}

/// The second of two arguments by their places.
fn second_of(arguments: &[Argument<Tree>]) -> Option<&Tree>
    ensures { option_copied result ≡ spec.second_of arguments.now }
{
    match arguments {
        [Argument::Positional { .. }, Argument::Positional { value }] => Some(value),
        _ => None,
    }
}

/// The X of a call `T.let(e, X)`.
fn asserted_call<'a>(call: Option<Call<'a>>) -> Option<&'a Tree>
    ensures { option_copied result ≡ spec.asserted_call (option_map seen_call call.entry) }
{
    match call {
        None => None,
        Some(call) => {
            if is_on_t(call.receiver) && call.name == "let" && is_missing(call.block) {
                second_of(call.arguments)
            } else {
                None
            }
        }
    }
}

/// The X of `T.let(e, X)`. `None` exactly for any other tree.
fn asserted_type<'a>(tree: &'a Tree) -> Option<&'a Tree>
    ensures { option_copied result ≡ spec.asserted_type tree.now }
{
    asserted_call(Call::of(tree))
}

/// The class of the literal that a tree is.
#[tactic(auto, unfolding(crate::specs::Declarations::literal_class))]
fn literal_class(tree: &Tree) -> Option<&'static str>
    ensures { option_copied result ≡ spec.literal_class tree.now }
{
    match tree.get() {
        Node::Whole { .. } => Some("Integer"),
        Node::Float { .. } => Some("Float"),
        Node::Text { .. } => Some("String"),
        Node::Symbol { .. } => Some("Symbol"),
        Node::Nil { .. } => Some("NilClass"),
        Node::True { .. } => Some("TrueClass"),
        Node::False { .. } => Some("FalseClass"),
        _ => None,
    }
}

/// What is given by a literal of this class.
fn given_by_literal(alloc: Global, class: Option<&str>) -> Result<Given, NoMemory>
    ensures { IfOk result (λ g. g ≡ spec.given_by_literal (option_copied class.entry)) }
{
    match class {
        None => Ok(Given::Unknown),
        Some(class) => Ok(Given::Literal(Name::from_str(alloc, class)?)),
    }
}

/// What a value tells of the type of the constant that it is given to.
fn given_of(alloc: Global, value: &Tree) -> Result<Given, NoMemory>
    ensures { IfOk result (λ g. g ≡ spec.given_of value.now) }
{
    match asserted_type(value) {
        None => given_by_literal(alloc, literal_class(value)),
        Some(given) => Ok(Given::Typed(type_text(alloc, given)?)),
    }
}

/// Adds a value constant.
fn with_constant<'a>(
    alloc: Global,
    place: Place<'a>,
    name: &Name,
    value: &Tree,
    facts: &mut Items<Fact>,
) -> Result<(), NoMemory>
    ensures { OnOk result (facts.new ≡ spec.with_constant (spec.seen_place place.entry) name.now value.now facts.old) }
{
    facts.push(Fact::Value {
        name: full_name(alloc, place.scope, name)?,
        scope: place.scope.copied()?,
        given: given_of(alloc, value)?,
    })
}

/// Adds an instance variable, if its value gives it a type.
fn with_variable<'a>(
    alloc: Global,
    place: Place<'a>,
    name: &Name,
    value: &Tree,
    facts: &mut Items<Fact>,
) -> Result<(), NoMemory>
    ensures { OnOk result (facts.new ≡ spec.with_variable (spec.seen_place place.entry) name.now value.now facts.old) }
{
    match asserted_type(value) {
        None => Ok(()),
        Some(given) => facts.push(Fact::Ivar {
            owner: owner(alloc, place.scope)?,
            scope: place.scope.copied()?,
            meta: place.meta,
            name: name.copied()?,
            given: type_text(alloc, given)?,
        }),
    }
}

/// Adds what an assignment to this target declares.
#[tactic(auto, unfolding(crate::specs::Declarations::with_assigned))]
pub fn with_assigned<'a>(
    alloc: Global,
    place: Place<'a>,
    target: &Tree,
    value: &Tree,
    facts: &mut Items<Fact>,
) -> Result<(), NoMemory>
    ensures { OnOk result (facts.new ≡ spec.with_assigned (spec.seen_place place.entry) target.now value.now facts.old) }
{
    match target.get() {
        Node::Constant { name, .. } => with_constant(alloc, place, name, value, facts),
        Node::InstanceVariable { name, .. } => with_variable(alloc, place, name, value, facts),
        _ => Ok(()),
    }
}

/// A parameter without its type and its default.
fn shape_of(parameter: &Parameter<Tree>) -> Result<ParamShape, NoMemory>
    ensures { IfOk result (λ s. s ≡ spec.shape_of parameter.now) }
{
    Ok(ParamShape {
        name: parameter.name.copied()?,
        kind: parameter.kind,
    })
}

/// Parameters without their types and defaults.
fn shapes_of(alloc: Global, parameters: &[Parameter<Tree>]) -> Result<Items<ParamShape>, NoMemory>
    ensures { IfOk result (λ shapes. shapes ≡ map spec.shape_of parameters.now) }
{
    let mut shapes = Items::new(alloc);
    'parameters: for parameter in parameters {
        shapes.push(shape_of(parameter)?)?;
    }
    Ok(shapes)
}

/// The text of a signature, if there is one.
fn sig_text(alloc: Global, sig: Option<&Tree>) -> Result<Option<SigText>, NoMemory>
    ensures { IfOk result (λ s. s ≡ option_map spec.sig_text (option_copied sig.entry)) }
{
    match sig {
        None => Ok(None),
        Some(sig) => Ok(Some(SigText {
            tree: outline(alloc, sig)?,
        })),
    }
}

/// Adds a method of the owner, with the `sig` statement directly before it.
pub fn with_method<'a>(
    alloc: Global,
    place: Place<'a>,
    own: bool,
    name: &Name,
    parameters: &[Parameter<Tree>],
    facts: &mut Items<Fact>,
) -> Result<(), NoMemory>
    ensures { OnOk result (facts.new ≡ spec.with_method (spec.seen_place place.entry) own name.now parameters.now facts.old) }
{
    facts.push(Fact::Method {
        owner: owner(alloc, place.scope)?,
        scope: place.scope.copied()?,
        meta: own,
        name: name.copied()?,
        params: shapes_of(alloc, parameters)?,
        sig: sig_text(alloc, place.sig)?,
    })
}
