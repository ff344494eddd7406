//! Copies of parts of trees. They share the trees, names and words in them.

ghost use Rattle.std.specs.Prelude.{◌≡◌, IfOk};

use rb_tree::syntax::{Argument, Block, Parameter, PlacedName, Reference, Rescue, Suffix, Tree};
use srb_terms::{Boxed, Items, NoMemory};
use std::alloc::Global;

/// A copy of an argument.
pub fn copied_argument(argument: &Argument<Tree>) -> Result<Argument<Tree>, NoMemory>
    ensures { IfOk result (λ a. a ≡ argument.now) }
{
    match argument {
        Argument::Positional { value } => Ok(Argument::Positional {
            value: value.copied()?,
        }),
        Argument::Keyword { name, span, value } => Ok(Argument::Keyword {
            name: name.copied()?,
            span: *span,
            value: value.copied()?,
        }),
        Argument::Block { span, value } => Ok(Argument::Block {
            span: *span,
            value: value.copied()?,
        }),
    }
}

/// A copy of arguments.
pub fn copied_arguments(
    alloc: Global,
    arguments: &[Argument<Tree>],
) -> Result<Items<Argument<Tree>>, NoMemory>
    ensures { IfOk result (λ copies. copies ≡ arguments.now) }
{
    let mut copies = Items::new(alloc);
    'arguments: for argument in arguments {
        copies.push(copied_argument(argument)?)?;
    }
    Ok(copies)
}

/// A copy of arguments in brackets.
pub fn copied_brackets(
    alloc: Global,
    arguments: &Option<Items<Argument<Tree>>>,
) -> Result<Option<Items<Argument<Tree>>>, NoMemory>
    ensures { IfOk result (λ copies. copies ≡ arguments.now) }
{
    match arguments {
        None => Ok(None),
        Some(arguments) => Ok(Some(copied_arguments(alloc, arguments.as_slice())?)),
    }
}

/// A copy of a block. It takes no memory.
pub fn copied_block(
    block: &Option<Boxed<Block<Tree>>>,
) -> Result<Option<Boxed<Block<Tree>>>, NoMemory>
    ensures { IfOk result (λ copy. copy ≡ block.now) }
{
    match block {
        None => Ok(None),
        Some(block) => Ok(Some(block.copied()?)),
    }
}

/// A copy of a suffix.
pub fn copied_suffix(alloc: Global, suffix: &Suffix<Tree>) -> Result<Suffix<Tree>, NoMemory>
    ensures { IfOk result (λ s. s ≡ suffix.now) }
{
    match suffix {
        Suffix::Call {
            dot,
            name,
            name_span,
            arguments,
            block,
            span,
        } => Ok(Suffix::Call {
            dot: *dot,
            name: name.copied()?,
            name_span: *name_span,
            arguments: copied_brackets(alloc, arguments)?,
            block: copied_block(block)?,
            span: *span,
        }),
        Suffix::Constant {
            name,
            name_span,
            span,
        } => Ok(Suffix::Constant {
            name: name.copied()?,
            name_span: *name_span,
            span: *span,
        }),
        Suffix::Index { arguments, span } => Ok(Suffix::Index {
            arguments: copied_arguments(alloc, arguments.as_slice())?,
            span: *span,
        }),
    }
}

/// A copy of a name with its place. It takes no memory.
pub fn copied_name(name: &PlacedName) -> Result<PlacedName, NoMemory>
    ensures { IfOk result (λ n. n ≡ name.now) }
{
    Ok(PlacedName {
        name: name.name.copied()?,
        span: name.span,
    })
}

/// A copy of names with their places.
pub fn copied_names(alloc: Global, names: &[PlacedName]) -> Result<Items<PlacedName>, NoMemory>
    ensures { IfOk result (λ copies. copies ≡ names.now) }
{
    let mut copies = Items::new(alloc);
    'names: for name in names {
        copies.push(copied_name(name)?)?;
    }
    Ok(copies)
}

/// A copy of a superclass. It takes no memory.
pub fn copied_superclass(
    superclass: &Option<Boxed<Reference>>,
) -> Result<Option<Boxed<Reference>>, NoMemory>
    ensures { IfOk result (λ copy. copy ≡ superclass.now) }
{
    match superclass {
        None => Ok(None),
        Some(superclass) => Ok(Some(superclass.copied()?)),
    }
}

/// A copy of trees.
pub fn copied_trees(alloc: Global, trees: &[Tree]) -> Result<Items<Tree>, NoMemory>
    ensures { IfOk result (λ copies. copies ≡ trees.now) }
{
    let mut copies = Items::new(alloc);
    'trees: for tree in trees {
        copies.push(tree.copied()?)?;
    }
    Ok(copies)
}

/// A copy of a tree, if there is one. It takes no memory.
pub fn copied_otherwise(tree: &Option<Tree>) -> Result<Option<Tree>, NoMemory>
    ensures { IfOk result (λ copy. copy ≡ tree.now) }
{
    match tree {
        None => Ok(None),
        Some(tree) => Ok(Some(tree.copied()?)),
    }
}

/// A copy of a variable, if there is one. It takes no memory.
fn copied_variable(variable: &Option<PlacedName>) -> Result<Option<PlacedName>, NoMemory>
    ensures { IfOk result (λ copy. copy ≡ variable.now) }
{
    match variable {
        None => Ok(None),
        Some(variable) => Ok(Some(copied_name(variable)?)),
    }
}

/// A copy of a `rescue` clause.
fn copied_rescue(alloc: Global, rescue: &Rescue<Tree>) -> Result<Rescue<Tree>, NoMemory>
    ensures { IfOk result (λ copy. copy ≡ rescue.now) }
{
    Ok(Rescue {
        patterns: copied_trees(alloc, rescue.patterns.as_slice())?,
        variable: copied_variable(&rescue.variable)?,
        body: rescue.body.copied()?,
    })
}

/// A copy of `rescue` clauses.
pub fn copied_rescues(
    alloc: Global,
    rescues: &[Rescue<Tree>],
) -> Result<Items<Rescue<Tree>>, NoMemory>
    ensures { IfOk result (λ copies. copies ≡ rescues.now) }
{
    let mut copies = Items::new(alloc);
    'rescues: for rescue in rescues {
        copies.push(copied_rescue(alloc, rescue)?)?;
    }
    Ok(copies)
}

/// A copy of a parameter. It takes no memory.
fn copied_parameter(parameter: &Parameter<Tree>) -> Result<Parameter<Tree>, NoMemory>
    ensures { IfOk result (λ copy. copy ≡ parameter.now) }
{
    Ok(Parameter {
        kind: parameter.kind,
        name: parameter.name.copied()?,
        span: parameter.span,
        default: copied_otherwise(&parameter.default)?,
    })
}

/// A copy of parameters.
pub fn copied_parameters(
    alloc: Global,
    parameters: &[Parameter<Tree>],
) -> Result<Items<Parameter<Tree>>, NoMemory>
    ensures { IfOk result (λ copies. copies ≡ parameters.now) }
{
    let mut copies = Items::new(alloc);
    'parameters: for parameter in parameters {
        copies.push(copied_parameter(parameter)?)?;
    }
    Ok(copies)
}
