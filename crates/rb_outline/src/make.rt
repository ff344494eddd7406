ghost use Rattle.std.specs.Prelude.{◌≡◌, [], ◌∷◌, ◌++◌, map, IfOk};
ghost use Rattle.rb_tree.specs.declared.syntax.Node.{out-Node};
ghost use Rattle.rb_outline.specs.Outlines as spec;
ghost use Rattle.rb_outline.specs.Outlines.{outline_of};

use crate::words::{
    kind_of, marked, no_words, param_words, sign_words, top_words, variable_words, words_of,
};
use rb_tree::syntax::{
    Argument, Arm, Block, Dot, Guarded, Node, Pair, Parameter, Piece, PlacedName, Reference,
    Rescue, Sign, Suffix, Tree, When,
};
use srb_terms::{Boxed, Items, Label, NoMemory, NodeKind, Outline, Words};
use std::alloc::Global;

// The outline of a kind, with words and parts.
fn branch(kind: NodeKind, words: Words, parts: Items<Outline>) -> Outline
    ensures { result ≡ spec.outline kind words parts }
{
    Outline {
        label: Label { kind, words },
        parts,
    }
}

// The outline without words.
fn wordless(alloc: Global, kind: NodeKind, parts: Items<Outline>) -> Result<Outline, NoMemory>
    ensures { IfOk result (λ o. o ≡ spec.outline kind [] parts) }
{
    let words = no_words(alloc)?;
    Ok(branch(kind, words, parts))
}

// The outline without parts.
fn leaf(alloc: Global, kind: NodeKind, words: Words) -> Outline
    ensures { result ≡ spec.leaf kind words }
{
    branch(kind, words, Items::new(alloc))
}

// Lists of a few parts.
fn one(alloc: Global, part: Outline) -> Result<Items<Outline>, NoMemory>
    ensures { IfOk result (λ parts. parts ≡ part ∷ []) }
{
    let mut parts = Items::new(alloc);
    parts.push(part)?;
    Ok(parts)
}

fn two(alloc: Global, first: Outline, second: Outline) -> Result<Items<Outline>, NoMemory>
    ensures { IfOk result (λ parts. parts ≡ first ∷ second ∷ []) }
{
    let mut parts = Vec::with_capacity(alloc, 2)?;
    parts.push(first)?;
    parts.push(second)?;
    Ok(Items::from_vec(parts))
}

fn three(
    alloc: Global,
    first: Outline,
    second: Outline,
    third: Outline,
) -> Result<Items<Outline>, NoMemory>
    ensures { IfOk result (λ parts. parts ≡ first ∷ second ∷ third ∷ []) }
{
    let mut parts = Vec::with_capacity(alloc, 3)?;
    parts.push(first)?;
    parts.push(second)?;
    parts.push(third)?;
    Ok(Items::from_vec(parts))
}

// Parts with those after them.
fn joined(parts: Items<Outline>, more: Items<Outline>) -> Result<Items<Outline>, NoMemory>
    ensures { IfOk result (λ all. all ≡ parts ++ more) }
{
    if parts.is_empty() {
        return Ok(more);
    }
    let mut all = parts;
    all.append(more)?;
    Ok(all)
}

// A part with those after it.
fn headed(alloc: Global, first: Outline, rest: Items<Outline>) -> Result<Items<Outline>, NoMemory>
    ensures { IfOk result (λ all. all ≡ first ∷ rest) }
{
    let mut all = Items::from_vec(Vec::with_capacity(alloc, 1 + rest.len())?);
    all.push(first)?;
    all.append(rest)?;
    Ok(all)
}

// Parts with one more.
fn ended(parts: Items<Outline>, last: Outline) -> Result<Items<Outline>, NoMemory>
    ensures { IfOk result (λ all. all ≡ parts ++ last ∷ []) }
{
    let mut all = parts;
    all.push(last)?;
    Ok(all)
}

// The sign of a number.
fn signs(alloc: Global, sign: Option<Sign>) -> Result<Items<Outline>, NoMemory>
    ensures { IfOk result (λ parts. parts ≡ spec.parts_if spec.sign_outline sign) }
{
    match sign {
        None => Ok(Items::new(alloc)),
        Some(sign) => {
            let words = Words::from_str(alloc, sign_words(sign))?;
            one(alloc, leaf(alloc, NodeKind::Unary, words))
        }
    }
}

// The names of a path.
fn constants(alloc: Global, path: &[PlacedName]) -> Result<Items<Outline>, NoMemory>
    ensures { IfOk result (λ parts. parts ≡ map spec.constant_outline path.now) }
{
    let mut parts = Vec::with_capacity(alloc, path.len())?;
    for name in path {
        parts.push(leaf(alloc, NodeKind::Constant, name.name.to_words()?))?;
    }
    Ok(Items::from_vec(parts))
}

// The parameters of a block.
fn names(alloc: Global, names: &[PlacedName]) -> Result<Items<Outline>, NoMemory>
    ensures { IfOk result (λ parts. parts ≡ map spec.name_outline names.now) }
{
    let mut parts = Vec::with_capacity(alloc, names.len())?;
    for name in names {
        parts.push(leaf(alloc, NodeKind::Name, name.name.to_words()?))?;
    }
    Ok(Items::from_vec(parts))
}

// The superclass of a class.
fn superclasses(
    alloc: Global,
    superclass: &Option<Boxed<Reference>>,
) -> Result<Items<Outline>, NoMemory>
    ensures { IfOk result (λ parts. parts ≡ spec.parts_if spec.superclass_outline superclass.now) }
{
    match superclass {
        None => Ok(Items::new(alloc)),
        Some(superclass) => {
            let reference = superclass.get();
            let words = Words::from_str(alloc, top_words(reference.top))?;
            let parts = constants(alloc, reference.path.as_slice())?;
            one(alloc, branch(NodeKind::Superclass, words, parts))
        }
    }
}

// The outline of a tree. Its depth bounds the recursion.
#[cycle(outlines)]
#[tactic(auto, using(crate::proofs::Steps::outline_from))]
fn outlined(alloc: Global, tree: &Tree) -> Result<Outline, NoMemory>
    ensures { IfOk result (λ o. o ≡ outline_of tree.now) }
{
    let node = tree.get();
    let words = words_of(alloc, node)?;
    let parts = parts(alloc, node)?;
    Ok(branch(kind_of(node), words, parts))
}

// Those of trees in a row.
#[cycle(outlines)]
fn row(alloc: Global, trees: &[Tree]) -> Result<Items<Outline>, NoMemory>
    ensures { IfOk result (λ parts. parts ≡ map outline_of trees.now) }
{
    let mut parts = Vec::with_capacity(alloc, trees.len())?;
    for tree in trees {
        parts.push(outlined(alloc, tree)?)?;
    }
    Ok(Items::from_vec(parts))
}

// That of a tree that may be left out.
#[cycle(outlines)]
fn perhaps(alloc: Global, tree: &Option<Tree>) -> Result<Items<Outline>, NoMemory>
    ensures { IfOk result (λ parts. parts ≡ spec.parts_if outline_of tree.now) }
{
    match tree {
        None => Ok(Items::new(alloc)),
        Some(tree) => one(alloc, outlined(alloc, tree)?),
    }
}

// What stands after `else`.
#[cycle(outlines)]
fn otherwise(alloc: Global, tree: &Option<Tree>) -> Result<Items<Outline>, NoMemory>
    ensures { IfOk result (λ parts. parts ≡ spec.parts_if (spec.else_outline outline_of) tree.now) }
{
    match tree {
        None => Ok(Items::new(alloc)),
        Some(tree) => {
            let parts = one(alloc, outlined(alloc, tree)?)?;
            one(alloc, wordless(alloc, NodeKind::Else, parts)?)
        }
    }
}

// What stands after `ensure`.
#[cycle(outlines)]
fn ensured(alloc: Global, tree: &Option<Tree>) -> Result<Items<Outline>, NoMemory>
    ensures { IfOk result (λ parts. parts ≡ spec.parts_if (spec.ensure_outline outline_of) tree.now) }
{
    match tree {
        None => Ok(Items::new(alloc)),
        Some(tree) => {
            let parts = one(alloc, outlined(alloc, tree)?)?;
            one(alloc, wordless(alloc, NodeKind::Ensure, parts)?)
        }
    }
}

#[cycle(outlines)]
fn argument(alloc: Global, argument: &Argument<Tree>) -> Result<Outline, NoMemory>
    ensures { IfOk result (λ o. o ≡ spec.argument_outline outline_of argument.now) }
{
    match argument {
        Argument::Positional { value } => outlined(alloc, value),
        Argument::Keyword { name, value, .. } => {
            let words = name.to_words()?;
            let parts = one(alloc, outlined(alloc, value)?)?;
            Ok(branch(NodeKind::Keyword, words, parts))
        }
        Argument::Block { value, .. } => {
            let parts = one(alloc, outlined(alloc, value)?)?;
            wordless(alloc, NodeKind::BlockArgument, parts)
        }
    }
}

#[cycle(outlines)]
fn arguments(alloc: Global, arguments: &[Argument<Tree>]) -> Result<Items<Outline>, NoMemory>
    ensures { IfOk result (λ parts. parts ≡ map (spec.argument_outline outline_of) arguments.now) }
{
    let mut parts = Vec::with_capacity(alloc, arguments.len())?;
    for each in arguments {
        parts.push(argument(alloc, each)?)?;
    }
    Ok(Items::from_vec(parts))
}

// Arguments in brackets, where they stand.
#[cycle(outlines)]
fn brackets(
    alloc: Global,
    inner: &Option<Items<Argument<Tree>>>,
) -> Result<Items<Outline>, NoMemory>
    ensures { IfOk result (λ parts. parts ≡ spec.parts_if (spec.brackets_outline outline_of) inner.now) }
{
    match inner {
        None => Ok(Items::new(alloc)),
        Some(inner) => {
            let parts = arguments(alloc, inner.as_slice())?;
            one(alloc, wordless(alloc, NodeKind::Brackets, parts)?)
        }
    }
}

// A block, where one stands.
#[cycle(outlines)]
fn blocks(alloc: Global, block: &Option<Boxed<Block<Tree>>>) -> Result<Items<Outline>, NoMemory>
    ensures { IfOk result (λ parts. parts ≡ spec.parts_if (spec.block_outline outline_of) block.now) }
{
    match block {
        None => Ok(Items::new(alloc)),
        Some(block) => {
            let block = block.get();
            let body = outlined(alloc, &block.body)?;
            let parts = ended(names(alloc, block.parameters.as_slice())?, body)?;
            one(alloc, wordless(alloc, NodeKind::Block, parts)?)
        }
    }
}

// The kind of a call by a dot.
fn dotted(dot: Dot) -> NodeKind
    ensures { result ≡ spec.dotted dot }
{
    match dot {
        Dot::Plain => NodeKind::SuffixCall,
        Dot::Safe => NodeKind::SafeCall,
    }
}

#[cycle(outlines)]
fn suffix(alloc: Global, suffix: &Suffix<Tree>) -> Result<Outline, NoMemory>
    ensures { IfOk result (λ o. o ≡ spec.suffix_outline outline_of suffix.now) }
{
    match suffix {
        Suffix::Call {
            dot,
            name,
            arguments: inner,
            block,
            ..
        } => {
            let words = name.to_words()?;
            let parts = joined(brackets(alloc, inner)?, blocks(alloc, block)?)?;
            Ok(branch(dotted(*dot), words, parts))
        }
        Suffix::Constant { name, .. } => Ok(leaf(
            alloc,
            NodeKind::SuffixConstant,
            name.to_words()?,
        )),
        Suffix::Index {
            arguments: inner,
            ..
        } => {
            let parts = arguments(alloc, inner.as_slice())?;
            wordless(alloc, NodeKind::Index, parts)
        }
    }
}

#[cycle(outlines)]
fn suffixes(alloc: Global, suffixes: &[Suffix<Tree>]) -> Result<Items<Outline>, NoMemory>
    ensures { IfOk result (λ parts. parts ≡ map (spec.suffix_outline outline_of) suffixes.now) }
{
    let mut parts = Vec::with_capacity(alloc, suffixes.len())?;
    for each in suffixes {
        parts.push(suffix(alloc, each)?)?;
    }
    Ok(Items::from_vec(parts))
}

#[cycle(outlines)]
fn piece(alloc: Global, piece: &Piece<Tree>) -> Result<Outline, NoMemory>
    ensures { IfOk result (λ o. o ≡ spec.piece_outline outline_of piece.now) }
{
    match piece {
        Piece::Words { words, .. } => Ok(leaf(alloc, NodeKind::Piece, words.copied()?)),
        Piece::Code { body, .. } => {
            let parts = one(alloc, outlined(alloc, body)?)?;
            wordless(alloc, NodeKind::Code, parts)
        }
    }
}

#[cycle(outlines)]
fn pieces(alloc: Global, pieces: &[Piece<Tree>]) -> Result<Items<Outline>, NoMemory>
    ensures { IfOk result (λ parts. parts ≡ map (spec.piece_outline outline_of) pieces.now) }
{
    let mut parts = Vec::with_capacity(alloc, pieces.len())?;
    for each in pieces {
        parts.push(piece(alloc, each)?)?;
    }
    Ok(Items::from_vec(parts))
}

#[cycle(outlines)]
fn pair(alloc: Global, pair: &Pair<Tree>) -> Result<Outline, NoMemory>
    ensures { IfOk result (λ o. o ≡ spec.pair_outline outline_of pair.now) }
{
    match pair {
        Pair::Arrow { key, value } => {
            let parts = two(alloc, outlined(alloc, key)?, outlined(alloc, value)?)?;
            wordless(alloc, NodeKind::ArrowPair, parts)
        }
        Pair::Label { name, value, .. } => {
            let words = name.to_words()?;
            let parts = one(alloc, outlined(alloc, value)?)?;
            Ok(branch(NodeKind::LabelPair, words, parts))
        }
    }
}

#[cycle(outlines)]
fn pairs(alloc: Global, pairs: &[Pair<Tree>]) -> Result<Items<Outline>, NoMemory>
    ensures { IfOk result (λ parts. parts ≡ map (spec.pair_outline outline_of) pairs.now) }
{
    let mut parts = Vec::with_capacity(alloc, pairs.len())?;
    for each in pairs {
        parts.push(pair(alloc, each)?)?;
    }
    Ok(Items::from_vec(parts))
}

// An `elsif` arm.
#[cycle(outlines)]
fn arm(alloc: Global, arm: &Arm<Tree>) -> Result<Outline, NoMemory>
    ensures { IfOk result (λ o. o ≡ spec.arm_outline outline_of arm.now) }
{
    let parts = two(
        alloc,
        outlined(alloc, &arm.condition)?,
        outlined(alloc, &arm.body)?,
    )?;
    wordless(alloc, NodeKind::Elsif, parts)
}

#[cycle(outlines)]
fn arms(alloc: Global, arms: &[Arm<Tree>]) -> Result<Items<Outline>, NoMemory>
    ensures { IfOk result (λ parts. parts ≡ map (spec.arm_outline outline_of) arms.now) }
{
    let mut parts = Vec::with_capacity(alloc, arms.len())?;
    for each in arms {
        parts.push(arm(alloc, each)?)?;
    }
    Ok(Items::from_vec(parts))
}

// A `when` arm.
#[cycle(outlines)]
fn when(alloc: Global, arm: &When<Tree>) -> Result<Outline, NoMemory>
    ensures { IfOk result (λ o. o ≡ spec.when_outline outline_of arm.now) }
{
    let patterns = row(alloc, arm.patterns.as_slice())?;
    let parts = ended(patterns, outlined(alloc, &arm.body)?)?;
    wordless(alloc, NodeKind::When, parts)
}

#[cycle(outlines)]
fn whens(alloc: Global, arms: &[When<Tree>]) -> Result<Items<Outline>, NoMemory>
    ensures { IfOk result (λ parts. parts ≡ map (spec.when_outline outline_of) arms.now) }
{
    let mut parts = Vec::with_capacity(alloc, arms.len())?;
    for each in arms {
        parts.push(when(alloc, each)?)?;
    }
    Ok(Items::from_vec(parts))
}

// A `rescue` clause.
#[cycle(outlines)]
fn rescue(alloc: Global, clause: &Rescue<Tree>) -> Result<Outline, NoMemory>
    ensures { IfOk result (λ o. o ≡ spec.rescue_outline outline_of clause.now) }
{
    let patterns = row(alloc, clause.patterns.as_slice())?;
    let parts = ended(patterns, outlined(alloc, &clause.body)?)?;
    let words = variable_words(alloc, &clause.variable)?;
    Ok(branch(NodeKind::Rescue, words, parts))
}

#[cycle(outlines)]
fn rescues(alloc: Global, clauses: &[Rescue<Tree>]) -> Result<Items<Outline>, NoMemory>
    ensures { IfOk result (λ parts. parts ≡ map (spec.rescue_outline outline_of) clauses.now) }
{
    let mut parts = Vec::with_capacity(alloc, clauses.len())?;
    for each in clauses {
        parts.push(rescue(alloc, each)?)?;
    }
    Ok(Items::from_vec(parts))
}

// A body with what guards it.
#[cycle(outlines)]
fn guarded(alloc: Global, guarded: &Guarded<Tree>) -> Result<Items<Outline>, NoMemory>
    ensures { IfOk result (λ parts. parts ≡ spec.guarded_parts outline_of guarded.now) }
{
    let body = one(alloc, outlined(alloc, &guarded.body)?)?;
    let last = joined(
        otherwise(alloc, &guarded.otherwise)?,
        ensured(alloc, &guarded.ensure)?,
    )?;
    let clauses = joined(rescues(alloc, guarded.rescues.as_slice())?, last)?;
    joined(body, clauses)
}

#[cycle(outlines)]
fn parameter(alloc: Global, parameter: &Parameter<Tree>) -> Result<Outline, NoMemory>
    ensures { IfOk result (λ o. o ≡ spec.parameter_outline outline_of parameter.now) }
{
    let words = marked(alloc, param_words(parameter.kind), &parameter.name)?;
    let parts = perhaps(alloc, &parameter.default)?;
    Ok(branch(NodeKind::Parameter, words, parts))
}

#[cycle(outlines)]
fn parameters(alloc: Global, parameters: &[Parameter<Tree>]) -> Result<Items<Outline>, NoMemory>
    ensures { IfOk result (λ parts. parts ≡ map (spec.parameter_outline outline_of) parameters.now) }
{
    let mut parts = Vec::with_capacity(alloc, parameters.len())?;
    for each in parameters {
        parts.push(parameter(alloc, each)?)?;
    }
    Ok(Items::from_vec(parts))
}

// The parts of a node.
#[cycle(outlines)]
fn parts(alloc: Global, node: &Node) -> Result<Items<Outline>, NoMemory>
    ensures { IfOk result (λ parts. parts ≡ spec.parts_at outline_of (out-Node node.now)) }
{
    match node {
        Node::Body { statements, .. } => row(alloc, statements.as_slice()),
        Node::Modified {
            statement,
            condition,
            ..
        } => two(
            alloc,
            outlined(alloc, statement)?,
            outlined(alloc, condition)?,
        ),
        Node::Jump { value, .. } => perhaps(alloc, value),
        Node::Assign { target, value, .. } | Node::OperatorAssign { target, value, .. } => {
            two(alloc, outlined(alloc, target)?, outlined(alloc, value)?)
        }
        Node::Command {
            callee,
            arguments: inner,
            block,
            ..
        } => {
            let first = outlined(alloc, callee)?;
            let rest = joined(arguments(alloc, inner.as_slice())?, blocks(alloc, block)?)?;
            headed(alloc, first, rest)
        }
        Node::Conditional {
            condition,
            positive,
            negative,
            ..
        } => three(
            alloc,
            outlined(alloc, condition)?,
            outlined(alloc, positive)?,
            outlined(alloc, negative)?,
        ),
        Node::Binary { left, right, .. } => {
            two(alloc, outlined(alloc, left)?, outlined(alloc, right)?)
        }
        Node::Unary { operand, .. } => one(alloc, outlined(alloc, operand)?),
        Node::Post {
            receiver,
            suffixes: inner,
            ..
        } => {
            let first = outlined(alloc, receiver)?;
            headed(alloc, first, suffixes(alloc, inner.as_slice())?)
        }
        Node::Whole { sign, .. } | Node::Float { sign, .. } => signs(alloc, *sign),
        Node::Text { pieces: inner, .. } => pieces(alloc, inner.as_slice()),
        Node::Call {
            arguments: inner,
            block,
            ..
        } => joined(brackets(alloc, inner)?, blocks(alloc, block)?),
        Node::Yield {
            arguments: inner,
            ..
        }
        | Node::Super {
            arguments: inner,
            ..
        } => brackets(alloc, inner),
        Node::Array { elements, .. } => row(alloc, elements.as_slice()),
        Node::Hash { pairs: inner, .. } => pairs(alloc, inner.as_slice()),
        Node::Parens { body, .. } => one(alloc, outlined(alloc, body)?),
        Node::If {
            condition,
            body,
            arms: inner,
            otherwise: last,
            ..
        } => {
            let first = two(alloc, outlined(alloc, condition)?, outlined(alloc, body)?)?;
            let rest = joined(arms(alloc, inner.as_slice())?, otherwise(alloc, last)?)?;
            joined(first, rest)
        }
        Node::While {
            condition,
            body,
            ..
        } => two(alloc, outlined(alloc, condition)?, outlined(alloc, body)?),
        Node::Case {
            subject,
            arms: inner,
            otherwise: last,
            ..
        } => {
            let first = perhaps(alloc, subject)?;
            let rest = joined(whens(alloc, inner.as_slice())?, otherwise(alloc, last)?)?;
            joined(first, rest)
        }
        Node::Begin { guarded: inner, .. } => guarded(alloc, inner.get()),
        Node::Class {
            path,
            superclass,
            body,
            ..
        } => {
            let last = ended(superclasses(alloc, superclass)?, outlined(alloc, body)?)?;
            joined(constants(alloc, path.as_slice())?, last)
        }
        Node::Module { path, body, .. } => {
            ended(constants(alloc, path.as_slice())?, outlined(alloc, body)?)
        }
        Node::Def {
            parameters: inner,
            guarded: body,
            ..
        } => joined(
            parameters(alloc, inner.as_slice())?,
            guarded(alloc, body.get())?,
        ),
        Node::Symbol { .. }
        | Node::InstanceVariable { .. }
        | Node::Constant { .. }
        | Node::TopConstant { .. }
        | Node::SelfWord { .. }
        | Node::Nil { .. }
        | Node::True { .. }
        | Node::False { .. }
        | Node::Name { .. } => Ok(Items::new(alloc)),
    }
}

/// The outline of a tree.
pub fn outline(alloc: Global, tree: &Tree) -> Result<Outline, NoMemory>
    ensures { IfOk result (λ o. o ≡ outline_of tree.now) }
{
    outlined(alloc, tree)
}
