//! How trees are written, as far as a rule asks.

ghost use Rattle.std.specs.Prelude.{◌≡◌, ◌∷◌, [], ◌++◌, IfOk};
ghost use Rattle.srb_judgement.specs.Views.{seen_spelling};
ghost use Rattle.srb_judgement.specs.Spellings.{standing_named};
ghost use Rattle.srb_walk.specs.Written as spec;
ghost use Rattle.srb_walk.specs.Written.{seen_standing};

use rb_tree::syntax::{Node, Suffix, Tree};
use srb_judgement::language::Language;
use srb_judgement::spelling::Spelling;
use srb_terms::{Items, Name, Names, NoMemory, Span};
use std::alloc::Global;

/// What a direct statement of a class or module body is.
#[derive(Clone, Copy, PartialEq, Eq, Debug)]
pub enum Standing {
    /// A call of `sig`.
    Sig,
    /// Another call that declares: `include`, `extend`, `attr_reader` and its kin.
    Declaring,
    Plain,
}

/// Names in front of others.
fn in_front(alloc: Global, front: Items<Name>, names: Names) -> Result<Names, NoMemory>
    ensures { IfOk result (λ all. all ≡ front ++ names) }
{
    let mut all = names;
    let mut rest = front;
    'rest: while let Some(last) = rest.pop() {
        all = all.pushed(alloc, last)?;
    }
    Ok(all)
}

/// A path with one more name.
fn longer_path(alloc: Global, path: &Names, name: &Name) -> Result<Names, NoMemory>
    ensures { IfOk result (λ all. all ≡ path.now ++ name.now ∷ []) }
{
    let mut names = Items::new(alloc);
    let mut rest = path;
    'rest: while let Some((first, after)) = rest.split() {
        names.push(first.copied()?)?;
        rest = after;
    }
    let last = Names::new().pushed(alloc, name.copied()?)?;
    in_front(alloc, names, last)
}

/// The spelling of an operand with `::` and a name after it.
fn longer_spelling(alloc: Global, spelling: &Spelling, name: &Name) -> Result<Spelling, NoMemory>
    ensures { IfOk result (λ s. seen_spelling s ≡ spec.with_constant (seen_spelling spelling.now) name.now) }
{
    match spelling {
        Spelling::ConstantPath(path) => Ok(Spelling::ConstantPath(longer_path(alloc, path, name)?)),
        Spelling::NameAlone(_) => Ok(Spelling::Other),
        Spelling::NilWord => Ok(Spelling::Other),
        Spelling::Other => Ok(Spelling::Other),
    }
}

/// The spelling of an operand with one more suffix.
fn with_suffix(
    alloc: Global,
    spelling: &Spelling,
    suffix: &Suffix<Tree>,
) -> Result<Spelling, NoMemory>
    ensures { IfOk result (λ s. seen_spelling s ≡ spec.row_spelling (seen_spelling spelling.now) (suffix.now ∷ [])) }
{
    match suffix {
        Suffix::Call { .. } => Ok(Spelling::Other),
        Suffix::Constant { name, .. } => longer_spelling(alloc, spelling, name),
        Suffix::Index { .. } => Ok(Spelling::Other),
    }
}

/// The spelling of an operand with these suffixes.
#[tactic(auto, using(crate::proofs::Writing::row_spelling_step))]
pub fn row_spelling(
    alloc: Global,
    spelling: Spelling,
    suffixes: &[Suffix<Tree>],
) -> Result<Spelling, NoMemory>
    ensures { IfOk result (λ s. seen_spelling s ≡ spec.row_spelling (seen_spelling spelling) suffixes.now) }
{
    let mut so_far = spelling;
    'suffixes: for suffix in suffixes {
        so_far = with_suffix(alloc, &so_far, suffix)?;
    }
    Ok(so_far)
}

/// How a tree is spelled, as far as a rule asks.
#[cycle(spellings)]
#[tactic(auto, using(crate::proofs::Writing::spelling_is))]
pub fn spelling<L: Language>(alloc: Global, language: &L, tree: &Tree) -> Result<Spelling, NoMemory>
    ensures { IfOk result (λ s. seen_spelling s ≡ spec.spelling_of (L.the language.now) tree.now) }
{
    spelling_by_node(alloc, language, tree)
}

/// The same by its node.
#[cycle(spellings)]
#[tactic(auto, unfolding(crate::specs::Written::spelling_by_node))]
fn spelling_by_node<L: Language>(
    alloc: Global,
    language: &L,
    tree: &Tree,
) -> Result<Spelling, NoMemory>
    ensures { IfOk result (λ s. seen_spelling s ≡ spec.spelling_by_node (L.the language.now) tree.now) }
{
    match tree.get() {
        Node::Name { name, .. } => Ok(Spelling::NameAlone(name.copied()?)),
        Node::Nil { .. } => Ok(Spelling::NilWord),
        Node::Constant { name, .. } => {
            Ok(Spelling::ConstantPath(Names::new().pushed(alloc, name.copied()?)?))
        }
        Node::TopConstant { name, .. } => {
            let path = Names::new().pushed(alloc, name.copied()?)?;
            Ok(Spelling::ConstantPath(path.pushed(alloc, Name::from_str(alloc, "")?)?))
        }
        Node::Post {
            receiver,
            suffixes,
            ..
        } => {
            let so_far = spelling(alloc, language, receiver)?;
            row_spelling(alloc, so_far, suffixes.as_slice())
        }
        _ => Ok(Spelling::Other),
    }
}

/// Whether a tree is a body without a statement.
#[tactic(auto, unfolding(crate::specs::Written::is_empty))]
pub fn is_empty(tree: &Tree) -> bool
    ensures { result ≡ spec.is_empty tree.now }
{
    match tree.get() {
        Node::Body { statements, .. } => match statements.as_slice() {
            [] => true,
            [_, ..] => false,
        },
        _ => false,
    }
}

/// The place of the last of these statements, or this place where there is none.
fn last_span(span: Span, statements: &[Tree]) -> Span
    ensures { result ≡ spec.last_span span statements.now }
{
    let mut last = span;
    'statements: for statement in statements {
        last = statement.span();
    }
    last
}

/// The place of the last statement of a body, and of any other tree its own.
#[tactic(auto, unfolding(crate::specs::Written::last_of, rb_tree::specs::Trees::span_of, rb_tree::specs::Trees::span_of_node))]
pub fn last(tree: &Tree) -> Span
    ensures { result ≡ spec.last_of tree.now }
{
    match tree.get() {
        Node::Body { statements, span } => last_span(*span, statements.as_slice()),
        _ => tree.span(),
    }
}

/// What a statement of this name without a receiver is, with or without a block.
fn standing_named(name: &Name, block: bool) -> Standing
    ensures { seen_standing result ≡ standing_named name.now block }
{
    if name.as_str() == "sig" {
        Standing::Sig
    } else if block {
        Standing::Plain
    } else if name.as_str() == "include" {
        Standing::Declaring
    } else if name.as_str() == "extend" {
        Standing::Declaring
    } else if name.as_str() == "attr_reader" {
        Standing::Declaring
    } else if name.as_str() == "attr_writer" {
        Standing::Declaring
    } else if name.as_str() == "attr_accessor" {
        Standing::Declaring
    } else {
        Standing::Plain
    }
}

/// What a command with this callee is, with or without a block.
#[tactic(auto, unfolding(crate::specs::Written::standing_called))]
fn standing_called(callee: &Tree, block: bool) -> Standing
    ensures { seen_standing result ≡ spec.standing_called callee.now block }
{
    match callee.get() {
        Node::Name { name, .. } => standing_named(name, block),
        _ => Standing::Plain,
    }
}

/// What a direct statement of a class or module body is.
#[tactic(auto, unfolding(crate::specs::Written::standing_of))]
pub fn standing_of(tree: &Tree) -> Standing
    ensures { seen_standing result ≡ spec.standing_of tree.now }
{
    match tree.get() {
        Node::Name { name, .. } => standing_named(name, false),
        Node::Call { name, block, .. } => standing_named(name, block.is_some()),
        Node::Command { callee, block, .. } => standing_called(callee, block.is_some()),
        _ => Standing::Plain,
    }
}
