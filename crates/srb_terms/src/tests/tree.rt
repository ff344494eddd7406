// A type that holds itself in a list and in a box. Its copy is the same value.
ghost use Rattle.std.specs.Prelude.{◌≡◌, IfOk};

use crate::{Boxed, Items, Name};
use std::alloc::{AllocError, Global};

#[derive(Drop)]
enum Tree {
    Leaf(Name),
    Turned(Boxed<Tree>),
    Branch(Items<Tree>),
}

#[cycle(copies)]
fn copied(tree: &Tree, alloc: Global) -> Result<Tree, AllocError>
    ensures { IfOk result (λ copy. copy ≡ tree.now) }
{
    match tree {
        Tree::Leaf(name) => Ok(Tree::Leaf(name.copied()?)),
        Tree::Turned(inner) => {
            let inner = copied(inner.get(), alloc)?;
            Ok(Tree::Turned(Boxed::new(alloc, inner)?))
        }
        Tree::Branch(trees) => Ok(Tree::Branch(all_copied(trees.as_slice(), alloc)?)),
    }
}

#[cycle(copies)]
fn all_copied(trees: &[Tree], alloc: Global) -> Result<Items<Tree>, AllocError>
    ensures { IfOk result (λ copies. copies ≡ trees.now) }
{
    let mut copies = Items::new(alloc);
    'trees: for tree in trees {
        copies.push(copied(tree, alloc)?)?;
    }
    Ok(copies)
}

#[cycle(counts)]
fn leaves(tree: &Tree) -> u64 {
    match tree {
        Tree::Leaf(_) => 1,
        Tree::Turned(inner) => leaves(inner.get()),
        Tree::Branch(trees) => all_leaves(trees.as_slice()),
    }
}

#[cycle(counts)]
fn all_leaves(trees: &[Tree]) -> u64 {
    let mut count = 0u64;
    for tree in trees {
        count = count.wrapping_add(leaves(tree));
    }
    count
}

#[test]
fn a_copied_tree_is_the_same(rt: HostRuntime) -> Result<(), AllocError> {
    let alloc = rt.alloc();
    let leaf = Tree::Leaf(Name::from_str(alloc, "a")?);
    let mut trees = Items::new(alloc);
    trees.push(Tree::Turned(Boxed::new(alloc, leaf)?))?;
    trees.push(Tree::Leaf(Name::from_str(alloc, "b")?))?;
    let tree = copied(&Tree::Branch(trees), alloc)?;
    assert_eq!(rt; leaves(&tree), 2);
    Ok(())
}
