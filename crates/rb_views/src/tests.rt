ghost use Rattle.std.specs.Prelude.{◌<◌};

use crate::call::Call;
use crate::path::Path;
use crate::prefix::Prefix;
use crate::target::Target;
use rb_tree::syntax::{Argument, Block, Dot, Node, Suffix, Tree};
use srb_terms::{Boxed, Items, Name, NoMemory, Span};
use std::alloc::Global;

fn place(start: u32, end: u32) -> Span {
    Span { start, end }
}

fn one<T: Drop>(alloc: Global, first: T) -> Result<Items<T>, NoMemory> {
    let mut items = Items::new(alloc);
    items.push(first)?;
    Ok(items)
}

fn name(alloc: Global, text: &str, span: Span) -> Result<Tree, NoMemory> {
    let name = Name::from_str(alloc, text)?;
    Tree::new(alloc, Node::Name { name, span })
}

// A call of a name of one byte after a dot.
fn plain_call(alloc: Global, text: &str, start: u32) -> Result<Suffix<Tree>, NoMemory>
    requires { start < 1000 }
{
    Ok(Suffix::Call {
        dot: Dot::Plain,
        name: Name::from_str(alloc, text)?,
        name_span: place(start + 1, start + 2),
        arguments: None,
        block: None,
        span: place(start, start + 2),
    })
}

// `::B` at the place 3.
fn constant(alloc: Global) -> Result<Suffix<Tree>, NoMemory> {
    Ok(Suffix::Constant {
        name: Name::from_str(alloc, "B")?,
        name_span: place(5, 6),
        span: place(3, 6),
    })
}

// `::A`
fn top_constant(alloc: Global) -> Result<Tree, NoMemory> {
    let name = Name::from_str(alloc, "A")?;
    Tree::new(
        alloc,
        Node::TopConstant {
            name,
            name_span: place(2, 3),
            span: place(0, 3),
        },
    )
}

// `::B.c` at the place 3.
fn row(alloc: Global) -> Result<Items<Suffix<Tree>>, NoMemory> {
    let mut suffixes = one(alloc, constant(alloc)?)?;
    suffixes.push(plain_call(alloc, "c", 6)?)?;
    Ok(suffixes)
}

// `::A::B.c`
fn called_path(alloc: Global) -> Result<Tree, NoMemory> {
    let receiver = top_constant(alloc)?;
    let suffixes = row(alloc)?;
    Tree::new(
        alloc,
        Node::Post {
            receiver,
            suffixes,
            span: place(0, 8),
        },
    )
}

fn is_the_path(tree: &Tree) -> bool {
    let Some(path) = Path::of(tree) else {
        return false;
    };
    path.top
        && path.span == place(0, 6)
        && path.rest.len() == 1
        && path.names.is_spelled(&["A", "B"])
        && !path.names.is_spelled(&["A"])
        && Prefix::of(tree).span() == place(0, 8)
        && Prefix::of(tree).first(1).span() == place(0, 6)
}

#[test]
fn a_path_ends_before_a_call(rt: HostRuntime) -> Result<(), NoMemory> {
    let tree = called_path(rt.alloc())?;
    assert!(rt; is_the_path(&tree));
    Ok(())
}

// `.f[b]` at the place 1.
fn indexed(alloc: Global) -> Result<Items<Suffix<Tree>>, NoMemory> {
    let value = name(alloc, "b", place(4, 5))?;
    let arguments = one(alloc, Argument::Positional { value })?;
    let mut suffixes = one(alloc, plain_call(alloc, "f", 1)?)?;
    suffixes.push(Suffix::Index {
        arguments,
        span: place(3, 6),
    })?;
    Ok(suffixes)
}

// `a.f[b]`
fn index(alloc: Global) -> Result<Tree, NoMemory> {
    let receiver = name(alloc, "a", place(0, 1))?;
    let suffixes = indexed(alloc)?;
    Tree::new(
        alloc,
        Node::Post {
            receiver,
            suffixes,
            span: place(0, 6),
        },
    )
}

fn is_the_index(tree: &Tree) -> bool {
    let Some(call) = Call::of(tree) else {
        return false;
    };
    let Some(receiver) = call.receiver else {
        return false;
    };
    call.name == "[]"
        && call.name_span == place(3, 4)
        && call.arguments.len() == 1
        && receiver.prefix.span() == place(0, 3)
        && matches!(Target::of(tree), Some(Target::Element { .. }))
}

#[test]
fn an_index_is_called_by_its_brackets(rt: HostRuntime) -> Result<(), NoMemory> {
    let tree = index(rt.alloc())?;
    assert!(rt; is_the_index(&tree));
    Ok(())
}

// `do end` at the place 4.
fn block(alloc: Global) -> Result<Boxed<Block<Tree>>, NoMemory> {
    let body = Tree::new(alloc, Node::Nil { span: place(0, 0) })?;
    Boxed::new(
        alloc,
        Block {
            parameters: Items::new(alloc),
            body,
            span: place(4, 10),
        },
    )
}

// `f a do end`
fn command(alloc: Global) -> Result<Tree, NoMemory> {
    let value = name(alloc, "a", place(2, 3))?;
    let arguments = one(alloc, Argument::Positional { value })?;
    let callee = name(alloc, "f", place(0, 1))?;
    let block = Some(block(alloc)?);
    Tree::new(
        alloc,
        Node::Command {
            callee,
            arguments,
            block,
            span: place(0, 10),
        },
    )
}

fn is_the_command(tree: &Tree) -> bool {
    let Some(call) = Call::of(tree) else {
        return false;
    };
    let Some(block) = call.block else {
        return false;
    };
    call.name == "f" && !call.alone && call.span == place(0, 10) && block.span == place(4, 10)
}

#[test]
fn a_command_keeps_its_block(rt: HostRuntime) -> Result<(), NoMemory> {
    let tree = command(rt.alloc())?;
    assert!(rt; is_the_command(&tree));
    Ok(())
}
