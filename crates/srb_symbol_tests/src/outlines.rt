//! Outlines of trees written by hand, and which of them are the same.

use rb_outline::{outline, same_outline};
use rb_tree::syntax::{Argument, Binary, Dot, Node, Suffix, Tree};
use srb_terms::{Items, Name, NoMemory, NodeKind, Outline, Span, Words};
use std::alloc::Global;

fn at(start: u32, end: u32) -> Span {
    Span { start, end }
}

fn constant(alloc: Global, text: &str, span: Span) -> Result<Tree, NoMemory> {
    let name = Name::from_str(alloc, text)?;
    Tree::new(alloc, Node::Constant { name, span })
}

// A sum of two constants at these places.
fn sum(alloc: Global, operator: Binary, left: Span, right: Span) -> Result<Tree, NoMemory> {
    let left = constant(alloc, "A", left)?;
    let right = constant(alloc, "B", right)?;
    Tree::new(
        alloc,
        Node::Binary {
            operator,
            operator_span: at(2, 3),
            left,
            right,
            span: at(0, 5),
        },
    )
}

fn argument(alloc: Global) -> Result<Items<Argument<Tree>>, NoMemory> {
    let value = constant(alloc, "A", at(4, 5))?;
    let mut arguments = Items::new(alloc);
    arguments.push(Argument::Positional { value })?;
    Ok(arguments)
}

fn arguments(alloc: Global, brackets: bool) -> Result<Option<Items<Argument<Tree>>>, NoMemory> {
    if brackets {
        Ok(Some(argument(alloc)?))
    } else {
        Ok(None)
    }
}

fn suffixes(alloc: Global, dot: Dot, brackets: bool) -> Result<Items<Suffix<Tree>>, NoMemory> {
    let name = Name::from_str(alloc, "f")?;
    let arguments = arguments(alloc, brackets)?;
    let mut suffixes = Items::new(alloc);
    suffixes.push(Suffix::Call {
        dot,
        name,
        name_span: at(2, 3),
        arguments,
        block: None,
        span: at(1, 6),
    })?;
    Ok(suffixes)
}

// `T.f(A)`, or `T.f` without brackets, without its places.
fn call(alloc: Global, dot: Dot, brackets: bool) -> Result<Outline, NoMemory> {
    let receiver = constant(alloc, "T", at(0, 1))?;
    let suffixes = suffixes(alloc, dot, brackets)?;
    let span = at(0, 6);
    let tree = Tree::new(
        alloc,
        Node::Post {
            receiver,
            suffixes,
            span,
        },
    )?;
    outline(alloc, &tree)
}

fn sum_outline(
    alloc: Global,
    operator: Binary,
    left: Span,
    right: Span,
) -> Result<Outline, NoMemory> {
    let tree = sum(alloc, operator, left, right)?;
    outline(alloc, &tree)
}

#[test]
fn places_do_not_count_and_operators_do(rt: HostRuntime) -> Result<(), NoMemory> {
    let alloc = rt.alloc();
    let near = sum_outline(alloc, Binary::Plus, at(0, 1), at(4, 5))?;
    let far = sum_outline(alloc, Binary::Plus, at(9, 10), at(40, 41))?;
    let other = sum_outline(alloc, Binary::Minus, at(0, 1), at(4, 5))?;
    assert_eq!(rt; near.label.kind, NodeKind::Binary);
    assert_eq!(rt; near.label.words.as_str(), "+");
    assert_eq!(rt; near.parts.len(), 2);
    assert!(rt; same_outline(&near, &far));
    assert!(rt; !same_outline(&near, &other));
    Ok(())
}

#[test]
fn dots_and_empty_brackets_count(rt: HostRuntime) -> Result<(), NoMemory> {
    let alloc = rt.alloc();
    let plain = call(alloc, Dot::Plain, true)?;
    let again = call(alloc, Dot::Plain, true)?;
    let safe = call(alloc, Dot::Safe, true)?;
    let bare = call(alloc, Dot::Plain, false)?;
    assert!(rt; same_outline(&plain, &again));
    assert!(rt; !same_outline(&plain, &safe));
    assert!(rt; !same_outline(&plain, &bare));
    Ok(())
}

#[test]
fn digits_are_the_words_of_a_number(rt: HostRuntime) -> Result<(), NoMemory> {
    let alloc = rt.alloc();
    let words = Words::from_str(alloc, "12")?;
    let tree = Tree::new(
        alloc,
        Node::Whole {
            sign: None,
            words,
            span: at(0, 2),
        },
    )?;
    let made = outline(alloc, &tree)?;
    assert_eq!(rt; made.label.words.as_str(), "12");
    assert!(rt; made.parts.is_empty());
    Ok(())
}
