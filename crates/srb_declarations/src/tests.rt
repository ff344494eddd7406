ghost use Rattle.std.specs.Prelude.{◌<◌};

use crate::{Declaration, declarations};
use rb_tree::syntax::{Argument, Modifier, Node, PlacedName, Reference, Suffix, Tree};
use srb_terms::{Boxed, How, Items, Kind, Name, Names, NoMemory, Span};
use std::alloc::Global;

fn place(start: u32, end: u32) -> Span {
    Span { start, end }
}

fn one<T: Drop>(alloc: Global, first: T) -> Result<Items<T>, NoMemory> {
    let mut items = Items::new(alloc);
    items.push(first)?;
    Ok(items)
}

fn two<T: Drop>(alloc: Global, first: T, second: T) -> Result<Items<T>, NoMemory> {
    let mut items = one(alloc, first)?;
    items.push(second)?;
    Ok(items)
}

fn placed(alloc: Global, text: &str, span: Span) -> Result<PlacedName, NoMemory> {
    Ok(PlacedName {
        name: Name::from_str(alloc, text)?,
        span,
    })
}

fn name(alloc: Global, text: &str, span: Span) -> Result<Tree, NoMemory> {
    let name = Name::from_str(alloc, text)?;
    Tree::new(alloc, Node::Name { name, span })
}

fn constant(alloc: Global, text: &str, span: Span) -> Result<Tree, NoMemory> {
    let name = Name::from_str(alloc, text)?;
    Tree::new(alloc, Node::Constant { name, span })
}

fn body(alloc: Global, statements: Items<Tree>) -> Result<Tree, NoMemory> {
    let span = place(0, 0);
    Tree::new(alloc, Node::Body { statements, span })
}

// `X = nil`, where the constant stands at this place.
fn assigned(alloc: Global, text: &str, span: Span) -> Result<Tree, NoMemory> {
    let target = constant(alloc, text, span)?;
    let value = Tree::new(alloc, Node::Nil { span })?;
    Tree::new(
        alloc,
        Node::Assign {
            target,
            value,
            span,
        },
    )
}

// The same with `if c` after it.
fn assigned_if(alloc: Global, text: &str, span: Span) -> Result<Tree, NoMemory> {
    let statement = assigned(alloc, text, span)?;
    let condition = name(alloc, "c", span)?;
    Tree::new(
        alloc,
        Node::Modified {
            statement,
            modifier: Modifier::If,
            condition,
            span,
        },
    )
}

// A call without brackets of a name at the place 30.
fn command(alloc: Global, text: &str, arguments: Items<Argument<Tree>>) -> Result<Tree, NoMemory> {
    let callee = name(alloc, text, place(30, 37))?;
    Tree::new(
        alloc,
        Node::Command {
            callee,
            arguments,
            block: None,
            span: place(30, 60),
        },
    )
}

fn class(
    alloc: Global,
    path: Items<PlacedName>,
    superclass: Option<Boxed<Reference>>,
    statements: Items<Tree>,
) -> Result<Tree, NoMemory> {
    let body = body(alloc, statements)?;
    Tree::new(
        alloc,
        Node::Class {
            path,
            superclass,
            body,
            span: place(0, 100),
        },
    )
}

fn module(alloc: Global, path: Items<PlacedName>, statement: Tree) -> Result<Tree, NoMemory> {
    let body = body(alloc, one(alloc, statement)?)?;
    Tree::new(
        alloc,
        Node::Module {
            path,
            body,
            span: place(0, 200),
        },
    )
}

// `M::N` at the place 38.
fn path(alloc: Global) -> Result<Tree, NoMemory> {
    let receiver = constant(alloc, "M", place(38, 39))?;
    let suffix = Suffix::Constant {
        name: Name::from_str(alloc, "N")?,
        name_span: place(41, 42),
        span: place(39, 42),
    };
    let suffixes = one(alloc, suffix)?;
    Tree::new(
        alloc,
        Node::Post {
            receiver,
            suffixes,
            span: place(38, 42),
        },
    )
}

// `M::N, k: v`, as the arguments after `include`.
fn arguments(alloc: Global) -> Result<Items<Argument<Tree>>, NoMemory> {
    let value = path(alloc)?;
    let first = Argument::Positional { value };
    let value = name(alloc, "v", place(47, 48))?;
    let second = Argument::Keyword {
        name: Name::from_str(alloc, "k")?,
        span: place(44, 46),
        value,
    };
    two(alloc, first, second)
}

// `::P`
fn superclass(alloc: Global) -> Result<Option<Boxed<Reference>>, NoMemory> {
    let reference = Reference {
        top: true,
        path: one(alloc, placed(alloc, "P", place(22, 23))?)?,
        span: place(20, 23),
    };
    Ok(Some(Boxed::new(alloc, reference)?))
}

fn is_spelled(names: &Names, words: &[&str]) -> bool {
    let mut at = names;
    for word in words {
        match at.split() {
            None => return false,
            Some((first, after)) => {
                if first.as_str() != *word {
                    return false;
                }
                at = after;
            }
        }
    }
    at.is_empty()
}

fn is_body(found: Option<&Declaration>, want: &str, class: bool, place: Span) -> bool {
    match found {
        Some(Declaration::Body { name, kind, span }) => {
            name.as_str() == want && matches!(kind, Kind::Class) == class && *span == place
        }
        _ => false,
    }
}

fn is_constant(found: Option<&Declaration>, want: &str, place: Span) -> bool {
    match found {
        Some(Declaration::Constant { name, span }) => name.as_str() == want && *span == place,
        _ => false,
    }
}

// `module O; class A < ::P; .. end; end` with one statement in the class.
fn nested(alloc: Global, statement: Tree) -> Result<Items<Declaration>, NoMemory> {
    let path = one(alloc, placed(alloc, "A", place(16, 17))?)?;
    let inner = class(alloc, path, superclass(alloc)?, one(alloc, statement)?)?;
    let path = one(alloc, placed(alloc, "O", place(7, 8))?)?;
    let outer = module(alloc, path, inner)?;
    let program = body(alloc, one(alloc, outer)?)?;
    declarations(alloc, &program)
}

fn is_superclass(found: Option<&Declaration>) -> bool {
    match found {
        Some(
            Declaration::Superclass {
                of,
                scope,
                path,
                span,
            },
        ) => {
            of.as_str() == "O::A"
                && is_spelled(scope, &["O"])
                && is_spelled(path, &["", "P"])
                && *span == place(20, 23)
        }
        _ => false,
    }
}

#[test]
fn a_nested_class_looks_up_its_superclass_around_it(rt: HostRuntime) -> Result<(), NoMemory> {
    let alloc = rt.alloc();
    let found = nested(alloc, assigned(alloc, "X", place(25, 26))?)?;
    assert!(rt; found.len() == 4);
    assert!(rt; is_body(found.get(0), "O", false, place(7, 8)));
    assert!(rt; is_body(found.get(1), "O::A", true, place(16, 17)));
    assert!(rt; is_superclass(found.get(2)));
    assert!(rt; is_constant(found.get(3), "O::A::X", place(25, 26)));
    Ok(())
}

fn is_mixin(found: Option<&Declaration>) -> bool {
    match found {
        Some(
            Declaration::Mixin {
                of,
                scope,
                path,
                how: How::Include,
                span,
            },
        ) => {
            of.as_str() == "O::A"
                && is_spelled(scope, &["O::A", "O"])
                && is_spelled(path, &["M", "N"])
                && *span == place(38, 42)
        }
        _ => false,
    }
}

fn is_other_mixin(found: Option<&Declaration>, place: Span) -> bool {
    match found {
        Some(Declaration::OtherMixin { span }) => *span == place,
        _ => false,
    }
}

#[test]
fn each_argument_of_include_is_listed(rt: HostRuntime) -> Result<(), NoMemory> {
    let alloc = rt.alloc();
    let found = nested(alloc, command(alloc, "include", arguments(alloc)?)?)?;
    assert!(rt; found.len() == 5);
    assert!(rt; is_mixin(found.get(3)));
    assert!(rt; is_other_mixin(found.get(4), place(44, 48)));
    Ok(())
}

// `class A::B; end`
fn long_path(alloc: Global) -> Result<Tree, NoMemory> {
    let first = placed(alloc, "A", place(6, 7))?;
    let second = placed(alloc, "B", place(9, 10))?;
    let path = two(alloc, first, second)?;
    class(alloc, path, None, Items::new(alloc))
}

#[test]
fn a_path_of_names_is_declared_whole(rt: HostRuntime) -> Result<(), NoMemory> {
    let alloc = rt.alloc();
    let statements = two(
        alloc,
        command(alloc, "include", arguments(alloc)?)?,
        long_path(alloc)?,
    )?;
    let found = declarations(alloc, &body(alloc, statements)?)?;
    assert!(rt; found.len() == 1);
    assert!(rt; is_body(found.get(0), "A::B", true, place(6, 10)));
    Ok(())
}

#[test]
fn a_constant_with_a_modifier_is_declared(rt: HostRuntime) -> Result<(), NoMemory> {
    let alloc = rt.alloc();
    let program = body(alloc, one(alloc, assigned_if(alloc, "X", place(0, 1))?)?)?;
    let found = declarations(alloc, &program)?;
    assert!(rt; found.len() == 1);
    assert!(rt; is_constant(found.get(0), "X", place(0, 1)));
    Ok(())
}
