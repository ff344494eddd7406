//! Facts of the built-in table.

use srb_builtin::table;
use srb_terms::{Fact, How, Kind, Names, NoMemory, NodeKind, Outline, ParamKind, ParamShape};

// Whether the list holds this name alone.
fn is_alone(names: &Names, name: &str) -> bool {
    match names.split() {
        None => false,
        Some((first, rest)) => first.as_str() == name && rest.is_empty(),
    }
}

// Whether the fact is that of a class or module.
fn declares(fact: &Fact, wanted: &str, wanted_kind: Kind) -> bool {
    match fact {
        Fact::Scope { name, kind } => name.as_str() == wanted && *kind == wanted_kind,
        _ => false,
    }
}

// Whether the fact says that the class refers to the other name from the program's level.
fn is_below(fact: &Fact, class: &str, superclass: &str) -> bool {
    match fact {
        Fact::Parent { of, scope, to, how } => {
            of.as_str() == class
                && scope.is_empty()
                && is_alone(to, superclass)
                && *how == How::Super
        }
        _ => false,
    }
}

// Whether the fact says that the class includes the module, in its own body.
fn is_include(fact: &Fact, class: &str, module: &str) -> bool {
    match fact {
        Fact::Parent { of, scope, to, how } => {
            of.as_str() == class
                && is_alone(scope, class)
                && is_alone(to, module)
                && *how == How::Include
        }
        _ => false,
    }
}

// 27 classes with 26 superclasses and 6 includes, 6 modules, and 228 methods.
#[test]
fn the_table_has_each_class_and_module(rt: HostRuntime) -> Result<(), NoMemory> {
    let facts = table(rt.alloc())?;
    assert_eq!(rt; facts.len(), 293);
    let facts = facts.as_slice();
    assert!(rt; declares(&facts[0], "BasicObject", Kind::Class));
    assert!(rt; declares(&facts[1], "Object", Kind::Class));
    assert!(rt; is_below(&facts[2], "Object", "BasicObject"));
    assert!(rt; is_include(&facts[3], "Object", "Kernel"));
    assert!(rt; declares(&facts[63], "T::Sig", Kind::Module));
    assert!(rt; declares(&facts[64], "T::Helpers", Kind::Module));
    Ok(())
}

#[test]
fn the_superclass_of_key_error(rt: HostRuntime) -> Result<(), NoMemory> {
    let facts = table(rt.alloc())?;
    let mut found = 0;
    for fact in facts.as_slice() {
        if is_below(fact, "KeyError", "IndexError") {
            found = 1;
        }
        assert!(rt; !is_below(fact, "KeyError", "StandardError"));
    }
    assert_eq!(rt; found, 1);
    Ok(())
}

// Whether the fact is that of a method of the owner.
fn is_method_of(fact: &Fact, wanted: &str) -> bool {
    match fact {
        Fact::Method { owner, .. } => owner.as_str() == wanted,
        _ => false,
    }
}

// Whether the fact is that of the owner's method of this name.
fn is_method(fact: &Fact, wanted: &str, wanted_name: &str) -> bool {
    match fact {
        Fact::Method { owner, name, .. } => {
            owner.as_str() == wanted && name.as_str() == wanted_name
        }
        _ => false,
    }
}

// The owner's method of this name.
fn method<'a>(facts: &'a [Fact], owner: &str, name: &str) -> Option<&'a Fact> {
    for fact in facts {
        if is_method(fact, owner, name) {
            return Some(fact);
        }
    }
    None
}

// Whether the parameter has this name and kind.
fn is_parameter(shape: Option<&ParamShape>, name: &str, kind: ParamKind) -> bool {
    match shape {
        Some(shape) => shape.name.as_str() == name && shape.kind == kind,
        None => false,
    }
}

// Whether the part at the end of the path has this kind, these words, and so many parts.
fn has(tree: &Outline, path: &[usize], kind: NodeKind, words: &str, parts: usize) -> bool {
    let mut at = tree;
    for index in path {
        match at.parts.get(*index) {
            None => return false,
            Some(part) => at = part,
        }
    }
    at.label.kind == kind && at.label.words.as_str() == words && at.parts.len() == parts
}

#[test]
fn each_class_has_its_methods(rt: HostRuntime) -> Result<(), NoMemory> {
    let facts = table(rt.alloc())?;
    let counts = [
        ("BasicObject", 3),
        ("Kernel", 29),
        ("Module", 8),
        ("Class", 1),
        ("T::Helpers", 4),
        ("Comparable", 6),
        ("NilClass", 2),
        ("TrueClass", 3),
        ("FalseClass", 3),
        ("Numeric", 12),
        ("Integer", 22),
        ("Float", 10),
        ("String", 30),
        ("Symbol", 4),
        ("Proc", 3),
        ("Exception", 4),
        ("Array", 52),
        ("Hash", 32),
    ];
    for (owner, count) in counts {
        let found = facts
            .as_slice()
            .iter()
            .filter(|fact| is_method_of(fact, owner))
            .count();
        assert_eq!(rt; found, count);
    }
    Ok(())
}

// `index`(String, ?Integer) T.nilable(Integer)
#[test]
fn parameters_that_may_be_left_out(rt: HostRuntime) -> Result<(), NoMemory> {
    let facts = table(rt.alloc())?;
    match method(facts.as_slice(), "String", "index") {
        Some(
            Fact::Method {
                scope,
                meta,
                params,
                sig: Some(sig),
                ..
            },
        ) => {
            assert!(rt; scope.is_empty() && !*meta);
            assert_eq!(rt; params.len(), 2);
            assert!(rt; is_parameter(params.get(0), "arg0", ParamKind::Required));
            assert!(rt; is_parameter(params.get(1), "arg1", ParamKind::Optional));
            let tree = &sig.tree;
            assert!(rt; has(tree, &[], NodeKind::Call, "sig", 1));
            assert!(rt; has(tree, &[0], NodeKind::Block, "", 1));
            assert!(rt; has(tree, &[0, 0], NodeKind::Body, "", 1));
            assert!(rt; has(tree, &[0, 0, 0], NodeKind::Post, "", 2));
            assert!(rt; has(tree, &[0, 0, 0, 0], NodeKind::Call, "params", 1));
            assert!(rt; has(tree, &[0, 0, 0, 0, 0], NodeKind::Brackets, "", 2));
            assert!(rt; has(tree, &[0, 0, 0, 0, 0, 0], NodeKind::Keyword, "arg0", 1));
            assert!(rt;
                has(
                    tree,
                    &[0, 0, 0, 0, 0, 0, 0],
                    NodeKind::Constant,
                    "String",
                    0
                )
            );
            assert!(rt; has(tree, &[0, 0, 0, 0, 0, 1], NodeKind::Keyword, "arg1", 1));
            assert!(rt;
                has(
                    tree,
                    &[0, 0, 0, 0, 0, 1, 0],
                    NodeKind::Constant,
                    "Integer",
                    0
                )
            );
            assert!(rt; has(tree, &[0, 0, 0, 1], NodeKind::SuffixCall, "returns", 1));
            assert!(rt; has(tree, &[0, 0, 0, 1, 0], NodeKind::Brackets, "", 1));
            assert!(rt; has(tree, &[0, 0, 0, 1, 0, 0], NodeKind::Post, "", 2));
            assert!(rt; has(tree, &[0, 0, 0, 1, 0, 0, 0], NodeKind::Constant, "T", 0));
            assert!(rt;
                has(
                    tree,
                    &[0, 0, 0, 1, 0, 0, 1],
                    NodeKind::SuffixCall,
                    "nilable",
                    1
                )
            );
            assert!(rt; has(tree, &[0, 0, 0, 1, 0, 0, 1, 0], NodeKind::Brackets, "", 1));
            assert!(rt;
                has(
                    tree,
                    &[0, 0, 0, 1, 0, 0, 1, 0, 0],
                    NodeKind::Constant,
                    "Integer",
                    0
                )
            );
        }
        _ => assert!(rt; false),
    }
    Ok(())
}

// `each_with_index` {E, Integer} self
#[test]
fn parameters_of_a_block(rt: HostRuntime) -> Result<(), NoMemory> {
    let facts = table(rt.alloc())?;
    match method(facts.as_slice(), "Array", "each_with_index") {
        Some(
            Fact::Method {
                params,
                sig: Some(sig),
                ..
            },
        ) => {
            assert_eq!(rt; params.len(), 2);
            assert!(rt; is_parameter(params.get(0), "%0", ParamKind::Block));
            assert!(rt; is_parameter(params.get(1), "%1", ParamKind::Block));
            let tree = &sig.tree;
            assert!(rt; has(tree, &[0, 0, 0, 0, 0], NodeKind::Brackets, "", 2));
            assert!(rt; has(tree, &[0, 0, 0, 0, 0, 0], NodeKind::Keyword, "%0", 1));
            assert!(rt; has(tree, &[0, 0, 0, 0, 0, 0, 0], NodeKind::Constant, "%E", 0));
            assert!(rt; has(tree, &[0, 0, 0, 0, 0, 1], NodeKind::Keyword, "%1", 1));
            assert!(rt;
                has(
                    tree,
                    &[0, 0, 0, 0, 0, 1, 0],
                    NodeKind::Constant,
                    "Integer",
                    0
                )
            );
            assert!(rt; has(tree, &[0, 0, 0, 1, 0, 0], NodeKind::Constant, "%self", 0));
        }
        _ => assert!(rt; false),
    }
    Ok(())
}

// `+ - * / % **`(Numeric) N
#[test]
fn the_sum_of_integers(rt: HostRuntime) -> Result<(), NoMemory> {
    let facts = table(rt.alloc())?;
    match method(facts.as_slice(), "Integer", "+") {
        Some(
            Fact::Method {
                params,
                sig: Some(sig),
                ..
            },
        ) => {
            assert_eq!(rt; params.len(), 1);
            assert!(rt; is_parameter(params.get(0), "arg0", ParamKind::Required));
            let tree = &sig.tree;
            assert!(rt;
                has(
                    tree,
                    &[0, 0, 0, 0, 0, 0, 0],
                    NodeKind::Constant,
                    "Numeric",
                    0
                )
            );
            assert!(rt; has(tree, &[0, 0, 0, 1, 0, 0], NodeKind::Constant, "%N", 0));
        }
        _ => assert!(rt; false),
    }
    Ok(())
}

// `length size` Integer
#[test]
fn names_share_a_signature(rt: HostRuntime) -> Result<(), NoMemory> {
    let facts = table(rt.alloc())?;
    for name in ["length", "size"] {
        match method(facts.as_slice(), "Array", name) {
            Some(
                Fact::Method {
                    params,
                    sig: Some(sig),
                    ..
                },
            ) => {
                assert!(rt; params.is_empty());
                assert!(rt; has(&sig.tree, &[0, 0, 0], NodeKind::Call, "returns", 1));
                assert!(rt; has(&sig.tree, &[0, 0, 0, 0], NodeKind::Brackets, "", 1));
                assert!(rt;
                    has(
                        &sig.tree,
                        &[0, 0, 0, 0, 0],
                        NodeKind::Constant,
                        "Integer",
                        0
                    )
                );
            }
            _ => assert!(rt; false),
        }
    }
    Ok(())
}
