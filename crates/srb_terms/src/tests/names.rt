use crate::{Boxed, Items, Name, Names, Ty};
use std::alloc::{AllocError, Global};

fn list(alloc: Global, texts: &[&str]) -> Result<Names, AllocError> {
    let mut names = Names::new();
    for text in texts.iter().rev() {
        names = names.pushed(alloc, Name::from_str(alloc, text)?)?;
    }
    Ok(names)
}

#[test]
fn lists_share_their_tails(rt: HostRuntime) -> Result<(), AllocError> {
    let alloc = rt.alloc();
    let tail = list(alloc, &["B", "Object"])?;
    let whole = tail.copied()?.pushed(alloc, Name::from_str(alloc, "A")?)?;
    assert!(rt; whole.contains(&Name::from_str(alloc, "Object")?));
    assert!(rt; !tail.contains(&Name::from_str(alloc, "A")?));
    assert!(rt; Names::new().is_empty() && !tail.is_empty());
    match whole.split() {
        None => assert!(rt; false),
        Some((first, rest)) => {
            assert_eq!(rt; first.as_str(), "A");
            assert!(rt; rest.contains(&Name::from_str(alloc, "B")?));
        }
    }
    Ok(())
}

#[test]
fn a_long_list_is_dropped(rt: HostRuntime) -> Result<(), AllocError> {
    let alloc = rt.alloc();
    let name = Name::from_str(alloc, "A")?;
    let mut names = Names::new();
    for _ in 0..100_000 {
        names = names.pushed(alloc, name.copied()?)?;
    }
    let copy = names.copied()?;
    drop(names);
    assert!(rt; copy.contains(&name));
    Ok(())
}

#[test]
fn a_copied_type_is_the_same(rt: HostRuntime) -> Result<(), AllocError> {
    let alloc = rt.alloc();
    let mut parts = Items::new(alloc);
    parts.push(Ty::Class(Name::from_str(alloc, "A")?))?;
    parts.push(Ty::Arr(Boxed::new(alloc, Ty::Untyped)?))?;
    let union = Ty::Any(Boxed::new(alloc, parts)?);
    let copy = union.copied()?;
    drop(union);
    match &copy {
        Ty::Any(parts) => assert_eq!(rt; parts.get().len(), 2),
        _ => assert!(rt; false),
    }
    Ok(())
}
