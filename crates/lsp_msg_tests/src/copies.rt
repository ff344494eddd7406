//! Copies of messages.

use lsp_msg::{Change, Id, Msg, Placed};
use srb_terms::{Items, NoMemory, Words};
use srb_text::Pos;
use std::alloc::Global;

fn words(alloc: Global, text: &str) -> Result<Words, NoMemory> {
    Words::from_str(alloc, text)
}

#[test]
fn a_copied_change_says_the_same(rt: HostRuntime) -> Result<(), NoMemory> {
    let alloc = rt.alloc();
    let change = Change {
        range: Some((Pos { line: 0, unit: 1 }, Pos { line: 2, unit: 3 })),
        text: words(alloc, "new")?,
    };
    let same = change.copied()?;
    assert!(rt; same == change);
    let mut changes = Items::new(alloc);
    changes.push(change)?;
    let msg = Msg::Changed {
        uri: words(alloc, "file:///p/a.rb")?,
        changes,
    };
    let Msg::Changed { uri, changes } = msg.copied(alloc)? else {
        assert!(rt; false);
        return Ok(());
    };
    assert_eq!(rt; uri.as_str(), "file:///p/a.rb");
    assert!(rt; changes.len() == 1);
    Ok(())
}

#[test]
fn a_copied_initialize_says_the_same(rt: HostRuntime) -> Result<(), NoMemory> {
    let alloc = rt.alloc();
    let mut encodings = Items::new(alloc);
    encodings.push(words(alloc, "utf-8")?)?;
    let msg = Msg::Initialize {
        id: Id::Text(words(alloc, "one")?),
        root: Some(words(alloc, "file:///p")?),
        encodings,
    };
    let Msg::Initialize {
        id,
        root,
        encodings,
    } = msg.copied(alloc)?
    else {
        assert!(rt; false);
        return Ok(());
    };
    assert!(rt; id == Id::Text(words(alloc, "one")?));
    assert!(rt; root.is_some());
    assert!(rt; encodings.len() == 1);
    Ok(())
}

#[test]
fn a_copied_error_is_the_same(rt: HostRuntime) -> Result<(), NoMemory> {
    let alloc = rt.alloc();
    let placed = Placed {
        start: Pos { line: 1, unit: 10 },
        end: Pos { line: 1, unit: 13 },
        number: 7007,
        text: words(alloc, "expected Integer, found String")?,
    };
    assert!(rt; placed.copied()? == placed);
    assert!(rt; Id::Number(1).copied()? == Id::Number(1));
    Ok(())
}
