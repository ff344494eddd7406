ghost use Rattle.std.specs.Prelude.{◌≡◌, ◌+◌, ◌<◌};

use crate::{
    Boxed, Cause, Diag, Ended, Items, Level, Name, NoMemory, PathMap, Project, Span, Steps, Words,
};
use std::alloc::Global;
use std::marker::Brand;
use std::sync::ledger::{Blank, Ledger};

fn diag(alloc: Global, start: u32, end: u32, number: u16, text: &str) -> Result<Diag, NoMemory> {
    Ok(Diag {
        span: Span { start, end },
        number,
        text: Words::from_str(alloc, text)?,
    })
}

#[test]
fn texts(rt: HostRuntime) -> Result<(), NoMemory> {
    let alloc = rt.alloc();
    assert!(rt; Words::from_str(alloc, "")?.is_empty());
    let text = Words::from_string(String::from_str(alloc, "expected Ärger")?)?;
    let copy = text.copied()?;
    assert_eq!(rt; copy.as_str(), "expected Ärger");
    assert_eq!(rt; copy.len(), 15);
    assert_eq!(rt; copy.as_bytes()[9], 0xc3);
    assert!(rt; copy == text && copy.is_same(&text));
    let line = format!(in alloc; "7007 {text}")?;
    assert_eq!(rt; line.as_str(), "7007 expected Ärger");
    let name = Name::from_string(line)?.copied()?;
    assert!(rt; Name::from_words(&text)?.as_str() == text.as_str());
    assert!(rt; name < Name::from_str(alloc, "7008")?);
    assert!(rt; !name.is_same(&Name::from_str(alloc, "7008")?));
    Ok(())
}

#[test]
fn diagnostics_go_by_start_end_number_and_text(rt: HostRuntime) -> Result<(), NoMemory> {
    let alloc = rt.alloc();
    let rising = vec![in alloc;
        diag(alloc, 1, 9, 9000, "b")?,
        diag(alloc, 2, 3, 9000, "b")?,
        diag(alloc, 2, 4, 5002, "b")?,
        diag(alloc, 2, 4, 7007, "a")?,
        diag(alloc, 2, 4, 7007, "b")?,
    ]?;
    for (low, first) in rising.iter().enumerate() {
        for (high, second) in rising.iter().enumerate() {
            assert!(rt; first.cmp(second) == low.cmp(&high), "{low} and {high}");
            assert!(rt; (first == second) == (low == high), "{low} and {high}");
            assert!(rt;
                first.is_same(&second.copied()?) == (low == high),
                "{low} and {high}"
            );
        }
    }
    assert!(rt; Level::Ignore < Level::False && Level::False < Level::True);
    assert!(rt; Level::True < Level::Strict && Level::Strict < Level::Strong);
    Ok(())
}

#[test]
fn lists_and_boxes(rt: HostRuntime) -> Result<(), NoMemory> {
    let alloc = rt.alloc();
    let mut numbers = Items::from_slice(alloc, &[1u8, 2, 3])?;
    numbers.push(4)?;
    numbers.append(Items::from_vec(vec![in alloc; 5u8, 6]?))?;
    numbers.set(0, 9);
    assert!(rt; numbers.as_slice() == [9u8, 2, 3, 4, 5, 6].as_slice());
    assert!(rt; numbers.pop() == Some(6));
    numbers.truncate(2);
    assert!(rt; numbers.get(1) == Some(&2) && numbers.get(2) == None);
    assert!(rt; !numbers.is_empty() && numbers.len() == 2);
    assert!(rt; numbers.into_vec().as_slice() == [9u8, 2].as_slice());
    for (count, room) in [(0, 0), (1, 1), (2, 2), (3, 4), (4, 4), (5, 8)] {
        let mut zeros = Items::new(alloc);
        for _ in 0..count {
            zeros.push(0u8)?;
        }
        assert_eq!(rt; zeros.into_vec().capacity(), room);
    }
    let boxed = Boxed::new(alloc, 7u8)?;
    let copy = boxed.copied()?;
    assert!(rt; *boxed.get() == 7 && boxed.into_inner() == None);
    assert!(rt; copy.into_inner() == Some(7));
    Ok(())
}

#[test]
fn a_project_is_in_order_of_its_paths(rt: HostRuntime) -> Result<(), NoMemory> {
    let alloc = rt.alloc();
    let mut project = Project::from_file(
        alloc,
        Name::from_str(alloc, "b.rb")?,
        vec![in alloc; 1]?,
    )?;
    for (path, byte) in [("a/z.rb", 2u8), ("c.rb", 3), ("a.rb", 4), ("b.rb", 5)] {
        project.put(Name::from_str(alloc, path)?, vec![in alloc; byte]?)?;
    }
    assert_eq!(rt; project.len(), 4);
    let want = [("a.rb", 4u8), ("a/z.rb", 2), ("b.rb", 5), ("c.rb", 3)];
    for (file, (path, byte)) in project.files().iter().zip(want.as_slice()) {
        assert_eq!(rt; file.path().as_str(), *path);
        assert!(rt; file.bytes() == [*byte].as_slice());
        assert!(rt; project.bytes(path) == Some([*byte].as_slice()));
    }
    assert!(rt; project.bytes("z.rb") == None && !project.is_empty());
    assert_eq!(rt; project.into_files().len(), 4);
    Ok(())
}

fn numbers_by_path(alloc: Global) -> Result<PathMap<u8>, NoMemory> {
    let mut map = PathMap::new(alloc);
    map.put(Name::from_str(alloc, "b")?, 1)?;
    map.put(Name::from_str(alloc, "d")?, 2)?;
    map.put(Name::from_str(alloc, "a")?, 3)?;
    map.put(Name::from_str(alloc, "b")?, 4)?;
    Ok(map)
}

#[test]
fn a_map_finds_by_path(rt: HostRuntime) -> Result<(), NoMemory> {
    let map = numbers_by_path(rt.alloc())?;
    assert!(rt; map.len() == 3 && !map.is_empty());
    assert!(rt; map.find("a") == Ok(0) && map.find("b") == Ok(1) && map.find("d") == Ok(2));
    assert!(rt; map.find("") == Err(0) && map.find("c") == Err(2) && map.find("e") == Err(3));
    assert!(rt; map.get("a") == Some(&3) && map.get("b") == Some(&4) && map.get("c") == None);
    Ok(())
}

#[test]
fn a_map_changes_and_drops_by_index(rt: HostRuntime) -> Result<(), NoMemory> {
    let mut map = numbers_by_path(rt.alloc())?;
    if let Ok(index) = map.find("d") {
        *map.value_mut(index) = 7;
    }
    if let Ok(index) = map.find("a") {
        map.remove(index);
    }
    assert!(rt; map.len() == 2 && map.get("a") == None);
    assert!(rt; map.get("b") == Some(&4) && map.get("d") == Some(&7));
    Ok(())
}

#[test]
fn each_cause_has_its_status(rt: HostRuntime) -> Result<(), NoMemory> {
    let path = Name::from_str(rt.alloc(), "stdin.rb")?;
    for (cause, status) in [
        (Cause::Done, 0),
        (Cause::Errors, 1),
        (Cause::NoShutdown, 1),
        (Cause::Usage, 2),
        (Cause::ReadFault, 3),
        (Cause::WriteFault, 4),
        (Cause::Broken { at: 17 }, 5),
        (Cause::TooLong { length: 16_777_217 }, 6),
        (Cause::TooMany { files: 4_097 }, 6),
        (Cause::TooBig { path }, 6),
        (Cause::NoMemory, 7),
    ] {
        let ended = Ended::new(cause);
        assert_eq!(rt; ended.status, status, "{ended:?}");
    }
    Ok(())
}

fn count_three<L: Ledger>(steps: &mut Steps<L>)
    ensures { steps.new ≡ steps.old + 3 }
{
    steps.count();
    steps.count();
    steps.count();
}

fn bytes_of_a_counter<L: Ledger>(blank: Blank) -> usize
    requires name { blank.name ≡ L.name }
    requires parts { blank.parts ≡ L.parts }
    requires some { 0 < blank.parts }
{
    let mut steps = Steps::<L>::new(blank);
    count_three(&mut steps);
    size_of_val(&steps)
}

#[test]
fn steps_take_no_bytes(rt: HostRuntime) {
    assert_eq!(rt; bytes_of_a_counter::<Brand>(Blank::new(1)), 0);
}
