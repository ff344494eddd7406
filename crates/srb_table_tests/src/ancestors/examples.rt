//! Short lists of links.

use crate::ancestors::names;
use srb_ancestors::{Lins, Parents, circular, linearize};
use srb_rules::Link;
use srb_terms::{How, Items, Name, NoMemory};
use std::alloc::Global;

fn link(alloc: Global, of: &str, how: How, to: &str) -> Result<Link, NoMemory> {
    Ok(Link {
        of: Name::from_str(alloc, of)?,
        to: Name::from_str(alloc, to)?,
        how,
    })
}

fn links(alloc: Global, rows: &[(&str, How, &str)]) -> Result<Parents, NoMemory> {
    let mut links = Items::new(alloc);
    for (of, how, to) in rows {
        links.push(link(alloc, of, *how, to)?)?;
    }
    Ok(links)
}

// The names of the list of `of`, with a blank after each.
fn shown(alloc: Global, lins: &Lins, of: &str) -> Result<String, NoMemory> {
    let mut text = String::new(alloc);
    if let Some(list) = lins.get(&Name::from_str(alloc, of)?) {
        let mut at = list;
        while let Some((name, rest)) = at.split() {
            text.push_str(name.as_str())?;
            text.push_str(" ")?;
            at = rest;
        }
    }
    Ok(text)
}

#[test]
fn a_module_of_the_superclass_comes_once(rt: HostRuntime) -> Result<(), NoMemory> {
    let alloc = rt.alloc();
    let parents = links(
        alloc,
        &[
            ("P", How::Super, "Object"),
            ("P", How::Include, "B"),
            ("C", How::Super, "P"),
            ("C", How::Include, "A"),
            ("C", How::Include, "B"),
            ("Object", How::Super, "BasicObject"),
            ("Object", How::Include, "Kernel"),
        ],
    )?;
    match linearize(alloc, &parents) {
        Err(_) => assert!(rt; false),
        Ok(lins) => {
            assert_eq!(rt;
                shown(alloc, &lins, "C")?.as_str(),
                "C A P B Object Kernel BasicObject "
            );
            assert_eq!(rt; shown(alloc, &lins, "Kernel")?.as_str(), "Kernel ");
            assert_eq!(rt; shown(alloc, &lins, "Other")?.as_str(), "");
        }
    }
    Ok(())
}

#[test]
fn the_last_module_comes_first(rt: HostRuntime) -> Result<(), NoMemory> {
    let alloc = rt.alloc();
    let parents = links(
        alloc,
        &[
            ("M", How::Include, "A"),
            ("M", How::Include, "B"),
            ("M", How::Include, "A"),
            ("A", How::Include, "K"),
            ("B", How::Include, "K"),
        ],
    )?;
    match linearize(alloc, &parents) {
        Err(_) => assert!(rt; false),
        Ok(lins) => {
            assert_eq!(rt; shown(alloc, &lins, "M")?.as_str(), "M B K A ");
            assert_eq!(rt; shown(alloc, &lins, "A")?.as_str(), "A K ");
        }
    }
    Ok(())
}

#[test]
fn circles_are_found(rt: HostRuntime) -> Result<(), NoMemory> {
    let alloc = rt.alloc();
    let parents = links(
        alloc,
        &[
            ("C", How::Super, "A"),
            ("D", How::Include, "D"),
            ("A", How::Super, "B"),
            ("B", How::Super, "A"),
            ("D", How::Include, "D"),
        ],
    )?;
    let found = circular(alloc, &parents)?;
    assert_eq!(rt; found.len(), 4);
    for (index, of) in ["D", "A", "B", "D"].iter().enumerate() {
        match found.get(index) {
            None => assert!(rt; false),
            Some(link) => assert_eq!(rt; link.of.as_str(), *of),
        }
    }
    match linearize(alloc, &parents) {
        Ok(_) => assert!(rt; false),
        Err(end) => assert!(rt; names(&end, "D")),
    }
    Ok(())
}

#[test]
fn a_name_without_links_is_alone(rt: HostRuntime) -> Result<(), NoMemory> {
    let alloc = rt.alloc();
    match linearize(alloc, &links(alloc, &[("A", How::Super, "B")])?) {
        Err(_) => assert!(rt; false),
        Ok(mut lins) => {
            lins.add_alone(alloc, &Name::from_str(alloc, "M")?)?;
            lins.add_alone(alloc, &Name::from_str(alloc, "A")?)?;
            assert_eq!(rt; shown(alloc, &lins, "M")?.as_str(), "M ");
            assert_eq!(rt; shown(alloc, &lins, "A")?.as_str(), "A B ");
            assert_eq!(rt; lins.into_map().len(), 3);
        }
    }
    Ok(())
}
