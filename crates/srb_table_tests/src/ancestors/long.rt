//! Long chains of links, and a large circle.

use crate::ancestors::names;
use srb_ancestors::{Parents, circular, linearize};
use srb_rules::Link;
use srb_terms::{How, Items, Name, NoMemory};
use std::alloc::Global;

fn name(alloc: Global, number: usize) -> Result<Name, NoMemory> {
    Name::from_string(format!(in alloc; "M{number}")?)
}

fn add(alloc: Global, links: &mut Parents, of: usize, how: How, to: usize) -> Result<(), NoMemory> {
    links.push(Link {
        of: name(alloc, of)?,
        to: name(alloc, to)?,
        how,
    })
}

// M1 refers to M0, M2 to M1 and so on up to Mcount.
fn chain(alloc: Global, count: usize, how: How) -> Result<Parents, NoMemory> {
    let mut links = Items::new(alloc);
    for (of, to) in (1..=count).zip(0..count) {
        add(alloc, &mut links, of, how, to)?;
    }
    Ok(links)
}

// Whether the linearization of Mcount goes from there down to M0.
fn counts_down(alloc: Global, links: &Parents, count: usize) -> Result<bool, NoMemory> {
    match linearize(alloc, links) {
        Err(_) => Ok(false),
        Ok(lins) => match lins.get(&name(alloc, count)?) {
            None => Ok(false),
            Some(list) => {
                let mut at = list;
                for number in (0..=count).rev() {
                    match at.split() {
                        None => return Ok(false),
                        Some((first, rest)) => {
                            if !first.is_same(&name(alloc, number)?) {
                                return Ok(false);
                            }
                            at = rest;
                        }
                    }
                }
                Ok(at.is_empty())
            }
        },
    }
}

#[test]
fn a_long_chain_of_superclasses(rt: HostRuntime) -> Result<(), NoMemory> {
    let alloc = rt.alloc();
    let links = chain(alloc, 10_000, How::Super)?;
    assert!(rt; counts_down(alloc, &links, 10_000)?);
    Ok(())
}

#[test]
fn a_long_chain_of_modules(rt: HostRuntime) -> Result<(), NoMemory> {
    let alloc = rt.alloc();
    let links = chain(alloc, 10_000, How::Include)?;
    assert!(rt; counts_down(alloc, &links, 10_000)?);
    Ok(())
}

#[test]
fn five_hundred_classes_in_a_circle(rt: HostRuntime) -> Result<(), NoMemory> {
    let alloc = rt.alloc();
    let mut links = chain(alloc, 499, How::Super)?;
    add(alloc, &mut links, 0, How::Super, 499)?;
    assert_eq!(rt; circular(alloc, &links)?.len(), 500);
    match linearize(alloc, &links) {
        Ok(_) => assert!(rt; false),
        Err(end) => assert!(rt; names(&end, "M1")),
    }
    Ok(())
}
