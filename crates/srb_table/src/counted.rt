ghost use Rattle.std.specs.Prelude.{◌≡◌, ◌++◌, ◌∷◌, ℕ, List, IfOk, bytes_eq, unwrap_or, []};
ghost use Rattle.indexmap.specs.IndexMap.{get};
ghost use Rattle.srb_rules.specs.Lin.{lin_of};
ghost use Rattle.srb_rules.specs.Links as rules;
ghost use Rattle.srb_rules.specs.declared.link.Link as link_type;
ghost use Rattle.srb_table.specs.Steps.{left_of, same_link};

use indexmap::IndexMap;
use srb_ancestors::{LinEnd, linearize};
use srb_rules::Link;
use srb_terms::{Items, Name, Names, NoMemory};
use std::alloc::{AllocError, Global};

/// The linearizations by the links that are not circular, given the circular ones in the same order. A name that has none stands in it alone.
pub fn lins_by(
    alloc: Global,
    circular: &[Link],
    links: &Items<Link>,
) -> Result<IndexMap<Name, Names>, NoMemory>
    ensures { IfOk result (λ lins. circular.now ≡ rules.circular_links links.now → (c : List ℕ) → unwrap_or (get bytes_eq lins c) (c ∷ []) ≡ lin_of (rules.counted links.now) c) }
{
    let kept = without(alloc, circular, links.as_slice())?;
    match linearize(alloc, &kept) {
        Ok(lins) => Ok(lins.into_map()),
        Err(end) => Err(refused(end)),
    }
}

// Out of memory: none of the links that count is circular.
fn refused(end: LinEnd) -> NoMemory {
    drop(end);
    AllocError
}

// The links without some of them, which are listed in the same order.
fn without(alloc: Global, out: &[Link], links: &[Link]) -> Result<Items<Link>, NoMemory>
    ensures { IfOk result (λ kept. kept ≡ left_of out.now links.now) }
{
    let mut rest = out;
    let mut kept = Items::new(alloc);
    'links: for link in links {
        rest = keep(rest, link, &mut kept)?;
    }
    Ok(kept)
}

// Keeps the link, unless it is the next one of those that are left out, and gives back what is left of these.
fn keep<'a>(out: &'a [Link], link: &Link, kept: &mut Items<Link>) -> Result<&'a [Link], NoMemory>
    ensures { IfOk result (λ rest. (more : List link_type.Link) → kept.new ++ left_of rest.now more ≡ kept.old ++ left_of out.now (link.now ∷ more)) }
{
    match out.split_first() {
        None => {
            kept.push(copied(link)?)?;
            Ok(out)
        }
        Some((next, rest)) => {
            if is_same(next, link) {
                Ok(rest)
            } else {
                kept.push(copied(link)?)?;
                Ok(out)
            }
        }
    }
}

fn is_same(a: &Link, b: &Link) -> bool
    ensures { result ≡ same_link a.now b.now }
{
    a.of == b.of && a.to == b.to && a.how == b.how
}

fn copied(link: &Link) -> Result<Link, NoMemory>
    ensures { IfOk result (λ l. l ≡ link.now) }
{
    Ok(Link {
        of: link.of.copied()?,
        to: link.to.copied()?,
        how: link.how,
    })
}
