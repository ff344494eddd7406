//! Items that threads hand over.

ghost use Rattle.std.specs.Prelude.{◌≡◌, ◌<◌, ◌≤◌, ◌+◌, Some, IfOk};

use run_queues::{Item, ResPass, Results, Right};
use srb_terms::{Diag, Items, NoMemory, Span, Words};
use std::alloc::Global;
use std::sync::Wait;
use std::thread::{Threads, join_mut};

// A view by which an item is right where its number is below a bound.
#[derive(Drop)]
struct Below {
    bound: u64,
}

impl Right for Below {
    ghost use Rattle.std.specs.Prelude.{◌<◌};

    ghost right = { λ view item. item.number < view.bound };
}

// The item with this number, and with one error.
fn item(alloc: Global, number: u64) -> Result<Item, NoMemory>
    ensures { IfOk result (λ i. i.number ≡ number) }
{
    let mut list = Items::new(alloc);
    list.push(Diag {
        span: Span { start: 1, end: 2 },
        number: 7007,
        text: Words::from_str(alloc, "found")?,
    })?;
    Ok(Item { number, list })
}

// Puts the item with this number, and answers the number of the item that came back.
fn give<R: Wait>(
    rt: &R,
    alloc: Global,
    results: &Results<Below>,
    pass: &mut ResPass<Below>,
    number: u64,
) -> Result<Option<u64>, NoMemory>
    requires queue { pass.old.queue ≡ results.now.name }
    requires view { pass.old.view ≡ Some (record { bound = 10 }) }
    requires number { number < 10 }
    requires left { 0 < pass.old.left }
    ensures same { (pass.new.queue ≡ pass.old.queue) × (pass.new.view ≡ pass.old.view) }
    ensures left { pass.old.left ≤ pass.new.left + 1 }
{
    let given = item(alloc, number)?;
    match results.put(rt, pass, given) {
        Ok(()) => Ok(None),
        Err(back) => Ok(Some(back.number)),
    }
}

// Takes an item, and answers its number.
fn next<R: Wait>(rt: &R, results: &Results<Below>, pass: &mut ResPass<Below>) -> Option<u64>
    requires queue { pass.old.queue ≡ results.now.name }
    requires left { 0 < pass.old.left }
    ensures same { (pass.new.queue ≡ pass.old.queue) × (pass.new.view ≡ pass.old.view) }
    ensures left { pass.old.left ≤ pass.new.left + 1 }
{
    match results.take(rt, pass) {
        Some(item) => Some(item.number),
        None => None,
    }
}

#[test]
fn items_come_out_in_order(rt: HostRuntime) -> Result<(), NoMemory> {
    let alloc = rt.alloc();
    let (results, mut pass) = Results::new(alloc, 3, Below { bound: 10 })?;
    assert_eq!(rt; next(&rt, &results, &mut pass), None);
    assert_eq!(rt; give(&rt, alloc, &results, &mut pass, 7)?, None);
    assert_eq!(rt; give(&rt, alloc, &results, &mut pass, 2)?, None);
    assert_eq!(rt; give(&rt, alloc, &results, &mut pass, 5)?, None);
    assert_eq!(rt; next(&rt, &results, &mut pass), Some(7));
    assert_eq!(rt; next(&rt, &results, &mut pass), Some(2));
    assert_eq!(rt; next(&rt, &results, &mut pass), Some(5));
    assert_eq!(rt; next(&rt, &results, &mut pass), None);
    Ok(())
}

#[test]
fn a_full_queue_gives_the_item_back(rt: HostRuntime) -> Result<(), NoMemory> {
    let alloc = rt.alloc();
    let (results, mut pass) = Results::new(alloc, 2, Below { bound: 10 })?;
    assert_eq!(rt; give(&rt, alloc, &results, &mut pass, 7)?, None);
    assert_eq!(rt; give(&rt, alloc, &results, &mut pass, 2)?, None);
    assert_eq!(rt; give(&rt, alloc, &results, &mut pass, 5)?, Some(5));
    assert_eq!(rt; next(&rt, &results, &mut pass), Some(7));
    assert_eq!(rt; give(&rt, alloc, &results, &mut pass, 5)?, None);
    match results.take(&rt, &mut pass) {
        Some(item) => {
            assert_eq!(rt; item.number, 2);
            assert_eq!(rt; item.list.len(), 1);
            assert!(rt; item.list.as_slice()[0].text.as_str() == "found");
        }
        None => assert!(rt; false),
    }
    Ok(())
}

// A pass that is split and joined is as it was.
fn split_and_joined<R>(
    rt: &R,
    alloc: Global,
    results: &Results<Below>,
    pass: &mut ResPass<Below>,
) -> Result<(), NoMemory>
    requires { pass.old.queue ≡ results.now.name }
    ensures { pass.new ≡ pass.old }
{
    let other = results.split(rt, alloc, pass)?;
    results.join(rt, pass, other);
    Ok(())
}

#[test]
fn a_pass_is_split_and_joined(rt: HostRuntime) -> Result<(), NoMemory> {
    let alloc = rt.alloc();
    let (results, mut pass) = Results::new(alloc, 2, Below { bound: 10 })?;
    split_and_joined(&rt, alloc, &results, &mut pass)?;
    let mut other = results.split(&rt, alloc, &mut pass)?;
    assert_eq!(rt; give(&rt, alloc, &results, &mut other, 7)?, None);
    assert_eq!(rt; next(&rt, &results, &mut pass), Some(7));
    results.join(&rt, &mut pass, other);
    assert_eq!(rt; next(&rt, &results, &mut pass), None);
    Ok(())
}

// Puts five items, whose numbers begin with `first`, and answers how many came back.
fn give_five<R: Wait>(
    rt: &R,
    alloc: Global,
    results: &Results<Below>,
    pass: &mut ResPass<Below>,
    first: u64,
) -> Result<u64, NoMemory>
    requires queue { pass.old.queue ≡ results.now.name }
    requires view { pass.old.view ≡ Some (record { bound = 10 }) }
    requires first { first ≤ 5 }
    requires left { 5 ≤ pass.old.left }
    ensures same { (pass.new.queue ≡ pass.old.queue) × (pass.new.view ≡ pass.old.view) }
    ensures left { pass.old.left ≤ pass.new.left + 5 }
{
    let mut back = 0;
    for number in first..first + 5 {
        if give(rt, alloc, results, pass, number)?.is_some() {
            back += 1;
        }
    }
    Ok(back)
}

// Puts five items in each of two threads, and answers how many came back.
fn give_in_two_threads<R: Threads + Wait + Sync>(
    rt: &R,
    alloc: Global,
    results: &Results<Below>,
    pass: &mut ResPass<Below>,
) -> Result<(u64, u64), NoMemory>
    requires queue { pass.old.queue ≡ results.now.name }
    requires view { pass.old.view ≡ Some (record { bound = 10 }) }
    requires left { 100 ≤ pass.old.left }
    ensures same { pass.new.queue ≡ pass.old.queue }
    ensures left { 20 ≤ pass.new.left }
{
    let mut other = results.split(rt, alloc, pass)?;
    let (a, b) = join_mut(
        rt,
        &mut || give_five(rt, alloc, results, pass, 0),
        &mut || give_five(rt, alloc, results, &mut other, 5),
    );
    results.join(rt, pass, other);
    Ok((a?, b?))
}

// Takes ten items, and answers how often each number came.
fn times_taken<R: Wait>(rt: &R, results: &Results<Below>, pass: &mut ResPass<Below>) -> [u8; 10]
    requires queue { pass.old.queue ≡ results.now.name }
    requires left { 20 ≤ pass.old.left }
    ensures same { pass.new.queue ≡ pass.old.queue }
    ensures left { 10 ≤ pass.new.left }
{
    let mut times = [0u8; 10];
    for _round in 0..10u64 {
        if let Some(number) = next(rt, results, pass) {
            let at = (number % 10) as usize;
            times[at] = times[at].wrapping_add(1);
        }
    }
    times
}

#[test]
fn two_threads_give_each_item_once(rt: HostRuntime) -> Result<(), NoMemory> {
    let alloc = rt.alloc();
    let (results, mut pass) = Results::new(alloc, 10, Below { bound: 10 })?;
    assert_eq!(rt;
        give_in_two_threads(&rt, alloc, &results, &mut pass)?,
        (0, 0)
    );
    assert!(rt; times_taken(&rt, &results, &mut pass) == [1; 10]);
    assert_eq!(rt; next(&rt, &results, &mut pass), None);
    Ok(())
}

fn is_shared<T: Sync>() {}

fn is_sent<T: Send>() {}

// Threads may share the queue of any view that may be sent, and each may be given a pass.
fn is_for_threads<W: Right + Send>() {
    is_shared::<Results<W>>();
    is_sent::<Results<W>>();
    is_sent::<ResPass<W>>();
}

#[test]
fn threads_may_share_the_queue() {
    is_for_threads::<Below>();
}
