use crate::rows::Rows;
use srb_terms::NoMemory;
use std::alloc::Global;

// The names with a link to each name, and the number of links from each name.
#[derive(Drop)]
struct Counts {
    users: Vec<Vec<usize>>,
    waiting: Vec<usize>,
}

/// The indices of the rows, each one after those of the ends of its links; rows that lead into a circle are left out. It is a hint for
/// the passes that go over it: each of them looks whether the ends of a row's links have been there.
pub fn order(alloc: Global, rows: &Rows) -> Result<Vec<usize>, NoMemory> {
    let mut counts = count(alloc, rows)?;
    let mut order = Vec::new(alloc);
    'begin: for index in 0..counts.waiting.len() {
        if counts.waiting[index] == 0 {
            order.push(index)?;
        }
    }
    'turns: for turn in 0..rows.len() {
        match order.get(turn).copied() {
            None => return Ok(order),
            Some(index) => release(&mut counts, index, &mut order)?,
        }
    }
    Ok(order)
}

fn count(alloc: Global, rows: &Rows) -> Result<Counts, NoMemory> {
    let mut users = Vec::new(alloc);
    let mut waiting = Vec::new(alloc);
    'rows: for (_, row) in rows.iter() {
        users.push(Vec::new(alloc))?;
        waiting.push(row.len())?;
    }
    'names: for (index, (_, row)) in rows.iter().enumerate() {
        'links: for link in row.as_slice() {
            if let Some(end) = rows.get_index_of(&link.to) {
                if end < users.len() {
                    users[end].push(index)?;
                }
            }
        }
    }
    Ok(Counts { users, waiting })
}

// Counts the row at `index` as placed, and places each row that waited for it alone.
fn release(counts: &mut Counts, index: usize, order: &mut Vec<usize>) -> Result<(), NoMemory> {
    if index >= counts.users.len() {
        return Ok(());
    }
    let Counts { users, waiting } = counts;
    'users: for user in users[index].iter() {
        if *user < waiting.len() && waiting[*user] > 0 {
            waiting[*user] -= 1;
            if waiting[*user] == 0 {
                order.push(*user)?;
            }
        }
    }
    Ok(())
}
