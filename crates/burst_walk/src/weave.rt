//! The fates of a burst's packets in their order, put together from those of each chain.
ghost use Rattle.std.specs.Prelude.{◌≡◌, ◌<◌, All, IfOk, IfSome, length, map};
ghost use Rattle.service_walk.specs.Weaving.{fates_left, next_fate, woven};
ghost use Rattle.burst_walk.specs.Leading.{IsWritable};

use chain_walk::Fate;
use classifier::Item;
use std::alloc::{AllocError, Global};
use std::vec::IntoIter;

/// Gives each packet the next fate of the chain that takes it, and `None` if no chain does.
pub fn weave(
    alloc: Global,
    items: &[Item],
    rows: Vec<Vec<Fate>>,
) -> Result<Vec<Option<Fate>>, AllocError>
    requires classes { All (λ i. IfSome i.class (λ chain. chain < length rows.items)) items.now }
    requires writable { All (λ v. All IsWritable v.items) rows.items }
    ensures woven { IfOk result (λ fates. fates.items ≡ woven (map (λ i. i.class) items.now) (map (λ v. v.items) rows.items)) }
    ensures writable { IfOk result (λ fates. All (λ o. IfSome o IsWritable) fates.items) }
{
    let mut rows = queues(alloc, rows)?;
    let mut fates = Vec::new(alloc);
    'items: for item in items {
        fates.push(next_fate(&mut rows, item.class))?;
    }
    Ok(fates)
}

// The rows as queues, so that fates can be taken from their fronts.
fn queues(alloc: Global, rows: Vec<Vec<Fate>>) -> Result<Vec<IntoIter<Fate>>, AllocError>
    ensures { IfOk result (λ queues. map (λ q. q.rest.items) queues.items ≡ map (λ v. v.items) rows.items) }
{
    let mut queues = Vec::new(alloc);
    'rows: for row in rows {
        queues.push(row.into_iter())?;
    }
    Ok(queues)
}

// The next fate of this chain's packets, which is removed from the queue.
fn next_fate(rows: &mut [IntoIter<Fate>], class: Option<u32>) -> Option<Fate>
    requires { IfSome class (λ chain. chain < length rows.old) }
    ensures next { result ≡ next_fate (map (λ q. q.rest.items) rows.old) class }
    ensures left { map (λ q. q.rest.items) rows.new ≡ fates_left (map (λ q. q.rest.items) rows.old) class }
{
    rows[class? as usize].next()
}
