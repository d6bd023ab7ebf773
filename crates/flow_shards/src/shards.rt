//! The shards of all workers.

use crate::beside::count_beside;
use crate::counting::Table;
use crate::sight::Sight;
use capture_bytes::Unit;
use classifier::Burst;
use flow_line::FlowLine;
use std::alloc::{AllocError, Global};
use std::marker::Model;
use std::thread::Threads;

/// The counts of flows, in a shard for each worker.
///
/// Contracts see the number of workers, the number of the last packet that was fed, and one list of lines in the order
/// of first sight, each with its flow.
#[derive(Drop)]
pub struct Shards {
    tables: Vec<Table>,
    last: u32,
}

impl Model for Shards {
    ghost use Rattle.std.specs.Prelude.{length};
    ghost use Rattle.flow_shards.specs.Sharding.{ShardsView, AreParted, in_order, flat};

    ghost Value = { ShardsView };

    ghost view = { λ s. record { workers = length s.tables.items; last = s.last; lines = in_order (flat s.tables.items) } };

    ghost invariant = { λ s. AreParted s.last s.tables.items };
}

impl Shards {
    ghost use Rattle.std.specs.Prelude.{◌≡◌, ◌≤◌, ◌<◌, [], All, IfOk, filter, length};
    ghost use Rattle.std.specs.Map.{values_of};
    ghost use Rattle.flow_line.specs.Versions.{HasFittingKey};
    ghost use Rattle.flow_shards.specs.Flows.{flows_from};
    ghost use Rattle.flow_shards.specs.Sharding.{AreRising, is_in_shard, last_of, no_flows};

    /// A shard without lines for each of this number of workers.
    pub fn new(alloc: Global, workers: u32) -> Result<Shards, AllocError>
        requires some { 1 ≤ workers }
        requires few { workers ≤ 16 }
        ensures { IfOk result (λ shards. shards ≡ no_flows workers) }
    {
        let mut tables = Vec::new(alloc);
        'workers: for _ in 0..workers {
            tables.push(Table::new(alloc))?;
        }
        Ok(Shards { tables, last: 0 })
    }

    /// Counts the packets of a burst, each worker those of its own flows. The numbers of the packets rise, and are
    /// above that of the last packet that was fed. If memory runs out, the shards are lost.
    pub fn feed<R: Threads + Sync>(
        self,
        rt: &R,
        alloc: Global,
        burst: &Burst,
        unit: Unit,
    ) -> Result<Shards, AllocError>
        requires rising { AreRising self.last burst.now.items }
        ensures workers { IfOk result (λ after. after.workers ≡ self.workers) }
        ensures last { IfOk result (λ after. after.last ≡ last_of self.last burst.now.items) }
        ensures lines { IfOk result (λ after. after.lines ≡ flows_from unit self.lines burst.now.items) }
    {
        let Shards { tables, last } = self;
        let sights = see_all(alloc, burst, unit)?;
        let tables = count_beside(rt, alloc, tables, &sights)?;
        Ok(Shards {
            tables,
            last: last_number(last, burst),
        })
    }

    /// The lines of a worker's shard, in the order of first sight.
    pub fn of(&self, worker: u32) -> &[FlowLine]
        requires { worker < self.now.workers }
        ensures shard { result.now ≡ filter (is_in_shard self.now.workers worker) (values_of self.now.lines) }
        ensures fits { All HasFittingKey result.now }
    {
        self.tables[worker as usize].values()
    }

    /// The lines of all shards, in the order of first sight.
    pub fn gather(self, alloc: Global) -> Result<Vec<FlowLine>, AllocError>
        ensures lines { IfOk result (λ lines. lines.items ≡ values_of self.lines) }
        ensures fits { IfOk result (λ lines. All HasFittingKey lines.items) }
        ensures few { IfOk result (λ lines. length lines.items ≤ self.last) }
    {
        let Shards { tables, last: _ } = self;
        let mut lines = all_lines(alloc, tables)?;
        lines.sort_by_key(|line| line.first)?;
        Ok(lines)
    }
}

ghost use Rattle.std.specs.Prelude.{◌≡◌, ◌++◌, All, IfOk, filter_map};
ghost use Rattle.std.specs.Map.{values_of};
ghost use Rattle.flow_shards.specs.Flows.{sight_of};
ghost use Rattle.flow_shards.specs.Sharding.{HasFittingFlow, flat, last_of};

/// The sights of the packets of a burst, in their order.
fn see_all(alloc: Global, burst: &Burst, unit: Unit) -> Result<Vec<Sight>, AllocError>
    ensures seen { IfOk result (λ sights. sights.items ≡ filter_map (sight_of unit) burst.now.items) }
    ensures fits { IfOk result (λ sights. All HasFittingFlow sights.items) }
{
    let mut sights = Vec::new(alloc);
    'items: for item in burst.items.as_slice() {
        if let Some(sight) = Sight::of(item, unit) {
            sights.push(sight)?;
        }
    }
    Ok(sights)
}

/// The number of the last packet of a burst, if it has one.
fn last_number(last: u32, burst: &Burst) -> u32
    ensures { result ≡ last_of last burst.now.items }
{
    let items = burst.items.as_slice();
    items.iter().fold(last, |_, item| item.number)
}

/// The lines of all shards, one shard after another. What finds the lines of a shard is freed before they are copied.
fn all_lines(alloc: Global, tables: Vec<Table>) -> Result<Vec<FlowLine>, AllocError>
    ensures { IfOk result (λ lines. lines.items ≡ values_of (flat tables.items)) }
{
    let mut lines = Vec::new(alloc);
    'tables: for table in tables {
        lines = joined(lines, table.into_values())?;
    }
    Ok(lines)
}

/// Lines after others. If there are no others, none is copied.
fn joined(lines: Vec<FlowLine>, later: Vec<FlowLine>) -> Result<Vec<FlowLine>, AllocError>
    ensures { IfOk result (λ all. all.items ≡ lines.items ++ later.items) }
{
    if lines.is_empty() {
        return Ok(later);
    }
    let mut all = lines;
    let mut later = later;
    all.append(&mut later)?;
    Ok(all)
}
