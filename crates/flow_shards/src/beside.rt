//! Runs workers, each with its shard, side by side.
ghost use Rattle.std.specs.Prelude.{◌≡◌, ◌≤◌, ◌<◌, ℕ, [], IfOk, Ok, filter, length, map, slice_index_or};
ghost use Rattle.flow_shards.specs.Flows.{counted_all};
ghost use Rattle.flow_shards.specs.Sharding.{is_own};
ghost use Rattle.flow_shards.specs.Working.{IsCounted, jobs_of};

use crate::counting::{Table, count_own};
use crate::sight::Sight;
use std::alloc::{AllocError, Global};
use std::thread;
use std::thread::Threads;

/// From this number of packets on each worker counts on a thread of its own, if one can be started: for fewer packets a
/// thread costs more than it saves.
const MANY: usize = 32_768;

/// A worker, and the lines of its shard.
#[derive(Drop)]
pub(crate) struct Job {
    worker: u32,
    table: Table,
}

/// Counts packets, each worker those of its own shard, side by side if there are many.
pub(crate) fn count_beside<R: Threads + Sync>(
    rt: &R,
    alloc: Global,
    tables: Vec<Table>,
    sights: &[Sight],
) -> Result<Vec<Table>, AllocError>
    requires some { 1 ≤ length tables.items }
    requires few { length tables.items ≤ 16 }
    ensures count { IfOk result (λ after. length after.items ≡ length tables.items) }
    ensures each { IfOk result (λ after. (k : ℕ) → k < length tables.items →
        slice_index_or after.items k [] ≡ counted_all (slice_index_or tables.items k []) (filter (is_own (length tables.items) k) sights.now)) }
{
    let workers = tables.len() as u32;
    let jobs = jobs_of(alloc, tables)?;
    let counted = run_beside(rt, alloc, jobs, workers, sights)?;
    tables_of(alloc, counted)
}

/// Counts for each worker, on a thread of its own if there are many packets and one can be started, and returns the
/// tables in the order of the workers. The only error is that memory for that runs out.
fn run_beside<R: Threads + Sync>(
    rt: &R,
    alloc: Global,
    jobs: Vec<Job>,
    workers: u32,
    sights: &[Sight],
) -> Result<Vec<Result<Table, AllocError>>, AllocError>
    requires some { 1 ≤ workers }
    requires few { workers ≤ 16 }
    ensures count { IfOk result (λ counted. length counted.items ≡ length jobs.items) }
    ensures each { IfOk result (λ counted. (k : ℕ) (d e : _) → k < length jobs.items →
        IsCounted workers sights.now (slice_index_or jobs.items k d) (slice_index_or counted.items k e)) }
{
    if sights.len() < MANY {
        return run_in_turn(alloc, jobs, workers, sights);
    }
    let run = |job: Job| -> Result<Table, AllocError>
        requires { (1 ≤ workers) × (workers ≤ 16) }
        ensures { IsCounted workers sights.entry.now job result }
    { count_own(job.table, job.worker, workers, sights) };
    thread::map_vec(rt, jobs, &run)
}

ghost use Rattle.flow_shards.specs.Working.{AreCounted};

/// Counts for one worker after another.
fn run_in_turn(
    alloc: Global,
    jobs: Vec<Job>,
    workers: u32,
    sights: &[Sight],
) -> Result<Vec<Result<Table, AllocError>>, AllocError>
    requires some { 1 ≤ workers }
    requires few { workers ≤ 16 }
    ensures { IfOk result (λ counted. AreCounted workers sights.now jobs.items counted.items) }
{
    let mut counted = Vec::new(alloc);
    'jobs: for job in jobs {
        counted.push(count_own(job.table, job.worker, workers, sights))?;
    }
    Ok(counted)
}

/// The jobs of all workers, counted from 0.
fn jobs_of(alloc: Global, tables: Vec<Table>) -> Result<Vec<Job>, AllocError>
    requires { length tables.items ≤ 16 }
    ensures { IfOk result (λ jobs. jobs.items ≡ jobs_of tables.items) }
{
    let workers = tables.len() as u32;
    let jobs = (0..workers)
        .zip(tables)
        .map(|(worker, table)| Job { worker, table });
    jobs.collect(alloc)
}

/// The lines of all shards, if no worker ran out of memory.
fn tables_of(
    alloc: Global,
    counted: Vec<Result<Table, AllocError>>,
) -> Result<Vec<Table>, AllocError>
    ensures { IfOk result (λ tables. map (λ table. Ok table) tables.items ≡ counted.items) }
{
    let mut tables = Vec::new(alloc);
    'counted: for table in counted {
        tables.push(table?)?;
    }
    Ok(tables)
}
