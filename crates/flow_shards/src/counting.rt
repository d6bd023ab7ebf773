//! Counts packets into a table of lines.
ghost use Rattle.std.specs.Prelude.{◌≡◌, ◌≤◌, IfOk, OnOk, filter};
ghost use Rattle.flow_shards.specs.Flows.{with_sight, counted, counted_all};
ghost use Rattle.flow_shards.specs.Sharding.{is_own, counted_if_own};

use crate::columns::ColumnTable;
use crate::key::{key_of, shard_of};
use crate::sight::Sight;
use flow_line::FlowLine;
use nf_observe::FlowCounts;
use packet_function::FiveTuple;
use std::alloc::AllocError;

/// The lines of one shard, each with its flow, in the order of first sight.
pub(crate) type Table = ColumnTable<FiveTuple, FlowLine>;

/// Counts the packets that are of this worker's shard, in their order.
pub(crate) fn count_own(
    table: Table,
    worker: u32,
    workers: u32,
    sights: &[Sight],
) -> Result<Table, AllocError>
    requires some { 1 ≤ workers }
    requires few { workers ≤ 16 }
    ensures { IfOk result (λ after. after ≡ counted_all table (filter (is_own workers worker) sights.now)) }
{
    let mut table = table;
    'sights: for sight in sights {
        count_if_own(&mut table, worker, workers, sight)?;
    }
    Ok(table)
}

/// Counts a packet, if it is of this worker's shard.
fn count_if_own(
    table: &mut Table,
    worker: u32,
    workers: u32,
    sight: &Sight,
) -> Result<(), AllocError>
    requires some { 1 ≤ workers }
    requires few { workers ≤ 16 }
    ensures { OnOk result (table.new ≡ counted_if_own workers worker table.old sight.now) }
{
    if shard_of(&key_of(&sight.flow), workers) == worker {
        count(table, sight)?;
    }
    Ok(())
}

/// Counts a packet.
fn count(table: &mut Table, sight: &Sight) -> Result<(), AllocError>
    ensures { OnOk result (table.new ≡ counted table.old sight.now) }
{
    match table.find(&sight.flow) {
        Some((place, line)) => table.renew(&sight.flow, place, with_sight(line, sight)),
        None => {
            table.push(sight.flow, with_sight(first_line(sight), sight))?;
        }
    }
    Ok(())
}

ghost use Rattle.flow_shards.specs.Flows.{first_line};

/// The line of a flow before its first packet, which is this one, is counted.
fn first_line(sight: &Sight) -> FlowLine
    ensures { result ≡ first_line sight.now }
{
    FlowLine {
        key: key_of(&sight.flow),
        packets: 0,
        bytes: 0,
        first: sight.number,
        begun: sight.time,
        last: sight.time,
        flags: 0,
    }
}

/// A line with one more packet.
fn with_sight(line: FlowLine, sight: &Sight) -> FlowLine
    ensures { result ≡ with_sight line sight.now }
{
    let before = FlowCounts {
        packets: line.packets,
        bytes: line.bytes,
    };
    let counts = before.with_packet(sight.bytes);
    FlowLine {
        packets: counts.packets,
        bytes: counts.bytes,
        begun: line.begun.min(sight.time),
        last: line.last.max(sight.time),
        flags: line.flags | sight.flags,
        ..line
    }
}
