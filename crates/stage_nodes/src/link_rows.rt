//! How a merger gets a packet over links, from one branch after another.
ghost use Rattle.std.specs.Prelude.{◌≡◌, ◌<◌, ◌≤◌, ◌++◌, ◌∷◌, [], List, length, map, All, IfOk};
ghost use Rattle.std.specs.Vec.{vec_capacity};
ghost use Rattle.merge_ops.specs.declared.arrival.Arrival.{Arrival};
ghost use Rattle.packet_messages.specs.Messages.{Owing, first, rest};
ghost use Rattle.stage_nodes.specs.Gathering.{IsGathering, IsReady, MayCome, RowFits};

use crate::arrival::arrival_of;
use acc_table::{AccTable, open_packets_take_a_place_each};
use merge_ops::Arrival;
use packet_messages::Inlets;
use packet_version::Version;
use std::alloc::{AllocError, Global};
use std::marker::Model;
use std::sync::Wait;

/// The links from the branches of a stage to a merger, with the table of the results that came over them. The table has
/// a place for one packet, and is idle between packets.
#[derive(Drop)]
pub(crate) struct LinkRows {
    inlets: Inlets<Version>,
    table: AccTable<Arrival>,
}

impl Model for LinkRows {
    ghost use Rattle.std.specs.Prelude.{List, length};
    ghost use Rattle.packet_version.specs.Versions.{PlainVersion};
    ghost use Rattle.packet_messages.specs.Messages.{PlainMessage};
    ghost use Rattle.stage_nodes.specs.Gathering.{IsReady};

    ghost Value = { List (List (PlainMessage PlainVersion)) };

    ghost view = { λ l. l.inlets };

    ghost invariant = { λ l. IsReady l.table (length l.inlets) };
}

impl LinkRows {
    /// The links of these inlets, with a table for them. The only error is that memory runs out.
    pub(crate) fn new(alloc: Global, inlets: Inlets<Version>) -> Result<LinkRows, AllocError>
        requires some { 0 < length inlets }
        requires few { length inlets ≤ 64 }
        ensures { IfOk result (λ l. l ≡ inlets) }
    {
        let branches = inlets.len() as u32;
        // One packet is open at a time.
        let table = AccTable::with_room(alloc, 1, branches)?;
        Ok(LinkRows { inlets, table })
    }

    /// The number of branches.
    pub(crate) fn len(&self) -> usize
        ensures { result ≡ length self.now }
    {
        self.inlets.len()
    }

    /// Waits for the result of each branch for a packet, and puts the results into the row, in branch order.
    pub(crate) fn accept_row<R: Wait>(&mut self, rt: &R, packet: u32, row: &mut Vec<Arrival>)
        requires owing { All Owing self.old }
        requires empty { row.old.items ≡ [] }
        requires room { length self.old ≤ vec_capacity row.old }
        ensures row { RowFits (map first self.old) row.new.items }
        ensures left { self.new ≡ map rest self.old }
    {
        gather(rt, &mut self.table, packet, &mut self.inlets, row);
    }
}

/// Puts the results for a packet into the table, from one branch after another. Then all its arrivals are in the row,
/// in branch order, and the table is idle again.
fn gather<R: Wait>(
    rt: &R,
    table: &mut AccTable<Arrival>,
    packet: u32,
    inlets: &mut Inlets<Version>,
    row: &mut Vec<Arrival>,
)
    requires ready { IsReady table.old (length inlets.old) }
    requires owing { All Owing inlets.old }
    requires empty { row.old.items ≡ [] }
    requires room { length inlets.old ≤ vec_capacity row.old }
    ensures row { RowFits (map first inlets.old) row.new.items }
    ensures left { inlets.new ≡ map rest inlets.old }
    ensures ready { IsReady table.new (length inlets.new) }
{
    for branch in 0..inlets.len() {
        let arrival = arrival_of(inlets.accept_at(rt, branch));
        arrive(table, packet, branch as u32, arrival, row);
    }
}

/// Puts the arrival of a branch into the table. With the last one of its packet all of them are moved into the row.
fn arrive(
    table: &mut AccTable<Arrival>,
    packet: u32,
    branch: u32,
    arrival: Arrival,
    row: &mut Vec<Arrival>,
)
    requires may { (come : List Arrival) × MayCome come table.old packet branch row.old.items }
    requires room { table.old.branches ≤ vec_capacity row.old }
    ensures come { (come : List Arrival) → MayCome come table.old packet branch row.old.items →
        IsGathering (come ++ arrival ∷ []) table.new packet row.new.items }
    ensures branches { table.new.branches ≡ table.old.branches }
    ensures room { vec_capacity row.old ≤ vec_capacity row.new }
{
    open_packets_take_a_place_each::<Arrival>();
    let _ = table.arrive(packet, branch, arrival, row);
}
