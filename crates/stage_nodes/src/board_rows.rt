//! How a merger gets a packet from a board, all its branches' parts at once.
ghost use Rattle.std.specs.Prelude.{◌≡◌, ◌<◌, ◌≤◌, [], length, map, All, IfOk};
ghost use Rattle.std.specs.Vec.{vec_capacity};
ghost use Rattle.packet_messages.specs.Messages.{Owing, first, rest};
ghost use Rattle.stage_nodes.specs.Streams.{as_arrival};
ghost use Rattle.stage_nodes.specs.Gathering.{RowFits};

use crate::arrival::arrival_of;
use merge_ops::Arrival;
use packet_messages::{BoardInlets, Parcel};
use packet_version::Version;
use std::alloc::{AllocError, Global};
use std::marker::Model;
use std::sync::Wait;

/// A merger's seat at the board of a stage, with room for what the board returns for a packet.
#[derive(Drop)]
pub(crate) struct BoardRows {
    inlets: BoardInlets<Version>,
    parcels: Vec<Parcel<Version>>,
}

impl Model for BoardRows {
    ghost use Rattle.std.specs.Prelude.{List, length};
    ghost use Rattle.std.specs.Vec.{vec_capacity};
    ghost use Rattle.packet_version.specs.Versions.{PlainVersion};
    ghost use Rattle.packet_messages.specs.Messages.{PlainMessage};
    ghost use Rattle.stage_nodes.specs.Gathering.{IsClear};

    ghost Value = { List (List (PlainMessage PlainVersion)) };

    ghost view = { λ b. b.inlets };

    ghost invariant = { λ b. IsClear (length b.inlets) b.parcels.items (vec_capacity b.parcels) };
}

impl BoardRows {
    /// The seat, with room for a row. The only error is that memory runs out.
    pub(crate) fn new(alloc: Global, inlets: BoardInlets<Version>) -> Result<BoardRows, AllocError>
        requires some { 0 < length inlets }
        ensures { IfOk result (λ b. b ≡ inlets) }
    {
        let parcels = Vec::with_capacity(alloc, inlets.len())?;
        Ok(BoardRows { inlets, parcels })
    }

    /// The number of branches.
    pub(crate) fn len(&self) -> usize
        ensures { result ≡ length self.now }
    {
        self.inlets.len()
    }

    /// Waits until each branch has put its result for the next packet, and puts the results into the row, in branch
    /// order.
    pub(crate) fn accept_row<R: Wait>(&mut self, rt: &R, row: &mut Vec<Arrival>)
        requires owing { All Owing self.old }
        requires empty { row.old.items ≡ [] }
        requires room { length self.old ≤ vec_capacity row.old }
        ensures row { RowFits (map first self.old) row.new.items }
        ensures left { self.new ≡ map rest self.old }
    {
        self.inlets.accept_row(rt, &mut self.parcels);
        hand_over(&mut self.parcels, row);
    }
}

/// Moves each parcel into the row, as the arrival of its branch.
fn hand_over(parcels: &mut Vec<Parcel<Version>>, row: &mut Vec<Arrival>)
    requires empty { row.old.items ≡ [] }
    requires room { length parcels.old.items ≤ vec_capacity row.old }
    ensures row { row.new.items ≡ map as_arrival parcels.old.items }
    ensures emptied { parcels.new.items ≡ [] }
    ensures room { vec_capacity parcels.new ≡ vec_capacity parcels.old }
{
    for parcel in parcels.drain(..) {
        row.push_reserved(arrival_of(parcel.into_message()));
    }
}
