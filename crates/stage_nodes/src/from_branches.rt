//! Where a merger takes the results of the branches of its stage.
ghost use Rattle.std.specs.Prelude.{◌≡◌, ◌<◌, ◌≤◌, [], length, map, All, IfOk};
ghost use Rattle.std.specs.Vec.{vec_capacity};
ghost use Rattle.packet_messages.specs.Messages.{Owing, first, rest};
ghost use Rattle.stage_nodes.specs.Gathering.{RowFits};

use crate::board_rows::BoardRows;
use crate::link_rows::LinkRows;
use merge_ops::Arrival;
use packet_messages::{BoardInlets, Inlets};
use packet_version::Version;
use std::alloc::{AllocError, Global};
use std::marker::Model;
use std::sync::Wait;

/// How the results of branches get to a merger.
#[derive(Drop)]
pub(crate) enum Inward {
    Links(LinkRows),
    Board(BoardRows),
}

/// Where a merger takes the results of the branches of its stage: over a link from each, or from the merger's board.
/// Contracts see what is still due from each branch, in branch order.
#[derive(Drop)]
pub struct FromBranches {
    inward: Inward,
}

impl Model for FromBranches {
    ghost use Rattle.std.specs.Prelude.{List};
    ghost use Rattle.packet_version.specs.Versions.{PlainVersion};
    ghost use Rattle.packet_messages.specs.Messages.{PlainMessage};
    ghost use Rattle.stage_nodes.specs.Meetings.{due_inward};

    ghost Value = { List (List (PlainMessage PlainVersion)) };

    ghost view = { λ f. due_inward f.inward };
}

impl FromBranches {
    /// A link from each branch, in branch order, and a table for what comes over them. The only error is that memory
    /// runs out.
    pub fn of_links(alloc: Global, inlets: Inlets<Version>) -> Result<FromBranches, AllocError>
        requires some { 0 < length inlets }
        requires few { length inlets ≤ 64 }
        ensures { IfOk result (λ f. f ≡ inlets) }
    {
        let rows = LinkRows::new(alloc, inlets)?;
        Ok(FromBranches {
            inward: Inward::Links(rows),
        })
    }

    /// The merger's seat at its board, and room for what the board returns for a packet. The only error is that memory
    /// runs out.
    pub fn of_board(alloc: Global, inlets: BoardInlets<Version>) -> Result<FromBranches, AllocError>
        requires some { 0 < length inlets }
        ensures { IfOk result (λ f. f ≡ inlets) }
    {
        let rows = BoardRows::new(alloc, inlets)?;
        Ok(FromBranches {
            inward: Inward::Board(rows),
        })
    }

    /// The number of branches.
    pub fn len(&self) -> usize
        ensures { result ≡ length self.now }
    {
        match &self.inward {
            Inward::Links(rows) => rows.len(),
            Inward::Board(rows) => rows.len(),
        }
    }

    /// Waits for the results of each branch for the packet that has this number here, and puts them into the row, in
    /// branch order. It allocates nothing.
    pub fn accept_row<R: Wait>(&mut self, rt: &R, packet: u32, row: &mut Vec<Arrival>)
        requires owing { All Owing self.old }
        requires empty { row.old.items ≡ [] }
        requires room { length self.old ≤ vec_capacity row.old }
        ensures row { RowFits (map first self.old) row.new.items }
        ensures left { self.new ≡ map rest self.old }
    {
        match &mut self.inward {
            Inward::Links(rows) => rows.accept_row(rt, packet, row),
            Inward::Board(rows) => rows.accept_row(rt, row),
        }
    }
}
