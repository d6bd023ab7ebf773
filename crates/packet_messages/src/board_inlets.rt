//! The seat of the merger at a board, from which it takes a row of messages for each packet.
ghost use Rattle.std.specs.Prelude.{◌≡◌, ◌<◌, ◌≤◌, [], length, map, All, IsTrue, IsFalse};
ghost use Rattle.std.specs.Vec.{vec_capacity};
ghost use Rattle.std.specs.Arc.{arc_value};
ghost use Rattle.packet_messages.specs.Messages.{AllFit, Owing, first, rest};
ghost use Rattle.packet_messages.specs.BoardRows.{each_rest};
ghost use Rattle.packet_messages.specs.BoardSeats.{IsTaking};

use crate::parcel::Parcel;
use crossbeam_utils::Backoff;
use merge_board::{Board, MergerSeat};
use ruled_links::pause;
use std::marker::Model;
use std::sync::{Arc, Wait};

/// The seat of the merger at a board: the messages of the branches for its packets, one packet after another. Contracts
/// see it as the messages that are still due from each branch.
#[derive(Drop)]
pub struct BoardInlets<P> {
    board: Arc<Board<Parcel<P>>>,
    seat: MergerSeat<Parcel<P>>,
    branches: u32,
    next: u32,
}

impl<P> Model for BoardInlets<P> {
    ghost use Rattle.std.specs.Prelude.{List};
    ghost use Rattle.std.specs.Arc.{arc_value};
    ghost use Rattle.packet_messages.specs.Messages.{PlainMessage};
    ghost use Rattle.packet_messages.specs.BoardRows.{each_rest};
    ghost use Rattle.packet_messages.specs.BoardSeats.{IsTaking};

    ghost Value = { List (List (PlainMessage P)) };

    ghost view = { λ i. each_rest i.next i.seat.due };

    ghost invariant = { λ i. IsTaking (arc_value i.board) i.seat i.branches i.next };
}

// The inlets of a seat that has taken nothing.
pub(crate) fn inlets_of<P>(
    board: Arc<Board<Parcel<P>>>,
    seat: MergerSeat<Parcel<P>>,
    branches: u32,
) -> BoardInlets<P>
    requires { IsTaking (arc_value board) seat branches 0 }
    ensures { result ≡ seat.due }
{
    BoardInlets {
        board,
        seat,
        branches,
        next: 0,
    }
}

impl<P> BoardInlets<P> {
    /// The number of branches.
    pub fn len(&self) -> usize
        ensures { result ≡ length self.now }
    {
        self.branches as usize
    }

    /// Waits until every branch has given its message of the next packet, and takes them into `row`, in the order of
    /// the branches. It allocates nothing, and pauses between two checks.
    pub fn accept_row<R: Wait>(&mut self, rt: &R, row: &mut Vec<Parcel<P>>)
        requires some { 0 < length self.old }
        requires owing { All Owing self.old }
        requires empty { row.old.items ≡ [] }
        requires room { length self.old ≤ vec_capacity row.old }
        ensures fits { AllFit (map first self.old) row.new.items }
        ensures left { self.new ≡ map rest self.old }
        ensures room { vec_capacity row.new ≡ vec_capacity row.old }
    {
        let backoff = Backoff::new();
        for _ in rt.forever() {
            if self.look(row) {
                return;
            }
            pause(rt, &backoff);
        }
        unreachable!()
    }

    // Checks once whether every branch has given its message of the next packet, and takes them if so.
    fn look(&mut self, row: &mut Vec<Parcel<P>>) -> bool
        requires some { 0 < length self.old }
        requires owing { All Owing self.old }
        requires empty { row.old.items ≡ [] }
        requires room { length self.old ≤ vec_capacity row.old }
        ensures fits { IsTrue result → AllFit (map first self.old) row.new.items }
        ensures left { IsTrue result → self.new ≡ map rest self.old }
        ensures same { IsFalse result → self.new ≡ self.old }
        ensures empty { IsFalse result → row.new.items ≡ [] }
        ensures room { vec_capacity row.new ≡ vec_capacity row.old }
    {
        if self.board.poll(&mut self.seat, self.next, row).is_none() {
            return false;
        }
        self.next += 1;
        true
    }
}
