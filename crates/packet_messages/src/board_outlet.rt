//! The seat of a branch at a board, into which it gives its message of each packet.
ghost use Rattle.std.specs.Prelude.{◌≡◌, ◌<◌, ◌≤◌, length, IfOk};
ghost use Rattle.std.specs.Arc.{arc_value};
ghost use Rattle.packet_messages.specs.Messages.{Fits, Owing, first, plain, rest};
ghost use Rattle.packet_messages.specs.BoardRows.{row_of};
ghost use Rattle.packet_messages.specs.BoardSeats.{IsGiving};

use crate::message::Message;
use crate::parcel::Parcel;
use merge_board::{Board, BranchSeat};
use std::marker::Model;
use std::sync::Arc;

/// The seat of a branch at a board: its messages for the packets, one after another. Contracts see it as the messages
/// that are still due from this branch.
#[derive(Drop)]
pub struct BoardOutlet<P> {
    board: Arc<Board<Parcel<P>>>,
    seat: BranchSeat<Parcel<P>>,
    next: u32,
}

impl<P> Model for BoardOutlet<P> {
    ghost use Rattle.std.specs.Prelude.{List, drop};
    ghost use Rattle.std.specs.Arc.{arc_value};
    ghost use Rattle.packet_messages.specs.Messages.{PlainMessage};
    ghost use Rattle.packet_messages.specs.BoardRows.{row_of};
    ghost use Rattle.packet_messages.specs.BoardSeats.{IsGiving};

    ghost Value = { List (PlainMessage P) };

    ghost view = { λ o. drop o.next (row_of o.seat.due o.seat.branch) };

    ghost invariant = { λ o. IsGiving (arc_value o.board) o.seat o.next };
}

// The outlet of a seat that has put nothing.
pub(crate) fn outlet_of<P>(
    board: Arc<Board<Parcel<P>>>,
    seat: BranchSeat<Parcel<P>>,
) -> BoardOutlet<P>
    requires { IsGiving (arc_value board) seat 0 }
    ensures { result ≡ row_of seat.due seat.branch }
{
    BoardOutlet {
        board,
        seat,
        next: 0,
    }
}

impl<P> BoardOutlet<P> {
    /// Gives the message of the next packet. It neither waits nor allocates memory, and never fails.
    pub fn give(&mut self, message: Message<P>)
        requires due { Owing self.old }
        requires fits { Fits (first self.old) (plain message) }
        ensures { self.new ≡ rest self.old }
    {
        self.board
            .put(&mut self.seat, self.next, Parcel::new(message));
        self.next += 1;
    }
}
