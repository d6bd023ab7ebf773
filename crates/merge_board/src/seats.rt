//! The seats of a board: what a thread owns that puts or polls.
use crate::rule::View;
use atomic_table::Seat;
use std::marker::Model;

/// The seat of a branch, which puts its values. A contract sees its board and branch, what
/// is due on the board, and the numbers of the packets that it has put, the last one first.
#[derive(Drop)]
pub struct BranchSeat<T> {
    pub(crate) seat: Seat<Option<T>, View<T>>,
    pub(crate) branch: u32,
}

impl<T> Model for BranchSeat<T> {
    ghost use Rattle.merge_board.specs.Ends.{BranchEnd};
    ghost use Rattle.merge_board.specs.Kept.{IsBranch};

    ghost Value = { BranchEnd T };

    ghost view = { λ s. record { board = s.seat.table_id; branch = s.branch; due = s.seat.me.0.due; put = s.seat.me.0.pids } };

    ghost invariant = { λ s. IsBranch s.seat.table_id s.seat.me s.branch };
}

/// The seat of a merger, which polls its packets. A contract sees its board and merger, what is due on the board, the
/// numbers of the packets that it has completed, the last one first, how often it has loaded a word, and the packet and
/// the word of the last load.
#[derive(Drop)]
pub struct MergerSeat<T> {
    pub(crate) seat: Seat<Option<T>, View<T>>,
    pub(crate) merger: u32,
}

impl<T> Model for MergerSeat<T> {
    ghost use Rattle.merge_board.specs.Ends.{MergerEnd};
    ghost use Rattle.merge_board.specs.Kept.{IsMerger};

    ghost Value = { MergerEnd T };

    ghost view = { λ s. record { board = s.seat.table_id; merger = s.merger; due = s.seat.me.0.due; done = s.seat.me.0.pids; loads = s.seat.me.0.loads; pid = s.seat.me.0.pid; word = s.seat.me.0.word } };

    ghost invariant = { λ s. IsMerger s.seat.table_id s.seat.me s.merger };
}

/// All seats of a board: those of its branches and those of its mergers, each in the order of their numbers.
#[derive(Drop)]
pub struct Seats<T> {
    pub branch: Vec<BranchSeat<T>>,
    pub merger: Vec<MergerSeat<T>>,
}
