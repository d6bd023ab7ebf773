//! Boards: each branch of a stage puts its result for a packet there, and the packet's merger collects the results.
//!
//! [`Board::new`] makes a board for a number of packets, branches and mergers, and returns its seats: one for each
//! branch and one for each merger. Threads share the board, and each owns its seats. A branch puts its value for a
//! packet by [`Board::put`], once. A merger checks by [`Board::poll`] whether all values of a packet are there, and
//! gets them in branch order when the last of them has come. The packets are numbered from 0, and merger `i` owns those
//! whose remainder by the number of mergers is `i`. A caller who has the board and all its seats again ends it by
//! [`Board::close`].
//!
//! A board has a word for each packet, with a bit for each branch, and a slot for each packet and branch. A branch
//! fills its slot and then sets its bit by one atomic step; a merger loads the word by one atomic step, and empties the
//! slots if every bit is set. So neither call waits, takes a lock or allocates memory: only [`Board::new`] does.
//!
//! The contracts promise, whatever the threads do: no packet is complete before each branch has put its value for it,
//! none is complete twice, and it is complete only for its own merger, with one value from each branch, in branch
//! order.
//!
//! What is due on a board is fixed when it is made: for each branch a value for each packet. It is a list of lists that
//! exists only in contracts, given by a [`BoardDue`], and no running data. A value is put only if it fits the due one
//! of its branch and packet, by [`BoardFit`], so what a merger gets fits what is due: it knows what it gets, though
//! other threads have put it.
//!
//! Contracts see a board as its sizes, and a seat as what its owner knows: what is due, and the packets that it has put
//! or completed; of a merger also the number of its loads, and the packet and the word of the last. So a `None` of
//! [`Board::poll`] has a cause: the word that this call has loaded lacks a branch's bit.
//!
//! Nothing here is unproved: the crate has no unsafe code. Its atomic steps are those of `atomic_table`, which are
//! proved there; that each keeps the board's rule is proved here.
//!
//! Left out: that a packet is ever complete. A merger polls forever for a value that nobody puts. Nor does a clause say
//! that a loaded word shows a bit that another thread has just set.
#![tactic(auto)]

mod board;
mod deal;
mod fit;
mod plays;
mod rows;
mod rule;
mod seats;
mod steps;

pub use acc_table::Complete;
pub use board::Board;
pub use fit::{BoardDue, BoardFit};
pub use seats::{BranchSeat, MergerSeat, Seats};
