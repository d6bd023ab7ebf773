//! Links: what one thread puts, another takes, in the same order.
//!
//! [`link`] makes a queue for a fixed number of messages and returns its two ends. The thread that owns the [`Putter`]
//! puts messages by [`Putter::put`]; the one that owns the [`Taker`] waits for the next by [`Taker::take`], or checks
//! once whether it is there by [`Taker::try_take`]. A caller who has both ends again ends the link by [`finish`], which
//! returns the numbers of messages that were put and taken.
//!
//! A link keeps a rule, whatever the two threads do: what was put is what was taken, followed by what the link still
//! holds. So the k-th message taken is the k-th put: none is lost, doubled or overtaken.
//!
//! What is due on a link, in order, is fixed when it is made. It is a list that exists only in contracts, given by a
//! [`LinkDue`], and no running data. A message is put only if it fits the due one of its place, by [`LinkFit`], so what
//! is taken fits the due one of its place too: a thread knows what it takes, though another has put it.
//!
//! Contracts see each end as what its owner knows: what is due, and what was put or what was taken. A link never
//! refuses a message below its capacity, and only [`link`] allocates memory. A thread that waits for long sleeps in
//! between ([`pause`]), since a thread that polls all the time takes a processor from those that work.
//!
//! Left out: that a call which waits ever returns. A taker waits forever for a message that nobody puts. Nor does a
//! contract say that [`Taker::try_take`] finds a message that is there.
#![tactic(auto)]

mod ends;
mod fit;
mod laws;
mod putter;
mod rule;
mod taker;
mod waiting;

pub use ends::{Counts, finish, link};
pub use fit::{LinkDue, LinkFit};
pub use laws::due_messages_go_one_by_one;
pub use putter::Putter;
pub use taker::Taker;
pub use waiting::pause;
