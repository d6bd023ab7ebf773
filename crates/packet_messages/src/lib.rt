//! Messages of packets on links and on boards. Contracts see the ends as what is still due on them.
//!
//! Threads that share the work on a stream of packets send each other a [`Message`] for each packet: the packet's part
//! on its way, in a box; or the chain position of the function that dropped the packet; or that memory ran out.
//! [`edge`] makes a link for such messages and returns its two ends. The thread that owns the [`Outlet`] gives messages
//! by [`Outlet::give`]; the one that owns the [`Inlet`] waits for the next by [`Inlet::accept`]. [`Outlets`] and
//! [`Inlets`] are several ends in order: an end that takes turns goes to the back once it was used, and a row is one
//! message for each end. [`Fans`] are several streams, each of which is shared in turn to its own outlets: a message
//! for each stream goes into the next outlet of that stream.
//!
//! The messages of several threads for each packet may also come together on a board, which is made for one taker:
//! [`board_ends`] makes one and returns the [`BoardOutlet`] of each giver, and the [`BoardInlets`] of the taker. A
//! giver puts its message of each packet, one packet after another, by [`BoardOutlet::give`]. The taker polls the board
//! by [`BoardInlets::accept_row`] until each has given its message of the next packet, and takes them as a row, in the
//! order of the givers. A [`Parcel`] is a message as a link or a board carries it.
//!
//! Contracts see a message without its box, and each end as the list of the messages that are still due on it, in
//! order; the taker at a board is seen as such a list for each giver. So an end needs no name, no capacity and no
//! history: to give the next due message leaves the rest, and to accept it leaves the rest too. A use of links works
//! over a board too, with the same contract. What is due is fixed when the link or the board is made, by a `LinkDue` of
//! `ruled_links` or a `BoardDue` of `merge_board`.
//!
//! The contracts promise: a message is given only if one is due, and only the due one or [`Message::Short`]; what is
//! accepted is the due one or `Short`. No message is lost, doubled or overtaken, since the ends are those of a link or
//! of a board under its rule. Lack of memory never stops a stream: if there is no box for a part, `Short` is sent
//! instead, and the two ends stay in step. [`edge`], [`board_ends`] and the `push` calls fail if memory runs out;
//! nothing else fails. To give never waits. That links which share a stream in turn each hold every m-th message is a
//! law, [`shares_go_in_turn`].
//!
//! Left out: that a call which waits ever returns. An inlet waits forever for a message that nobody gives.
#![tactic(auto)]

mod board_inlets;
mod board_outlet;
mod boards;
mod edges;
mod fans;
mod inlet;
mod inlets;
mod laws;
mod message;
mod outlet;
mod outlets;
mod parcel;

pub use board_inlets::BoardInlets;
pub use board_outlet::BoardOutlet;
pub use boards::board_ends;
pub use edges::edge;
pub use fans::Fans;
pub use inlet::Inlet;
pub use inlets::Inlets;
pub use laws::shares_go_in_turn;
pub use message::{Message, all_boxed, boxed, message_without};
pub use outlet::Outlet;
pub use outlets::Outlets;
pub use parcel::Parcel;
