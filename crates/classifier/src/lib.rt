//! Packets on their way to the chains: which chain takes each, their numbers, and their bursts.
//!
//! A [`ClassTable`] decides which chain takes a packet: the first, in the order of the policy, whose clauses the frame
//! meets, as it was read, and none if it meets those of no chain ([`class_is_the_first`]).
//!
//! A [`Cutter`] takes one packet after another, with the chain that takes it, numbers them from 1, and returns a
//! [`Burst`] whenever one is full: with the set number of packets, or once [`BURST_BYTES`] bytes of its packets were
//! captured. Contracts see a cutter as its limit, the number of packets added, and the items of its open burst.
//!
//! A list of packets is cut in the same way. By the law [`bursts_are_the_packets_in_a_row`], the bursts in a row,
//! followed by the open one, are the packets in a row, numbered from 1 ([`numbered_in_order`]). [`cutting_goes_on`]
//! relates the cutting of a list to the work of a cutter, packet by packet.
//!
//! A cutter doesn't use the table: the caller passes the chain of each packet.
//!
//! Left out: what a chain does with its packets.
#![tactic(auto)]

mod burst;
mod class_table;
mod cutter;
mod laws;

pub use burst::{Burst, Item};
pub use class_table::ClassTable;
pub use cutter::{BURST_BYTES, BURST_LIMIT, Cutter};
pub use laws::{
    bursts_are_the_packets_in_a_row, class_is_the_first, cutting_goes_on, numbered_in_order,
};
