//! Exports lines of flows to a collector: packets of Cisco's NetFlow version 5.
//!
//! A packet has a [`Header`] of 24 bytes and from 1 to 30 records of 48 bytes ([`Record`]), each field most significant
//! byte first; `specs/Layouts.antt` lists the fields with Cisco's names. [`export`] puts the packets of all lines of
//! IPv4 into the slot Out of a desk, one after another and in the order of the lines. `specs/Exports.antt` defines the
//! value of each field. Times are milliseconds since the least time of the capture's records, and the time of the
//! export is the greatest: no clock of the machine shows in the packets. [`packets_carry_each_line_once`] says what all
//! packets together contain.
//!
//! Left out: flows of IPv6, for which version 5 has no room, and how packets are sent.
#![tactic(auto)]

mod field;
mod laws;
mod layout;
mod packets;
mod span;

pub use field::Field;
pub use laws::packets_carry_each_line_once;
pub use layout::{Header, Record};
pub use packets::export;
pub use span::Span5;
