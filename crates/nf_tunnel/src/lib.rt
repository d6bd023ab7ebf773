//! Tunnels of IP in IP (RFC 2003): the two functions that rewrite a packet whole.
//!
//! An [`Encap`] is at a tunnel's entry. It puts each IPv4 packet into another one, so that the network between carries
//! it to the tunnel's exit whatever its own addresses are: before its IP header comes an outer one, with the entry as
//! source and the exit as destination. A [`Decap`] is at the exit and removes the outer header of such a packet. Any
//! other frame passes both of them unchanged: one whose header isn't captured whole, one whose length would no longer
//! fit into 16 bits, or, at the exit, a fragment or a packet for another destination.
//!
//! [`Encap::build`] and [`Decap::build`] make them of the lines that an operator wrote, or return the least line that
//! is refused (`specs/TunnelLines.antt`, `specs/Ends.antt`).
//!
//! The contracts promise that a step gives `encapsulated` and `decapsulated` of `specs/Tunnels.antt`, over the outer
//! header of `specs/OuterHeaders.antt`; `packet_fields` defines where the IP header lies. An entry allocates memory for
//! the longer frame, and only if the packet goes in; an exit allocates nothing. Stated without these definitions:
//! [`an_exit_undoes_its_entry`] says that a tunnel leaves no trace, [`the_outer_checksum_is_right`] that the outer
//! header is right by the sum of RFC 1071, [`the_outer_header_is_seen`] what the functions after an entry see, and
//! [`an_entry_adds_twenty_bytes`] and [`an_exit_takes_twenty_bytes_or_more`] how long a frame becomes, and that the
//! addresses and tags before its IP header stay.
//!
//! Left out: IPv6, inside and outside. Fragments: a packet that becomes too long for a link is neither cut nor reported
//! by ICMP (RFC 2003, 5.1). The inner time to live, which RFC 2003, 3.1, requires the entry to reduce by one: a hop
//! does that. Options of the inner header are kept in it and not copied to the outer one, and an ICMP message about a
//! packet from inside the tunnel isn't sent on (RFC 2003, 4).
#![tactic(auto)]

mod address;
mod decap;
mod encap;
mod ipv4;
mod laws;

pub use decap::Decap;
pub use encap::Encap;
pub use laws::{
    an_entry_adds_twenty_bytes, an_exit_takes_twenty_bytes_or_more, an_exit_undoes_its_entry,
    the_outer_checksum_is_right, the_outer_header_is_seen,
};
