//! What the clauses of a policy see of a frame.
//!
//! [`seen`] reads the values at which clauses look off a frame: the EtherType (IEEE 802.3) and the outermost VLAN id
//! (IEEE 802.1Q), both addresses and the protocol of the header of IPv4 (RFC 791) or IPv6 (RFC 8200), both ports
//! (RFC 793, RFC 768), and TCP's control bits, each if the frame has it. `specs/Seeing.antt` defines it over the values of any fields, so that one definition covers what is
//! seen of a whole frame and of a part of it. [`frames_meet_prefixes_of_their_version`] is a consequence.
#![tactic(auto)]

mod laws;
mod seeing;

pub use laws::frames_meet_prefixes_of_their_version;
pub use seeing::{seen, seen_address, seen_address6, seen_ip_address, seen_port, seen_tags};
