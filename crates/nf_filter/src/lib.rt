//! Network functions that decide whether a packet passes, and change nothing of it.
//!
//! A [`Firewall`] is a list of rules, each with clauses on a packet's version of IP, addresses, ports, protocol, TCP
//! flags and outermost VLAN id (RFC 791, RFC 8200, RFC 793, RFC 768, IEEE 802.1Q). The first rule whose clauses are all met decides; if there is
//! none, the default decides, which is to allow unless it is set otherwise. [`Firewall::build`] makes it of the lines
//! that an operator wrote, or returns the least line that is refused. What a rule demands of IPv4 addresses is
//! determined then (`guard`), so that a step rules out most rules that a packet doesn't meet by two comparisons each.
//!
//! As a function of a chain a firewall has one meaning, `firewall_behaviour` of `specs/Firewalls.antt`: it judges by
//! what it sees, writes nothing, and doesn't change. It sees a packet through a view of a version of it
//! ([`Firewall::step`]). [`the_first_rule_that_is_met_decides`] says the same of a packet's fate without the step, and
//! that rules behind the one that is met don't count. `firewall_keeps` of `specs/FirewallLaws.antt` says that it keeps to its profile.
//!
//! A [`Signature`] is a list of patterns, each of 1 to 256 bytes. It drops a packet exactly if one of them occurs in
//! the packet's data, and writes nothing. The searchers of the patterns are made once, when the signature is built
//! ([`Signature::build`]); a step searches the bytes that the view lends ([`Signature::step`]), in one pass if the
//! patterns are many, and allocates nothing. Its meaning is `signature_behaviour` of `specs/Signatures.antt`, and
//! `signature_keeps` of `specs/SignatureLaws.antt` says that it keeps to its profile. A pattern that begins in one
//! packet and ends in another is not found: no packet is remembered.
//!
//! Which line of its declaration decides on a packet is told by [`Firewall::decide`] and [`Signature::decide`]
//! (`firewall_decides` and `signature_decides` of the same specs): the line of the first rule that is met or
//! `set default`, and the line of the first pattern that occurs. [`a_packet_is_dropped_where_the_deciding_line_denies`]
//! and [`a_packet_is_dropped_where_the_line_of_a_pattern_decides`] say that these lines do what the step does.
//!
//! Neither keeps a state, so the same function may be in several places: [`Firewall::try_clone`] and
//! [`Signature::try_clone`] return one more of it, over the same rules or patterns in memory.
#![tactic(auto)]

mod build;
mod firewall;
mod guard;
mod laws;
mod lines;
mod signature;
mod verdict;

pub use firewall::{Firewall, GuardedRule, Rule};
pub use laws::{
    a_packet_is_dropped_where_the_deciding_line_denies,
    a_packet_is_dropped_where_the_line_of_a_pattern_decides, the_first_rule_that_is_met_decides,
};
pub use signature::Signature;
