//! What findings on odd policies are worth for packets.
//!
//! `policy_lint` reads the lines of a policy by itself, and says in the words of these lines what each finding means. The laws here
//! stand on that reading and on the functions that are made of the same lines, if none of the lines is refused.
//!
//! Functions are made as findings read them: a firewall with these rules and this default ([`firewalls_are_made_as_read`]), markers,
//! taggers and nexthops with rules of these clauses ([`rules_are_made_as_read`]), and the other kinds with what is
//! read of their lines ([`nats_are_made_as_read`], [`virtual_addresses_are_made_as_read`], [`ends_are_made_as_read`],
//! [`bursts_are_made_as_read`], [`patterns_are_made_as_read`]). A reading of `allow` as `deny` contradicts the first of these laws.
//!
//! So findings hold of packets ([`findings_are_so_of_packets`]). A rule that one before it covers may go: without its line the
//! function decides and writes the same, and so each packet ends the same ([`alike_functions_walk_alike`]). A firewall that is said
//! to drop every packet, or none, does so, and functions behind one that drops every packet stay as they were
//! ([`functions_behind_stay`]).
//!
//! Not said of packets is what the other findings mean. There is no code here.
#![tactic(auto)]

mod laws;

pub use laws::{
    alike_functions_walk_alike, bursts_are_made_as_read, ends_are_made_as_read,
    findings_are_so_of_packets, firewalls_are_made_as_read, functions_behind_stay,
    nats_are_made_as_read, patterns_are_made_as_read, rules_are_made_as_read,
    virtual_addresses_are_made_as_read,
};
