//! The sequential model of several chains: each packet of a capture walks through the chain that takes it.
//!
//! This is the model of `piece_walk` for a service of several chains (`specs/Service.antt`). A packet comes with the
//! chain that takes it. It goes through that chain's pieces as the packet before left them, the pieces of the other
//! chains never see it, and a packet that no chain takes passes unchanged. How a chain is chosen is not part of the
//! model.
//!
//! [`chains_walk_apart`] says that a chain's packets end as if there were no other chain; [`packets_pass_in_a_row`]
//! that packets in two lots end as in one; by [`fates_are_woven`] a burst may be run chain by chain.
#![tactic(auto)]

mod laws;

pub use laws::{chains_walk_apart, fates_are_woven, packets_pass_in_a_row};
