//! Runs the packets of a burst through the chains of a service.
//!
//! [`walk_burst`] runs each packet of a burst through the chain that takes it, chain by chain, and returns the fate of
//! each, in the packets' order, and the chains as the last packet left them: as if each packet had walked through its
//! chain after the packets before it. `policy_chains` defines the fates of the packets of a capture.
//!
//! Left out: what is written of them.
#![tactic(auto)]

mod lead;
mod merging;
mod tunnels;
mod walk;
mod weave;

pub use merging::{Mergers, Merging};
pub use walk::walk_burst;

// The service, for the crates above.
pub use chain_service::{
    MergeWay, Piece, Service, ServiceChain, bursts_are_counted_in_a_row, make_service,
};
pub use policy_chains::NamedFunction;
