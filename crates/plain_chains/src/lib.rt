//! The chains of a policy, ready for packets that go through them one after another on one thread.
//!
//! [`make_plain`] takes a policy without fault, with the functions that were made when it was judged, and returns the
//! [`PlainService`]. [`PlainService::lead`] leads one packet through the chain that takes it, and adds what each
//! function did to a trace. By its contract the packet goes the way that `specs/PacketWays.antt` says, and the chains
//! are left as this way leaves them. [`packets_end_as_with_run`] says that each packet ends as in a run of the policy.
//!
//! Left out: reading a capture, and what is reported.
#![tactic(auto)]

mod chain;
mod laws;
mod part;
mod service;
mod walking;

pub use chain::PlainChain;
pub use laws::packets_end_as_with_run;
pub use service::{Led, PlainService, make_plain};
