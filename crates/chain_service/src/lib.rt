//! The service of a policy: its chains, ready for packets.
//!
//! [`make_service`] takes a policy without fault, with the functions that were made when it was judged, and returns the
//! [`Service`]: each chain as it is declared, the names of its functions in the order in which a packet goes through
//! them, the pieces into which functions that rewrite packets whole cut it, each with the graph that is compiled for
//! its functions, and the count of copies; and the table that decides which chain takes a packet. A `NamedFunction`
//! that neither keeps a state nor counts can be cloned, with its name. `policy_chains` defines the chains of a policy.
//!
//! Left out: how packets are run through the chains.
#![tactic(auto)]

mod in_graph;
mod pieces;
mod running;
mod service;

pub use pieces::ChainPieces;
pub use service::{Service, ServiceChain, make_service};

// What a chain runs, as its plan shows it, for the crates above.
pub use policy_chains::the_plan_is_what_runs;

// The pieces of chains and the ways to run them, for the crates above.
pub use segment_run::{
    MergeWay, Piece, bursts_are_counted_in_a_row, piece_grows_little, run_pieces,
};
