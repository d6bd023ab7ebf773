//! A piece of a chain.

use graph_run::Running;
use nf_tunnel::{Decap, Encap};
use packet_function::Function;

/// A piece of a chain: functions that run in a graph, or one end of a tunnel, which rewrites each packet whole.
#[derive(Drop)]
pub enum Piece<F: Function> {
    Graph(Running<F>),
    Encap(Encap),
    Decap(Decap),
}
