//! A policy without fault, and the graphs that were written for its chains.

use graph_compile::Graph;
use item_list::Items;
use policy_judge::Judged;

/// A policy without fault, with the graph of each of its chains for which one was written.
#[derive(Debug, Drop)]
pub struct Prepared {
    pub judged: Judged,
    pub graphs: Items<Option<Graph>>,
}
