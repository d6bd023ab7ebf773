//! A graph of stages.

use action_profile::StageParts;
use item_list::Items;

/// Functions of a chain that a packet passes one after another, beside those of other branches.
#[derive(Debug, Drop)]
pub struct Branch {
    /// The functions, by their positions in the chain, counted from 1.
    pub positions: Items<u32>,
}

/// Branches side by side.
#[derive(Debug, Drop)]
pub struct Stage {
    pub branches: Items<Branch>,
    /// What each branch gets of a packet.
    pub parts: StageParts,
}

/// The stages of a chain, which a packet passes one after another.
#[derive(Debug, Drop)]
pub struct Graph {
    pub stages: Items<Stage>,
}
