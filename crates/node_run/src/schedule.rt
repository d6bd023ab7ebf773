//! When the nodes of a run are at work.

/// When the nodes of a run are at work.
#[derive(Clone, Copy, PartialEq, Eq, Debug)]
pub enum Schedule {
    /// All at the same time, each at a packet of its own.
    AtOnce,
    /// The branches of a stage side by side with all packets, then its mergers, then the dealer of the next stage:
    /// each group is joined before the next begins.
    InTurn,
}
