//! How a packet ends.

use packet_fields::Frame;

/// How a packet ends.
#[derive(Drop)]
pub enum Fate {
    /// It passed the whole chain, and this is its frame.
    Out(Frame),
    /// The function at this position of the chain dropped it. Positions are counted from 1.
    Gone(u32),
}
