//! The items of a capture, one after another.

use capture_bytes::PcapRecord;

/// The next item of a capture: a packet, or a block that isn't a packet and is written in its place.
#[derive(Drop)]
pub enum Given<X, B> {
    /// A packet's record, and what the format says of the packet besides.
    Packet(PcapRecord, X),
    /// Another block.
    Block(B),
}
