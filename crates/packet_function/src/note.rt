//! What a function that counts notes of a packet.

use crate::flow::FiveTuple;

/// A packet as a function that counts notes it, before it is known whether the packet counts.
#[derive(Clone, Copy, Debug)]
pub struct FlowNote {
    pub flow: FiveTuple,
    /// IPv4's total length in bytes (RFC 791, 3.1), or 40 more than IPv6's payload length (RFC 8200, 3).
    pub bytes: u16,
}
