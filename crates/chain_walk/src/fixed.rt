//! The values of a packet that no function writes.

/// What every function of a chain sees of a packet, and none writes.
#[derive(Clone, Copy, Debug, PartialEq, Eq)]
pub struct Fixed {
    /// When the packet was captured, in nanoseconds.
    pub time: u64,
    /// The EtherType (IEEE 802.3, 3.2.6).
    pub ether_type: Option<u16>,
    /// The protocol of the IPv4 header (RFC 791, 3.1), or the next header of the IPv6 header (RFC 8200, 3).
    pub proto: Option<u8>,
    /// The bytes of the IP header and of what its length counts after it: IPv4's total length (RFC 791, 3.1), or 40
    /// more than IPv6's payload length (RFC 8200, 3).
    pub ip_len: Option<u16>,
    /// The TCP header's byte of control bits (RFC 793, 3.1).
    pub tcp_flags: Option<u8>,
}
