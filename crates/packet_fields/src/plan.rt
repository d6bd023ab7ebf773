//! Places in a frame.

/// Some bytes of a frame.
#[derive(Clone, Copy, Debug, PartialEq, Eq)]
pub struct Span {
    /// The place of the first byte.
    pub at: usize,
    /// The number of bytes.
    pub len: usize,
}

/// Where the fields of a frame lie, and the values that no function writes.
#[derive(Clone, Copy, Debug, PartialEq, Eq)]
pub struct Layout {
    /// Where each field lies, in the order of [`Field`](crate::Field), if it is present.
    pub spans: [Option<Span>; 10],
    /// The place of the EtherType.
    pub type_at: Option<usize>,
    /// The EtherType (IEEE 802.3, 3.2.6).
    pub ether_type: Option<u16>,
    /// The IP header's protocol (RFC 791, 3.1), which IPv6 names next header (RFC 8200, 3).
    pub proto: Option<u8>,
    /// The length of the IP header and of what follows it, in bytes (RFC 791, 3.1; RFC 8200, 3), if it is at most
    /// 65,535.
    pub ip_len: Option<u16>,
    /// The TCP header's byte of control bits (RFC 793, 3.1).
    pub tcp_flags: Option<u8>,
    /// The place of the IPv4 header's checksum, 2 bytes (RFC 791, 3.1). IPv6's header has none (RFC 8200, 3).
    pub ip_sum: Option<usize>,
    /// The place of the TCP or UDP checksum, 2 bytes (RFC 793, 3.1; RFC 768).
    pub l4_sum: Option<usize>,
}
