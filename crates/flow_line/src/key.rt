//! What distinguishes flows.

/// The protocol, addresses and ports of a flow, as numbers, most significant byte first.
#[derive(Clone, Copy, PartialEq, Eq, Hash, Debug)]
pub struct FlowKey {
    /// The source address.
    pub src: u128,
    /// The destination address.
    pub dst: u128,
    /// The source port: `None` if the packets have no ports, such as fragments that aren't the first.
    pub sport: Option<u16>,
    /// The destination port.
    pub dport: Option<u16>,
    /// Whether the addresses are of IPv6 (RFC 8200, 3). If not, they are of IPv4 (RFC 791, 3.1), and below 2^32.
    pub wide: bool,
    /// The IPv4 header's protocol, or the IPv6 header's next header.
    pub proto: u8,
}

// Fields are stored in this order: the widest come first, so that a key takes the fewest bytes.
const _: () = prove!(size_of::<FlowKey>() == 48);
