//! The clauses that say which packets a chain or a rule takes.

use item_list::Items;

/// Clauses, all of which a packet has to meet. Every packet meets the empty list.
#[derive(Debug, Drop)]
pub struct Match {
    pub clauses: Items<Clause>,
}

/// One demand on a packet. Addresses have their first byte in the highest bits.
#[derive(Clone, Copy, Debug, PartialEq, Eq)]
pub enum Clause {
    /// The first bits of the IPv4 source address, and the length of the prefix in bits.
    Src(u32, u8),
    /// The first bits of the IPv4 destination address, and the length of the prefix in bits.
    Dst(u32, u8),
    /// The first bits of the IPv6 source address, and the length of the prefix in bits.
    Src6(u128, u8),
    /// The first bits of the IPv6 destination address, and the length of the prefix in bits.
    Dst6(u128, u8),
    /// The least and the greatest source port.
    Sport(u16, u16),
    /// The least and the greatest destination port.
    Dport(u16, u16),
    /// The protocol number.
    Proto(u8),
    /// The VLAN id of the outermost IEEE 802.1Q tag.
    TagId(u16),
    /// No tag.
    NoTag,
    /// A packet of IPv4.
    Version4,
    /// A packet of IPv6.
    Version6,
    /// TCP's control bits that are looked at, and those of them that have to be 1 (RFC 793, 3.1). The others of them
    /// have to be 0.
    Flags(u8, u8),
}
