//! The values of a packet at which clauses look.

ghost use Rattle.std.specs.Prelude.{◌≡◌};
ghost use Rattle.policy_text.specs.Meeting.{first_bits, is_within, is_within6, is_between, has_id, is_bare, is_type, has_bits, is_met, is_fitting};

use crate::clause::{Clause, Match};

/// The IEEE 802.1Q tags of a frame.
#[derive(Clone, Copy, Debug, PartialEq, Eq)]
pub enum TagSeen {
    /// The frame is too short to have an EtherType.
    Absent,
    /// The frame has no tag.
    Bare,
    /// The VLAN id of the outermost tag.
    Id(u16),
}

/// The values at which clauses look, if the packet has them. Addresses have their first byte in the highest bits. An
/// IPv6 packet has no `src` and `dst`, and an IPv4 packet no `src6` and `dst6`.
#[derive(Clone, Copy, Debug, PartialEq, Eq)]
pub struct Seen {
    pub tag: TagSeen,
    pub src: Option<u32>,
    pub dst: Option<u32>,
    pub src6: Option<u128>,
    pub dst6: Option<u128>,
    pub sport: Option<u16>,
    pub dport: Option<u16>,
    pub proto: Option<u8>,
    /// The EtherType (IEEE 802.3, 3.2.6).
    pub ether_type: Option<u16>,
    /// TCP's byte of control bits (RFC 793, 3.1).
    pub tcp_flags: Option<u8>,
}

/// Does a packet meet every clause? A clause on an absent value isn't met. A prefix length above the number of the
/// address's bits means all of them.
pub fn fits(fit: &Match, seen: &Seen) -> bool
    ensures { result ≡ is_fitting fit.now seen.now }
{
    fit.clauses.as_slice().iter().all(|c| is_met(seen, c))
}

fn is_met(seen: &Seen, clause: &Clause) -> bool
    ensures { result ≡ is_met seen.now clause.now }
{
    match clause {
        Clause::Src(prefix, bits) => seen.src.map_or(false, |a| is_within(*prefix, *bits, a)),
        Clause::Dst(prefix, bits) => seen.dst.map_or(false, |a| is_within(*prefix, *bits, a)),
        Clause::Src6(prefix, bits) => seen.src6.map_or(false, |a| is_within6(*prefix, *bits, a)),
        Clause::Dst6(prefix, bits) => seen.dst6.map_or(false, |a| is_within6(*prefix, *bits, a)),
        Clause::Sport(low, high) => seen.sport.map_or(false, |p| is_between(*low, *high, p)),
        Clause::Dport(low, high) => seen.dport.map_or(false, |p| is_between(*low, *high, p)),
        Clause::Proto(protocol) => seen.proto.map_or(false, |p| p == *protocol),
        Clause::TagId(id) => has_id(*id, seen.tag),
        Clause::NoTag => is_bare(seen.tag),
        Clause::Version4 => is_type(0x0800, seen.ether_type) && seen.src.is_some(),
        Clause::Version6 => is_type(0x86DD, seen.ether_type) && seen.src6.is_some(),
        Clause::Flags(mask, set) => seen.tcp_flags.map_or(false, |f| has_bits(*mask, *set, f)),
    }
}

/// Does an IPv4 address begin with the prefix's first bits? Both have their first byte in the highest
/// bits (RFC 791).
pub fn is_within(prefix: u32, bits: u8, address: u32) -> bool
    ensures { result ≡ is_within prefix bits address }
{
    first_bits(bits, address) == first_bits(bits, prefix)
}

/// Does an IPv6 address begin with the prefix's first bits? Both have their first byte in the highest
/// bits (RFC 4291, 2.3).
pub fn is_within6(prefix: u128, bits: u8, address: u128) -> bool
    ensures { result ≡ is_within6 prefix bits address }
{
    first_bits6(bits, address) == first_bits6(bits, prefix)
}

// The first bits of an IPv4 address, as a number.
fn first_bits(bits: u8, address: u32) -> u32
    ensures { result ≡ first_bits 32 bits address }
{
    if bits == 0 {
        0
    } else if bits < 32 {
        address >> (32 - bits)
    } else {
        address
    }
}

// The first bits of an IPv6 address, as a number.
fn first_bits6(bits: u8, address: u128) -> u128
    ensures { result ≡ first_bits 128 bits address }
{
    if bits == 0 {
        0
    } else if bits < 128 {
        address >> (128 - bits)
    } else {
        address
    }
}

fn is_between(low: u16, high: u16, port: u16) -> bool
    ensures { result ≡ is_between low high port }
{
    low <= port && port <= high
}

fn has_id(id: u16, tag: TagSeen) -> bool
    ensures { result ≡ has_id id tag }
{
    match tag {
        TagSeen::Id(n) => n == id,
        _ => false,
    }
}

fn is_type(number: u16, ether_type: Option<u16>) -> bool
    ensures { result ≡ is_type number ether_type }
{
    ether_type.map_or(false, |t| t == number)
}

// Of the bits of the mask, are exactly these 1?
fn has_bits(mask: u8, set: u8, flags: u8) -> bool
    ensures { result ≡ has_bits mask set flags }
{
    flags & mask == set
}

fn is_bare(tag: TagSeen) -> bool
    ensures { result ≡ is_bare tag }
{
    match tag {
        TagSeen::Bare => true,
        _ => false,
    }
}
