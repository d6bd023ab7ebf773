//! The IP header of a packet, which begins with its EtherType.
//!
//! `layout`, `Outline::of` and `seal` determine the version once, and pass it as a constant to functions that are
//! inlined. So each version has code of its own, with its places as constants.
ghost use Rattle.std.specs.Prelude.{◌≡◌, ◌≤◌, ◌+◌, ◌^◌, ◌<◌, List, ℕ, length, IfSome, Some};
ghost use Rattle.packet_fields.specs.Frames.{word as word_of};
ghost use Rattle.packet_fields.specs.Packets.{span_within, byte_within, place_within, is_ipv4 as is_ipv4_of, is_ipv6 as is_ipv6_of, protocol as protocol_of, total_len as total_len_of, header_len as header_len_of, header_sum_at as header_sum_at_of};
ghost use Rattle.packet_fields.specs.Fields.{packet_span};
ghost use Rattle.packet_fields.specs.declared.field.Field.{Field};
ghost use Rattle.packet_fields.specs.Plans.{header_plan_of};
ghost use Rattle.packet_fields.specs.Outlines.{version_of, is_version as is_version_of, format_of};

use crate::plan::Span;
use byteorder::{BigEndian, ByteOrder};

const IPV4: u16 = 0x0800;

const IPV6: u16 = 0x86dd;

/// Where the IP header begins: after the EtherType.
pub const HEADER: usize = 2;

// The places of fields that IPv4's header alone has, which RFC 791, 3.1, counts from the header's first byte.
const TOS: usize = HEADER + 1;

pub const FRAGMENT: usize = HEADER + 6;

pub const HEADER_SUM: usize = HEADER + 10;

/// The length of IPv6's header (RFC 8200, 3).
const IPV6_HEADER_LEN: u16 = 40;

/// A version of IP.
#[derive(Clone, Copy, Debug, PartialEq, Eq)]
pub enum IpVersion {
    /// IPv4 (RFC 791, 3.1).
    V4,
    /// IPv6 (RFC 8200, 3).
    V6,
}

/// Where a packet has the fields that the IP headers of both versions have.
#[derive(Clone, Copy)]
pub struct HeaderFormat {
    /// The datagram's length.
    pub total_len: usize,
    /// The number of bytes that this length leaves out: IPv6's leaves out the header.
    pub uncounted: u16,
    /// The time to live, which IPv6 names hop limit.
    pub ttl: usize,
    /// The protocol, which IPv6 names next header.
    pub protocol: usize,
    /// The source's address, which the destination's address follows.
    pub src_ip: usize,
    /// The destination's address.
    pub dst_ip: usize,
    /// The length of an address.
    pub address_len: usize,
}

impl IpVersion {
    ghost use Rattle.std.specs.Prelude.{◌≡◌, List, ℕ, Some};
    ghost use Rattle.packet_fields.specs.Outlines.{version_of, format_of};

    /// The format of the version's header: RFC 791, 3.1, and RFC 8200, 3, count its places from its first byte.
    #[inline(always)]
    pub const fn format(self) -> HeaderFormat
        ensures { (packet : List ℕ) → version_of packet ≡ Some self → result ≡ format_of packet }
    {
        match self {
            IpVersion::V4 => HeaderFormat {
                total_len: HEADER + 2,
                uncounted: 0,
                ttl: HEADER + 8,
                protocol: HEADER + 9,
                src_ip: HEADER + 12,
                dst_ip: HEADER + 16,
                address_len: 4,
            },
            IpVersion::V6 => HeaderFormat {
                total_len: HEADER + 4,
                uncounted: IPV6_HEADER_LEN,
                ttl: HEADER + 7,
                protocol: HEADER + 6,
                src_ip: HEADER + 8,
                dst_ip: HEADER + 24,
                address_len: 16,
            },
        }
    }
}

/// The fields of the IP header.
#[derive(Clone, Copy, PartialEq, Eq)]
pub struct HeaderPlan {
    pub tos: Option<Span>,
    pub ttl: Option<Span>,
    pub src_ip: Option<Span>,
    pub dst_ip: Option<Span>,
    pub proto: Option<u8>,
    pub total_len: Option<u16>,
    pub sum_at: Option<usize>,
}

impl HeaderPlan {
    /// The plan without any field.
    const fn none() -> Self
        ensures { result ≡ record { tos = None; ttl = None; src_ip = None; dst_ip = None; proto = None; total_len = None; sum_at = None } }
    {
        HeaderPlan {
            tos: None,
            ttl: None,
            src_ip: None,
            dst_ip: None,
            proto: None,
            total_len: None,
            sum_at: None,
        }
    }
}

/// The 16-bit number at a place.
pub fn word(bytes: &[u8], at: usize) -> u16
    requires { at + 2 ≤ length bytes.now }
    ensures { result ≡ word_of bytes.now at }
{
    BigEndian::read_u16(&bytes[at..])
}

/// The span of `len` bytes at `at`, if `there` is set and they end at or below `limit`.
pub fn within(there: bool, limit: usize, at: usize, len: usize) -> Option<Span>
    requires { at + len < 2 ^ 64 }
    ensures span { result ≡ span_within there limit at len }
    ensures inside { IfSome result (λ s. s.at + s.len ≤ limit) }
{
    if there && at + len <= limit {
        Some(Span { at, len })
    } else {
        None
    }
}

/// The place `at` of `len` bytes, if `there` is set and they end at or below `limit`.
pub fn place(there: bool, limit: usize, at: usize, len: usize) -> Option<usize>
    requires { at + len < 2 ^ 64 }
    ensures place { result ≡ place_within there limit at len }
    ensures inside { IfSome result (λ p. p + len ≤ limit) }
{
    if there && at + len <= limit {
        Some(at)
    } else {
        None
    }
}

/// The byte at `at`, if `there` is set and the place lies below `limit`.
pub fn byte(there: bool, limit: usize, bytes: &[u8], at: usize) -> Option<u8>
    requires { limit ≤ length bytes.now }
    ensures { result ≡ byte_within there limit bytes.now at }
{
    if there && at < limit {
        Some(bytes[at])
    } else {
        None
    }
}

/// Which IP header begins after the EtherType?
pub fn ip_version(packet: &[u8]) -> Option<IpVersion>
    ensures { result ≡ version_of packet.now }
{
    if is_ipv4(packet) {
        Some(IpVersion::V4)
    } else if is_ipv6(packet) {
        Some(IpVersion::V6)
    } else {
        None
    }
}

/// Does an IP header of this version begin after the EtherType?
#[inline(always)]
pub fn is_version(packet: &[u8], version: IpVersion) -> bool
    ensures { result ≡ is_version_of version packet.now }
{
    match version {
        IpVersion::V4 => is_ipv4(packet),
        IpVersion::V6 => is_ipv6(packet),
    }
}

/// Does an IPv4 header begin after the EtherType?
#[tactic(auto, unfolding(crate::specs::Packets::is_ipv4))]
fn is_ipv4(packet: &[u8]) -> bool
    ensures { result ≡ is_ipv4_of packet.now }
{
    packet.len() > HEADER
        && word(packet, 0) == IPV4
        && packet[HEADER] / 16 == 4
        && packet[HEADER] % 16 >= 5
}

/// Does an IPv6 header begin after the EtherType?
#[tactic(auto, unfolding(crate::specs::Packets::is_ipv6))]
fn is_ipv6(packet: &[u8]) -> bool
    ensures { result ≡ is_ipv6_of packet.now }
{
    packet.len() > HEADER && word(packet, 0) == IPV6 && packet[HEADER] / 16 == 6
}

/// The protocol of the data after the header, if it is captured.
#[inline(always)]
pub fn protocol(packet: &[u8], version: IpVersion) -> Option<u8>
    requires { version_of packet.now ≡ Some version }
    ensures { result ≡ protocol_of packet.now }
{
    byte(true, packet.len(), packet, version.format().protocol)
}

/// The datagram's length, if it is captured and fits in 16 bits.
#[inline(always)]
pub fn total_len(packet: &[u8], version: IpVersion) -> Option<u16>
    requires { version_of packet.now ≡ Some version }
    ensures { result ≡ total_len_of packet.now }
{
    let format = version.format();
    if packet.len() < format.total_len + 2 {
        return None;
    }
    word(packet, format.total_len).checked_add(format.uncounted)
}

/// The places of the IP header.
#[inline(always)]
pub fn header_plan(packet: &[u8], version: Option<IpVersion>) -> HeaderPlan
    requires { version ≡ version_of packet.now }
    ensures plan { result ≡ header_plan_of packet.now }
    ensures tos { IfSome result.tos (λ s. s.at + s.len ≤ length packet.now) }
    ensures ttl { IfSome result.ttl (λ s. s.at + s.len ≤ length packet.now) }
    ensures src_ip { IfSome result.src_ip (λ s. s.at + s.len ≤ length packet.now) }
    ensures dst_ip { IfSome result.dst_ip (λ s. s.at + s.len ≤ length packet.now) }
    ensures sum_at { IfSome result.sum_at (λ at. at + 2 ≤ length packet.now) }
{
    let Some(version) = version else {
        return HeaderPlan::none();
    };
    let format = version.format();
    let end = packet.len();
    HeaderPlan {
        tos: tos_span(packet, version),
        ttl: within(true, end, format.ttl, 1),
        src_ip: within(true, end, format.src_ip, format.address_len),
        dst_ip: within(true, end, format.dst_ip, format.address_len),
        proto: protocol(packet, version),
        total_len: total_len(packet, version),
        sum_at: header_sum_at(packet, version),
    }
}

/// Where the type of service lies, which IPv4's header alone has.
#[inline(always)]
pub fn tos_span(packet: &[u8], version: IpVersion) -> Option<Span>
    requires { version_of packet.now ≡ Some version }
    ensures span { result ≡ packet_span Field.Tos packet.now }
    ensures inside { IfSome result (λ s. s.at + s.len ≤ length packet.now) }
{
    match version {
        IpVersion::V4 => within(true, packet.len(), TOS, 1),
        IpVersion::V6 => None,
    }
}

/// Where the header checksum is, which IPv4's header alone has.
#[inline(always)]
pub fn header_sum_at(packet: &[u8], version: IpVersion) -> Option<usize>
    requires { version_of packet.now ≡ Some version }
    ensures place { result ≡ header_sum_at_of packet.now }
    ensures inside { IfSome result (λ at. at + 2 ≤ length packet.now) }
{
    match version {
        IpVersion::V4 => place(true, packet.len(), HEADER_SUM, 2),
        IpVersion::V6 => None,
    }
}

/// The length of the IP header.
#[inline(always)]
pub fn header_len(packet: &[u8], version: IpVersion) -> usize
    requires { version_of packet.now ≡ Some version }
    ensures len { result ≡ header_len_of packet.now }
    ensures least { 20 ≤ result }
    ensures bound { result ≤ 60 }
{
    match version {
        IpVersion::V4 => 4 * usize::from(packet[HEADER] % 16),
        IpVersion::V6 => usize::from(IPV6_HEADER_LEN),
    }
}
