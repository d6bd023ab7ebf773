//! The TCP or UDP header of a packet, after its IP header.
ghost use Rattle.std.specs.Prelude.{◌≡◌, ◌≤◌, ◌+◌, ◌&&◌, length, IsTrue, IfSome, Some, true, if◌then◌else◌};
ghost use Rattle.packet_fields.specs.Packets.{is_udp as is_udp_of, is_tcp, has_transport_protocol as has_transport_protocol_of, is_first as is_first_of, has_whole_header as has_whole_header_of, has_transport as has_transport_of, segment_at as segment_at_of, datagram_end as datagram_end_of, data_span as data_span_of, summed_span, control_bits};
ghost use Rattle.packet_fields.specs.Plans.{segment_plan_of};
ghost use Rattle.packet_fields.specs.Outlines.{version_of};
ghost use Rattle.packet_fields.specs.Checksums.{same_span, same_number};

use crate::packet::{
    FRAGMENT, HEADER, IpVersion, byte, header_len, place, protocol, total_len, within, word,
};
use crate::plan::Span;

// The places of fields of TCP and UDP, from the first byte of their header (RFC 793, 3.1; RFC 768).
pub const SRC_PORT: usize = 0;

pub const DST_PORT: usize = 2;

const TCP_OFFSET: usize = 12;

pub const TCP_CONTROL: usize = 13;

const TCP_SUM: usize = 16;

const UDP_LEN: usize = 4;

const UDP_SUM: usize = 6;

const UDP_HEADER_LEN: usize = 8;

/// The protocol number of TCP (RFC 793).
pub const TCP: u8 = 6;

/// The protocol number of UDP (RFC 768).
const UDP: u8 = 17;

/// The fields of the TCP or UDP header, and the data after it.
#[derive(Clone, Copy, PartialEq, Eq)]
pub struct SegmentPlan {
    pub src_port: Option<Span>,
    pub dst_port: Option<Span>,
    pub payload: Option<Span>,
    pub control_bits: Option<u8>,
    pub sum_at: Option<usize>,
}

impl SegmentPlan {
    /// The plan without any field.
    const fn none() -> Self
        ensures { result ≡ record { src_port = None; dst_port = None; payload = None; control_bits = None; sum_at = None } }
    {
        SegmentPlan {
            src_port: None,
            dst_port: None,
            payload: None,
            control_bits: None,
            sum_at: None,
        }
    }
}

/// Does a TCP or UDP header begin after the IP header of this version?
#[tactic(auto, unfolding(crate::specs::Packets::has_transport))]
#[inline(always)]
pub fn has_segment(packet: &[u8], version: IpVersion) -> bool
    requires { version_of packet.now ≡ Some version }
    ensures { result ≡ has_transport_of packet.now }
{
    if !has_transport_protocol(packet, version) {
        return false;
    }
    is_first(packet, version) && has_whole_header(packet, version)
}

/// Is the protocol TCP or UDP?
#[inline(always)]
fn has_transport_protocol(packet: &[u8], version: IpVersion) -> bool
    requires { version_of packet.now ≡ Some version }
    ensures { result ≡ has_transport_protocol_of packet.now }
{
    match protocol(packet, version) {
        Some(number) => number == TCP || number == UDP,
        None => false,
    }
}

/// Is a packet not a later fragment? No field of IPv6's own header says it.
#[inline(always)]
fn is_first(packet: &[u8], version: IpVersion) -> bool
    requires version { version_of packet.now ≡ Some version }
    requires captured { has_transport_protocol_of packet.now ≡ true }
    ensures { result ≡ is_first_of packet.now }
{
    match version {
        IpVersion::V4 => word(packet, FRAGMENT) % 8192 == 0,
        IpVersion::V6 => true,
    }
}

/// Does the IP header lie within the datagram's length?
#[inline(always)]
fn has_whole_header(packet: &[u8], version: IpVersion) -> bool
    requires { version_of packet.now ≡ Some version }
    ensures { result ≡ has_whole_header_of packet.now }
{
    match total_len(packet, version) {
        Some(total) => header_len(packet, version) <= usize::from(total),
        None => false,
    }
}

/// Where the transport header begins.
#[inline(always)]
pub fn segment_at(packet: &[u8], version: IpVersion) -> usize
    requires { version_of packet.now ≡ Some version }
    ensures at { result ≡ segment_at_of packet.now }
    ensures bound { result ≤ 62 }
{
    header_len(packet, version) + HEADER
}

/// Where the captured bytes of the datagram end.
#[inline(always)]
pub fn datagram_end(packet: &[u8], version: IpVersion) -> usize
    requires version { version_of packet.now ≡ Some version }
    requires there { IsTrue (has_transport_of packet.now) }
    ensures end { result ≡ datagram_end_of packet.now }
    ensures inside { result ≤ length packet.now }
    ensures short { result ≤ 65537 }
{
    let format = version.format();
    let total = usize::from(word(packet, format.total_len)) + usize::from(format.uncounted);
    packet.len().min(total + HEADER)
}

/// Is it UDP, and not TCP?
#[inline(always)]
pub fn is_udp(packet: &[u8], version: IpVersion) -> bool
    requires version { version_of packet.now ≡ Some version }
    requires there { IsTrue (has_transport_of packet.now) }
    ensures { result ≡ is_udp_of packet.now }
{
    packet[version.format().protocol] == UDP
}

/// The span of the data after a transport header that begins at `start`, up to `end`.
#[inline(always)]
pub fn data_span(packet: &[u8], is_udp: bool, start: usize, end: usize) -> Option<Span>
    requires there { IsTrue (has_transport_of packet.now) }
    requires kind { is_udp ≡ is_udp_of packet.now }
    requires begins { start ≡ segment_at_of packet.now }
    requires ends { end ≡ datagram_end_of packet.now }
    ensures span { result ≡ data_span_of packet.now }
    ensures inside { IfSome result (λ s. s.at + s.len ≤ end) }
{
    let at = if is_udp {
        start + UDP_HEADER_LEN
    } else if start + TCP_OFFSET < end && packet[start + TCP_OFFSET] / 16 >= 5 {
        4 * usize::from(packet[start + TCP_OFFSET] / 16) + start
    } else {
        return None;
    };
    if at <= end {
        Some(Span { at, len: end - at })
    } else {
        None
    }
}

/// The part of the payload that the checksum of a transport header covers, which begins at `start`. UDP's own length may
/// end it (RFC 768; RFC 8200, 8.1); a length below that of the header says nothing.
#[inline(always)]
pub fn summed_data(packet: &[u8], is_udp: bool, start: usize, payload: Option<Span>) -> Option<Span>
    requires kind { is_udp ≡ is_udp_of packet.now }
    requires begins { start ≡ segment_at_of packet.now }
    requires payload { payload ≡ data_span_of packet.now }
    requires inside { IfSome payload (λ s. s.at + s.len ≤ length packet.now) }
    requires short { IfSome payload (λ s. s.len ≤ 65537) }
    ensures span { result ≡ summed_span packet.now }
    ensures inside { IfSome result (λ s. s.at + s.len ≤ length packet.now) }
    ensures short { IfSome result (λ s. s.len ≤ 65537) }
{
    let span = payload?;
    if !is_udp {
        return Some(span);
    }
    let counted = usize::from(word(packet, start + UDP_LEN));
    if counted < UDP_HEADER_LEN {
        return Some(span);
    }
    Some(Span {
        at: span.at,
        len: span.len.min(counted - UDP_HEADER_LEN),
    })
}

/// The places of the transport header.
#[inline(always)]
pub fn segment_plan(packet: &[u8], version: Option<IpVersion>) -> SegmentPlan
    requires { version ≡ version_of packet.now }
    ensures plan { result ≡ segment_plan_of packet.now }
    ensures src_port { IfSome result.src_port (λ s. s.at + s.len ≤ length packet.now) }
    ensures dst_port { IfSome result.dst_port (λ s. s.at + s.len ≤ length packet.now) }
    ensures payload { IfSome result.payload (λ s. s.at + s.len ≤ length packet.now) }
    ensures short { IfSome result.payload (λ s. s.len ≤ 65537) }
    ensures sum_at { IfSome result.sum_at (λ at. at + 2 ≤ length packet.now) }
{
    let Some(version) = version else {
        return SegmentPlan::none();
    };
    if !has_segment(packet, version) {
        return SegmentPlan::none();
    }
    let start = segment_at(packet, version);
    let end = datagram_end(packet, version);
    let is_udp = is_udp(packet, version);
    let sum = checksum_at(is_udp);
    SegmentPlan {
        src_port: within(true, end, start + SRC_PORT, 2),
        dst_port: within(true, end, start + DST_PORT, 2),
        payload: data_span(packet, is_udp, start, end),
        control_bits: byte(!is_udp, end, packet, start + TCP_CONTROL),
        sum_at: place(true, end, start + sum, 2),
    }
}

/// The place of the checksum in the transport header.
const fn checksum_at(is_udp: bool) -> usize
    ensures { result ≡ (if is_udp then 6 else 16) }
{
    if is_udp { UDP_SUM } else { TCP_SUM }
}

/// Do the data and the control bits of a TCP packet have the places and values of a plan?
#[inline(always)]
pub fn has_data_of(packet: &[u8], version: IpVersion, plan: &SegmentPlan) -> bool
    requires version { version_of packet.now ≡ Some version }
    requires there { IsTrue (has_transport_of packet.now) }
    requires tcp { is_tcp packet.now ≡ true }
    ensures { result ≡ (same_span plan.now.payload (data_span_of packet.now) && same_number plan.now.control_bits (control_bits packet.now)) }
{
    let start = segment_at(packet, version);
    let end = datagram_end(packet, version);
    plan.payload == data_span(packet, false, start, end)
        && plan.control_bits == byte(true, end, packet, start + TCP_CONTROL)
}
