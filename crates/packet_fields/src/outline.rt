//! The outline of a frame, which is small, and from which the place of each field follows.

use crate::access::{overwrite, part};
use crate::field::Field;
use crate::packet::{IpVersion, byte, ip_version, protocol, tos_span, total_len, within};
use crate::places::{ether_type, moved, packet_from, packet_place, tag_place};
use crate::plan::Span;
use crate::transport::{
    DST_PORT, SRC_PORT, TCP, TCP_CONTROL, data_span, datagram_end, has_segment, is_udp, segment_at,
};

/// What of its headers a frame has, from which the place of each field follows.
///
/// It costs less to make and to keep than a [`Layout`](crate::Layout), and a little more for each field that is
/// asked for.
#[derive(Clone, Copy, Debug, PartialEq, Eq)]
pub struct Outline {
    /// Where the packet begins: at its EtherType, or at the frame's end if there is none.
    pub start: usize,
    /// Which IP header begins there, if one does (RFC 791, 3.1; RFC 8200, 3).
    pub version: Option<IpVersion>,
    /// The TCP or UDP segment, where one begins.
    pub segment: Option<Segment>,
}

/// A TCP segment or UDP datagram. Its places count from the packet's first byte.
#[derive(Clone, Copy, Debug, PartialEq, Eq)]
pub struct Segment {
    /// Where its header begins.
    pub at: usize,
    /// Where its captured bytes end.
    pub end: usize,
    /// Where its data begins, if the header's length is known (RFC 793, 3.1; RFC 768).
    pub payload: Option<usize>,
}

impl Outline {
    ghost use Rattle.std.specs.Prelude.{◌≡◌, ◌≢◌, ◌≤◌, ◌+◌, length, IfSome};
    ghost use Rattle.std.specs.Option.{option_copied};
    ghost use Rattle.packet_fields.specs.Frames.{packet as packet_of};
    ghost use Rattle.packet_fields.specs.Packets.{protocol, total_len, control_bits};
    ghost use Rattle.packet_fields.specs.Fields.{span, value as value_of, ether_type, IsLengthOf};
    ghost use Rattle.packet_fields.specs.Outlines.{outline_of};
    ghost use Rattle.packet_fields.specs.Writing.{put as put_in, Fits, rest_of};
    ghost use Rattle.packet_fields.specs.declared.field.Field.{Field};

    /// The outline of a frame. Total over all bytes; reads the headers once.
    pub fn of(frame: &[u8]) -> Outline
        ensures { result ≡ outline_of frame.now }
    {
        let start = packet_place(frame);
        let packet = packet_from(frame, start);
        let version = ip_version(packet);
        Outline {
            start,
            version,
            segment: segment_in(packet, version),
        }
    }

    /// Where a field of the frame lies, if it is present.
    #[inline(always)]
    pub fn place(&self, field: Field, frame: &[u8]) -> Option<Span>
        requires { self.now ≡ outline_of frame.now }
        ensures place { result ≡ span field frame.now }
        ensures inside { IfSome result (λ s. s.at + s.len ≤ length frame.now) }
    {
        match field {
            Field::LinkDst => within(true, frame.len(), 0, 6),
            Field::LinkSrc => within(true, frame.len(), 6, 6),
            Field::Tag => tag_place(frame, self.start),
            Field::Tos => tos_place(self, frame),
            Field::Ttl => ttl_place(self, frame),
            Field::SrcIp => src_ip_place(self, frame),
            Field::DstIp => dst_ip_place(self, frame),
            Field::SrcPort => port_place(self, frame, SRC_PORT),
            Field::DstPort => port_place(self, frame, DST_PORT),
            Field::Payload => payload_place(self, frame),
        }
    }

    /// The bytes of a field, if it is present. The outline is the frame's own.
    #[inline(always)]
    pub fn get<'a>(&self, field: Field, frame: &'a [u8]) -> Option<&'a [u8]>
        requires { self.now ≡ outline_of frame.now }
        ensures value { option_copied result ≡ value_of field frame.now }
        ensures length { IfSome result (λ bytes. IsLengthOf field (length bytes.now)) }
    {
        let span = self.place(field, frame)?;
        Some(part(frame, span))
    }

    /// Writes a field that is present, other than the tags. The outline is the frame's own, and the value has as many
    /// bytes as the old one.
    pub fn put(&self, field: Field, value: &[u8], frame: &mut [u8])
        requires own { self.now ≡ outline_of frame.old }
        requires not_tag { field ≢ Field.Tag }
        requires fits { Fits field value.now frame.old }
        ensures whole { frame.new ≡ put_in field value.now frame.old }

        // The field has the value, every other field has its old one, the frame keeps its outline, and bytes that
        // belong to no field stay.
        ensures written { value_of field frame.new ≡ Some value.now }
        ensures others { (g : Field) → field ≢ g → value_of g frame.new ≡ value_of g frame.old }
        ensures outline { outline_of frame.new ≡ outline_of frame.old }
        ensures rest { rest_of frame.new ≡ rest_of frame.old }
    {
        if let Some(span) = self.place(field, frame) {
            overwrite(frame, span, value);
        }
    }

    /// The frame's EtherType (IEEE 802.3, 3.2.6).
    pub fn ether_type(&self, frame: &[u8]) -> Option<u16>
        requires { self.now ≡ outline_of frame.now }
        ensures { result ≡ ether_type frame.now }
    {
        ether_type(frame, self.start)
    }

    /// The IP header's protocol (RFC 791, 3.1), which IPv6 names next header (RFC 8200, 3).
    pub fn protocol(&self, frame: &[u8]) -> Option<u8>
        requires { self.now ≡ outline_of frame.now }
        ensures { result ≡ protocol (packet_of frame.now) }
    {
        let packet = packet_in(self, frame);
        // Each branch passes the version as a constant, so the header's places are constants too.
        match self.version? {
            IpVersion::V4 => protocol(packet, IpVersion::V4),
            IpVersion::V6 => protocol(packet, IpVersion::V6),
        }
    }

    /// The length of the IP header and of what follows it, in bytes (RFC 791, 3.1; RFC 8200, 3), if it is at most
    /// 65,535.
    pub fn total_len(&self, frame: &[u8]) -> Option<u16>
        requires { self.now ≡ outline_of frame.now }
        ensures { result ≡ total_len (packet_of frame.now) }
    {
        let packet = packet_in(self, frame);
        match self.version? {
            IpVersion::V4 => total_len(packet, IpVersion::V4),
            IpVersion::V6 => total_len(packet, IpVersion::V6),
        }
    }

    /// The TCP header's byte of control bits (RFC 793, 3.1).
    pub fn control_bits(&self, frame: &[u8]) -> Option<u8>
        requires { self.now ≡ outline_of frame.now }
        ensures { result ≡ control_bits (packet_of frame.now) }
    {
        let version = self.version?;
        let segment = self.segment?;
        let packet = packet_in(self, frame);
        byte(
            packet[version.format().protocol] == TCP,
            segment.end,
            packet,
            segment.at + TCP_CONTROL,
        )
    }
}

ghost use Rattle.std.specs.Prelude.{◌≡◌, ◌≤◌, ◌+◌, Some, true, length};
ghost use Rattle.packet_fields.specs.Frames.{packet as packet_of};
ghost use Rattle.packet_fields.specs.Packets.{segment_span, data_span as data_span_of, span_within};
ghost use Rattle.packet_fields.specs.Fields.{in_frame, packet_span};
ghost use Rattle.packet_fields.specs.declared.field.Field.{Field};
ghost use Rattle.packet_fields.specs.Outlines.{version_of, outline_of, segment_in as segment_in_of};

/// The segment in a packet whose IP header has this version.
fn segment_in(packet: &[u8], version: Option<IpVersion>) -> Option<Segment>
    requires { version ≡ version_of packet.now }
    ensures { result ≡ segment_in_of packet.now }
{
    match version {
        Some(IpVersion::V4) => segment_behind(packet, IpVersion::V4),
        Some(IpVersion::V6) => segment_behind(packet, IpVersion::V6),
        None => None,
    }
}

/// The segment after an IP header of this version.
#[inline(always)]
fn segment_behind(packet: &[u8], version: IpVersion) -> Option<Segment>
    requires { version_of packet.now ≡ Some version }
    ensures { result ≡ segment_in_of packet.now }
{
    if !has_segment(packet, version) {
        return None;
    }
    let at = segment_at(packet, version);
    let end = datagram_end(packet, version);
    let payload = match data_span(packet, is_udp(packet, version), at, end) {
        Some(span) => Some(span.at),
        None => None,
    };
    Some(Segment { at, end, payload })
}

/// The packet of a frame. The outline is the frame's own.
#[inline(always)]
fn packet_in<'a>(outline: &Outline, frame: &'a [u8]) -> &'a [u8]
    requires { outline.now ≡ outline_of frame.now }
    ensures packet { result.now ≡ packet_of frame.now }
    ensures len { length result.now + outline.now.start ≡ length frame.now }
{
    packet_from(frame, outline.start)
}

/// The span of `len` bytes at place `at` of the IP header, if they are captured.
#[inline(always)]
fn header_place(outline: &Outline, frame: &[u8], at: usize, len: usize) -> Option<Span>
    requires own { outline.now ≡ outline_of frame.now }
    requires near { at + len ≤ 42 }
    ensures place { result ≡ in_frame frame.now (span_within true (length (packet_of frame.now)) at len) }
{
    let packet = packet_in(outline, frame);
    moved(within(true, packet.len(), at, len), outline.start)
}

/// The type of service, which IPv4's header alone has.
#[inline(always)]
fn tos_place(outline: &Outline, frame: &[u8]) -> Option<Span>
    requires own { outline.now ≡ outline_of frame.now }
    ensures place { result ≡ in_frame frame.now (packet_span Field.Tos (packet_of frame.now)) }
{
    let version = outline.version?;
    moved(tos_span(packet_in(outline, frame), version), outline.start)
}

/// The time to live.
#[inline(always)]
fn ttl_place(outline: &Outline, frame: &[u8]) -> Option<Span>
    requires own { outline.now ≡ outline_of frame.now }
    ensures place { result ≡ in_frame frame.now (packet_span Field.Ttl (packet_of frame.now)) }
{
    let version = outline.version?;
    let format = version.format();
    header_place(outline, frame, format.ttl, 1)
}

/// The source's address.
#[inline(always)]
fn src_ip_place(outline: &Outline, frame: &[u8]) -> Option<Span>
    requires own { outline.now ≡ outline_of frame.now }
    ensures place { result ≡ in_frame frame.now (packet_span Field.SrcIp (packet_of frame.now)) }
{
    let version = outline.version?;
    let format = version.format();
    header_place(outline, frame, format.src_ip, format.address_len)
}

/// The destination's address.
#[inline(always)]
fn dst_ip_place(outline: &Outline, frame: &[u8]) -> Option<Span>
    requires own { outline.now ≡ outline_of frame.now }
    ensures place { result ≡ in_frame frame.now (packet_span Field.DstIp (packet_of frame.now)) }
{
    let version = outline.version?;
    let format = version.format();
    header_place(outline, frame, format.dst_ip, format.address_len)
}

/// A port, which lies at a place of the transport header.
#[inline(always)]
fn port_place(outline: &Outline, frame: &[u8], at: usize) -> Option<Span>
    requires own { outline.now ≡ outline_of frame.now }
    requires near { at ≤ 2 }
    ensures place { result ≡ in_frame frame.now (segment_span (packet_of frame.now) at 2) }
{
    let segment = outline.segment?;
    moved(within(true, segment.end, segment.at + at, 2), outline.start)
}

/// The data after the transport header.
#[inline(always)]
fn payload_place(outline: &Outline, frame: &[u8]) -> Option<Span>
    requires own { outline.now ≡ outline_of frame.now }
    ensures place { result ≡ in_frame frame.now (data_span_of (packet_of frame.now)) }
{
    let segment = outline.segment?;
    let at = segment.payload?;
    Some(Span {
        at: at + outline.start,
        len: segment.end - at,
    })
}
