//! Finding the fields of a frame.
ghost use Rattle.std.specs.Prelude.{◌≡◌, ◌≤◌, ◌+◌, ◌*◌, ◌<◌, ◌^◌, length, IfSome};
ghost use Rattle.packet_fields.specs.Frames.{is_tpid, tags_len, type_at, packet_at, packet as packet_of};
ghost use Rattle.packet_fields.specs.Fields.{layout_of, tag_span, ether_type as ether_type_of, moved as moved_of};
ghost use Rattle.packet_fields.specs.Outlines.{version_of};
ghost use Rattle.std.specs.Option.{option_map};

use crate::packet::{IpVersion, header_plan, ip_version, within, word};
use crate::plan::{Layout, Span};
use crate::transport::segment_plan;

const CUSTOMER_TAG: u16 = 0x8100;

const SERVICE_TAG: u16 = 0x88a8;

/// Where the fields of a frame lie. Total over all bytes; reads the headers once.
pub fn layout(frame: &[u8]) -> Layout
    ensures { result ≡ layout_of frame.now }
{
    let start = packet_place(frame);
    let packet = packet_from(frame, start);
    match ip_version(packet) {
        Some(IpVersion::V4) => layout_by(frame, start, Some(IpVersion::V4)),
        Some(IpVersion::V6) => layout_by(frame, start, Some(IpVersion::V6)),
        None => layout_by(frame, start, None),
    }
}

/// The layout of a frame whose packet begins at `start` and has this version of IP.
#[inline(always)]
fn layout_by(frame: &[u8], start: usize, version: Option<IpVersion>) -> Layout
    requires begins { start ≡ packet_at frame.now }
    requires inside { start ≤ length frame.now }
    requires version { version ≡ version_of (packet_of frame.now) }
    ensures { result ≡ layout_of frame.now }
{
    let packet = packet_from(frame, start);
    let header = header_plan(packet, version);
    let segment = segment_plan(packet, version);
    Layout {
        spans: [
            within(true, frame.len(), 0, 6),
            within(true, frame.len(), 6, 6),
            tag_place(frame, start),
            moved(header.tos, start),
            moved(header.ttl, start),
            moved(header.src_ip, start),
            moved(header.dst_ip, start),
            moved(segment.src_port, start),
            moved(segment.dst_port, start),
            moved(segment.payload, start),
        ],
        type_at: type_place(frame, start),
        ether_type: ether_type(frame, start),
        proto: header.proto,
        ip_len: header.total_len,
        tcp_flags: segment.control_bits,
        ip_sum: moved_place(header.sum_at, start),
        l4_sum: moved_place(segment.sum_at, start),
    }
}

/// Is this the identifier of a tag?
fn is_tag(kind: u16) -> bool
    ensures { result ≡ is_tpid kind }
{
    kind == CUSTOMER_TAG || kind == SERVICE_TAG
}

/// Where the packet begins: at its EtherType, or at the frame's end if there is none.
pub fn packet_place(frame: &[u8]) -> usize
    ensures place { result ≡ packet_at frame.now }
    ensures inside { result ≤ length frame.now }
    ensures room { 14 ≤ length frame.now → result + 2 ≤ length frame.now }
    ensures behind { 14 ≤ length frame.now → 12 ≤ result }
{
    if frame.len() < 14 {
        return frame.len();
    }
    let mut rest = &frame[12..];
    'tags: while rest.len() >= 6 && is_tag(word(rest, 0)) {
        rest = &rest[4..];
    }
    frame.len() - rest.len()
}

/// The packet of a frame.
pub fn packet_from(frame: &[u8], start: usize) -> &[u8]
    requires begins { start ≡ packet_at frame.now }
    requires inside { start ≤ length frame.now }
    ensures packet { result.now ≡ packet_of frame.now }
    ensures len { length result.now + start ≡ length frame.now }
{
    &frame[start..]
}

/// The place of the EtherType.
fn type_place(frame: &[u8], start: usize) -> Option<usize>
    requires { start ≡ packet_at frame.now }
    ensures { result ≡ type_at frame.now }
{
    if frame.len() >= 14 { Some(start) } else { None }
}

/// The frame's EtherType.
pub fn ether_type(frame: &[u8], start: usize) -> Option<u16>
    requires { start ≡ packet_at frame.now }
    ensures { result ≡ ether_type_of frame.now }
{
    if frame.len() >= 14 {
        Some(word(frame, start))
    } else {
        None
    }
}

/// The bytes between the addresses and the EtherType.
pub fn tag_place(frame: &[u8], start: usize) -> Option<Span>
    requires { start ≡ packet_at frame.now }
    ensures { result ≡ tag_span frame.now }
{
    if frame.len() >= 14 {
        Some(Span {
            at: 12,
            len: start - 12,
        })
    } else {
        None
    }
}

/// The span that lies `by` bytes later.
#[inline(always)]
pub fn moved(span: Option<Span>, by: usize) -> Option<Span>
    requires { IfSome span (λ s. s.at + s.len + by ≤ usize.MAX) }
    ensures { result ≡ option_map (moved_of by) span }
{
    let Span { at, len } = span?;
    Some(Span { at: at + by, len })
}

/// The place that lies `by` bytes later.
fn moved_place(place: Option<usize>, by: usize) -> Option<usize>
    requires { IfSome place (λ at. at + 2 + by ≤ usize.MAX) }
    ensures { result ≡ option_map (λ at. at + by) place }
{
    Some(place? + by)
}
