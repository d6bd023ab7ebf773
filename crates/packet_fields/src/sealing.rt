//! The checksums of a packet after a change.
ghost use Rattle.std.specs.Prelude.{◌≡◌, ◌≤◌, ◌<◌, ◌+◌, ◌^◌, ◌%◌, Some, true, length, IfSome, if◌then◌else◌};
ghost use Rattle.packet_fields.specs.Packets.{has_transport as has_transport_of, header_len as header_len_of};
ghost use Rattle.packet_fields.specs.Fields.{value};
ghost use Rattle.packet_fields.specs.declared.field.Field.{Field};
ghost use Rattle.packet_fields.specs.Writing.{overwritten, rest_of};
ghost use Rattle.packet_fields.specs.Outlines.{version_of};
ghost use Rattle.packet_fields.specs.Plans.{header_plan_of, segment_plan_of};
ghost use Rattle.packet_fields.specs.Checksums.{same_header_plan, same_segment_plan, word_bytes, header_sealed, segment_sealed, packet_sealed, sealed, HasRightSums};
ghost use Rattle.packet_fields.specs.Changes.{IsChange, header_bytes, segment_bytes, checksum_after, has_same_headers as has_same_headers_of};

use crate::access::part;
use crate::packet::{
    HEADER, HEADER_SUM, IpVersion, header_len, header_sum_at, ip_version, is_version, protocol,
    total_len, word,
};
use crate::places::{packet_from, packet_place};
use crate::plan::Span;
use crate::sums::Change;
use crate::transport::{
    SegmentPlan, has_data_of, has_segment, is_udp, segment_at, segment_plan, summed_data,
};
use byteorder::{BigEndian, ByteOrder};

/// Adjusts the checksums of a frame once, by the difference between `before` and `after` (RFC 1624, 3, equation 3). A
/// wrong checksum stays wrong by the same difference. A UDP checksum of 0, which means that there is none, stays 0, and
/// a result of 0 is written as 0xffff. The payload counts in a UDP checksum as far as the length in its header says, if
/// that is at least 8. If the packets of the frames differ in more than the bytes of their fields, such as in length or
/// in the places of fields, `after` stays.
pub fn seal(before: &[u8], after: &mut [u8])
    ensures sealed { after.new ≡ sealed before.now after.old }

    // No field changes, and a frame that did not change stays as it is.
    ensures fields { (f : Field) → value f after.new ≡ value f after.old }
    ensures own { before.now ≡ after.old → after.new ≡ after.old }

    // Right checksums stay right, by the sum of RFC 1071, if only fields changed.
    ensures right { rest_of before.now ≡ rest_of after.old → HasRightSums before.now → HasRightSums after.new }
{
    seal_frame(before, after);
}

/// Adjusts the checksums of a frame.
fn seal_frame(before: &[u8], after: &mut [u8])
    ensures { after.new ≡ sealed before.now after.old }
{
    let old = packet_from(before, packet_place(before));
    let start = packet_place(after);
    seal_packet(old, &mut after[start..]);
}

/// Adjusts the checksums of a packet.
fn seal_packet(old: &[u8], new: &mut [u8])
    ensures { new.new ≡ packet_sealed old.now new.old }
{
    match ip_version(old) {
        Some(IpVersion::V4) => seal_version(old, new, IpVersion::V4),
        Some(IpVersion::V6) => seal_version(old, new, IpVersion::V6),
        None => {}
    }
}

/// Adjusts the checksums of a packet; the old one has an IP header of this version.
#[inline(always)]
fn seal_version(old: &[u8], new: &mut [u8], version: IpVersion)
    requires { version_of old.now ≡ Some version }
    ensures { new.new ≡ packet_sealed old.now new.old }
{
    if !has_same_headers(old, new, version) {
        return;
    }
    let plan = segment_plan(old, Some(version));
    if has_same_segment(old, new, version, &plan) {
        seal_header(old, new, version);
        seal_segment(old, new, version, &plan);
    }
}

/// Do two packets, the old one of this version, have IP headers with the same places and fixed values?
#[inline(always)]
fn has_same_headers(old: &[u8], new: &[u8], version: IpVersion) -> bool
    requires { version_of old.now ≡ Some version }
    ensures { result ≡ has_same_headers_of old.now new.now }
{
    if !is_version(new, version) {
        return false;
    }
    old.len() == new.len()
        && header_len(old, version) == header_len(new, version)
        && has_same_header(old, new, version)
}

/// Do the IP headers of two packets of the same version and length have the same places and fixed values?
#[inline(always)]
fn has_same_header(old: &[u8], new: &[u8], version: IpVersion) -> bool
    requires old_version { version_of old.now ≡ Some version }
    requires new_version { version_of new.now ≡ Some version }
    requires same_len { length old.now ≡ length new.now }
    ensures { result ≡ same_header_plan (header_plan_of old.now) (header_plan_of new.now) }
{
    protocol(old, version) == protocol(new, version)
        && total_len(old, version) == total_len(new, version)
}

/// Do the transport headers of two packets with the same header have the same places and fixed values? The old one has
/// this plan.
#[inline(always)]
fn has_same_segment(old: &[u8], new: &[u8], version: IpVersion, plan: &SegmentPlan) -> bool
    requires version { version_of old.now ≡ Some version }
    requires same_version { version_of new.now ≡ Some version }
    requires plan { plan.now ≡ segment_plan_of old.now }
    requires headers { has_same_headers_of old.now new.now ≡ true }
    ensures { result ≡ same_segment_plan (segment_plan_of old.now) (segment_plan_of new.now) }
{
    if plan.src_port.is_none() {
        return *plan == segment_plan(new, Some(version));
    }
    has_segment(new, version) && (is_udp(old, version) || has_data_of(new, version, plan))
}

/// Adjusts the header checksum of a packet of the same lengths, if its header has one.
#[inline(always)]
fn seal_header(old: &[u8], new: &mut [u8], version: IpVersion)
    requires version { version_of old.now ≡ Some version }
    requires same_len { length old.now ≡ length new.old }
    requires same_header { header_len_of old.now ≡ header_len_of new.old }
    ensures { new.new ≡ header_sealed old.now new.old }
{
    if let Some(at) = header_sum_at(old, version) {
        let end = (header_len(old, version) + HEADER).min(old.len());
        let checksum = header_change(old, new, end).applied(word(old, at));
        write_word(new, at, checksum);
    }
}

/// What changed under the checksum of a header that ends at `end`.
fn header_change(old: &[u8], new: &[u8], end: usize) -> Change
    requires same { length old.now ≡ length new.now }
    requires room { 14 ≤ end }
    requires inside { end ≤ length old.now }
    requires short { end ≤ 62 }
    ensures { IsChange (header_bytes end old.now) (header_bytes end new.now) result }
{
    Change::none()
        .with_bytes(&old[HEADER..HEADER_SUM], &new[HEADER..HEADER_SUM])
        .with_bytes(&old[HEADER_SUM + 2..end], &new[HEADER_SUM + 2..end])
}

/// Adjusts the TCP or UDP checksum of a packet of the same version, lengths and places, the old one has
/// this plan.
#[inline(always)]
fn seal_segment(old: &[u8], new: &mut [u8], version: IpVersion, plan: &SegmentPlan)
    requires version { version_of old.now ≡ Some version }
    requires same_version { version_of new.old ≡ Some version }
    requires plan { plan.now ≡ segment_plan_of old.now }
    requires payload { IfSome plan.now.payload (λ s. s.at + s.len ≤ length old.now) }
    requires short { IfSome plan.now.payload (λ s. s.len ≤ 65537) }
    requires sum_at { IfSome plan.now.sum_at (λ at. at + 2 ≤ length old.now) }
    requires same_len { length old.now ≡ length new.old }
    requires same_header { header_len_of old.now ≡ header_len_of new.old }
    ensures { new.new ≡ segment_sealed old.now new.old }
{
    if let Some(at) = plan.sum_at {
        let format = version.format();
        let addresses = Span {
            at: format.src_ip,
            len: 2 * format.address_len,
        };
        let is_udp = is_udp(old, version);
        let start = segment_at(old, version);
        let payload = summed_data(old, is_udp, start, plan.payload);
        let change = segment_change(old, new, addresses, start, payload);
        let checksum = segment_checksum(is_udp, word(old, at), change);
        write_word(new, at, checksum);
    }
}

/// What changed under the checksum of a transport header that begins at `start`, with this payload under it.
#[inline(always)]
fn segment_change(
    old: &[u8],
    new: &[u8],
    addresses: Span,
    start: usize,
    payload: Option<Span>,
) -> Change
    requires same { length old.now ≡ length new.now }
    requires addresses { addresses.at + addresses.len ≤ start }
    requires few { addresses.len ≤ 32 }
    requires even { addresses.len % 2 ≡ 0 }
    requires ports { start + 4 ≤ length old.now }
    requires payload { IfSome payload (λ s. s.at + s.len ≤ length old.now) }
    requires short { IfSome payload (λ s. s.len ≤ 65537) }
    ensures { IsChange (segment_bytes addresses start payload old.now) (segment_bytes addresses start payload new.now) result }
{
    let change = Change::none()
        .with_bytes(part(old, addresses), part(new, addresses))
        .with_bytes(&old[start..start + 4], &new[start..start + 4]);
    match payload {
        Some(span) => change.with_data(part(old, span), part(new, span)),
        None => change,
    }
}

/// A TCP or UDP checksum after a change.
fn segment_checksum(is_udp: bool, checksum: u16, change: Change) -> u16
    requires { change.sum < 2 ^ 40 }
    ensures { result ≡ checksum_after is_udp checksum change }
{
    if is_udp && checksum == 0 {
        return 0;
    }
    let sum = change.applied(checksum);
    if is_udp && sum == 0 { u16::MAX } else { sum }
}

/// Writes a word in its place.
fn write_word(bytes: &mut [u8], at: usize, value: u16)
    requires { at + 2 ≤ length bytes.old }
    ensures { bytes.new ≡ overwritten at (word_bytes value) bytes.old }
{
    BigEndian::write_u16(&mut bytes[at..], value);
}
