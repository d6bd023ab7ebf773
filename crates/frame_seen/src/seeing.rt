//! Values of fields as numbers.
ghost use Rattle.std.specs.Prelude.{◌≡◌, length, IfSome};
ghost use Rattle.std.specs.Option.{option_map, option_map_or, option_and_then, option_copied};
ghost use Rattle.byteorder.specs.Endian.{big_number};
ghost use Rattle.packet_fields.specs.Fields.{IsLengthOf};
ghost use Rattle.packet_fields.specs.declared.field.Field.{Field};
ghost use Rattle.policy_text.specs.declared.seen.TagSeen.{TagSeen};
ghost use Rattle.frame_seen.specs.Seeing.{outermost, address_of, ip_address_of, seen_of};

use byteorder::{BigEndian, ByteOrder};
use packet_fields::{Field, Outline};
use policy_text::{Seen, TagSeen};
use std::net::IpAddr;

/// What clauses see of a frame. Allocates nothing.
pub fn seen(frame: &[u8]) -> Seen
    ensures { result ≡ seen_of frame.now }
{
    let outline = Outline::of(frame);
    let source = outline.get(Field::SrcIp, frame);
    let destination = outline.get(Field::DstIp, frame);
    Seen {
        tag: seen_tags(outline.get(Field::Tag, frame)),
        src: seen_address(source),
        dst: seen_address(destination),
        src6: seen_address6(source),
        dst6: seen_address6(destination),
        sport: seen_port(outline.get(Field::SrcPort, frame)),
        dport: seen_port(outline.get(Field::DstPort, frame)),
        proto: outline.protocol(frame),
        ether_type: outline.ether_type(frame),
        tcp_flags: outline.control_bits(frame),
    }
}

/// The outermost of a frame's tags, if the frame is long enough to have tags.
#[inline(always)]
pub fn seen_tags(tags: Option<&[u8]>) -> TagSeen
    requires { IfSome tags (λ bytes. IsLengthOf Field.Tag (length bytes.now)) }
    ensures { result ≡ option_map_or outermost (option_copied tags.entry) TagSeen.Absent }
{
    match tags {
        None => TagSeen::Absent,
        Some(bytes) if bytes.len() < 4 => TagSeen::Bare,
        Some(bytes) => TagSeen::Id(BigEndian::read_u16(&bytes[2..4]) % 4096),
    }
}

/// An IPv4 address as a number, most significant byte first (RFC 791, 3.1). `None` for an address of IPv6.
#[inline(always)]
pub fn seen_address(bytes: Option<&[u8]>) -> Option<u32>
    ensures { result ≡ option_and_then (address_of 4) (option_copied bytes.entry) }
{
    let bytes = bytes?;
    if bytes.len() == 4 {
        Some(BigEndian::read_u32(bytes))
    } else {
        None
    }
}

/// An IPv6 address as a number, most significant byte first (RFC 8200, 3). `None` for an address of IPv4.
#[inline(always)]
pub fn seen_address6(bytes: Option<&[u8]>) -> Option<u128>
    ensures { result ≡ option_and_then (address_of 16) (option_copied bytes.entry) }
{
    let bytes = bytes?;
    if bytes.len() == 16 {
        Some(BigEndian::read_u128(bytes))
    } else {
        None
    }
}

/// An address of either version of IP, by its length: 4 bytes are an address of IPv4 (RFC 791, 3.1), 16 one of IPv6
/// (RFC 8200, 3).
pub fn seen_ip_address(bytes: Option<&[u8]>) -> Option<IpAddr>
    ensures { result ≡ option_and_then ip_address_of (option_copied bytes.entry) }
{
    let bytes = bytes?;
    if let Ok(octets) = <[u8; 4]>::try_from(bytes) {
        return Some(IpAddr::from(octets));
    }
    let octets = <[u8; 16]>::try_from(bytes).ok()?;
    Some(IpAddr::from(octets))
}

/// A port as a number, most significant byte first (RFC 793, 3.1; RFC 768).
#[inline(always)]
pub fn seen_port(bytes: Option<&[u8]>) -> Option<u16>
    requires { IfSome bytes (λ port. length port.now ≡ 2) }
    ensures { result ≡ option_map (big_number 2) (option_copied bytes.entry) }
{
    Some(BigEndian::read_u16(bytes?))
}
