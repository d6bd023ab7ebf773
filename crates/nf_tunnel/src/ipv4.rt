//! The IPv4 header of a packet (RFC 791, 3.1). A packet begins with its EtherType.
ghost use Rattle.std.specs.Prelude.{◌≡◌, ◌≤◌, ◌+◌, length, true, IfSome, if◌then◌else◌};
ghost use Rattle.packet_fields.specs.Frames.{packet_at, packet as packet_of};
ghost use Rattle.packet_fields.specs.Packets.{is_ipv4, header_len as header_len_of, datagram_len as datagram_len_of};
ghost use Rattle.nf_tunnel.specs.Tunnels.{has_ipv4_header};
ghost use Rattle.nf_tunnel.specs.Headers.{HasHeader};

use internet_checksum::word;
use packet_fields::{IpVersion, Outline};

/// Where the header begins in a packet: after the two bytes of the EtherType.
pub const HEADER: usize = 2;

// The places of its fields.
pub const TYPE_OF_SERVICE: usize = HEADER + 1;

const TOTAL_LEN: usize = HEADER + 2;

pub const FRAGMENT: usize = HEADER + 6;

pub const PROTOCOL: usize = HEADER + 9;

pub const DESTINATION: usize = HEADER + 16;

/// Where the packet of a frame begins, if it has an IPv4 header all of whose bytes are captured.
pub fn ipv4_at(frame: &[u8]) -> Option<usize>
    ensures place { result ≡ (if has_ipv4_header (packet_of frame.now) then Some (packet_at frame.now) else None) }
    ensures header { IfSome result (λ start. HasHeader (packet_of frame.now)) }
    ensures begins { IfSome result (λ start. start ≡ packet_at frame.now) }
    ensures inside { IfSome result (λ start. start + 22 ≤ length frame.now) }
{
    let start = version_4_at(frame)?;
    let packet = packet_from(frame, start);
    if HEADER + header_len(packet) <= packet.len() {
        Some(start)
    } else {
        None
    }
}

/// Where the packet of a frame begins, if an IPv4 header begins after its EtherType.
fn version_4_at(frame: &[u8]) -> Option<usize>
    ensures place { result ≡ (if is_ipv4 (packet_of frame.now) then Some (packet_at frame.now) else None) }
    ensures there { IfSome result (λ start. is_ipv4 (packet_of frame.now) ≡ true) }
    ensures begins { IfSome result (λ start. start ≡ packet_at frame.now) }
    ensures inside { IfSome result (λ start. start ≤ length frame.now) }
{
    let outline = Outline::of(frame);
    match outline.version {
        Some(IpVersion::V4) => Some(outline.start),
        Some(IpVersion::V6) => None,
        None => None,
    }
}

/// The packet of a frame, which begins at this place.
pub fn packet_from(frame: &[u8], start: usize) -> &[u8]
    requires begins { start ≡ packet_at frame.now }
    requires inside { start ≤ length frame.now }
    ensures { result.now ≡ packet_of frame.now }
{
    &frame[start..]
}

/// The header's length in bytes.
pub fn header_len(packet: &[u8]) -> usize
    requires { is_ipv4 packet.now ≡ true }
    ensures len { result ≡ header_len_of packet.now }
    ensures least { 20 ≤ result }
    ensures most { result ≤ 60 }
{
    4 * usize::from(packet[HEADER] % 16)
}

/// The datagram's length in bytes, its header included.
pub fn datagram_len(packet: &[u8]) -> u16
    requires { HasHeader packet.now }
    ensures { result ≡ datagram_len_of packet.now }
{
    word(packet, TOTAL_LEN)
}
