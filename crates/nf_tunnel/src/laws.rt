//! Properties of a tunnel, stated without its steps.
ghost use Rattle.std.specs.Prelude.{◌≡◌, ◌≢◌, ◌≤◌, ◌+◌, ℕ, List, [], ◌∷◌, length, take, true, Some};
ghost use Rattle.std.specs.Option.{option_map};
ghost use Rattle.std.specs.Net.Addr.{ipv4_octets};
ghost use Rattle.packet_fields.specs.Frames.{packet};
ghost use Rattle.packet_fields.specs.Packets.{protocol, total_len};
ghost use Rattle.packet_fields.specs.Fields.{value};
ghost use Rattle.packet_fields.specs.Checksums.{words, header_of, IsRight};
ghost use Rattle.packet_fields.specs.declared.field.Field.{Field};
ghost use Rattle.nf_tunnel.specs.Tunnels.{header_at, enters, encapsulated, decapsulated};

use crate::decap::Decap;
use crate::encap::Encap;
use internet_checksum::a_checksum_makes_bytes_right;

/// A tunnel leaves no trace: its exit restores what its entry changed.
pub fn an_exit_undoes_its_entry(entry: Encap, exit: Decap)
    ensures { (frame : List ℕ) → exit.exit ≡ entry.exit → encapsulated entry frame ≢ frame → decapsulated exit (encapsulated entry frame) ≡ frame }
{}

/// The outer header is right: its sum in one's complement, its checksum included, is all ones (RFC 1071, 1).
pub fn the_outer_checksum_is_right(entry: Encap)
    ensures { (frame : List ℕ) → encapsulated entry frame ≢ frame → IsRight (words (header_of (packet (encapsulated entry frame)))) }
{
    a_checksum_makes_bytes_right();
}

/// The functions after an entry see the tunnel's addresses and time to live, the type of service of the packet inside,
/// the protocol IP in IP, and a length that is twenty bytes greater.
pub fn the_outer_header_is_seen(entry: Encap)
    ensures src_ip { (frame : List ℕ) → encapsulated entry frame ≢ frame → value Field.SrcIp (encapsulated entry frame) ≡ Some (ipv4_octets entry.entry) }
    ensures dst_ip { (frame : List ℕ) → encapsulated entry frame ≢ frame → value Field.DstIp (encapsulated entry frame) ≡ Some (ipv4_octets entry.exit) }
    ensures ttl { (frame : List ℕ) → encapsulated entry frame ≢ frame → value Field.Ttl (encapsulated entry frame) ≡ Some (entry.ttl ∷ []) }
    ensures tos { (frame : List ℕ) → encapsulated entry frame ≢ frame → value Field.Tos (encapsulated entry frame) ≡ value Field.Tos frame }
    ensures protocol { (frame : List ℕ) → encapsulated entry frame ≢ frame → protocol (packet (encapsulated entry frame)) ≡ Some 4 }
    ensures length { (frame : List ℕ) → encapsulated entry frame ≢ frame → total_len (packet (encapsulated entry frame)) ≡ option_map (λ n. n + 20) (total_len (packet frame)) }
{}

/// An entry changes each frame whose packet goes in: it adds twenty bytes, and keeps the bytes before the IP header,
/// which are the link addresses, the tags and the EtherType.
pub fn an_entry_adds_twenty_bytes(entry: Encap)
    ensures changes { (frame : List ℕ) → enters (packet frame) ≡ true → encapsulated entry frame ≢ frame }
    ensures length { (frame : List ℕ) → encapsulated entry frame ≢ frame → length (encapsulated entry frame) ≡ length frame + 20 }
    ensures before { (frame : List ℕ) → take (header_at frame) (encapsulated entry frame) ≡ take (header_at frame) frame }
{}

/// If an exit changes a frame, it removes twenty bytes, or more if the outer header has options, and keeps the bytes
/// before the IP header.
pub fn an_exit_takes_twenty_bytes_or_more(exit: Decap)
    ensures length { (frame : List ℕ) → decapsulated exit frame ≢ frame → length (decapsulated exit frame) + 20 ≤ length frame }
    ensures before { (frame : List ℕ) → take (header_at frame) (decapsulated exit frame) ≡ take (header_at frame) frame }
{}
