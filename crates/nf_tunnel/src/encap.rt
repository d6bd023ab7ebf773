//! The entry of a tunnel.

mod build;
mod lines;

use crate::ipv4::{
    FRAGMENT, HEADER, TYPE_OF_SERVICE, datagram_len, header_len, ipv4_at, packet_from,
};
use internet_checksum::{checksum, word_bytes};
use packet_fields::Frame;
use std::alloc::{AllocError, Global};
use std::net::Ipv4Addr;

/// The length of the outer header, which has no options.
const OUTER_LEN: u16 = 20;

/// The protocol number of IP in IP (RFC 2003, 3.1).
pub(crate) const IP_IN_IP: u8 = 4;

/// The entry of a tunnel, which puts packets into packets (RFC 2003, 3).
#[derive(Clone, Copy, Debug)]
pub struct Encap {
    /// The source of the outer header.
    entry: Ipv4Addr,
    /// The destination of the outer header.
    exit: Ipv4Addr,
    /// The time to live of the outer header.
    ttl: u8,
}

impl Encap {
    ghost use Rattle.std.specs.Prelude.{◌≡◌, ◌≤◌, ◌+◌, length, true, false, is_ok, IfOk};
    ghost use Rattle.packet_fields.specs.Frames.{packet_at, packet as packet_of};
    ghost use Rattle.nf_tunnel.specs.OuterHeaders.{outer_header as outer_header_of, outer_with as outer_with_of};
    ghost use Rattle.nf_tunnel.specs.Tunnels.{encapsulated, enters};
    ghost use Rattle.nf_tunnel.specs.Headers.{Enters};

    /// The entry of a tunnel between two addresses, whose outer headers have this time to live.
    pub fn new(entry: Ipv4Addr, exit: Ipv4Addr, ttl: u8) -> Encap
        requires { 1 ≤ ttl }
        ensures { result ≡ record { entry = entry; exit = exit; ttl = ttl } }
    {
        Encap { entry, exit, ttl }
    }

    /// The frame after the entry: with an outer header if its packet goes in, and unchanged otherwise. It allocates
    /// memory only for a packet that goes in; if there is none, the frame is lost.
    pub fn step(&self, alloc: Global, frame: Frame) -> Result<Frame, AllocError>
        ensures frame { IfOk result (λ new. new ≡ encapsulated self.now frame) }
        ensures cause { enters (packet_of frame) ≡ false → is_ok result ≡ true }
    {
        let Some(start) = entering_at(frame.bytes()) else {
            return Ok(frame);
        };
        let bytes = self.around(alloc, frame.bytes(), start)?;
        Ok(Frame::new(bytes))
    }

    // The frame with an outer header before its IP header.
    fn around(&self, alloc: Global, frame: &[u8], start: usize) -> Result<Vec<u8>, AllocError>
        requires start { start ≡ packet_at frame.now }
        requires enters { enters (packet_of frame.now) ≡ true }
        requires inside { start + 22 ≤ length frame.now }
        ensures { IfOk result (λ bytes. bytes.items ≡ encapsulated self.now frame.now) }
    {
        let outer = self.outer_header(packet_from(frame, start));
        let (before, datagram) = frame.split_at(start + HEADER);
        let mut bytes = Vec::with_capacity(alloc, frame.len() + outer.len())?;
        bytes.extend_from_slice(before)?;
        bytes.extend_from_slice(&outer)?;
        bytes.extend_from_slice(datagram)?;
        Ok(bytes)
    }

    // The outer header of a packet.
    #[tactic(auto, unfolding(crate::specs::OuterHeaders::outer_header))]
    fn outer_header(&self, packet: &[u8]) -> [u8; 20]
        requires { Enters packet.now }
        ensures { result ≡ outer_header_of self.now packet.now }
    {
        let blank = self.outer_with(0, packet);
        self.outer_with(checksum(&blank), packet)
    }

    // The outer header of a packet, with this checksum.
    fn outer_with(&self, checksum: u16, packet: &[u8]) -> [u8; 20]
        requires { Enters packet.now }
        ensures { result ≡ outer_with_of checksum self.now packet.now }
    {
        let [len_high, len_low] = word_bytes(datagram_len(packet) + OUTER_LEN);
        let [sum_high, sum_low] = word_bytes(checksum);
        let source = self.entry.octets();
        let destination = self.exit.octets();
        [
            0x45,
            packet[TYPE_OF_SERVICE],
            len_high,
            len_low,
            0,
            0,
            packet[FRAGMENT] / 0x40 % 2 * 0x40,
            0,
            self.ttl,
            IP_IN_IP,
            sum_high,
            sum_low,
            source[0],
            source[1],
            source[2],
            source[3],
            destination[0],
            destination[1],
            destination[2],
            destination[3],
        ]
    }
}

ghost use Rattle.std.specs.Prelude.{◌≡◌, ◌≤◌, ◌+◌, length, IfSome, if◌then◌else◌};
ghost use Rattle.packet_fields.specs.Frames.{packet_at, packet as packet_of};
ghost use Rattle.nf_tunnel.specs.Tunnels.{enters, fits as fits_of};
ghost use Rattle.nf_tunnel.specs.Headers.{HasHeader};

// Where the packet of a frame begins, if it goes into a tunnel.
fn entering_at(frame: &[u8]) -> Option<usize>
    ensures place { result ≡ (if enters (packet_of frame.now) then Some (packet_at frame.now) else None) }
    ensures inside { IfSome result (λ start. start + 22 ≤ length frame.now) }
{
    let start = ipv4_at(frame)?;
    if fits(packet_from(frame, start)) {
        Some(start)
    } else {
        None
    }
}

// Does a packet's header lie within its length, and can the length grow by twenty?
fn fits(packet: &[u8]) -> bool
    requires { HasHeader packet.now }
    ensures { result ≡ fits_of packet.now }
{
    let len = datagram_len(packet);
    header_len(packet) <= usize::from(len) && len <= u16::MAX - OUTER_LEN
}
