//! The exit of a tunnel.

mod build;
mod lines;

use crate::encap::IP_IN_IP;
use crate::ipv4::{
    DESTINATION, FRAGMENT, HEADER, PROTOCOL, datagram_len, header_len, ipv4_at, packet_from,
};
use internet_checksum::word;
use packet_fields::{Frame, Span};
use std::alloc::AllocError;
use std::net::Ipv4Addr;

/// The exit of a tunnel, which takes packets out of packets (RFC 2003, 3).
#[derive(Clone, Copy, Debug)]
pub struct Decap {
    /// The destination of the outer header.
    exit: Ipv4Addr,
}

impl Decap {
    ghost use Rattle.std.specs.Prelude.{◌≡◌, ◌≤◌, ◌+◌, length, true, is_ok, IfOk, IfSome};
    ghost use Rattle.nf_tunnel.specs.Tunnels.{decapsulated, arrives as arrives_of, is_for as is_for_of};
    ghost use Rattle.nf_tunnel.specs.Headers.{HasHeader, outer_span as outer_span_of};

    /// The exit of a tunnel whose end has this address.
    pub fn new(exit: Ipv4Addr) -> Decap
        ensures { result ≡ record { exit = exit } }
    {
        Decap { exit }
    }

    /// The frame after the exit: without the outer header if its packet leaves the tunnel here, and unchanged
    /// otherwise. It allocates nothing.
    pub fn step(&self, frame: Frame) -> Result<Frame, AllocError>
        ensures frame { IfOk result (λ new. new ≡ decapsulated self.now frame) }
        ensures never_fails { is_ok result ≡ true }
    {
        let Some(outer) = self.outer_span(frame.bytes()) else {
            return Ok(frame);
        };
        Ok(Frame::new(without(frame.into_bytes(), outer)))
    }

    // The span of the outer header of a frame, if its packet leaves the tunnel.
    fn outer_span(&self, frame: &[u8]) -> Option<Span>
        ensures span { result ≡ outer_span_of self.now frame.now }
        ensures inside { IfSome result (λ s. s.at + s.len ≤ length frame.now) }
    {
        let start = ipv4_at(frame)?;
        let packet = packet_from(frame, start);
        if self.arrives(packet) {
            Some(Span {
                at: start + HEADER,
                len: header_len(packet),
            })
        } else {
            None
        }
    }

    // Does a packet carry another one to the exit?
    fn arrives(&self, packet: &[u8]) -> bool
        requires { HasHeader packet.now }
        ensures { result ≡ arrives_of self.now packet.now }
    {
        packet[PROTOCOL] == IP_IN_IP
            && self.is_for(packet)
            && word(packet, FRAGMENT) % 0x4000 == 0
            && holds_ipv4(packet)
    }

    // Is the packet sent to the exit?
    fn is_for(&self, packet: &[u8]) -> bool
        requires { 22 ≤ length packet.now }
        ensures { result ≡ is_for_of self.now packet.now }
    {
        let exit = self.exit.octets();
        packet[DESTINATION..DESTINATION + 4] == exit[..]
    }
}

ghost use Rattle.std.specs.Prelude.{◌≡◌, ◌≤◌, ◌+◌, ◌++◌, length, take, drop};
ghost use Rattle.nf_tunnel.specs.Tunnels.{holds_ipv4 as holds_ipv4_of};
ghost use Rattle.nf_tunnel.specs.Headers.{HasHeader};

// Does an IPv4 header begin after the header of a packet?
fn holds_ipv4(packet: &[u8]) -> bool
    requires { HasHeader packet.now }
    ensures { result ≡ holds_ipv4_of packet.now }
{
    let len = header_len(packet);
    let inner = HEADER + len;
    len < usize::from(datagram_len(packet)) && inner < packet.len() && packet[inner] / 16 == 4
}

// The bytes without those of the span `gone`.
fn without(bytes: Vec<u8>, gone: Span) -> Vec<u8>
    requires { gone.at + gone.len ≤ length bytes.items }
    ensures { result.items ≡ take gone.at bytes.items ++ drop (gone.at + gone.len) bytes.items }
{
    let mut kept = bytes;
    let len = kept.len() - gone.len;
    kept.copy_within(gone.at + gone.len.., gone.at);
    kept.truncate(len);
    kept
}
