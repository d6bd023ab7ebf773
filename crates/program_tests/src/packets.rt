//! Captures as data: the fields of each packet, and its bytes.

ghost use Rattle.std.specs.Prelude.{◌≤◌};

use crate::plenty::had;
use std::alloc::{AllocError, Global};
use std::process::Abort;

/// Version 2.4, snaplen 65535, Ethernet.
pub const HEAD: [u8; 24] = [
    0xd4, 0xc3, 0xb2, 0xa1, 2, 0, 4, 0, 0, 0, 0, 0, 0, 0, 0, 0, 0xff, 0xff, 0, 0, 1, 0, 0, 0,
];

/// From 10.0.0.1, port 1000, to 10.0.0.2, port 53, without data.
pub const FIRST: Datagram<'static> = Datagram {
    second: 0,
    type_of_service: 0,
    time_to_live: 64,
    checksum: [0x66, 0xcf],
    source: [10, 0, 0, 1],
    source_port: 1000,
    destination: [10, 0, 0, 2],
    destination_port: 53,
    data: b"",
};

/// Packets of the hosts 1, 9 and 1.
pub const THREE: Capture<'static> = Capture {
    head: &HEAD,
    packets: &[Packet::From(1), Packet::From(9), Packet::From(1)],
};

/// A capture without a packet.
pub const NONE: Capture<'static> = Capture {
    head: &HEAD,
    packets: &[],
};

/// No capture.
pub const NOTHING: Capture<'static> = Capture {
    head: &[],
    packets: &[],
};

/// A UDP datagram (RFC 768) without a checksum, in an IPv4 header without options (RFC 791) that has this checksum. It
/// has fewer than 200 bytes of data.
#[derive(Clone, Copy)]
pub struct Datagram<'a> {
    pub second: u8,
    pub type_of_service: u8,
    pub time_to_live: u8,
    pub checksum: [u8; 2],
    pub source: [u8; 4],
    pub source_port: u16,
    pub destination: [u8; 4],
    pub destination_port: u16,
    pub data: &'a [u8],
}

/// A UDP datagram without data in IPv6 (RFC 8200), from 2001:db8::1, port 1000, to 2001:db8::`host`, port 53.
#[derive(Clone, Copy)]
pub struct Datagram6 {
    pub hop_limit: u8,
    pub host: u8,
    pub checksum: [u8; 2],
}

/// The frame of a record.
#[derive(Clone, Copy)]
pub enum Packet<'a> {
    /// [`FIRST`] from another host of 10.0.0.0/24, with its checksum left as it is.
    From(u8),
    /// [`FIRST`] at this second, from another port.
    At(u8, u16),
    Udp(Datagram<'a>),
    Udp6(Datagram6),
    /// These bytes, and this number of zeros after them; fewer than 200 in all.
    Frame(&'a [u8], u8),
    /// The first bytes of a record, whose rest is missing, or a block of a pcapng capture.
    Cut(&'a [u8]),
}

/// The head of a capture, and its packets.
#[derive(Clone, Copy)]
pub struct Capture<'a> {
    pub head: &'a [u8],
    pub packets: &'a [Packet<'a>],
}

impl Capture<'_> {
    /// The bytes of the capture.
    pub fn bytes(self, rt: &impl Abort, alloc: Global) -> Vec<u8> {
        let mut capture = had(rt, self.head.to_vec(alloc));
        for packet in self.packets {
            had(rt, push_packet(&mut capture, packet));
        }
        capture
    }
}

fn push_packet(capture: &mut Vec<u8>, packet: &Packet<'_>) -> Result<(), AllocError> {
    match packet {
        Packet::From(host) => {
            let source = [10, 0, 0, *host];
            push_datagram(capture, &Datagram { source, ..FIRST })
        }
        Packet::At(second, port) => {
            let (second, source_port) = (*second, *port);
            push_datagram(
                capture,
                &Datagram {
                    second,
                    source_port,
                    ..FIRST
                },
            )
        }
        Packet::Udp(datagram) => push_datagram(capture, datagram),
        Packet::Udp6(datagram) => push_datagram6(capture, datagram),
        Packet::Frame(front, zeros) => push_frame(capture, front, *zeros),
        Packet::Cut(bytes) => capture.extend_from_slice(bytes),
    }
}

// A record is one list, so that only a few steps allocate memory.
fn push_datagram(capture: &mut Vec<u8>, datagram: &Datagram<'_>) -> Result<(), AllocError> {
    let size = size_of(datagram.data);
    let (second, length, tos, ttl) = (
        datagram.second,
        42 + size,
        datagram.type_of_service,
        datagram.time_to_live,
    );
    let [c0, c1] = datagram.checksum;
    let [s0, s1, s2, s3] = datagram.source;
    let [d0, d1, d2, d3] = datagram.destination;
    let [p0, p1] = datagram.source_port.to_be_bytes();
    let [q0, q1] = datagram.destination_port.to_be_bytes();
    let record = [
        second,
        0,
        0,
        0,
        0,
        0,
        0,
        0,
        length,
        0,
        0,
        0,
        length,
        0,
        0,
        0, // its head
        2,
        0,
        0,
        0,
        0,
        2,
        2,
        0,
        0,
        0,
        0,
        1,
        8,
        0, // Ethernet
        0x45,
        tos,
        0,
        28 + size,
        0,
        0,
        0,
        0,
        ttl,
        17,
        c0,
        c1,
        s0,
        s1,
        s2,
        s3,
        d0,
        d1,
        d2,
        d3, // IPv4
        p0,
        p1,
        q0,
        q1,
        0,
        8 + size,
        0,
        0, // UDP
    ];
    capture.extend_from_slice(&record)?;
    capture.extend_from_slice(datagram.data)
}

fn push_datagram6(capture: &mut Vec<u8>, datagram: &Datagram6) -> Result<(), AllocError> {
    let (hop_limit, host) = (datagram.hop_limit, datagram.host);
    let [c0, c1] = datagram.checksum;
    let record = [
        0, 0, 0, 0, 0, 0, 0, 0, 62, 0, 0, 0, 62, 0, 0, 0, // its head
        2, 0, 0, 0, 0, 2, 2, 0, 0, 0, 0, 1, 0x86, 0xdd, // Ethernet
        0x60, 0, 0, 0, 0, 8, 17, hop_limit, // IPv6, without its addresses
        0x20, 1, 0xd, 0xb8, 0, 0, 0, 0, 0, 0, 0, 0, 0, 0, 0, 1, //
        0x20, 1, 0xd, 0xb8, 0, 0, 0, 0, 0, 0, 0, 0, 0, 0, 0, host, //
        3, 0xe8, 0, 53, 0, 8, c0, c1, // UDP
    ];
    capture.extend_from_slice(&record)
}

fn push_frame(capture: &mut Vec<u8>, front: &[u8], zeros: u8) -> Result<(), AllocError> {
    let length = size_of(front).wrapping_add(zeros);
    capture.extend_from_slice(&[0, 0, 0, 0, 0, 0, 0, 0, length, 0, 0, 0, length, 0, 0, 0])?;
    capture.extend_from_slice(front)?;
    for _ in 0..zeros {
        capture.push(0)?;
    }
    Ok(())
}

// The number of these bytes, fewer than 200.
fn size_of(bytes: &[u8]) -> u8
    ensures { result ≤ 200 }
{
    bytes.len().min(200) as u8
}
