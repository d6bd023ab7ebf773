//! Captures of UDP packets from hosts of 10.0.0.0/24 to 10.0.0.2, in both formats.

use crate::plenty::had;
use fixtures::udp;
use std::alloc::{AllocError, Global};
use std::process::Abort;

// Version 2.4, snaplen 65535, Ethernet.
const HEAD: [u8; 24] = [
    0xd4, 0xc3, 0xb2, 0xa1, 2, 0, 4, 0, 0, 0, 0, 0, 0, 0, 0, 0, 0xff, 0xff, 0, 0, 1, 0, 0, 0,
];

// The head of a record with 42 bytes.
const RECORD: [u8; 16] = [0, 0, 0, 0, 0, 0, 0, 0, 42, 0, 0, 0, 42, 0, 0, 0];

// A section header without the section's length, and an interface for Ethernet with snaplen 65535.
const HEAD_BLOCKS: [u8; 48] = [
    0x0a, 0x0d, 0x0d, 0x0a, 28, 0, 0, 0, 0x4d, 0x3c, 0x2b, 0x1a, 1, 0, 0, 0, 255, 255, 255, 255,
    255, 255, 255, 255, 28, 0, 0, 0, //
    1, 0, 0, 0, 20, 0, 0, 0, 1, 0, 0, 0, 255, 255, 0, 0, 20, 0, 0, 0,
];

// What is before the 42 bytes of a packet in its block, and behind them.
const BLOCK_HEAD: [u8; 28] = [
    6, 0, 0, 0, 76, 0, 0, 0, 0, 0, 0, 0, 0, 0, 0, 0, 0, 0, 0, 0, 42, 0, 0, 0, 42, 0, 0, 0,
];

const BLOCK_END: [u8; 6] = [0, 0, 76, 0, 0, 0];

/// A capture of a packet from each of these hosts.
#[derive(Clone, Copy)]
pub enum Capture<'a> {
    Classic(&'a [u8]),
    Pcapng(&'a [u8]),
    /// A classic one whose last packet lacks its last byte.
    Cut(&'a [u8]),
}

impl Capture<'_> {
    /// The bytes of the capture.
    pub fn bytes(self, rt: &impl Abort, alloc: Global) -> Vec<u8> {
        match self {
            Capture::Classic(hosts) => had(rt, classic(alloc, hosts)),
            Capture::Pcapng(hosts) => had(rt, pcapng(alloc, hosts)),
            Capture::Cut(hosts) => {
                let mut bytes = had(rt, classic(alloc, hosts));
                bytes.truncate(bytes.len().saturating_sub(1));
                bytes
            }
        }
    }
}

fn classic(alloc: Global, hosts: &[u8]) -> Result<Vec<u8>, AllocError> {
    let mut bytes = HEAD.to_vec(alloc)?;
    for host in hosts {
        bytes.extend_from_slice(&RECORD)?;
        bytes.extend_from_slice(&udp(*host, 1000))?;
    }
    Ok(bytes)
}

fn pcapng(alloc: Global, hosts: &[u8]) -> Result<Vec<u8>, AllocError> {
    let mut bytes = HEAD_BLOCKS.to_vec(alloc)?;
    for host in hosts {
        bytes.extend_from_slice(&BLOCK_HEAD)?;
        bytes.extend_from_slice(&udp(*host, 1000))?;
        bytes.extend_from_slice(&BLOCK_END)?;
    }
    Ok(bytes)
}
