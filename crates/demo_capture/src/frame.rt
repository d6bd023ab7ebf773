//! The frame of a record.
ghost use Rattle.std.specs.Prelude.{◌≡◌, ◌≤◌, ◌+◌, ◌-◌, ◌/◌, ◌%◌, ◌++◌, IfOk, OnOk, if◌then◌else◌, length, slice_set};
ghost use Rattle.demo_capture.specs.Draws.{is_tcp, letters, payload_len, payload_of};
ghost use Rattle.demo_capture.specs.DemoFrames.{ip_header_with as ip_header_with_of, ip_header as ip_header_of, tcp_header as tcp_header_of, udp_header as udp_header_of, pseudo_header as pseudo_header_of, segment_with, segment_len as segment_len_of, segment_checksum as segment_checksum_of, written_checksum as written_checksum_of, frame_with, frame_of};

use crate::draws::Draws;
use internet_checksum::{checksum, complement, sum_words};
use packet_fields::Frame;
use std::alloc::{AllocError, Global};

// The addresses 02:00:00:00:00:02 and 02:00:00:00:00:01, and the EtherType of IPv4.
const LINK_HEADER: [u8; 14] = [2, 0, 0, 0, 0, 2, 2, 0, 0, 0, 0, 1, 8, 0];

// Where the transport header begins.
const SEGMENT: usize = 34;

const MAX_LEN: usize = 117;

/// The frame of a record with these draws.
pub fn make_frame(alloc: Global, draws: Draws) -> Result<Frame, AllocError>
    ensures { IfOk result (λ frame. frame ≡ frame_of draws) }
{
    let mut bytes = blank_frame(alloc, draws)?;
    let checksum = segment_checksum(draws, &bytes);
    put_checksum(&mut bytes, draws, checksum);
    Ok(Frame::new(bytes))
}

// The frame with a checksum of 0 in its transport header.
fn blank_frame(alloc: Global, draws: Draws) -> Result<Vec<u8>, AllocError>
    ensures { IfOk result (λ bytes. bytes.items ≡ frame_with 0 draws) }
{
    let mut bytes = Vec::with_capacity(alloc, MAX_LEN)?;
    bytes.extend_from_slice(&LINK_HEADER)?;
    bytes.extend_from_slice(&ip_header(draws))?;
    push_transport(&mut bytes, draws)?;
    push_payload(&mut bytes, draws)?;
    Ok(bytes)
}

// The IPv4 header.
#[tactic(auto, unfolding(crate::specs::DemoFrames::ip_header))]
fn ip_header(draws: Draws) -> [u8; 20]
    ensures { result ≡ ip_header_of draws }
{
    ip_header_with(draws, checksum(&ip_header_with(draws, 0)))
}

// The IPv4 header with this checksum.
fn ip_header_with(draws: Draws, checksum: u16) -> [u8; 20]
    ensures { result ≡ ip_header_with_of checksum draws }
{
    let total_len = 20 + segment_len(draws);
    let (net, host) = draws.source();
    [
        0x45,
        0,
        high(total_len),
        low(total_len),
        0,
        0,
        0,
        0,
        64,
        draws.protocol(),
        high(checksum),
        low(checksum),
        10,
        0,
        net,
        host,
        198,
        51,
        100,
        draws.destination(),
    ]
}

// The length of the transport header and the payload.
#[tactic(auto, using(crate::proofs::Lengths::length_segment))]
fn segment_len(draws: Draws) -> u16
    ensures value { result ≡ segment_len_of draws }
    ensures short { result ≤ 83 }
{
    let header_len = if draws.is_tcp() { 20 } else { 8 };
    header_len + draws.payload_len()
}

// Adds a transport header with a checksum of 0.
fn push_transport(bytes: &mut Vec<u8>, draws: Draws) -> Result<(), AllocError>
    ensures { OnOk result (bytes.new.items ≡ bytes.old.items ++ (if is_tcp draws then tcp_header_of 0 draws else udp_header_of 0 draws)) }
{
    if draws.is_tcp() {
        bytes.extend_from_slice(&tcp_header(draws))
    } else {
        bytes.extend_from_slice(&udp_header(draws))
    }
}

fn tcp_header(draws: Draws) -> [u8; 20]
    ensures { result ≡ tcp_header_of 0 draws }
{
    let source_port = draws.source_port();
    let destination_port = draws.destination_port();
    [
        high(source_port),
        low(source_port),
        high(destination_port),
        low(destination_port),
        0,
        0,
        0,
        0,
        0,
        0,
        0,
        0,
        0x50,
        0x10,
        0,
        0,
        0,
        0,
        0,
        0,
    ]
}

#[tactic(auto, using(crate::proofs::Lengths::length_payload))]
fn udp_header(draws: Draws) -> [u8; 8]
    ensures { result ≡ udp_header_of 0 draws }
{
    let source_port = draws.source_port();
    let destination_port = draws.destination_port();
    let length = 8 + draws.payload_len();
    [
        high(source_port),
        low(source_port),
        high(destination_port),
        low(destination_port),
        high(length),
        low(length),
        0,
        0,
    ]
}

// Adds the payload.
#[tactic(auto, using(crate::proofs::Lengths::secret_fits))]
fn push_payload(bytes: &mut Vec<u8>, draws: Draws) -> Result<(), AllocError>
    ensures { OnOk result (bytes.new.items ≡ bytes.old.items ++ payload_of draws) }
{
    if draws.has_secret() {
        bytes.extend_from_slice(b"secret")?;
        push_letters(bytes, draws, 6)
    } else {
        push_letters(bytes, draws, 0)
    }
}

// Adds the letters of the payload from a place on.
fn push_letters(bytes: &mut Vec<u8>, draws: Draws, from: u16) -> Result<(), AllocError>
    requires { from ≤ payload_len draws }
    ensures { OnOk result (bytes.new.items ≡ bytes.old.items ++ letters draws from (payload_len draws - from)) }
{
    'letters: for place in from..draws.payload_len() {
        bytes.push(draws.letter(place))?;
    }
    Ok(())
}

// The checksum of the transport header and the payload of a frame that has 0 for it.
fn segment_checksum(draws: Draws, frame: &[u8]) -> u16
    requires blank { frame.now ≡ frame_with 0 draws }
    requires long { 34 ≤ length frame.now }
    requires short { length frame.now ≤ 117 }
    ensures { result ≡ segment_checksum_of draws }
{
    let sum = sum_words(&pseudo_header(draws)) + sum_words(&frame[SEGMENT..]);
    written_checksum(draws, complement(sum))
}

// The checksum as it is written: in UDP, 0 would mean that there is none.
fn written_checksum(draws: Draws, checksum: u16) -> u16
    ensures { result ≡ written_checksum_of draws checksum }
{
    if draws.is_tcp() {
        return checksum;
    }
    if checksum == 0 { u16::MAX } else { checksum }
}

// The pseudo header, which comes before a segment in its sum.
fn pseudo_header(draws: Draws) -> [u8; 12]
    ensures { result ≡ pseudo_header_of draws }
{
    let (net, host) = draws.source();
    let length = segment_len(draws);
    [
        10,
        0,
        net,
        host,
        198,
        51,
        100,
        draws.destination(),
        0,
        draws.protocol(),
        high(length),
        low(length),
    ]
}

// Writes the checksum of the transport header in its place.
fn put_checksum(frame: &mut [u8], draws: Draws, checksum: u16)
    requires { frame.old ≡ frame_with 0 draws }
    ensures { frame.new ≡ frame_with checksum draws }
{
    if draws.is_tcp() {
        put_word(frame, SEGMENT + 16, checksum);
    } else {
        put_word(frame, SEGMENT + 6, checksum);
    }
}

// Writes a word at a place, its high byte first.
fn put_word(bytes: &mut [u8], at: usize, word: u16)
    requires { at + 2 ≤ length bytes.old }
    ensures { bytes.new ≡ slice_set (slice_set bytes.old at (word / 256)) (at + 1) (word % 256) }
{
    bytes[at] = high(word);
    bytes[at + 1] = low(word);
}

fn high(word: u16) -> u8
    ensures { result ≡ word / 256 }
{
    (word / 256) as u8
}

fn low(word: u16) -> u8
    ensures { result ≡ word % 256 }
{
    (word % 256) as u8
}
