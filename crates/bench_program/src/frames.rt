//! The burst that is run through a chain.
use capture_bytes::PcapRecord;
use classifier::{Burst, Item};
use item_list::Items;
use packet_fields::Frame;
use std::alloc::{AllocError, Global};

/// The number of packets of a burst if the words have none.
pub const BURST: u32 = 1_024;

/// Addresses, and the headers of a UDP datagram from 10.0.0.1:1000 to 10.0.0.2:53; its lengths are put in.
const HEADERS: [u8; 42] = [
    2, 0, 0, 0, 0, 2, 2, 0, 0, 0, 0, 1, 8, 0, 0x45, 0, 0, 28, 0, 0, 0, 0, 64, 17, 0x66, 0xcf, 10,
    0, 0, 1, 10, 0, 0, 2, 0x03, 0xe8, 0, 53, 0, 8, 0, 0,
];

/// `packets` packets of `size` bytes, at least 42 and below 65,536 each, from the sources 10.0.0.0 to 10.0.0.255 in
/// turn. Their data are small letters.
pub fn burst_of(alloc: Global, packets: u32, size: u16) -> Result<Burst, AllocError> {
    let mut items = Vec::new(alloc);
    for number in 0..packets {
        items.push(item(alloc, number, size)?)?;
    }
    Ok(Burst {
        items: Items::new(items),
    })
}

fn item(alloc: Global, number: u32, size: u16) -> Result<Item, AllocError> {
    Ok(Item {
        number,
        class: Some(0),
        packet: PcapRecord {
            seconds: number,
            fraction: 0,
            wire: u32::from(size),
            frame: Frame::new(frame(alloc, number, size)?),
        },
    })
}

fn frame(alloc: Global, number: u32, size: u16) -> Result<Vec<u8>, AllocError> {
    let mut headers = HEADERS;
    let [high, low] = size.saturating_sub(14).to_be_bytes();
    headers[16] = high;
    headers[17] = low;
    headers[29] = (number % 256) as u8;
    let [high, low] = size.saturating_sub(34).to_be_bytes();
    headers[38] = high;
    headers[39] = low;
    let mut bytes = Vec::from_slice(alloc, &headers)?;
    for place in 42..size.max(42) {
        bytes.push(letter(number, place))?;
    }
    Ok(bytes)
}

// One of 26 letters, by the bits of a product, so that no short word recurs all the time.
fn letter(number: u32, place: u16) -> u8 {
    let mixed = (number ^ u32::from(place)).wrapping_mul(2_654_435_761);
    b'a' + (mixed >> 24) as u8 % 26
}
