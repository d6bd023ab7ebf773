//! A packet with its number, and the packets that run together.
use capture_bytes::PcapRecord;
use item_list::Items;

/// A packet of the capture, with its number from 1 and the chain that takes it, if one does.
#[derive(Drop)]
pub struct Item {
    pub number: u32,
    pub class: Option<u32>,
    pub packet: PcapRecord,
}

/// Packets in their order, which run through the chains together.
#[derive(Drop)]
pub struct Burst {
    pub items: Items<Item>,
}
