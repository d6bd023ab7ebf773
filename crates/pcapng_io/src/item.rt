//! What a block of a capture is read as.
use capture_bytes::{Endian, PcapRecord};
use packet_fields::Frame;

/// A packet of a capture, with what its block holds besides the record.
#[derive(Drop)]
pub struct NgPacket {
    /// The order of the numbers in its block.
    pub order: Endian,
    /// The interface that captured it, counted from 0 in its section.
    pub interface: u32,
    /// When it was captured, in the ticks of its interface.
    pub ticks: u64,
    /// The options after the frame, without those that must not be copied.
    pub options: Frame,
    /// The packet. Its time counts nanoseconds.
    pub packet: PcapRecord,
}

/// What a block of a capture is read as.
#[derive(Drop)]
pub enum NgItem {
    /// A packet.
    Packet(NgPacket),
    /// A section header block, without the options that must not be copied.
    Section(Frame),
    /// An interface description block, without the options that must not be copied.
    Interface {
        /// The order of the numbers in it.
        order: Endian,
        /// The block.
        block: Frame,
    },
    /// Any other block, whole; no bytes of a custom block that must not be copied.
    Carried(Frame),
}
