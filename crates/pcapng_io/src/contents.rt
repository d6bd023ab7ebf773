//! The faults and the values of a block that is there whole.
ghost use Rattle.std.specs.Prelude.{◌≡◌, ◌≤◌, ◌<◌, ◌%◌, ◌==◌, ◌∷◌, [], length};
ghost use Rattle.std.specs.Option.{option_map};
ghost use Rattle.pcapng_io.specs.Blocks.{content_faults, first_fault, fixed_length, has_bad_lengths, options_in};
ghost use Rattle.pcapng_io.specs.Reader.{IsCarried};
ghost use Rattle.pcapng_io.specs.Options.{resolution_among};
ghost use Rattle.pcapng_io.specs.declared.block_kind.BlockKind.TheVariants.{EnhancedPacket, InterfaceDescription, SectionHeader};
ghost use Rattle.pcapng_io.specs.declared.fault.NgFault.TheVariants.{TooManyBlocks};

use crate::block_kind::BlockKind;
use crate::fault::NgFault;
use crate::options::{padded, resolution_among};
use crate::place::Place;
use crate::time::is_resolution;
use capture_bytes::{Endian, u16_at, u32_at};

// The bytes of a block without a body.
const FRAMING: usize = 12;

// The bytes of a packet's block without its frame and its options.
pub const PACKET_FRAMING: usize = 32;

const MAJOR: u16 = 1;

const ETHERNET: u16 = 1;

const MOST_FRAME: u32 = 262_144;

// Blocks are counted below this number.
const BLOCKS: u64 = 1_099_511_627_776;

// The first fault of a block whose predecessors led to `place`.
#[inline(always)]
pub fn content_fault(place: &Place, order: Endian, kind: BlockKind, block: &[u8]) -> Option<NgFault>
    requires least { 12 ≤ length block.now }
    requires most { length block.now ≤ 16777216 }
    requires whole { length block.now % 4 ≡ 0 }
    requires few { place.now.blocks < 1099511627776 }
    ensures { result ≡ first_fault (content_faults place.now order kind block.now) }
{
    match kind {
        BlockKind::SectionHeader => section_fault(place, order, block),
        BlockKind::InterfaceDescription => interface_fault(place, order, block),
        BlockKind::EnhancedPacket => packet_fault(place, order, block),
        BlockKind::Unread => other_fault(place, order, kind, block),
        BlockKind::Other => other_fault(place, order, kind, block),
    }
}

fn section_fault(place: &Place, order: Endian, block: &[u8]) -> Option<NgFault>
    requires least { 12 ≤ length block.now }
    requires few { place.now.blocks < 1099511627776 }
    ensures { result ≡ first_fault (content_faults place.now order SectionHeader block.now) }
{
    let number = place.blocks + 1;
    if has_bad_lengths(order, BlockKind::SectionHeader, block)
        || u16_at(order, block, 12) != MAJOR
    {
        return Some(NgFault::BadBlock(number));
    }
    count_fault(number)
}

fn interface_fault(place: &Place, order: Endian, block: &[u8]) -> Option<NgFault>
    requires least { 12 ≤ length block.now }
    requires most { length block.now ≤ 16777216 }
    requires whole { length block.now % 4 ≡ 0 }
    requires few { place.now.blocks < 1099511627776 }
    ensures { result ≡ first_fault (content_faults place.now order InterfaceDescription block.now) }
{
    let number = place.blocks + 1;
    if has_bad_lengths(order, BlockKind::InterfaceDescription, block) {
        return Some(NgFault::BadBlock(number));
    }
    let Some(resolution) = resolution_in(order, block) else {
        return Some(NgFault::BadBlock(number));
    };
    let link = u16_at(order, block, 8);
    if link != ETHERNET {
        return Some(NgFault::BadLink(u32::from(link)));
    }
    if !is_resolution(resolution) {
        return Some(NgFault::BadResolution(number));
    }
    count_fault(number)
}

#[inline(always)]
fn packet_fault(place: &Place, order: Endian, block: &[u8]) -> Option<NgFault>
    requires least { 12 ≤ length block.now }
    requires most { length block.now ≤ 16777216 }
    requires few { place.now.blocks < 1099511627776 }
    ensures { result ≡ first_fault (content_faults place.now order EnhancedPacket block.now) }
{
    let number = place.blocks + 1;
    if has_bad_lengths(order, BlockKind::EnhancedPacket, block) {
        return Some(NgFault::BadBlock(number));
    }
    if u32_at(order, block, 8) as usize >= place.units.as_slice().len() {
        return Some(NgFault::NoInterface(number));
    }
    if place.packets == u32::MAX {
        return Some(NgFault::TooManyRecords);
    }
    let captured = u32_at(order, block, 20);
    if captured > MOST_FRAME {
        return Some(NgFault::FrameTooLong(place.packets + 1, captured));
    }
    if block.len() < PACKET_FRAMING + padded(captured as usize) {
        return Some(NgFault::BadBlock(number));
    }
    count_fault(number)
}

fn other_fault(place: &Place, order: Endian, kind: BlockKind, block: &[u8]) -> Option<NgFault>
    requires least { 12 ≤ length block.now }
    requires few { place.now.blocks < 1099511627776 }
    requires other { IsCarried kind }
    ensures { result ≡ first_fault (content_faults place.now order kind block.now) }
{
    let number = place.blocks + 1;
    if has_bad_lengths(order, kind, block) {
        return Some(NgFault::BadBlock(number));
    }
    count_fault(number)
}

fn count_fault(number: u64) -> Option<NgFault>
    ensures { result ≡ first_fault ((number == 1099511627776, TooManyBlocks) ∷ []) }
{
    if number == BLOCKS {
        Some(NgFault::TooManyBlocks)
    } else {
        None
    }
}

fn has_bad_lengths(order: Endian, kind: BlockKind, block: &[u8]) -> bool
    requires least { 12 ≤ length block.now }
    ensures { result ≡ has_bad_lengths order kind block.now }
{
    u32_at(order, block, block.len() - 4) != u32_at(order, block, 4)
        || block.len() < FRAMING + fixed_length(kind)
}

fn fixed_length(kind: BlockKind) -> usize
    ensures value { result ≡ fixed_length kind }
    ensures most { result ≤ 20 }
{
    match kind {
        BlockKind::SectionHeader => 16,
        BlockKind::InterfaceDescription => 8,
        BlockKind::EnhancedPacket => 20,
        BlockKind::Unread => 0,
        BlockKind::Other => 0,
    }
}

// The resolution of an interface, or `None` if one of its options runs past the body.
pub fn resolution_in(order: Endian, block: &[u8]) -> Option<u8>
    requires least { 20 ≤ length block.now }
    requires whole { length block.now % 4 ≡ 0 }
    ensures { result ≡ option_map resolution_among (options_in order block.now) }
{
    resolution_among(order, &block[16..block.len() - 4])
}
