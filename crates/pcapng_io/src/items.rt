//! What a block without a fault is read as, and the place after it.
ghost use Rattle.std.specs.Prelude.{◌≡◌, ◌≤◌, ◌<◌, ◌+◌, ◌%◌, IfOk, OnOk, is_some, true, length, take, drop};
ghost use Rattle.pcapng_io.specs.Blocks.{after, captured_in, carried, copied_block, item_of, options_in, packet_of, resolution_in, ticks_in, with_options};
ghost use Rattle.pcapng_io.specs.Times.{is_resolution, ticks_in_second};
ghost use Rattle.pcapng_io.specs.Options.{padded};
ghost use Rattle.pcapng_io.specs.Reader.{ArePositive, IsSound};

use crate::block_kind::BlockKind;
use crate::contents::{PACKET_FRAMING, resolution_in};
use crate::item::{NgItem, NgPacket};
use crate::options::{copied, padded};
use crate::place::Place;
use crate::time::{nanoseconds, ticks_in_second};
use crate::writer::spelled;
use capture_bytes::{Endian, PcapRecord, u32_at};
use item_list::Items;
use packet_fields::Frame;
use std::alloc::{AllocError, Global};

// Where a packet's frame begins in its block.
const FRAME_AT: usize = 28;

// Where the options of a section header and of an interface begin.
const SECTION_OPTIONS: usize = 24;

const INTERFACE_OPTIONS: usize = 16;

// The type of a custom block that must not be copied into a capture that was changed.
const UNCOPIED_BLOCK: u32 = 0x4000_0bad;

const SECOND: u64 = 1_000_000_000;

/// What a block is read as; `place` moves past it. If memory runs out, `place` must not be used again.
#[inline(always)]
pub fn item_in(
    alloc: Global,
    place: &mut Place,
    order: Endian,
    kind: BlockKind,
    block: Vec<u8>,
) -> Result<NgItem, AllocError>
    requires sound { IsSound place.old order kind block.items }
    ensures item { IfOk result (λ item. item ≡ item_of place.old order kind block.items) }
    ensures after { OnOk result (place.new ≡ after place.old order kind block.items) }
    ensures units { ArePositive place.new.units }
    ensures onward { place.old.blocks ≤ place.new.blocks }
    ensures few { place.new.blocks < 1099511627776 }
    ensures counted { place.old.packets ≤ 4294967295 }
{
    place.blocks += 1;
    match kind {
        BlockKind::SectionHeader => {
            place.order = order;
            place.units = Items::new(Vec::new(alloc));
            Ok(NgItem::Section(copied_block(alloc, order, SECTION_OPTIONS, block)?))
        }
        BlockKind::InterfaceDescription => {
            let in_second = in_second_of(order, &block);
            match place.units.push(in_second) {
                Ok(()) => Ok(NgItem::Interface {
                    order,
                    block: copied_block(alloc, order, INTERFACE_OPTIONS, block)?,
                }),
                Err(_) => Err(AllocError),
            }
        }
        BlockKind::EnhancedPacket => {
            place.packets += 1;
            let interface = u32_at(order, &block, 8) as usize;
            let in_second = place.units.as_slice()[interface];
            Ok(NgItem::Packet(packet_in(alloc, order, in_second, block)?))
        }
        BlockKind::Unread => Ok(NgItem::Carried(carried(order, block))),
        BlockKind::Other => Ok(NgItem::Carried(carried(order, block))),
    }
}

// A block without the options that must not be copied. Its options begin at `at`.
fn copied_block(
    alloc: Global,
    order: Endian,
    at: usize,
    block: Vec<u8>,
) -> Result<Frame, AllocError>
    requires begins { 8 ≤ at }
    requires low { at ≤ 24 }
    requires aligned { at % 4 ≡ 0 }
    requires room { at + 4 ≤ length block.items }
    requires most { length block.items ≤ 16777216 }
    requires whole { length block.items % 4 ≡ 0 }
    ensures { IfOk result (λ frame. frame ≡ copied_block order at block.items) }
{
    let all = &block[at..block.len() - 4];
    let options = copied(alloc, order, all)?;
    if options.len() == all.len() {
        return Ok(Frame::new(block));
    }
    with_options(alloc, order, at, &options, &block)
}

// A block with these options in place of its own, which begin at `at`.
fn with_options(
    alloc: Global,
    order: Endian,
    at: usize,
    options: &[u8],
    block: &[u8],
) -> Result<Frame, AllocError>
    requires begins { 8 ≤ at }
    requires low { at ≤ 24 }
    requires room { at + 4 ≤ length block.now }
    requires most { length options.now ≤ 16777216 }
    ensures { IfOk result (λ frame. frame ≡ with_options order at options.now block.now) }
{
    let size = spelled(order, (at + options.len() + 4) as u32);
    let mut bytes = Vec::new(alloc);
    bytes.extend_from_slice(&block[..4])?;
    bytes.extend_from_slice(&size)?;
    bytes.extend_from_slice(&block[8..at])?;
    bytes.extend_from_slice(options)?;
    bytes.extend_from_slice(&size)?;
    Ok(Frame::new(bytes))
}

// A block of another type as it is passed on: no bytes of a custom block that must not be copied.
fn carried(order: Endian, block: Vec<u8>) -> Frame
    requires least { 12 ≤ length block.items }
    ensures { result ≡ carried order block.items }
{
    let mut bytes = block;
    if u32_at(order, &bytes, 0) == UNCOPIED_BLOCK {
        bytes.truncate(0);
    }
    Frame::new(bytes)
}

// The packet in a block, whose interface has `in_second` ticks a second.
#[inline(always)]
fn packet_in(
    alloc: Global,
    order: Endian,
    in_second: u64,
    block: Vec<u8>,
) -> Result<NgPacket, AllocError>
    requires some { 0 < in_second }
    requires most { length block.items ≤ 16777216 }
    requires whole { length block.items % 4 ≡ 0 }
    requires data { 32 + padded (captured_in order block.items) ≤ length block.items }
    ensures { IfOk result (λ packet. packet ≡ packet_of order in_second block.items) }
{
    let ticks = ticks_at(order, &block);
    let time = nanoseconds(in_second, ticks);
    let interface = u32_at(order, &block, 8);
    let wire = u32_at(order, &block, 24);
    let captured = u32_at(order, &block, 20) as usize;
    let data = padded(captured);
    let options = copied(alloc, order, &block[FRAME_AT + data..block.len() - 4])?;
    Ok(NgPacket {
        order,
        interface,
        ticks,
        options: Frame::new(options),
        packet: PcapRecord {
            seconds: (time / SECOND) as u32,
            fraction: (time % SECOND) as u32,
            wire,
            frame: frame_in(block, captured),
        },
    })
}

// The frame in a packet's block: the block's memory becomes the frame's.
#[inline(always)]
fn frame_in(block: Vec<u8>, captured: usize) -> Frame
    requires { 28 + captured ≤ length block.items }
    ensures { result ≡ take captured (drop 28 block.items) }
{
    let mut bytes = block;
    bytes.copy_within(FRAME_AT..FRAME_AT + captured, 0);
    bytes.truncate(captured);
    Frame::new(bytes)
}

fn ticks_at(order: Endian, block: &[u8]) -> u64
    requires { 32 ≤ length block.now }
    ensures { result ≡ ticks_in order block.now }
{
    u64::from(u32_at(order, block, 12)) * 4_294_967_296 + u64::from(u32_at(order, block, 16))
}

// The number of ticks of an interface in a second.
fn in_second_of(order: Endian, block: &[u8]) -> u64
    requires least { 20 ≤ length block.now }
    requires whole { length block.now % 4 ≡ 0 }
    requires accepted { is_resolution (resolution_in order block.now) ≡ true }
    requires told { is_some (options_in order block.now) ≡ true }
    ensures ticks { result ≡ ticks_in_second (resolution_in order block.now) }
    ensures some { 0 < result }
{
    match resolution_in(order, block) {
        Some(resolution) => ticks_in_second(resolution),
        None => 1,
    }
}
