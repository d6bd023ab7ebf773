//! Blocks, as they are written.
ghost use Rattle.std.specs.Prelude.{◌≡◌, ◌≢◌, ◌≤◌, ◌<◌, ◌+◌, ◌-◌, ◌%◌, ◌^◌, ◌++◌, IsSome, OnErr, OnOk, drop, length, replicate, take};
ghost use Rattle.nfp_outside.specs.declared.slot.Slot.{Slot};
ghost use Rattle.nfp_outside.specs.Outside.{Appends, AppendsPrefix, WriteCause};
ghost use Rattle.capture_bytes.specs.Numbers.{bytes_of, number_at};
ghost use Rattle.pcapng_io.specs.Options.{padded};
ghost use Rattle.pcapng_io.specs.Reader.{IsWritable};
ghost use Rattle.pcapng_io.specs.Written.{grown, head_spelled, interface_bytes, item_bytes, packet_bytes, packet_head, packet_length, packet_with, section_bytes};

use crate::item::{NgItem, NgPacket};
use crate::options::padded;
use capture_bytes::{Endian, PcapRecord, put_u32, u32_at};
use nfp_outside::{Desk, OutsideFault, Slot, write_whole};

// The length of a section that isn't stated.
const NO_SECTION_LENGTH: [u8; 8] = [255, 255, 255, 255, 255, 255, 255, 255];

// The number of bytes of a packet's block before its frame.
const HEAD: usize = 28;

// The most bytes of a frame that is put in one piece with the bytes around it, and of its block.
const SHORT_FRAME: usize = 220;

const SHORT_BLOCK: usize = 256;

// The padding after a frame, up to a multiple of four.
const ZEROS: [u8; 4] = [0, 0, 0, 0];

/// Writes an item into the slot Out as a block, in a capture whose frames may have grown by `growth` bytes: a section
/// header without its section's length, an interface with its snaplen grown, a packet with its frame and lengths, and
/// any other block unchanged.
///
/// It allocates nothing. `WriteFault` of Out only if its count of faults rose; after an `Err` Out holds a front part of
/// the block.
pub fn put_item<D: Desk>(desk: &mut D, item: &NgItem, growth: u32) -> Result<(), OutsideFault>
    requires attached { IsSome (D.slots desk.old Slot.Out).name }
    requires writable { IsWritable item.now }
    ensures ok { OnOk result (Appends (item_bytes growth item.now) (D.slots desk.old Slot.Out) (D.slots desk.new Slot.Out)) }
    ensures err { OnErr result (AppendsPrefix (item_bytes growth item.now) (D.slots desk.old Slot.Out) (D.slots desk.new Slot.Out)) }
    ensures cause { WriteCause Slot.Out (D.slots desk.old Slot.Out) (D.slots desk.new Slot.Out) result }
    ensures others { (s : Slot) → s ≢ Slot.Out → D.slots desk.new s ≡ D.slots desk.old s }
{
    match item {
        NgItem::Packet(
            NgPacket {
                order,
                interface,
                ticks,
                options,
                packet,
            },
        ) => put_packet(desk, *order, *interface, *ticks, options.bytes(), packet),
        NgItem::Section(block) => {
            let block = block.bytes();
            put_three(desk, &block[..16], &NO_SECTION_LENGTH, &block[24..])
        }
        NgItem::Interface { order, block } => {
            let block = block.bytes();
            let snaplen = spelled(*order, grown(u32_at(*order, block, 12), growth));
            put_three(desk, &block[..12], &snaplen, &block[16..])
        }
        NgItem::Carried(block) => write_whole(desk, Slot::Out, block.bytes()),
    }
}

// The snaplen grown by `growth`.
fn grown(snaplen: u32, growth: u32) -> u32
    ensures { result ≡ grown growth snaplen }
{
    if snaplen == 0 {
        0
    } else {
        snaplen.saturating_add(growth)
    }
}

// The bytes of a number.
pub fn spelled(order: Endian, number: u32) -> [u8; 4]
    ensures { result ≡ bytes_of order 4 number }
{
    let mut bytes = [0; 4];
    put_u32(order, &mut bytes, 0, number);
    bytes
}

/// Writes a packet into the slot Out as [`put_item`] does, from its record and from what its block holds besides.
pub fn put_packet<D: Desk>(
    desk: &mut D,
    order: Endian,
    interface: u32,
    ticks: u64,
    options: &[u8],
    packet: &PcapRecord,
) -> Result<(), OutsideFault>
    requires attached { IsSome (D.slots desk.old Slot.Out).name }
    requires short { packet_length (packet_with order interface ticks options.now packet.now) < 2 ^ 32 }
    ensures ok { OnOk result (Appends (packet_bytes (packet_with order interface ticks options.now packet.now)) (D.slots desk.old Slot.Out) (D.slots desk.new Slot.Out)) }
    ensures err { OnErr result (AppendsPrefix (packet_bytes (packet_with order interface ticks options.now packet.now)) (D.slots desk.old Slot.Out) (D.slots desk.new Slot.Out)) }
    ensures cause { WriteCause Slot.Out (D.slots desk.old Slot.Out) (D.slots desk.new Slot.Out) result }
    ensures others { (s : Slot) → s ≢ Slot.Out → D.slots desk.new s ≡ D.slots desk.old s }
{
    let frame = packet.frame.bytes();
    let data = padded(frame.len());
    let length = (32 + data + options.len()) as u32;
    let captured = frame.len() as u32;
    let head = head_of(order, length, interface, ticks, captured, packet.wire);
    put_around(
        desk,
        order,
        &head,
        frame,
        data - frame.len(),
        options,
        length,
    )
}

// Puts a frame with the bytes before it, and after it `padding` zeros, the options, and the block's length. If the
// frame is short and there are no options, it is one piece.
fn put_around<D: Desk>(
    desk: &mut D,
    order: Endian,
    head: &[u8],
    frame: &[u8],
    padding: usize,
    options: &[u8],
    size: u32,
) -> Result<(), OutsideFault>
    requires attached { IsSome (D.slots desk.old Slot.Out).name }
    requires head { length head.now ≡ 28 }
    requires few { padding ≤ 4 }
    ensures ok { OnOk result (Appends ((head.now ++ frame.now) ++ (replicate padding 0 ++ options.now ++ bytes_of order 4 size)) (D.slots desk.old Slot.Out) (D.slots desk.new Slot.Out)) }
    ensures err { OnErr result (AppendsPrefix ((head.now ++ frame.now) ++ (replicate padding 0 ++ options.now ++ bytes_of order 4 size)) (D.slots desk.old Slot.Out) (D.slots desk.new Slot.Out)) }
    ensures cause { WriteCause Slot.Out (D.slots desk.old Slot.Out) (D.slots desk.new Slot.Out) result }
    ensures others { (s : Slot) → s ≢ Slot.Out → D.slots desk.new s ≡ D.slots desk.old s }
{
    if options.is_empty() && frame.len() <= SHORT_FRAME {
        put_short(desk, order, head, frame, padding, size)
    } else {
        put_long(desk, order, head, frame, padding, options, size)
    }
}

// Puts a short frame with the bytes before it, and after it `padding` zeros and the block's length, in one piece.
fn put_short<D: Desk>(
    desk: &mut D,
    order: Endian,
    head: &[u8],
    frame: &[u8],
    padding: usize,
    size: u32,
) -> Result<(), OutsideFault>
    requires attached { IsSome (D.slots desk.old Slot.Out).name }
    requires head { length head.now ≡ 28 }
    requires short { length frame.now ≤ 220 }
    requires few { padding ≤ 4 }
    ensures ok { OnOk result (Appends ((head.now ++ frame.now) ++ (replicate padding 0 ++ bytes_of order 4 size)) (D.slots desk.old Slot.Out) (D.slots desk.new Slot.Out)) }
    ensures err { OnErr result (AppendsPrefix ((head.now ++ frame.now) ++ (replicate padding 0 ++ bytes_of order 4 size)) (D.slots desk.old Slot.Out) (D.slots desk.new Slot.Out)) }
    ensures cause { WriteCause Slot.Out (D.slots desk.old Slot.Out) (D.slots desk.new Slot.Out) result }
    ensures others { (s : Slot) → s ≢ Slot.Out → D.slots desk.new s ≡ D.slots desk.old s }
{
    let end = HEAD + frame.len() + padding;
    let mut block = [0; SHORT_BLOCK];
    put_piece(&mut block, 0, head);
    put_piece(&mut block, HEAD, frame);
    put_u32(order, &mut block, end, size);
    write_whole(desk, Slot::Out, &block[..end + 4])
}

// Copies `piece` to place `at`.
fn put_piece(bytes: &mut [u8], at: usize, piece: &[u8])
    requires { at + length piece.now ≤ length bytes.old }
    ensures { bytes.new ≡ take at bytes.old ++ (piece.now ++ drop (length piece.now) (drop at bytes.old)) }
{
    bytes[at..at + piece.len()].copy_from_slice(piece);
}

// Does what [`put_around`] does, piece by piece.
#[tactic(auto, using(nfp_outside::specs::Adding::prefix_longer, nfp_outside::specs::Adding::prefix_more))]
fn put_long<D: Desk>(
    desk: &mut D,
    order: Endian,
    head: &[u8],
    frame: &[u8],
    padding: usize,
    options: &[u8],
    size: u32,
) -> Result<(), OutsideFault>
    requires attached { IsSome (D.slots desk.old Slot.Out).name }
    requires few { padding ≤ 4 }
    ensures ok { OnOk result (Appends ((head.now ++ frame.now) ++ (replicate padding 0 ++ options.now ++ bytes_of order 4 size)) (D.slots desk.old Slot.Out) (D.slots desk.new Slot.Out)) }
    ensures err { OnErr result (AppendsPrefix ((head.now ++ frame.now) ++ (replicate padding 0 ++ options.now ++ bytes_of order 4 size)) (D.slots desk.old Slot.Out) (D.slots desk.new Slot.Out)) }
    ensures cause { WriteCause Slot.Out (D.slots desk.old Slot.Out) (D.slots desk.new Slot.Out) result }
    ensures others { (s : Slot) → s ≢ Slot.Out → D.slots desk.new s ≡ D.slots desk.old s }
{
    if let Err(fault) = put_two(desk, head, frame) {
        return Err(fault);
    }
    put_tail(desk, order, padding, options, size)
}

// Puts the bytes after a frame: `padding` zeros, the options, and the block's length. Mostly there are no options, and
// then it is one piece.
#[tactic(auto, using(crate::proofs::Pieces::tail_whole))]
fn put_tail<D: Desk>(
    desk: &mut D,
    order: Endian,
    padding: usize,
    options: &[u8],
    length: u32,
) -> Result<(), OutsideFault>
    requires attached { IsSome (D.slots desk.old Slot.Out).name }
    requires few { padding ≤ 4 }
    ensures ok { OnOk result (Appends (replicate padding 0 ++ options.now ++ bytes_of order 4 length) (D.slots desk.old Slot.Out) (D.slots desk.new Slot.Out)) }
    ensures err { OnErr result (AppendsPrefix (replicate padding 0 ++ options.now ++ bytes_of order 4 length) (D.slots desk.old Slot.Out) (D.slots desk.new Slot.Out)) }
    ensures cause { WriteCause Slot.Out (D.slots desk.old Slot.Out) (D.slots desk.new Slot.Out) result }
    ensures others { (s : Slot) → s ≢ Slot.Out → D.slots desk.new s ≡ D.slots desk.old s }
{
    if options.is_empty() {
        let tail = tail_of(order, padding, length);
        write_whole(desk, Slot::Out, &tail[..padding + 4])
    } else {
        put_three(desk, &ZEROS[..padding], options, &spelled(order, length))
    }
}

// `padding` zeros, and the block's length after them.
#[tactic(auto, using(crate::proofs::Pieces::zeros_of))]
fn tail_of(order: Endian, padding: usize, length: u32) -> [u8; 8]
    requires { padding ≤ 4 }
    ensures { take (padding + 4) result ≡ replicate padding 0 ++ bytes_of order 4 length }
{
    let mut tail = [0; 8];
    put_u32(order, &mut tail, padding, length);
    tail
}

// The bytes of a packet's block before its frame.
fn head_of(
    order: Endian,
    length: u32,
    interface: u32,
    ticks: u64,
    captured: u32,
    wire: u32,
) -> [u8; 28]
    ensures { result ≡ head_spelled order length interface ticks captured wire }
{
    let mut head = [0; 28];
    put_u32(order, &mut head, 0, 6);
    put_u32(order, &mut head, 4, length);
    put_u32(order, &mut head, 8, interface);
    put_u32(order, &mut head, 12, (ticks / 4_294_967_296) as u32);
    put_u32(order, &mut head, 16, (ticks % 4_294_967_296) as u32);
    put_u32(order, &mut head, 20, captured);
    put_u32(order, &mut head, 24, wire);
    head
}

// Puts three pieces into Out, one after another.
#[tactic(auto, using(nfp_outside::specs::Adding::prefix_longer, nfp_outside::specs::Adding::prefix_more))]
fn put_three<D: Desk>(desk: &mut D, a: &[u8], b: &[u8], c: &[u8]) -> Result<(), OutsideFault>
    requires attached { IsSome (D.slots desk.old Slot.Out).name }
    ensures ok { OnOk result (Appends (a.now ++ b.now ++ c.now) (D.slots desk.old Slot.Out) (D.slots desk.new Slot.Out)) }
    ensures err { OnErr result (AppendsPrefix (a.now ++ b.now ++ c.now) (D.slots desk.old Slot.Out) (D.slots desk.new Slot.Out)) }
    ensures cause { WriteCause Slot.Out (D.slots desk.old Slot.Out) (D.slots desk.new Slot.Out) result }
    ensures others { (s : Slot) → s ≢ Slot.Out → D.slots desk.new s ≡ D.slots desk.old s }
{
    if let Err(fault) = put_two(desk, a, b) {
        return Err(fault);
    }
    write_whole(desk, Slot::Out, c)
}

// Puts two pieces into Out, one after the other.
#[tactic(auto, using(nfp_outside::specs::Adding::prefix_longer, nfp_outside::specs::Adding::prefix_more))]
fn put_two<D: Desk>(desk: &mut D, a: &[u8], b: &[u8]) -> Result<(), OutsideFault>
    requires attached { IsSome (D.slots desk.old Slot.Out).name }
    ensures ok { OnOk result (Appends (a.now ++ b.now) (D.slots desk.old Slot.Out) (D.slots desk.new Slot.Out)) }
    ensures err { OnErr result (AppendsPrefix (a.now ++ b.now) (D.slots desk.old Slot.Out) (D.slots desk.new Slot.Out)) }
    ensures cause { WriteCause Slot.Out (D.slots desk.old Slot.Out) (D.slots desk.new Slot.Out) result }
    ensures others { (s : Slot) → s ≢ Slot.Out → D.slots desk.new s ≡ D.slots desk.old s }
{
    if let Err(fault) = write_whole(desk, Slot::Out, a) {
        return Err(fault);
    }
    write_whole(desk, Slot::Out, b)
}
