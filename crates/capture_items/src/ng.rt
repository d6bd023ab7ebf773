//! Captures in the pcapng format: packets, and other blocks among them.
ghost use Rattle.std.specs.Prelude.{◌≡◌, ◌≢◌, ◌≤◌, [], ◌∷◌, true, false, None, IfNone, IfOk, IfSome, IsErrOf, IsOk, IsSome, OnOk};
ghost use Rattle.std.specs.Option.{option_map};
ghost use Rattle.nfp_outside.specs.declared.slot.Slot.{Slot};
ghost use Rattle.nfp_outside.specs.Outside.{IsRisen};
ghost use Rattle.capture_bytes.specs.Filling.{unread};
ghost use Rattle.pcapng_io.specs.Blocks.{is_of_first_block, start};
ghost use Rattle.pcapng_io.specs.Reader.{IsShortItem, IsWritable, ReaderCause, RefusesBlock, blocks_left, next_left};
ghost use Rattle.pcapng_io.specs.declared.fault.NgFault.{NgFault};
ghost use Rattle.capture_items.specs.declared.fault.FormatFault.{FormatFault};
ghost use Rattle.capture_items.specs.Formats.{is_asked, ng_behind, ng_given, ng_left, ng_packets, ng_spelled, ng_stream, ng_taken};
ghost use Rattle.capture_items.specs.Streams.{IsDrained};
ghost use Rattle.capture_items.specs.Sources.{GivesNext, RefusesNext};

use crate::fault::{FormatFault, SourceFault};
use crate::given::Given;
use crate::sink::Sink;
use crate::source::Source;
use capture_bytes::{Endian, PcapRecord};
use nfp_outside::{Desk, OutsideFault, Slot};
use packet_fields::Frame;
use pcapng_io::{NgItem, NgPacket, NgReadFault, NgReader, put_item, put_packet};
use std::alloc::Global;
use std::marker::Model;
use std::mem;

/// What the block of a packet holds besides its record.
#[derive(Drop)]
pub struct Beside {
    order: Endian,
    interface: u32,
    ticks: u64,
    options: Frame,
}

impl Model for Beside {
    ghost use Rattle.capture_items.specs.Formats.{AreOptions, PacketBeside};

    ghost Value = { PacketBeside };

    ghost view = { λ b. record { order = b.order; interface = b.interface; ticks = b.ticks; options = b.options } };

    ghost invariant = { λ b. AreOptions b.options };
}

/// A block that isn't a packet.
#[derive(Drop)]
pub struct OtherBlock {
    item: NgItem,
}

impl Model for OtherBlock {
    ghost use Rattle.pcapng_io.specs.Reader.{IsWritable};
    ghost use Rattle.pcapng_io.specs.declared.item.NgItem.{NgItem};

    ghost Value = { NgItem };

    ghost view = { λ b. b.item };

    ghost invariant = { λ b. IsWritable b.item };
}

impl OtherBlock {
    /// The block of this item, which isn't a packet.
    pub fn new(item: NgItem) -> OtherBlock
        requires { IsWritable item }
        ensures { result ≡ item }
    {
        OtherBlock { item }
    }
}

// An item as one of a capture of any format.
#[inline(always)]
fn given(item: NgItem) -> Given<Beside, OtherBlock>
    requires writable { IsWritable item }
    requires short { IsShortItem item }
    ensures { result ≡ ng_given item }
{
    match item {
        NgItem::Packet(
            NgPacket {
                order,
                interface,
                ticks,
                options,
                packet,
            },
        ) => Given::Packet(
            packet,
            Beside {
                order,
                interface,
                ticks,
                options,
            },
        ),
        other => Given::Block(OtherBlock { item: other }),
    }
}

/// The source of the blocks of a pcapng capture whose first block was read.
#[derive(Drop)]
pub struct NgSource {
    first: Option<NgItem>,
    reader: NgReader,
}

impl Model for NgSource {
    ghost use Rattle.std.specs.Prelude.{IfSome};
    ghost use Rattle.capture_items.specs.Formats.{IsFirst, SourceState};

    ghost Value = { SourceState };

    ghost view = { λ s. record { first = s.first; reader = s.reader } };

    ghost invariant = { λ s. IfSome s.first (λ item. IsFirst item s.reader) };
}

impl NgSource {
    /// Reads the first block of a capture, of which the first bytes were read before: these, the type of a section
    /// header.
    #[tactic(auto, using(crate::proofs::Refusing::next_accepted))]
    pub fn begin<D: Desk>(
        alloc: Global,
        desk: &mut D,
        first: &[u8],
    ) -> Result<NgSource, NgReadFault>
        requires attached { IsSome (D.slots desk.old Slot.Capture).name }
        requires section { first.now ≡ 0x0a ∷ 0x0d ∷ 0x0d ∷ 0x0a ∷ [] }
        ensures block { IfOk result (λ s. ng_left s (D.slots desk.new Slot.Capture) ≡ option_map ng_stream (blocks_left start (unread first.now (D.slots desk.old Slot.Capture)))) }
        ensures accepted { IfOk result (λ s. IfSome (next_left start (unread first.now (D.slots desk.old Slot.Capture))) IsOk) }
        ensures fresh { IfOk result (λ s. ng_packets s ≡ 0) }
        ensures open { IfOk result (λ s. is_asked s ≡ true) }
        ensures refused { (fault : NgFault) → IsErrOf result (NgReadFault.Ng fault) → RefusesBlock fault start (unread first.now (D.slots desk.old Slot.Capture)) }
        ensures number { (fault : NgFault) → IsErrOf result (NgReadFault.Ng fault) → is_of_first_block fault ≡ true }
        ensures name { (D.slots desk.new Slot.Capture).name ≡ (D.slots desk.old Slot.Capture).name }
        ensures cause { ReaderCause (D.slots desk.old Slot.Capture) (D.slots desk.new Slot.Capture) result }
        ensures others { (s : Slot) → s ≢ Slot.Capture → D.slots desk.new s ≡ D.slots desk.old s }
    {
        match NgReader::begin(alloc, desk, first) {
            Ok((item, reader)) => Ok(NgSource {
                first: Some(item),
                reader,
            }),
            Err(fault) => Err(fault),
        }
    }
}

impl Source<Beside, OtherBlock> for NgSource {
    ghost left = { ng_left };

    ghost packets = { ng_packets };

    ghost taken = { ng_taken };

    ghost is_open = { is_asked };

    ghost is_drained = { IsDrained };

    #[inline(always)]
    fn next<D: Desk>(
        &mut self,
        alloc: Global,
        desk: &mut D,
    ) -> Result<Option<Given<Beside, OtherBlock>>, SourceFault> {
        match mem::replace(&mut self.first, None) {
            Some(item) => Ok(Some(given(item))),
            None => read_on(alloc, desk, &mut self.reader),
        }
    }
}

// The item after the first block.
#[tactic(auto, using(crate::proofs::Refusing::refuses_block, crate::proofs::Draining::ng_at_end))]
#[inline(always)]
fn read_on<D: Desk>(
    alloc: Global,
    desk: &mut D,
    reader: &mut NgReader,
) -> Result<Option<Given<Beside, OtherBlock>>, SourceFault>
    requires attached { IsSome (D.slots desk.old Slot.Capture).name }
    requires unspent { reader.old.spent ≡ false }
    ensures given { IfOk result (λ o. IfSome o (λ x. GivesNext ng_behind (λ r. r.place.packets) (λ r. r.place.blocks) x reader.old reader.new (D.slots desk.old Slot.Capture) (D.slots desk.new Slot.Capture))) }
    ensures end { IfOk result (λ o. IfNone o (IfSome (ng_behind reader.old (D.slots desk.old Slot.Capture)) (λ s. s ≡ record { given = []; fault = None }))) }
    ensures drained { IfOk result (λ o. IfNone o (IsDrained (D.slots desk.new Slot.Capture))) }
    ensures refused { (fault : FormatFault) → IsErrOf result (SourceFault.Format fault) → RefusesNext ng_behind fault reader.old (D.slots desk.old Slot.Capture) }
    ensures unspent { OnOk result (reader.new.spent ≡ false) }
    ensures later { (D.slots desk.old Slot.Capture).faults ≤ (D.slots desk.new Slot.Capture).faults }
    ensures read_fault { IsErrOf result SourceFault.ReadFault → IsRisen (D.slots desk.old Slot.Capture).faults (D.slots desk.new Slot.Capture).faults }
    ensures name { (D.slots desk.new Slot.Capture).name ≡ (D.slots desk.old Slot.Capture).name }
    ensures others { (s : Slot) → s ≢ Slot.Capture → D.slots desk.new s ≡ D.slots desk.old s }
{
    match reader.next(alloc, desk) {
        Ok(Some(item)) => Ok(Some(given(item))),
        Ok(None) => Ok(None),
        Err(NgReadFault::Ng(fault)) => Err(SourceFault::Format(FormatFault::Ng(fault))),
        Err(NgReadFault::ReadFault(_)) => Err(SourceFault::ReadFault),
        Err(NgReadFault::OutOfMemory) => Err(SourceFault::OutOfMemory),
    }
}

/// Writes a pcapng capture whose frames may have grown by `growth` bytes.
#[derive(Clone, Copy, Debug, PartialEq, Eq)]
pub struct NgWriter {
    pub growth: u32,
}

impl Sink<Beside, OtherBlock> for NgWriter {
    ghost spelled = { λ w. ng_spelled w.growth };

    fn put<D: Desk>(
        &mut self,
        desk: &mut D,
        packet: &PcapRecord,
        beside: &Beside,
    ) -> Result<(), OutsideFault> {
        let options = beside.options.bytes();
        put_packet(
            desk,
            beside.order,
            beside.interface,
            beside.ticks,
            options,
            packet,
        )
    }

    fn put_block<D: Desk>(&mut self, desk: &mut D, block: &OtherBlock) -> Result<(), OutsideFault> {
        put_item(desk, &block.item, self.growth)
    }
}
