//! Writes the packets of a burst that passed.
ghost use Rattle.std.specs.Prelude.{◌≡◌, ◌≢◌, ◌<◌, ◌^◌, [], All, IfErr, IfSome, OnOk, IsSome, length};
ghost use Rattle.nfp_outside.specs.declared.slot.Slot.{Slot};
ghost use Rattle.chain_walk.specs.declared.walk.Fate.TheVariants.{Out};
ghost use Rattle.capture_run.specs.Emitted.{emitted, emitted_record, wire_after};
ghost use Rattle.capture_report.specs.BurstWalkProofs.{IsWritable, all_ended, ended};
ghost use Rattle.capture_items.specs.Slots.{Puts, Breaks};
ghost use Rattle.capture_items.specs.Streams.{spelled_with};
ghost use Rattle.capture_run.specs.Streams.{emitted_among, held_in};

use capture_bytes::PcapRecord;
use capture_items::{RunFault, Sink, put_packet};
use chain_walk::Fate;
use classifier::Item;
use nfp_outside::Desk;
use packet_fields::Frame;

/// Puts the packets that passed into Out, in their order, each with what belongs to its record: with the frame that its
/// chain left, or as it was read if no chain took it.
pub fn put_emitted<X, B, W: Sink<X, B>, D: Desk>(
    desk: &mut D,
    writer: &mut W,
    items: &[Item],
    beside: &[X],
    fates: Vec<Option<Fate>>,
) -> Result<(), RunFault>
    requires out { IsSome (D.slots desk.old Slot.Out).name }
    requires as_many { length fates.items ≡ length items.now }
    requires beside { length beside.now ≡ length items.now }
    requires writable { All (λ o. IfSome o IsWritable) fates.items }
    requires short { All (λ i. length i.packet.frame < 2 ^ 22) items.now }
    ensures ok { OnOk result (Puts (emitted_among (W.spelled writer.old) (held_in items.now beside.now) (all_ended items.now fates.items)) [] (D.slots desk.old) (D.slots desk.new)) }
    ensures err { IfErr result (Breaks (emitted_among (W.spelled writer.old) (held_in items.now beside.now) (all_ended items.now fates.items)) [] (D.slots desk.old) (D.slots desk.new)) }
    ensures spelling { W.spelled writer.new ≡ W.spelled writer.old }
    ensures others { (s : Slot) → s ≢ Slot.Out → D.slots desk.new s ≡ D.slots desk.old s }
{
    let mut index = 0;
    'fates: for fate in fates {
        match put_fate(desk, writer, &items[index].packet, &beside[index], fate) {
            Ok(()) => index += 1,
            Err(fault) => return Err(fault),
        }
    }
    Ok(())
}

// Puts the record of a packet that passed. A packet that was dropped has no record.
fn put_fate<X, B, W: Sink<X, B>, D: Desk>(
    desk: &mut D,
    writer: &mut W,
    packet: &PcapRecord,
    beside: &X,
    fate: Option<Fate>,
) -> Result<(), RunFault>
    requires out { IsSome (D.slots desk.old Slot.Out).name }
    requires writable { IfSome fate IsWritable }
    requires short { length packet.now.frame < 2 ^ 22 }
    ensures ok { OnOk result (Puts (emitted (spelled_with (W.spelled writer.old) beside.now) packet.now (ended packet.now fate)) [] (D.slots desk.old) (D.slots desk.new)) }
    ensures err { IfErr result (Breaks (emitted (spelled_with (W.spelled writer.old) beside.now) packet.now (ended packet.now fate)) [] (D.slots desk.old) (D.slots desk.new)) }
    ensures spelling { W.spelled writer.new ≡ W.spelled writer.old }
    ensures others { (s : Slot) → s ≢ Slot.Out → D.slots desk.new s ≡ D.slots desk.old s }
{
    match fate {
        None => put_unchanged(desk, writer, packet, beside),
        Some(Fate::Out(frame)) => put_left(desk, writer, packet, beside, frame),
        Some(Fate::Gone(_)) => Ok(()),
    }
}

// Puts the record of a packet that its chain left with this frame.
fn put_left<X, B, W: Sink<X, B>, D: Desk>(
    desk: &mut D,
    writer: &mut W,
    packet: &PcapRecord,
    beside: &X,
    frame: Frame,
) -> Result<(), RunFault>
    requires out { IsSome (D.slots desk.old Slot.Out).name }
    requires writable { length frame < 2 ^ 22 }
    requires short { length packet.now.frame < 2 ^ 22 }
    ensures ok { OnOk result (Puts (emitted (spelled_with (W.spelled writer.old) beside.now) packet.now (Out frame)) [] (D.slots desk.old) (D.slots desk.new)) }
    ensures err { IfErr result (Breaks (emitted (spelled_with (W.spelled writer.old) beside.now) packet.now (Out frame)) [] (D.slots desk.old) (D.slots desk.new)) }
    ensures spelling { W.spelled writer.new ≡ W.spelled writer.old }
    ensures others { (s : Slot) → s ≢ Slot.Out → D.slots desk.new s ≡ D.slots desk.old s }
{
    put_packet(desk, writer, &emitted_record(packet, frame), beside)
}

// Puts the record of a packet that no chain took, as it was read.
fn put_unchanged<X, B, W: Sink<X, B>, D: Desk>(
    desk: &mut D,
    writer: &mut W,
    packet: &PcapRecord,
    beside: &X,
) -> Result<(), RunFault>
    requires out { IsSome (D.slots desk.old Slot.Out).name }
    requires short { length packet.now.frame < 2 ^ 22 }
    ensures ok { OnOk result (Puts (emitted (spelled_with (W.spelled writer.old) beside.now) packet.now (Out packet.now.frame)) [] (D.slots desk.old) (D.slots desk.new)) }
    ensures err { IfErr result (Breaks (emitted (spelled_with (W.spelled writer.old) beside.now) packet.now (Out packet.now.frame)) [] (D.slots desk.old) (D.slots desk.new)) }
    ensures spelling { W.spelled writer.new ≡ W.spelled writer.old }
    ensures others { (s : Slot) → s ≢ Slot.Out → D.slots desk.new s ≡ D.slots desk.old s }
{
    unchanged_is_as_long(packet.wire, packet.frame.bytes().len());
    put_packet(desk, writer, packet, beside)
}

// The record as it goes out, with this frame and the original length that belongs to it.
fn emitted_record(packet: &PcapRecord, frame: Frame) -> PcapRecord
    requires short { length packet.now.frame < 2 ^ 22 }
    requires writable { length frame < 2 ^ 22 }
    ensures record { result ≡ emitted_record packet.now frame }
    ensures length { length result.frame ≡ length frame }
{
    PcapRecord {
        seconds: packet.seconds,
        fraction: packet.fraction,
        wire: wire_after(packet.wire, packet.frame.bytes().len(), frame.bytes().len()),
        frame,
    }
}

// The original length of a frame whose length changed: it changes by the same number of bytes.
fn wire_after(wire: u32, before: usize, after: usize) -> u32
    requires after { after < 2 ^ 32 }
    ensures { result ≡ wire_after wire before after }
{
    let longer = u64::from(wire) + after as u64;
    u32::try_from(longer.saturating_sub(before as u64)).unwrap_or(u32::MAX)
}

// A frame that is as long as before keeps its original length.
fn unchanged_is_as_long(wire: u32, length: usize)
    ensures { wire_after wire length length ≡ wire }
{}
