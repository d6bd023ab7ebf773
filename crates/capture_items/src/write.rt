//! Puts packets, blocks and texts into Out and Report, and returns the fault if that fails.
ghost use Rattle.std.specs.Prelude.{◌≡◌, ◌≢◌, ◌<◌, ◌^◌, [], IfErr, OnOk, IsSome, length};
ghost use Rattle.nfp_outside.specs.declared.slot.Slot.{Slot};
ghost use Rattle.capture_items.specs.Slots.{Puts, Breaks, fault_seen};
ghost use Rattle.capture_items.specs.Streams.{spelled_with};
ghost use Rattle.capture_items.specs.declared.given.Given.TheVariants.{Block};

use crate::fault::RunFault;
use crate::sink::Sink;
use capture_bytes::PcapRecord;
use nfp_outside::{Desk, OutsideFault, Slot, write_whole};

/// Puts a packet into Out, with what belongs to its record.
pub fn put_packet<X, B, W: Sink<X, B>, D: Desk>(
    desk: &mut D,
    writer: &mut W,
    packet: &PcapRecord,
    beside: &X,
) -> Result<(), RunFault>
    requires attached { IsSome (D.slots desk.old Slot.Out).name }
    requires short { length packet.now.frame < 2 ^ 22 }
    ensures ok { OnOk result (Puts (spelled_with (W.spelled writer.old) beside.now packet.now) [] (D.slots desk.old) (D.slots desk.new)) }
    ensures err { IfErr result (Breaks (spelled_with (W.spelled writer.old) beside.now packet.now) [] (D.slots desk.old) (D.slots desk.new)) }
    ensures spelling { W.spelled writer.new ≡ W.spelled writer.old }
    ensures others { (s : Slot) → s ≢ Slot.Out → D.slots desk.new s ≡ D.slots desk.old s }
{
    match writer.put(desk, packet, beside) {
        Ok(()) => Ok(()),
        Err(fault) => Err(fault_of(Slot::Out, fault)),
    }
}

/// Puts a block that isn't a packet into Out.
pub fn put_block<X, B, W: Sink<X, B>, D: Desk>(
    desk: &mut D,
    writer: &mut W,
    block: &B,
) -> Result<(), RunFault>
    requires { IsSome (D.slots desk.old Slot.Out).name }
    ensures ok { OnOk result (Puts (W.spelled writer.old (Block block.now)) [] (D.slots desk.old) (D.slots desk.new)) }
    ensures err { IfErr result (Breaks (W.spelled writer.old (Block block.now)) [] (D.slots desk.old) (D.slots desk.new)) }
    ensures spelling { W.spelled writer.new ≡ W.spelled writer.old }
    ensures others { (s : Slot) → s ≢ Slot.Out → D.slots desk.new s ≡ D.slots desk.old s }
{
    match writer.put_block(desk, block) {
        Ok(()) => Ok(()),
        Err(fault) => Err(fault_of(Slot::Out, fault)),
    }
}

/// Puts a text into Report.
pub fn put_text<D: Desk>(desk: &mut D, text: &[u8]) -> Result<(), RunFault>
    requires { IsSome (D.slots desk.old Slot.Report).name }
    ensures ok { OnOk result (Puts [] text.now (D.slots desk.old) (D.slots desk.new)) }
    ensures err { IfErr result (Breaks [] text.now (D.slots desk.old) (D.slots desk.new)) }
    ensures others { (s : Slot) → s ≢ Slot.Report → D.slots desk.new s ≡ D.slots desk.old s }
{
    match write_whole(desk, Slot::Report, text) {
        Ok(()) => Ok(()),
        Err(fault) => Err(fault_of(Slot::Report, fault)),
    }
}

// The fault of a run after writing a slot failed.
fn fault_of(slot: Slot, fault: OutsideFault) -> RunFault
    ensures { result ≡ fault_seen slot fault }
{
    match fault {
        OutsideFault::WriteFault(_) => RunFault::WriteFault(slot),
        _ => RunFault::OutOfMemory,
    }
}
