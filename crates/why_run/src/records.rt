//! Takes the items of a capture, and tells each packet.
ghost use Rattle.std.specs.Prelude.{◌≡◌, ◌≢◌, ◌≤◌, ◌<◌, [], true, IfErr, IfNone, IfOk, IsSome, OnOk};
ghost use Rattle.nfp_outside.specs.declared.slot.Slot.{Slot};
ghost use Rattle.capture_items.specs.Slots.{Breaks, Gathers};
ghost use Rattle.capture_items.specs.Streams.{HasNumber};
ghost use Rattle.why_run.specs.Running.{ordered_of};
ghost use Rattle.why_run.specs.Telling.{GivenBreaks, IsTold, RecordBreaks, TellBreaks, TellsAll, TellsGiven, TellsRecord, stop_of};

use crate::telling::{Telling, tell_packet};
use capture_bytes::{PcapRecord, Unit};
use capture_items::{FormatFault, Given, RunFault, Source, SourceFault, put_text};
use nfp_outside::Desk;
use std::alloc::Global;
use std::sync::Wait;

/// The number of held bytes from which on they are put.
pub const FULL: usize = 65_536;

/// Takes the items of a capture, one after another, and tells each packet. The lines of the dropped packets go through
/// `text`, which is put whenever it is full.
pub fn tell_records<R: Wait, D: Desk, X: Drop, B: Drop, S: Source<X, B> + Drop>(
    rt: &R,
    alloc: Global,
    desk: &mut D,
    telling: &mut Telling,
    text: &mut Vec<u8>,
    unit: Unit,
    source: S,
) -> Result<Option<FormatFault>, RunFault>
    requires capture { IsSome (D.slots desk.old Slot.Capture).name }
    requires report { IsSome (D.slots desk.old Slot.Report).name }
    requires begun { IsTold (ordered_of telling.old.service) telling.old.asked [] telling.old }
    requires fresh { S.packets source ≡ 0 }
    requires open { S.is_open source ≡ true }
    ensures ok { IfOk result (TellsAll telling.old.service unit telling.old.asked (S.left source (D.slots desk.old Slot.Capture)) telling.new text.old.items text.new.items (D.slots desk.old) (D.slots desk.new)) }
    ensures err { IfErr result (TellBreaks telling.old.service unit (S.left source (D.slots desk.old Slot.Capture)) text.old.items (D.slots desk.old) (D.slots desk.new)) }
    ensures drained { IfOk result (λ fault. IfNone fault (S.is_drained (D.slots desk.new Slot.Capture))) }
    ensures capture_name { (D.slots desk.new Slot.Capture).name ≡ (D.slots desk.old Slot.Capture).name }
    ensures others { (s : Slot) → s ≢ Slot.Report → s ≢ Slot.Capture → D.slots desk.new s ≡ D.slots desk.old s }
{
    let mut source = source;
    'records: loop {
        match source.next(alloc, desk) {
            Ok(Some(given)) => match tell_given(rt, alloc, desk, telling, text, unit, given) {
                Ok(()) => {}
                Err(fault) => return Err(fault),
            },
            Ok(None) => return Ok(None),
            Err(refusal) => return stop(refusal),
        }
    }
}

// How a capture ends after nothing more could be read. A fault of the capture ends it in the same way as its end.
fn stop(refusal: SourceFault) -> Result<Option<FormatFault>, RunFault>
    ensures { result ≡ stop_of refusal }
{
    match refusal {
        SourceFault::Format(fault) => Ok(Some(fault)),
        SourceFault::ReadFault => Err(RunFault::ReadFault),
        SourceFault::OutOfMemory => Err(RunFault::OutOfMemory),
    }
}

// Tells an item, if it is a packet.
fn tell_given<R: Wait, D: Desk, X: Drop, B: Drop>(
    rt: &R,
    alloc: Global,
    desk: &mut D,
    telling: &mut Telling,
    text: &mut Vec<u8>,
    unit: Unit,
    given: Given<X, B>,
) -> Result<(), RunFault>
    requires report { IsSome (D.slots desk.old Slot.Report).name }
    requires room { HasNumber given telling.old.account.totals.records }
    requires within { telling.old.account.totals.dropped ≤ telling.old.account.totals.records }
    ensures ok { OnOk result (TellsGiven unit given telling.old telling.new text.old.items text.new.items (D.slots desk.old) (D.slots desk.new)) }
    ensures err { IfErr result (GivenBreaks unit given telling.old text.old.items (D.slots desk.old) (D.slots desk.new)) }
    ensures others { (s : Slot) → s ≢ Slot.Report → D.slots desk.new s ≡ D.slots desk.old s }
{
    match given {
        Given::Packet(packet, _) => tell_record(rt, alloc, desk, telling, text, unit, &packet),
        Given::Block(_) => Ok(()),
    }
}

// Tells the packet of a record, and puts the text if it is full.
fn tell_record<R: Wait, D: Desk>(
    rt: &R,
    alloc: Global,
    desk: &mut D,
    telling: &mut Telling,
    text: &mut Vec<u8>,
    unit: Unit,
    packet: &PcapRecord,
) -> Result<(), RunFault>
    requires report { IsSome (D.slots desk.old Slot.Report).name }
    requires room { telling.old.account.totals.records < 4294967295 }
    requires within { telling.old.account.totals.dropped ≤ telling.old.account.totals.records }
    ensures ok { OnOk result (TellsRecord unit packet.now telling.old telling.new text.old.items text.new.items (D.slots desk.old) (D.slots desk.new)) }
    ensures err { IfErr result (RecordBreaks unit packet.now telling.old text.old.items (D.slots desk.old) (D.slots desk.new)) }
    ensures others { (s : Slot) → s ≢ Slot.Report → D.slots desk.new s ≡ D.slots desk.old s }
{
    tell_packet(rt, alloc, telling, text, unit, packet)?;
    put_full(desk, text)
}

// Puts the text, if it is full.
fn put_full<D: Desk>(desk: &mut D, text: &mut Vec<u8>) -> Result<(), RunFault>
    requires report { IsSome (D.slots desk.old Slot.Report).name }
    ensures ok { OnOk result (Gathers [] text.old.items text.new.items (D.slots desk.old) (D.slots desk.new)) }
    ensures err { IfErr result (Breaks [] text.old.items (D.slots desk.old) (D.slots desk.new)) }
    ensures others { (s : Slot) → s ≢ Slot.Report → D.slots desk.new s ≡ D.slots desk.old s }
{
    if text.len() < FULL {
        return Ok(());
    }
    put_text(desk, text)?;
    text.clear();
    Ok(())
}
