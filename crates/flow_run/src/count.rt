//! Counts the flows of a capture.
ghost use Rattle.std.specs.Prelude.{◌≡◌, ◌≢◌, ◌≤◌, ◌<◌, ◌^◌, [], All, IfNone, IfOk, IfSome, IsErrOf, IsSome, length};
ghost use Rattle.nfp_outside.specs.declared.slot.Slot.{Slot};
ghost use Rattle.nfp_outside.specs.Outside.{IsRisen};
ghost use Rattle.pcap_io.specs.Capture.{IsHeadFault};
ghost use Rattle.pcap_io.specs.Reader.{body_left, reader_at};
ghost use Rattle.flow_line.specs.Versions.{HasFittingKey};
ghost use Rattle.flow_run.specs.Counting.{FitsSpan, IsCountOf};

use crate::counting::Counting;
use capture_bytes::Unit;
use flow_export::Span5;
use flow_line::FlowLine;
use item_list::Items;
use nfp_outside::{Desk, DeskFault, Slot};
use pcap_io::{CaptureFault, CaptureHead, PcapFault, Reader};
use std::alloc::Global;
use std::thread::Threads;

/// The counts of a capture.
#[derive(Drop)]
pub struct Counted {
    /// The number of its records, up to its fault if it has one.
    pub records: u32,
    /// The lines of their flows, in the order of first sight.
    pub lines: Items<FlowLine>,
    /// From the least time of its records to the greatest; 0 to 0 if there is no record.
    pub span: Span5,
    /// What ended it.
    pub fault: Option<CaptureFault>,
}

/// Counts the flows of the rest of a capture after its head, on `workers` workers, in bursts of at most `burst`
/// packets.
///
/// `Failed` only if the count of faults of the slot Capture rose.
pub fn count_flows<R: Threads + Sync, D: Desk>(
    rt: &R,
    alloc: Global,
    desk: &mut D,
    head: &CaptureHead,
    reader: Reader,
    workers: u32,
    burst: u32,
) -> Result<Counted, DeskFault>
    requires some_workers { 1 ≤ workers }
    requires few_workers { workers ≤ 16 }
    requires some_packets { 1 ≤ burst }
    requires few_packets { burst ≤ 65536 }
    requires attached { IsSome (D.slots desk.old Slot.Capture).name }
    requires fresh { reader ≡ reader_at head.now.order 0 }
    ensures counted { IfOk result (λ counted. IfSome (body_left reader (D.slots desk.old Slot.Capture)) (λ body. IsCountOf head.now.unit body counted)) }
    ensures kind { IfOk result (λ counted. IfSome counted.fault (λ fault. ¬ IsHeadFault fault)) }
    ensures drained { IfOk result (λ counted. IfNone counted.fault (IfSome (D.slots desk.new Slot.Capture).bytes (λ bytes. bytes ≡ []))) }
    ensures span { IfOk result (λ counted. FitsSpan counted.span) }
    ensures fits { IfOk result (λ counted. All HasFittingKey counted.lines) }
    ensures few { IfOk result (λ counted. length counted.lines < 2 ^ 32) }
    ensures cause { IsErrOf result DeskFault.Failed → IsRisen (D.slots desk.old Slot.Capture).faults (D.slots desk.new Slot.Capture).faults }
    ensures later { (D.slots desk.old Slot.Capture).faults ≤ (D.slots desk.new Slot.Capture).faults }
    ensures name { (D.slots desk.new Slot.Capture).name ≡ (D.slots desk.old Slot.Capture).name }
    ensures others { (s : Slot) → s ≢ Slot.Capture → D.slots desk.new s ≡ D.slots desk.old s }
{
    let mut reader = reader;
    let mut counting = match Counting::new(alloc, head.unit, workers, burst) {
        Ok(counting) => counting,
        Err(_) => return Err(DeskFault::NoMemory),
    };
    'records: loop {
        match reader.next(alloc, desk) {
            Ok(Some(record)) => match counting.take(rt, alloc, record) {
                Ok(counted) => counting = counted,
                Err(_) => return Err(DeskFault::NoMemory),
            },
            Ok(None) => return ended(rt, alloc, counting, None),
            Err(refusal) => return stopped(rt, alloc, counting, refusal),
        }
    }
}

ghost use Rattle.flow_run.specs.Counting.{IsCountedWith, StopsAt};

// The counts of a capture whose next record is refused, if the capture has a fault there.
fn stopped<R: Threads + Sync>(
    rt: &R,
    alloc: Global,
    counting: Counting,
    refusal: PcapFault,
) -> Result<Counted, DeskFault>
    ensures stops { StopsAt counting refusal result }
    ensures span { IfOk result (λ counted. FitsSpan counted.span) }
    ensures fits { IfOk result (λ counted. All HasFittingKey counted.lines) }
    ensures few { IfOk result (λ counted. length counted.lines < 2 ^ 32) }
{
    match refusal {
        PcapFault::Capture(fault) => ended(rt, alloc, counting, Some(fault)),
        PcapFault::ReadFault(_) => Err(DeskFault::Failed),
        PcapFault::OutOfMemory => Err(DeskFault::NoMemory),
    }
}

// The counts of a capture that ends here, with a fault if it has one.
fn ended<R: Threads + Sync>(
    rt: &R,
    alloc: Global,
    counting: Counting,
    fault: Option<CaptureFault>,
) -> Result<Counted, DeskFault>
    ensures counted { IfOk result (IsCountedWith counting fault) }
    ensures span { IfOk result (λ counted. FitsSpan counted.span) }
    ensures fits { IfOk result (λ counted. All HasFittingKey counted.lines) }
    ensures few { IfOk result (λ counted. length counted.lines < 2 ^ 32) }
    ensures memory { ¬ IsErrOf result DeskFault.Failed }
{
    match counting.end(rt, alloc, fault) {
        Ok(counted) => Ok(counted),
        Err(_) => Err(DeskFault::NoMemory),
    }
}
