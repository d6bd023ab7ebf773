//! Runs a capture through the chains of a service.
ghost use Rattle.std.specs.Prelude.{◌≡◌, ◌≢◌, ◌≤◌, ◌<◌, true, IfErr, IfNone, IfOk, IsSome};
ghost use Rattle.nfp_outside.specs.declared.slot.Slot.{Slot};
ghost use Rattle.capture_report.specs.ChainServiceProofs.{IsOpening, chains_of};
ghost use Rattle.capture_run.specs.Running.{WritesAll, WriteBreaks};

use crate::passage::Passage;
use crate::records::run_records;
use crate::summary::put_summary;
use capture_bytes::Unit;
use capture_items::{RunFault, Sink, Source, Totals, put_text};
use capture_report::{Ended, Merging, Service, TITLE};
use nfp_outside::{Desk, Gate};
use std::alloc::Global;
use std::rt::Clock;
use std::sync::Wait;
use std::thread::Threads;

/// Runs each packet of a capture through the chain that takes it. Puts the packets that pass into Out, with the other
/// blocks of the capture among them, and the report into Report.
///
/// If the format has a head, it was read and written: the source is after the one, and the sink after the other.
/// Packets are held until their burst is full, at `burst` packets, or the capture ends. For a whole capture, what is
/// put doesn't depend on the bursts; but if memory runs out or a slot fails, the packets that were read since the last
/// burst aren't written.
///
/// If a burst runs on threads, the branches of a stage run side by side, and after them at most as many mergers as
/// `merging` says, which merge the results of the branches in its way. Otherwise it runs on the caller's thread. The
/// pace of its chain decides which. The output never depends on that. Each step of a function passes the gate first.
pub fn run_capture<
    R: Threads + Wait + Clock + Sync,
    D: Desk,
    X: Drop,
    B: Drop,
    S: Source<X, B> + Drop,
    W: Sink<X, B> + Drop,
    G: Gate + Sync,
>(
    rt: &R,
    alloc: Global,
    desk: &mut D,
    service: Service,
    unit: Unit,
    burst: u32,
    source: S,
    sink: W,
    merging: Merging,
    gate: &G,
) -> Result<Ended, RunFault>
    requires some { 0 < burst }
    requires few { burst ≤ 65536 }
    requires capture { IsSome (D.slots desk.old Slot.Capture).name }
    requires out { IsSome (D.slots desk.old Slot.Out).name }
    requires report { IsSome (D.slots desk.old Slot.Report).name }
    requires opening { IsOpening service }
    requires fresh { S.packets source ≡ 0 }
    requires open { S.is_open source ≡ true }
    ensures ok { IfOk result (WritesAll (W.spelled sink) (chains_of service.chains) unit (S.left source (D.slots desk.old Slot.Capture)) (D.slots desk.old) (D.slots desk.new)) }
    ensures err { IfErr result (WriteBreaks (W.spelled sink) (chains_of service.chains) unit (S.left source (D.slots desk.old Slot.Capture)) (D.slots desk.old) (D.slots desk.new)) }
    ensures drained { IfOk result (λ ended. IfNone ended.fault (S.is_drained (D.slots desk.new Slot.Capture))) }
    ensures capture_name { (D.slots desk.new Slot.Capture).name ≡ (D.slots desk.old Slot.Capture).name }
    ensures others { (s : Slot) → s ≢ Slot.Out → s ≢ Slot.Report → s ≢ Slot.Capture → D.slots desk.new s ≡ D.slots desk.old s }
{
    put_text(desk, TITLE)?;
    let passage = Passage {
        service,
        unit,
        writer: sink,
        totals: Totals {
            records: 0,
            dropped: 0,
        },
    };
    let (passage, fault) = run_records(rt, alloc, desk, burst, source, passage, merging, gate)?;
    let ended = Ended {
        totals: passage.totals,
        fault,
    };
    put_summary(alloc, desk, passage.service.chains.as_slice(), ended)?;
    Ok(ended)
}
