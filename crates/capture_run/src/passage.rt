//! Runs a capture through the chains of a service, burst by burst.
ghost use Rattle.std.specs.Prelude.{◌≡◌, ◌≢◌, ◌≤◌, ◌<◌, ◌+◌, ◌^◌, All, IfErr, IfOk, IsSome, length};
ghost use Rattle.nfp_outside.specs.declared.slot.Slot.{Slot};
ghost use Rattle.capture_report.specs.BurstWalkProofs.{IsClassed};
ghost use Rattle.capture_run.specs.Passing.{IsTold, PassBreaks, Passes};
ghost use Rattle.capture_run.specs.Streams.{held_in};

use crate::emit::put_emitted;
use capture_bytes::Unit;
use capture_items::{RunFault, Sink, Totals, put_text};
use capture_report::{Merging, Service, burst_lines, count_gone, walk_burst};
use classifier::Burst;
use nfp_outside::{Desk, Gate};
use std::alloc::Global;
use std::rt::Clock;
use std::sync::Wait;
use std::thread::Threads;

/// A capture on its way through a service: the chains as the last packet left them, the sink of the packets that pass,
/// and the totals so far.
#[derive(Drop)]
pub struct Passage<W> {
    pub service: Service,
    pub unit: Unit,
    pub writer: W,
    pub totals: Totals,
}

/// Runs the packets of a burst through their chains, puts each packet that passes into Out, with what belongs to its
/// record, and then the line of each that is dropped into Report. `merging` gives the number and the way of the
/// mergers, and each step of a function passes the gate first.
pub fn pass_burst<
    R: Threads + Wait + Clock + Sync,
    D: Desk,
    X: Drop,
    B: Drop,
    W: Sink<X, B> + Drop,
    G: Gate + Sync,
>(
    rt: &R,
    alloc: Global,
    desk: &mut D,
    passage: Passage<W>,
    burst: Burst,
    beside: &Vec<X>,
    merging: Merging,
    gate: &G,
) -> Result<Passage<W>, RunFault>
    requires out { IsSome (D.slots desk.old Slot.Out).name }
    requires report { IsSome (D.slots desk.old Slot.Report).name }
    requires few { length burst.items ≤ 65536 }
    requires as_many { length beside.now.items ≡ length burst.items }
    requires classed { All (IsClassed passage.service.classes) burst.items }
    requires told { IsTold passage }
    requires room { passage.totals.records + length burst.items < 2 ^ 32 }
    requires within { passage.totals.dropped ≤ passage.totals.records }
    ensures ok { IfOk result (λ after. Passes W.spelled (held_in burst.items beside.now.items) passage after (D.slots desk.old) (D.slots desk.new)) }
    ensures told { IfOk result (λ after. IsTold after) }
    ensures err { IfErr result (PassBreaks W.spelled (held_in burst.items beside.now.items) passage (D.slots desk.old) (D.slots desk.new)) }
    ensures others { (s : Slot) → s ≢ Slot.Out → s ≢ Slot.Report → D.slots desk.new s ≡ D.slots desk.old s }
{
    let Passage {
        service,
        unit,
        mut writer,
        mut totals,
    } = passage;
    let (service, fates) = walk_burst(rt, alloc, service, &burst, unit, merging, gate)?;
    let items = burst.items.as_slice();
    let chains = service.chains.as_slice();
    let lines = burst_lines(alloc, chains, totals.records + 1, items, &fates)?;
    totals.records += fates.len() as u64;
    totals.dropped += count_gone(items, &fates);
    put_emitted(desk, &mut writer, items, beside.as_slice(), fates)?;
    put_text(desk, &lines)?;
    Ok(Passage {
        service,
        unit,
        writer,
        totals,
    })
}
