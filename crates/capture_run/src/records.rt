//! Takes the items of a capture, and runs each burst after its last packet, or before a block that isn't a packet.
ghost use Rattle.std.specs.Prelude.{◌≡◌, ◌≢◌, ◌≤◌, ◌<◌, ◌+◌, ◌-◌, ◌^◌, [], true, All, IfNone, IfOk, IfErr, IsSome, OnOk, length};
ghost use Rattle.nfp_outside.specs.declared.slot.Slot.{Slot};
ghost use Rattle.capture_bytes.specs.Packets.{IsShort};
ghost use Rattle.capture_run.specs.Passing.{Ends, IsFresh, IsReady, IsTold, PassBreaks, Passes, StopBreaks, StopEnds, TakeBreaks, Takes};
ghost use Rattle.capture_report.specs.BurstWalkProofs.{IsClassed};
ghost use Rattle.capture_run.specs.Running.{RunBreaks, RunsAll};
ghost use Rattle.capture_items.specs.Streams.{HasNumber, IsShortGiven};
ghost use Rattle.capture_run.specs.Streams.{held_in};
ghost use Rattle.capture_items.specs.declared.given.Given.TheVariants.{Block, Packet};

use crate::passage::{Passage, pass_burst};
use capture_bytes::PcapRecord;
use capture_items::{FormatFault, Given, RunFault, Sink, Source, SourceFault, put_block};
use capture_report::{Merging, NamedFunction, bursts_are_counted_in_a_row};
use classifier::{Burst, Cutter};
use nfp_outside::{Desk, Gate};
use std::alloc::Global;
use std::rt::Clock;
use std::sync::Wait;
use std::thread::Threads;

/// Takes the items of the capture, one after another, and runs each burst, of at most `burst` packets, after its last
/// packet or before a block that isn't a packet; such a block is then put.
pub fn run_records<
    R: Threads + Wait + Clock + Sync,
    D: Desk,
    X: Drop,
    B: Drop,
    S: Source<X, B> + Drop,
    W: Sink<X, B> + Drop,
    G: Gate + Sync,
>(
    rt: &R,
    alloc: Global,
    desk: &mut D,
    burst: u32,
    source: S,
    passage: Passage<W>,
    merging: Merging,
    gate: &G,
) -> Result<(Passage<W>, Option<FormatFault>), RunFault>
    requires some { 0 < burst }
    requires few { burst ≤ 65536 }
    requires capture { IsSome (D.slots desk.old Slot.Capture).name }
    requires out { IsSome (D.slots desk.old Slot.Out).name }
    requires report { IsSome (D.slots desk.old Slot.Report).name }
    requires new { IsFresh passage }
    requires fresh { S.packets source ≡ 0 }
    requires open { S.is_open source ≡ true }
    ensures ok { IfOk result (RunsAll W.spelled passage (S.left source (D.slots desk.old Slot.Capture)) (D.slots desk.old) (D.slots desk.new)) }
    ensures err { IfErr result (RunBreaks W.spelled passage (S.left source (D.slots desk.old Slot.Capture)) (D.slots desk.old) (D.slots desk.new)) }
    ensures drained { IfOk result (λ run. IfNone run.1 (S.is_drained (D.slots desk.new Slot.Capture))) }
    ensures capture_name { (D.slots desk.new Slot.Capture).name ≡ (D.slots desk.old Slot.Capture).name }
    ensures others { (s : Slot) → s ≢ Slot.Out → s ≢ Slot.Report → s ≢ Slot.Capture → D.slots desk.new s ≡ D.slots desk.old s }
{
    bursts_are_counted_in_a_row::<NamedFunction>();
    let mut source = source;
    let mut cutter = Cutter::new(alloc, burst)?;
    let mut beside = Vec::new(alloc);
    let mut passage = passage;
    'records: loop {
        match source.next(alloc, desk) {
            Ok(Some(given)) => {
                passage = match take(
                    rt,
                    alloc,
                    desk,
                    &mut cutter,
                    &mut beside,
                    passage,
                    given,
                    merging,
                    gate,
                ) {
                    Ok(next) => next,
                    Err(fault) => return Err(fault),
                };
            }
            Ok(None) => return end(
                rt, alloc, desk, cutter, &beside, passage, None, merging, gate,
            ),
            Err(refusal) => {
                return stop(
                    rt, alloc, desk, cutter, &beside, passage, refusal, merging, gate,
                );
            }
        }
    }
}

// Takes an item: a packet into the open burst, and another block after it.
fn take<
    R: Threads + Wait + Clock + Sync,
    D: Desk,
    X: Drop,
    B: Drop,
    W: Sink<X, B> + Drop,
    G: Gate + Sync,
>(
    rt: &R,
    alloc: Global,
    desk: &mut D,
    cutter: &mut Cutter,
    beside: &mut Vec<X>,
    passage: Passage<W>,
    given: Given<X, B>,
    merging: Merging,
    gate: &G,
) -> Result<Passage<W>, RunFault>
    requires out { IsSome (D.slots desk.old Slot.Out).name }
    requires report { IsSome (D.slots desk.old Slot.Report).name }
    requires ready { IsReady passage cutter.old beside.old.items }
    requires short { IsShortGiven given }
    requires room { HasNumber given cutter.old.added }
    ensures ok { IfOk result (λ after. Takes W.spelled cutter.old beside.old.items cutter.new beside.new.items given passage after (D.slots desk.old) (D.slots desk.new)) }
    ensures err { IfErr result (TakeBreaks W.spelled cutter.old beside.old.items given passage (D.slots desk.old) (D.slots desk.new)) }
    ensures others { (s : Slot) → s ≢ Slot.Out → s ≢ Slot.Report → D.slots desk.new s ≡ D.slots desk.old s }
{
    match given {
        Given::Packet(packet, own) => hold(
            rt, alloc, desk, cutter, beside, passage, packet, own, merging, gate,
        ),
        Given::Block(block) => pass_block(
            rt, alloc, desk, cutter, beside, passage, block, merging, gate,
        ),
    }
}

// Adds a packet to the open burst, with the chain that takes it, and runs the burst if this packet closes it.
fn hold<
    R: Threads + Wait + Clock + Sync,
    D: Desk,
    X: Drop,
    B: Drop,
    W: Sink<X, B> + Drop,
    G: Gate + Sync,
>(
    rt: &R,
    alloc: Global,
    desk: &mut D,
    cutter: &mut Cutter,
    beside: &mut Vec<X>,
    passage: Passage<W>,
    packet: PcapRecord,
    own: X,
    merging: Merging,
    gate: &G,
) -> Result<Passage<W>, RunFault>
    requires out { IsSome (D.slots desk.old Slot.Out).name }
    requires report { IsSome (D.slots desk.old Slot.Report).name }
    requires ready { IsReady passage cutter.old beside.old.items }
    requires short { IsShort packet }
    requires room { cutter.old.added < 2 ^ 32 - 1 }
    ensures ok { IfOk result (λ after. Takes W.spelled cutter.old beside.old.items cutter.new beside.new.items (Packet packet own) passage after (D.slots desk.old) (D.slots desk.new)) }
    ensures err { IfErr result (TakeBreaks W.spelled cutter.old beside.old.items (Packet packet own) passage (D.slots desk.old) (D.slots desk.new)) }
    ensures others { (s : Slot) → s ≢ Slot.Out → s ≢ Slot.Report → D.slots desk.new s ≡ D.slots desk.old s }
{
    let class = passage.service.classes.class(packet.frame.bytes());
    beside.push(own)?;
    match cutter.add(packet, class) {
        Ok(None) => Ok(passage),
        Ok(Some(burst)) => run_held(rt, alloc, desk, passage, burst, beside, merging, gate),
        Err(_) => Err(RunFault::OutOfMemory),
    }
}

// Runs the open burst, and then puts a block that isn't a packet.
fn pass_block<
    R: Threads + Wait + Clock + Sync,
    D: Desk,
    X: Drop,
    B: Drop,
    W: Sink<X, B> + Drop,
    G: Gate + Sync,
>(
    rt: &R,
    alloc: Global,
    desk: &mut D,
    cutter: &mut Cutter,
    beside: &mut Vec<X>,
    passage: Passage<W>,
    block: B,
    merging: Merging,
    gate: &G,
) -> Result<Passage<W>, RunFault>
    requires out { IsSome (D.slots desk.old Slot.Out).name }
    requires report { IsSome (D.slots desk.old Slot.Report).name }
    requires ready { IsReady passage cutter.old beside.old.items }
    ensures ok { IfOk result (λ after. Takes W.spelled cutter.old beside.old.items cutter.new beside.new.items (Block block) passage after (D.slots desk.old) (D.slots desk.new)) }
    ensures err { IfErr result (TakeBreaks W.spelled cutter.old beside.old.items (Block block) passage (D.slots desk.old) (D.slots desk.new)) }
    ensures others { (s : Slot) → s ≢ Slot.Out → s ≢ Slot.Report → D.slots desk.new s ≡ D.slots desk.old s }
{
    bursts_are_counted_in_a_row::<NamedFunction>();
    let burst = cutter.cut_now()?;
    let mut passage = run_held(rt, alloc, desk, passage, burst, beside, merging, gate)?;
    put_block(desk, &mut passage.writer, &block)?;
    Ok(passage)
}

// Runs a burst, and drops what belonged to its records.
fn run_held<
    R: Threads + Wait + Clock + Sync,
    D: Desk,
    X: Drop,
    B: Drop,
    W: Sink<X, B> + Drop,
    G: Gate + Sync,
>(
    rt: &R,
    alloc: Global,
    desk: &mut D,
    passage: Passage<W>,
    burst: Burst,
    beside: &mut Vec<X>,
    merging: Merging,
    gate: &G,
) -> Result<Passage<W>, RunFault>
    requires out { IsSome (D.slots desk.old Slot.Out).name }
    requires report { IsSome (D.slots desk.old Slot.Report).name }
    requires few { length burst.items ≤ 65536 }
    requires as_many { length beside.old.items ≡ length burst.items }
    requires classed { All (IsClassed passage.service.classes) burst.items }
    requires told { IsTold passage }
    requires room { passage.totals.records + length burst.items < 2 ^ 32 }
    requires within { passage.totals.dropped ≤ passage.totals.records }
    ensures ok { IfOk result (λ after. Passes W.spelled (held_in burst.items beside.old.items) passage after (D.slots desk.old) (D.slots desk.new)) }
    ensures told { IfOk result (λ after. IsTold after) }
    ensures none_left { OnOk result (beside.new.items ≡ []) }
    ensures err { IfErr result (PassBreaks W.spelled (held_in burst.items beside.old.items) passage (D.slots desk.old) (D.slots desk.new)) }
    ensures others { (s : Slot) → s ≢ Slot.Out → s ≢ Slot.Report → D.slots desk.new s ≡ D.slots desk.old s }
{
    match pass_burst(rt, alloc, desk, passage, burst, beside, merging, gate) {
        Ok(passage) => {
            beside.clear();
            Ok(passage)
        }
        Err(fault) => Err(fault),
    }
}

// Runs the open burst, and returns how the capture ended.
fn end<
    R: Threads + Wait + Clock + Sync,
    D: Desk,
    X: Drop,
    B: Drop,
    W: Sink<X, B> + Drop,
    G: Gate + Sync,
>(
    rt: &R,
    alloc: Global,
    desk: &mut D,
    cutter: Cutter,
    beside: &Vec<X>,
    passage: Passage<W>,
    fault: Option<FormatFault>,
    merging: Merging,
    gate: &G,
) -> Result<(Passage<W>, Option<FormatFault>), RunFault>
    requires out { IsSome (D.slots desk.old Slot.Out).name }
    requires report { IsSome (D.slots desk.old Slot.Report).name }
    requires ready { IsReady passage cutter beside.now.items }
    ensures ok { IfOk result (Ends W.spelled (held_in cutter.held beside.now.items) passage fault (D.slots desk.old) (D.slots desk.new)) }
    ensures err { IfErr result (PassBreaks W.spelled (held_in cutter.held beside.now.items) passage (D.slots desk.old) (D.slots desk.new)) }
    ensures others { (s : Slot) → s ≢ Slot.Out → s ≢ Slot.Report → D.slots desk.new s ≡ D.slots desk.old s }
{
    let burst = cutter.rest();
    let passage = pass_burst(rt, alloc, desk, passage, burst, beside, merging, gate)?;
    Ok((passage, fault))
}

// How a run ends after nothing more could be read. A fault of the capture ends it in the same way as its end.
fn stop<
    R: Threads + Wait + Clock + Sync,
    D: Desk,
    X: Drop,
    B: Drop,
    W: Sink<X, B> + Drop,
    G: Gate + Sync,
>(
    rt: &R,
    alloc: Global,
    desk: &mut D,
    cutter: Cutter,
    beside: &Vec<X>,
    passage: Passage<W>,
    refusal: SourceFault,
    merging: Merging,
    gate: &G,
) -> Result<(Passage<W>, Option<FormatFault>), RunFault>
    requires out { IsSome (D.slots desk.old Slot.Out).name }
    requires report { IsSome (D.slots desk.old Slot.Report).name }
    requires ready { IsReady passage cutter beside.now.items }
    ensures ok { IfOk result (StopEnds W.spelled (held_in cutter.held beside.now.items) passage refusal (D.slots desk.old) (D.slots desk.new)) }
    ensures err { IfErr result (StopBreaks W.spelled (held_in cutter.held beside.now.items) passage refusal (D.slots desk.old) (D.slots desk.new)) }
    ensures others { (s : Slot) → s ≢ Slot.Out → s ≢ Slot.Report → D.slots desk.new s ≡ D.slots desk.old s }
{
    match refusal {
        SourceFault::Format(fault) => end(
            rt,
            alloc,
            desk,
            cutter,
            beside,
            passage,
            Some(fault),
            merging,
            gate,
        ),
        SourceFault::ReadFault => Err(RunFault::ReadFault),
        SourceFault::OutOfMemory => Err(RunFault::OutOfMemory),
    }
}
