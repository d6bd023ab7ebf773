//! Runs a demo: a generated capture through the chains of its own policy, with a summary of the output.
ghost use Rattle.std.specs.Prelude.{◌≡◌, ◌≤◌, ◌-◌, IfOk, IsSome, Some, None};
ghost use Rattle.nfp_outside.specs.declared.slot.Slot.{Slot};
ghost use Rattle.policy_judge.specs.Judging.{judged};
ghost use Rattle.capture_run.specs.ChainServiceProofs.{IsOpening, chains_of};
ghost use Rattle.capture_run.specs.ChainService.{service_of};
ghost use Rattle.demo_capture.specs.DemoCapture.{policy_text, demo_head, demo_records, whole_body};
ghost use Rattle.capture_run.specs.BurstWalk.{fates_of};
ghost use Rattle.command_words.specs.Named.{IsInRange};
ghost use Rattle.capture_run.specs.Running.{Counts};
ghost use Rattle.capture_items.specs.Slots.{Puts};
ghost use Rattle.nfp_run.specs.DemoNote.{demo_summary, demo_text};
ghost use Rattle.nfp_run.specs.Reading.{DemoEnds};
ghost use Rattle.nfp_run.specs.Written.{written_of};

use crate::attach::put_head;
use crate::demo_source::DemoSource;
use crate::ways::merging_by;
use call_ending::{Ending, Outcome};
use capture_items::{RunFault, Totals};
use capture_run::{Ended, Service, make_service, run_capture};
use command_words::{DemoInput, RunOptions};
use demo_capture::{Summary, Weighed, head, policy, push_summary};
use graph_text::no_graphs;
use item_list::Items;
use nfp_outside::{Desk, Gate, Scales, Slot, Weight, weights_add_up};
use policy_judge::judge;
use std::alloc::{AllocError, Global};
use std::rt::Clock;
use std::sync::Wait;
use std::thread::Threads;

/// Runs the capture of this seed and count through the demo's policy, in bursts and with mergers as the options say.
/// The summary has the number of packets that came out, and the lengths and weights of the texts that a run would
/// write. No slot is touched.
pub fn demo<R: Threads + Wait + Clock + Sync, G: Gate + Sync>(
    rt: &R,
    alloc: Global,
    input: DemoInput,
    options: RunOptions,
    gate: &G,
) -> Ending
    requires ranges { IsInRange options }
    ensures { DemoEnds input result }
{
    match text(rt, alloc, input, options, gate) {
        Ok(text) => Ending::Shown(Items::new(text)),
        Err(_) => Ending::Stopped(Outcome::OutOfMemory),
    }
}

fn text<R: Threads + Wait + Clock + Sync, G: Gate + Sync>(
    rt: &R,
    alloc: Global,
    input: DemoInput,
    options: RunOptions,
    gate: &G,
) -> Result<Vec<u8>, AllocError>
    requires ranges { IsInRange options }
    ensures { IfOk result (λ v. v.items ≡ demo_text input) }
{
    let service = demo_service(alloc)?;
    let summary = weigh(rt, alloc, service, input, options, gate)?;
    let mut text = Vec::new(alloc);
    push_summary(alloc, &mut text, &summary)?;
    Ok(text)
}

// The chains of the demo's policy. It has no fault, so an error means that memory ran out.
#[tactic(auto, using(crate::proofs::DemoRuns::served_demo))]
fn demo_service(alloc: Global) -> Result<Service, AllocError>
    ensures serves { IfOk result (λ s. service_of (judged policy_text) ≡ Some (chains_of s.chains)) }
    ensures opening { IfOk result IsOpening }
{
    match judge(alloc, policy()) {
        Ok(judged) => {
            let graphs = no_graphs(alloc, judged.policy.chains.as_slice())?;
            make_service(alloc, judged, graphs)
        }
        Err(_) => Err(AllocError),
    }
}

// The numbers of the summary. Scales never fail, so if the run was aborted, memory ran out.
#[tactic(auto, using(crate::proofs::DemoRuns::summed_demo))]
fn weigh<R: Threads + Wait + Clock + Sync, G: Gate + Sync>(
    rt: &R,
    alloc: Global,
    service: Service,
    input: DemoInput,
    options: RunOptions,
    gate: &G,
) -> Result<Summary, AllocError>
    requires opening { IsOpening service }
    requires ranges { IsInRange options }
    ensures { IfOk result (λ summary. summary ≡ demo_summary input (chains_of service.chains)) }
{
    weights_add_up();
    let mut scales = Scales::new(alloc);
    match lead(rt, alloc, &mut scales, service, input, options, gate) {
        Ok(ended) => Ok(summary_by(
            input,
            ended.totals,
            scales.weight(Slot::Out),
            scales.weight(Slot::Report),
        )),
        Err(_) => Err(AllocError),
    }
}

// Runs the demo's capture through these chains, and puts the output into the slots of a desk.
fn lead<R: Threads + Wait + Clock + Sync, D: Desk, G: Gate + Sync>(
    rt: &R,
    alloc: Global,
    desk: &mut D,
    service: Service,
    input: DemoInput,
    options: RunOptions,
    gate: &G,
) -> Result<Ended, RunFault>
    requires capture { IsSome (D.slots desk.old Slot.Capture).name }
    requires out { IsSome (D.slots desk.old Slot.Out).name }
    requires report { IsSome (D.slots desk.old Slot.Report).name }
    requires opening { IsOpening service }
    requires ranges { IsInRange options }
    ensures puts { IfOk result (λ ended. Puts (written_of (chains_of service.chains) demo_head (whole_body (demo_records input.seed input.count))).out
        (written_of (chains_of service.chains) demo_head (whole_body (demo_records input.seed input.count))).report (D.slots desk.old) (D.slots desk.new)) }
    ensures counts { IfOk result (Counts None (fates_of (chains_of service.chains) demo_head.unit (demo_records input.seed input.count))) }
    ensures within { IfOk result (λ ended. ended.totals.dropped ≤ ended.totals.records) }
{
    let head = head();
    let writer = put_head(desk, &head, &service)?;
    let records = DemoSource::new(input);
    run_capture(
        rt,
        alloc,
        desk,
        service,
        head.unit,
        options.burst,
        records,
        writer,
        merging_by(options),
        gate,
    )
}

fn summary_by(input: DemoInput, totals: Totals, out: Weight, report: Weight) -> Summary
    requires { totals.dropped ≤ totals.records }
    ensures { result ≡ record {
      seed = input.seed;
      count = input.count;
      records = totals.records;
      emitted = totals.records - totals.dropped;
      dropped = totals.dropped;
      out = record { bytes = out.bytes; weight = out.sum };
      report = record { bytes = report.bytes; weight = report.sum };
    } }
{
    Summary {
        seed: input.seed,
        count: input.count,
        records: totals.records,
        emitted: totals.records - totals.dropped,
        dropped: totals.dropped,
        out: weighed(out),
        report: weighed(report),
    }
}

fn weighed(weight: Weight) -> Weighed
    ensures { result ≡ record { bytes = weight.bytes; weight = weight.sum } }
{
    Weighed {
        bytes: weight.bytes,
        weight: weight.sum,
    }
}
