//! Leads a capture through the chains of a policy and reports why, up to the line in Note.
ghost use Rattle.std.specs.Prelude.{◌≡◌, ◌≢◌, ◌≤◌, ◌⊎◌, map, string_bytes, IfErr, IfNone, IfOk, IfSome, IsSome, Ok, Some, None};
ghost use Rattle.nfp_outside.specs.declared.slot.Slot.{Slot};
ghost use Rattle.capture_items.specs.Slots.{IsBroken};
ghost use Rattle.capture_items.specs.Sources.{IsOpeningFault};
ghost use Rattle.command_words.specs.Named.{asked_seen};
ghost use Rattle.command_words.specs.WhyWords.{why_of};
ghost use Rattle.call_ending.specs.Reading.{IsBefore};
ghost use Rattle.call_ending.specs.Told.{IsReadWhole};
ghost use Rattle.why_call.specs.Ran.{IsWithin, Ran, why_line, why_outcome};
ghost use Rattle.why_call.specs.Reporting.{Left, packets_left};

use crate::ending::{WhyEnding, ending_of};
use crate::ready::read_chains;
use call_ending::{Ending, Opened, Outcome, attach_sink, open_capture};
use capture_bytes::Unit;
use capture_items::RunFault;
use command_words::{WhyRequest, WordsFault, read_why};
use nfp_outside::{Desk, Slot};
use plain_chains::PlainService;
use std::alloc::Global;
use std::sync::Wait;
use why_run::{WhyEnded, run_why};

/// Does what the words behind `why` say, up to the line in Note.
#[tactic(auto, using(crate::proofs::EarlyEnds::unread_ran, crate::proofs::EarlyEnds::usage_ran))]
pub fn run_words<R: Wait, D: Desk>(
    rt: &R,
    alloc: Global,
    words: &[String],
    desk: &mut D,
) -> WhyEnding
    requires { (s : Slot) → (D.slots desk.old s).name ≡ None }
    ensures within { IsWithin result }
    ensures ran { Ran (why_of (map string_bytes words.now)) (D.slots desk.old) (D.slots desk.new) (why_outcome result) (why_line result) }
    ensures out_stays { D.slots desk.new Slot.Out ≡ D.slots desk.old Slot.Out }
    ensures graph_stays { D.slots desk.new Slot.Graph ≡ D.slots desk.old Slot.Graph }
{
    match read_why(alloc, words) {
        Ok(request) => explain(rt, alloc, &request, desk),
        Err(WordsFault::Usage(fault)) => WhyEnding::Ended(Ending::Stopped(Outcome::Usage(fault))),
        Err(WordsFault::OutOfMemory) => WhyEnding::Ended(Ending::Stopped(Outcome::OutOfMemory)),
    }
}

// Leads the capture through the chains of the policy. The words are accepted.
fn explain<R: Wait, D: Desk>(
    rt: &R,
    alloc: Global,
    request: &WhyRequest<'_>,
    desk: &mut D,
) -> WhyEnding
    requires free { (s : Slot) → (D.slots desk.old s).name ≡ None }
    requires asked { IfSome request.now.«record» (λ n. 1 ≤ n) }
    ensures within { IsWithin result }
    ensures ran { Ran (Ok (asked_seen request.now)) (D.slots desk.old) (D.slots desk.new) (why_outcome result) (why_line result) }
    ensures out_stays { D.slots desk.new Slot.Out ≡ D.slots desk.old Slot.Out }
    ensures graph_stays { D.slots desk.new Slot.Graph ≡ D.slots desk.old Slot.Graph }
{
    let service = match read_chains(alloc, desk, request.policy) {
        Ok(service) => service,
        Err(ending) => return WhyEnding::Ended(ending),
    };
    let opened = match open_capture(alloc, desk, request.capture) {
        Ok(opened) => opened,
        Err(outcome) => return WhyEnding::Ended(Ending::Stopped(outcome)),
    };
    ending_of(
        alloc,
        request.record,
        attach_and_run(rt, alloc, desk, request, service, opened),
    )
}

// Attaches Report, and leads the capture through the chains, by its format.
fn attach_and_run<R: Wait, D: Desk>(
    rt: &R,
    alloc: Global,
    desk: &mut D,
    request: &WhyRequest<'_>,
    service: PlainService,
    opened: Opened,
) -> Result<WhyEnded, RunFault>
    requires capture { IsSome (D.slots desk.old Slot.Capture).name }
    requires free { (D.slots desk.old Slot.Report).name ≡ None }
    requires asked { IfSome request.now.«record» (λ n. 1 ≤ n) }
    requires fresh { IsBefore opened }
    ensures left { IfSome (packets_left opened (D.slots desk.old Slot.Capture))
        (Left service request.now.«record» (D.slots desk.old Slot.Report) (D.slots desk.new Slot.Report) result) }
    ensures cause { IfErr result (IsBroken (D.slots desk.old) (D.slots desk.new)) }
    ensures within { IfOk result (λ ended. ended.totals.dropped ≤ ended.totals.records) }
    ensures kind { IfOk result (λ ended. IfSome ended.fault (λ fault. ¬ IsOpeningFault fault)) }
    ensures drained { IfOk result (λ ended. IfNone ended.fault (IsReadWhole (D.slots desk.new Slot.Capture))) }
    ensures attached { IfOk result (λ ended. IsSome (D.slots desk.new Slot.Report).name) }
    ensures report_name { ((D.slots desk.new Slot.Report).name ≡ None)
        ⊎ ((D.slots desk.new Slot.Report).name ≡ Some request.now.report.now) }
    ensures capture_name { (D.slots desk.new Slot.Capture).name ≡ (D.slots desk.old Slot.Capture).name }
    ensures others { (s : Slot) → s ≢ Slot.Report → s ≢ Slot.Capture → D.slots desk.new s ≡ D.slots desk.old s }
{
    attach_sink(desk, Slot::Report, request.report)?;
    match opened {
        Opened::Pcap(head, reader) => {
            run_why(rt, alloc, desk, service, head.unit, reader, request.record)
        }
        Opened::Ng(source) => run_why(rt, alloc, desk, service, Unit::Nano, source, request.record),
    }
}
