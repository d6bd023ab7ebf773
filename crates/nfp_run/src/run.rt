//! Runs the chains of a policy over a capture, up to the line in Note.
ghost use Rattle.std.specs.Prelude.{◌≡◌, ◌≢◌, ◌≤◌, ◌⊎◌, true, IfErr, IfNone, IfOk, IfSome, IsSome, Ok, Some, None};
ghost use Rattle.std.specs.Option.{option_map};
ghost use Rattle.nfp_outside.specs.declared.slot.Slot.{Slot};
ghost use Rattle.pcap_io.specs.Reader.{reader_at, body_left};
ghost use Rattle.graph_text.specs.declared.fault.GraphFault.{GraphFault};
ghost use Rattle.policy_judge.specs.declared.fault.PolicyFault.{PolicyFault};
ghost use Rattle.command_words.specs.declared.usage.UsageFault.{UsageFault};
ghost use Rattle.command_words.specs.Words.{Run};
ghost use Rattle.nfp_run.specs.Answers.{IsFinal, WhereRead, LeavesPrefixes, HasNames, ReportBehindOut, RunAttaches, ReachesCapture, ReadsToEnd, PolicyCause, GraphCause, ReadFaultCause, WriteFaultCause};
ghost use Rattle.call_ending.specs.Told.{IsReadWhole};
ghost use Rattle.nfp_run.specs.Attached.{RunLeavesAttached};
ghost use Rattle.call_ending.specs.Endings.{outcome_seen, CountsWithin};
ghost use Rattle.nfp_run.specs.Closing.{closed, ending_of, Left, LedPartly, LedWhole, EndsDue};
ghost use Rattle.call_ending.specs.Reading.{IsBefore};
ghost use Rattle.nfp_run.specs.Reading.{led_stream, opened_led};
ghost use Rattle.nfp_run.specs.Due.{due_of_command};
ghost use Rattle.nfp_run.specs.Written.{led_pcap};
ghost use Rattle.capture_items.specs.Formats.{is_asked, ng_left, ng_packets};
ghost use Rattle.capture_items.specs.Slots.{IsBroken};
ghost use Rattle.capture_items.specs.Sources.{IsOpeningFault};
ghost use Rattle.command_words.specs.Named.{IsInRange, names_seen};
ghost use Rattle.capture_run.specs.ChainServiceProofs.{IsOpening, chains_of};

use crate::attach::put_head;
use crate::head::growth;
use crate::prepare::read_service;
use crate::ways::merging_by;
use call_ending::{Ending, Opened, Outcome, attach_sink, open_capture};
use capture_bytes::Unit;
use capture_items::{FormatFault, NgSource, NgWriter, RunFault};
use capture_run::{Ended, Service, run_capture};
use command_words::{FileNames, RunOptions};
use nfp_outside::{Desk, Gate, Slot};
use pcap_io::{CaptureHead, Reader};
use std::alloc::Global;
use std::rt::Clock;
use std::sync::Wait;
use std::thread::Threads;

/// Runs the chains of the policy over the capture, in the graphs that were written for them, if the words name them.
/// The words are accepted, and nothing is put into Note.
pub fn run<R: Threads + Wait + Clock + Sync, D: Desk, G: Gate + Sync>(
    rt: &R,
    alloc: Global,
    names: &FileNames<'_>,
    options: RunOptions,
    desk: &mut D,
    gate: &G,
) -> Ending
    requires ranges { IsInRange options }
    requires free { (s : Slot) → (D.slots desk.old s).name ≡ None }
    ensures due { IsFinal (outcome_seen result) → WhereRead (Ok (Run (names_seen names.now) options)) (D.slots desk.old) (λ p g c.
        EndsDue (due_of_command (Ok (Run (names_seen names.now) options)) p g c) (D.slots desk.old) (D.slots desk.new) result) }
    ensures prefixes { WhereRead (Ok (Run (names_seen names.now) options)) (D.slots desk.old) (λ p g c.
        LeavesPrefixes (due_of_command (Ok (Run (names_seen names.now) options)) p g c).written (D.slots desk.old) (D.slots desk.new)) }
    ensures within { CountsWithin result }
    ensures names { HasNames (Ok (Run (names_seen names.now) options)) (D.slots desk.new) }
    ensures attached { RunAttaches (outcome_seen result) (D.slots desk.new) }
    ensures report_behind { ReportBehindOut (D.slots desk.new) }
    ensures note_stays { D.slots desk.new Slot.Note ≡ D.slots desk.old Slot.Note }
    ensures no_usage { (f : UsageFault) → outcome_seen result ≡ Outcome.Usage f → ⊥ }
    ensures refused { (f : PolicyFault) → outcome_seen result ≡ Outcome.Policy f →
        PolicyCause (Ok (Run (names_seen names.now) options)) (D.slots desk.old) (D.slots desk.new) f }
    ensures graph_refused { (f : GraphFault) → outcome_seen result ≡ Outcome.Graph f →
        GraphCause (Ok (Run (names_seen names.now) options)) (D.slots desk.old) (D.slots desk.new) f }
    ensures policy { ReachesCapture (Ok (Run (names_seen names.now) options)) (outcome_seen result) (D.slots desk.old) }
    ensures drained { outcome_seen result ≡ Outcome.Done → ReadsToEnd (Ok (Run (names_seen names.now) options)) (D.slots desk.new) }
    ensures read_faults { (s : Slot) → outcome_seen result ≡ Outcome.ReadFault s →
        ReadFaultCause (Ok (Run (names_seen names.now) options)) (D.slots desk.old) (D.slots desk.new) s }
    ensures write_faults { (s : Slot) → outcome_seen result ≡ Outcome.WriteFault s →
        WriteFaultCause (Ok (Run (names_seen names.now) options)) (D.slots desk.old) (D.slots desk.new) s }
    ensures no_note_fault { outcome_seen result ≡ Outcome.WriteFault Slot.Note → ⊥ }
{
    let service = match read_service(alloc, desk, names.policy, names.graph) {
        Ok(service) => service,
        Err(ending) => return ending,
    };
    let opened = match open_capture(alloc, desk, names.capture) {
        Ok(opened) => opened,
        Err(outcome) => return Ending::Stopped(outcome),
    };
    ending_of(attach_and_run(rt, alloc, desk, names, service, options, opened, gate))
}

// How a call that ran a capture ends.
fn ending_of(ran: Result<Ended, RunFault>) -> Ending
    ensures { result ≡ ending_of ran }
{
    match ran {
        Ok(ended) => closed(ended),
        Err(fault) => Ending::Stopped(fault.into()),
    }
}

// The ending of a capture: with its fault if it has one.
fn closed(ended: Ended) -> Ending
    ensures { result ≡ closed ended.totals ended.fault }
{
    match ended.fault {
        None => Ending::Completed(ended.totals),
        Some(FormatFault::Pcap(fault)) => Ending::Stopped(Outcome::Capture(fault)),
        Some(FormatFault::Ng(fault)) => Ending::Stopped(Outcome::CaptureNg(fault)),
    }
}

// Attaches Out and Report, and runs the capture into both, by its format.
fn attach_and_run<R: Threads + Wait + Clock + Sync, D: Desk, G: Gate + Sync>(
    rt: &R,
    alloc: Global,
    desk: &mut D,
    names: &FileNames<'_>,
    service: Service,
    options: RunOptions,
    opened: Opened,
    gate: &G,
) -> Result<Ended, RunFault>
    requires capture { IsSome (D.slots desk.old Slot.Capture).name }
    requires out_free { (D.slots desk.old Slot.Out).name ≡ None }
    requires report_free { (D.slots desk.old Slot.Report).name ≡ None }
    requires opening { IsOpening service }
    requires ranges { IsInRange options }
    requires fresh { IsBefore opened }
    ensures left { IfSome (opened_led (chains_of service.chains) opened (D.slots desk.old Slot.Capture)) (λ led. Left led (D.slots desk.old) (D.slots desk.new) result) }
    ensures cause { IfErr result (IsBroken (D.slots desk.old) (D.slots desk.new)) }
    ensures within { IfOk result (λ ended. ended.totals.dropped ≤ ended.totals.records) }
    ensures kind { IfOk result (λ ended. IfSome ended.fault (λ fault. ¬ IsOpeningFault fault)) }
    ensures drained { IfOk result (λ ended. IfNone ended.fault (IsReadWhole (D.slots desk.new Slot.Capture))) }
    ensures attached { RunLeavesAttached result (D.slots desk.new) }
    ensures report_behind { ReportBehindOut (D.slots desk.new) }
    ensures out_name { ((D.slots desk.new Slot.Out).name ≡ None) ⊎ ((D.slots desk.new Slot.Out).name ≡ Some names.now.out.now) }
    ensures report_name { ((D.slots desk.new Slot.Report).name ≡ None) ⊎ ((D.slots desk.new Slot.Report).name ≡ Some names.now.report.now) }
    ensures capture_name { (D.slots desk.new Slot.Capture).name ≡ (D.slots desk.old Slot.Capture).name }
    ensures others { (s : Slot) → s ≢ Slot.Out → s ≢ Slot.Report → s ≢ Slot.Capture → D.slots desk.new s ≡ D.slots desk.old s }
{
    attach_sink(desk, Slot::Out, names.out)?;
    attach_sink(desk, Slot::Report, names.report)?;
    match opened {
        Opened::Pcap(head, reader) => run_pcap(
            rt, alloc, desk, service, options, &head, reader, gate,
        ),
        Opened::Ng(source) => run_ng(rt, alloc, desk, service, options, source, gate),
    }
}

// Puts the head of the written capture into Out, and then runs a classic capture.
fn run_pcap<R: Threads + Wait + Clock + Sync, D: Desk, G: Gate + Sync>(
    rt: &R,
    alloc: Global,
    desk: &mut D,
    service: Service,
    options: RunOptions,
    head: &CaptureHead,
    reader: Reader,
    gate: &G,
) -> Result<Ended, RunFault>
    requires capture { IsSome (D.slots desk.old Slot.Capture).name }
    requires out { IsSome (D.slots desk.old Slot.Out).name }
    requires report { IsSome (D.slots desk.old Slot.Report).name }
    requires opening { IsOpening service }
    requires ranges { IsInRange options }
    requires fresh { reader ≡ reader_at head.now.order 0 }
    ensures drained { IfOk result (λ ended. IfNone ended.fault (IsReadWhole (D.slots desk.new Slot.Capture))) }
    ensures ok { IfOk result (LedWhole (option_map (led_pcap (chains_of service.chains) head.now) (body_left reader (D.slots desk.old Slot.Capture))) (D.slots desk.old) (D.slots desk.new)) }
    ensures err { IfErr result (LedPartly (option_map (led_pcap (chains_of service.chains) head.now) (body_left reader (D.slots desk.old Slot.Capture))) (D.slots desk.old) (D.slots desk.new)) }
    ensures capture_name { (D.slots desk.new Slot.Capture).name ≡ (D.slots desk.old Slot.Capture).name }
    ensures others { (s : Slot) → s ≢ Slot.Out → s ≢ Slot.Report → s ≢ Slot.Capture → D.slots desk.new s ≡ D.slots desk.old s }
{
    let writer = put_head(desk, head, &service)?;
    run_capture(
        rt,
        alloc,
        desk,
        service,
        head.unit,
        options.burst,
        reader,
        writer,
        merging_by(options),
        gate,
    )
}

// Runs a pcapng capture, whose blocks are all written as they come.
fn run_ng<R: Threads + Wait + Clock + Sync, D: Desk, G: Gate + Sync>(
    rt: &R,
    alloc: Global,
    desk: &mut D,
    service: Service,
    options: RunOptions,
    source: NgSource,
    gate: &G,
) -> Result<Ended, RunFault>
    requires capture { IsSome (D.slots desk.old Slot.Capture).name }
    requires out { IsSome (D.slots desk.old Slot.Out).name }
    requires report { IsSome (D.slots desk.old Slot.Report).name }
    requires opening { IsOpening service }
    requires ranges { IsInRange options }
    requires fresh { ng_packets source ≡ 0 }
    requires open { is_asked source ≡ true }
    ensures drained { IfOk result (λ ended. IfNone ended.fault (IsReadWhole (D.slots desk.new Slot.Capture))) }
    ensures ok { IfOk result (LedWhole (option_map (led_stream (chains_of service.chains)) (ng_left source (D.slots desk.old Slot.Capture))) (D.slots desk.old) (D.slots desk.new)) }
    ensures err { IfErr result (LedPartly (option_map (led_stream (chains_of service.chains)) (ng_left source (D.slots desk.old Slot.Capture))) (D.slots desk.old) (D.slots desk.new)) }
    ensures capture_name { (D.slots desk.new Slot.Capture).name ≡ (D.slots desk.old Slot.Capture).name }
    ensures others { (s : Slot) → s ≢ Slot.Out → s ≢ Slot.Report → s ≢ Slot.Capture → D.slots desk.new s ≡ D.slots desk.old s }
{
    let writer = NgWriter {
        growth: growth(&service),
    };
    run_capture(
        rt,
        alloc,
        desk,
        service,
        Unit::Nano,
        options.burst,
        source,
        writer,
        merging_by(options),
        gate,
    )
}
