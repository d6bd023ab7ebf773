//! Counts the flows of a capture and exports them, up to the line in Note.
ghost use Rattle.std.specs.Prelude.{◌≡◌, ◌≢◌, ◌≤◌, ◌<◌, ◌^◌, ◌⊎◌, All, IfErr, IfNone, IfOk, IfSome, IsSome, Ok, Some, None, length};
ghost use Rattle.nfp_outside.specs.declared.slot.Slot.{Slot};
ghost use Rattle.pcap_io.specs.Reader.{body_left, reader_at};
ghost use Rattle.command_words.specs.Named.{IsFlowRange, files_seen};
ghost use Rattle.command_words.specs.Words.{Flows};
ghost use Rattle.flow_export.specs.Exports.{exported, packet_count};
ghost use Rattle.call_ending.specs.Told.{IsReadWhole};
ghost use Rattle.call_ending.specs.Endings.{outcome_seen};
ghost use Rattle.nfp_run.specs.FlowsRan.{FlowsBroken, FlowsEnd, FlowsEndTold};
ghost use Rattle.call_ending.specs.declared.outcome.Outcome.{Outcome};
ghost use Rattle.nfp_run.specs.Notes.{flows_text};
ghost use Rattle.nfp_run.specs.Ran.{Ran};

use crate::attach::fault_of;
use call_ending::{Ending, Outcome, attach_sink, open_classic};
use capture_items::RunFault;
use command_words::{FlowNames, FlowOptions};
use flow_export::export;
use flow_line::FlowLine;
use flow_run::{Counted, count_flows};
use item_list::Items;
use nfp_outside::{Desk, DeskFault, Slot};
use pcap_io::{CaptureHead, Reader};
use std::alloc::{AllocError, Global};
use std::thread::Threads;
use text_lines::Piece::{Number, Text};
use text_lines::join;

/// Counts the flows of the capture and puts their export into Out. The words are accepted, and nothing is put into
/// Note.
pub fn flows<R: Threads + Sync, D: Desk>(
    rt: &R,
    alloc: Global,
    names: &FlowNames<'_>,
    options: FlowOptions,
    desk: &mut D,
) -> Ending
    requires ranges { IsFlowRange options }
    requires free { (s : Slot) → (D.slots desk.old s).name ≡ None }
    ensures ran { Ran (Ok (Flows (files_seen names.now) options)) (D.slots desk.old) (D.slots desk.new) result }
{
    let (head, reader) = match open_classic(desk, names.capture) {
        Ok(opened) => opened,
        Err(outcome) => return Ending::Stopped(outcome),
    };
    match count_and_export(rt, alloc, desk, names.out, options, &head, reader) {
        Ok(ending) => ending,
        Err(fault) => Ending::Stopped(fault.into()),
    }
}

// Attaches Out, counts the flows of the rest of the capture, and exports them.
fn count_and_export<R: Threads + Sync, D: Desk>(
    rt: &R,
    alloc: Global,
    desk: &mut D,
    out: &str,
    options: FlowOptions,
    head: &CaptureHead,
    reader: Reader,
) -> Result<Ending, RunFault>
    requires ranges { IsFlowRange options }
    requires capture { IsSome (D.slots desk.old Slot.Capture).name }
    requires out_free { (D.slots desk.old Slot.Out).name ≡ None }
    requires report_free { (D.slots desk.old Slot.Report).name ≡ None }
    requires fresh { reader ≡ reader_at head.now.order 0 }
    ensures left { IfSome (body_left reader (D.slots desk.old Slot.Capture)) (λ body. FlowsEnd head.now.unit body (D.slots desk.old) (D.slots desk.new) result) }
    ensures told { IfOk result FlowsEndTold }
    ensures attached { IfOk result (λ ending. IsSome (D.slots desk.new Slot.Out).name) }
    ensures drained { IfOk result (λ ending. outcome_seen ending ≡ Outcome.Done → IsReadWhole (D.slots desk.new Slot.Capture)) }
    ensures cause { IfErr result (FlowsBroken (D.slots desk.old) (D.slots desk.new)) }
    ensures out_name { ((D.slots desk.new Slot.Out).name ≡ None) ⊎ ((D.slots desk.new Slot.Out).name ≡ Some out.now) }
    ensures capture_name { (D.slots desk.new Slot.Capture).name ≡ (D.slots desk.old Slot.Capture).name }
    ensures others { (s : Slot) → s ≢ Slot.Out → s ≢ Slot.Capture → D.slots desk.new s ≡ D.slots desk.old s }
{
    attach_sink(desk, Slot::Out, out)?;
    let counted = count(rt, alloc, desk, options, head, reader)?;
    export_counted(alloc, desk, &counted)
}

ghost use Rattle.std.specs.Prelude.{OnErr, OnOk};
ghost use Rattle.nfp_outside.specs.Outside.{Appends, AppendsPrefix};
ghost use Rattle.pcap_io.specs.Capture.{IsHeadFault};
ghost use Rattle.flow_line.specs.Versions.{HasFittingKey};
ghost use Rattle.flow_export.specs.Exports.{export_bytes};
ghost use Rattle.flow_run.specs.Counting.{FitsSpan, IsCountOf};
ghost use Rattle.nfp_run.specs.FlowsRan.{flows_ending};

// Counts the flows of the rest of the capture.
fn count<R: Threads + Sync, D: Desk>(
    rt: &R,
    alloc: Global,
    desk: &mut D,
    options: FlowOptions,
    head: &CaptureHead,
    reader: Reader,
) -> Result<Counted, RunFault>
    requires ranges { IsFlowRange options }
    requires capture { IsSome (D.slots desk.old Slot.Capture).name }
    requires fresh { reader ≡ reader_at head.now.order 0 }
    ensures counted { IfOk result (λ counted. IfSome (body_left reader (D.slots desk.old Slot.Capture)) (λ body. IsCountOf head.now.unit body counted)) }
    ensures kind { IfOk result (λ counted. IfSome counted.fault (λ fault. ¬ IsHeadFault fault)) }
    ensures drained { IfOk result (λ counted. IfNone counted.fault (IsReadWhole (D.slots desk.new Slot.Capture))) }
    ensures span { IfOk result (λ counted. FitsSpan counted.span) }
    ensures fits { IfOk result (λ counted. All HasFittingKey counted.lines) }
    ensures few { IfOk result (λ counted. length counted.lines < 2 ^ 32) }
    ensures cause { IfErr result (FlowsBroken (D.slots desk.old) (D.slots desk.new)) }
    ensures later { (D.slots desk.old Slot.Capture).faults ≤ (D.slots desk.new Slot.Capture).faults }
    ensures name { (D.slots desk.new Slot.Capture).name ≡ (D.slots desk.old Slot.Capture).name }
    ensures others { (s : Slot) → s ≢ Slot.Capture → D.slots desk.new s ≡ D.slots desk.old s }
{
    let FlowOptions { workers, burst } = options;
    match count_flows(rt, alloc, desk, head, reader, workers, burst) {
        Ok(counted) => Ok(counted),
        Err(DeskFault::Failed) => Err(RunFault::ReadFault),
        Err(DeskFault::NoMemory) => Err(RunFault::OutOfMemory),
    }
}

// Puts the export of the counted flows into Out.
fn export_counted<D: Desk>(
    alloc: Global,
    desk: &mut D,
    counted: &Counted,
) -> Result<Ending, RunFault>
    requires attached { IsSome (D.slots desk.old Slot.Out).name }
    requires few { length counted.now.lines < 2 ^ 32 }
    requires span { FitsSpan counted.now.span }
    requires fits { All HasFittingKey counted.now.lines }
    ensures ending { IfOk result (λ ending. ending ≡ flows_ending counted.now.records counted.now.lines counted.now.fault) }
    ensures ok { OnOk result (Appends (export_bytes counted.now.span counted.now.lines) (D.slots desk.old Slot.Out) (D.slots desk.new Slot.Out)) }
    ensures err { OnErr result (AppendsPrefix (export_bytes counted.now.span counted.now.lines) (D.slots desk.old Slot.Out) (D.slots desk.new Slot.Out)) }
    ensures cause { IfErr result (FlowsBroken (D.slots desk.old) (D.slots desk.new)) }
    ensures name { (D.slots desk.new Slot.Out).name ≡ (D.slots desk.old Slot.Out).name }
    ensures others { (s : Slot) → s ≢ Slot.Out → D.slots desk.new s ≡ D.slots desk.old s }
{
    let packets = match export(alloc, desk, counted.lines.as_slice(), &counted.span) {
        Ok(packets) => packets,
        Err(fault) => return Err(fault_of(fault)),
    };
    Ok(ending_of(alloc, counted, packets)?)
}

// How a call ends after the flows were exported: with the capture's fault if it has one.
fn ending_of(alloc: Global, counted: &Counted, packets: u32) -> Result<Ending, AllocError>
    requires { packets ≡ packet_count (length (exported counted.now.lines)) }
    ensures { IfOk result (λ ending. ending ≡ flows_ending counted.now.records counted.now.lines counted.now.fault) }
{
    match counted.fault {
        Some(fault) => Ok(Ending::Stopped(Outcome::Capture(fault))),
        None => {
            let line = flows_text(alloc, counted.records, counted.lines.as_slice(), packets)?;
            Ok(Ending::Shown(Items::new(line)))
        }
    }
}

// The line of a capture whose flows were exported in `packets` packets.
#[tactic(auto, unfolding(crate::specs::Notes::flows_text))]
fn flows_text(
    alloc: Global,
    records: u32,
    lines: &[FlowLine],
    packets: u32,
) -> Result<Vec<u8>, AllocError>
    requires { packets ≡ packet_count (length (exported lines.now)) }
    ensures { IfOk result (λ v. v.items ≡ flows_text records lines.now) }
{
    let exported = exported_count(lines);
    join(
        alloc,
        &[
            Text(b"flows records "),
            Number(u64::from(records)),
            Text(b" flows "),
            Number(lines.len() as u64),
            Text(b" exported "),
            Number(exported),
            Text(b" packets "),
            Number(u64::from(packets)),
            Text(b"\n"),
        ],
    )
}

// The number of lines that are exported.
fn exported_count(lines: &[FlowLine]) -> u64
    ensures { result ≡ length (exported lines.now) }
{
    lines.iter().filter(|line| !line.key.wide).count() as u64
}
