//! How the work of the call ended, before its line is put into Note.
ghost use Rattle.std.specs.Prelude.{◌≡◌, ◌≢◌, ◌≤◌, IfOk};
ghost use Rattle.nfp_outside.specs.declared.slot.Slot.{Slot};
ghost use Rattle.call_ending.specs.Endings.{NotesLine};
ghost use Rattle.call_ending.specs.Results.{outcome_of};
ghost use Rattle.why_call.specs.Ending.{broken, IsEndingOf, IsMissing, TracedEnds, UntracedEnds};
ghost use Rattle.why_call.specs.Ran.{IsWithin, why_line, why_outcome};

use call_ending::{Ending, Outcome, put_line, put_note};
use capture_items::{FormatFault, RunFault, Totals};
use item_list::Items;
use nfp_outside::{Desk, Slot};
use std::alloc::Global;
use trace_text::push_missing_line;
use why_run::WhyEnded;

/// How the work of the call ended.
#[derive(Drop)]
pub enum WhyEnding {
    /// The record that was asked for was traced, and the call has this outcome.
    Traced(Outcome, Items<u8>),
    /// Any other end.
    Ended(Ending),
}

/// Puts the line of this ending into Note.
pub fn put_ending<D: Desk>(alloc: Global, desk: &mut D, ending: WhyEnding) -> Outcome
    requires { IsWithin ending }
    ensures notes { NotesLine (why_outcome ending) (why_line ending) (D.slots desk.old Slot.Note) (D.slots desk.new Slot.Note) result }
    ensures others { (s : Slot) → s ≢ Slot.Note → D.slots desk.new s ≡ D.slots desk.old s }
{
    match ending {
        WhyEnding::Traced(outcome, line) => put_line(desk, outcome, line.as_slice()),
        WhyEnding::Ended(ending) => put_note(alloc, desk, ending),
    }
}

/// How the call ends if this record was asked for, and a capture was led through the chains, or that was broken off.
pub fn ending_of(alloc: Global, asked: Option<u32>, ran: Result<WhyEnded, RunFault>) -> WhyEnding
    requires { IfOk ran (λ ended. ended.totals.dropped ≤ ended.totals.records) }
    ensures within { IsWithin result }
    ensures ends { IsEndingOf asked ran result }
{
    match ran {
        Ok(ended) => traced(alloc, asked, ended.totals, ended.fault, ended.trace),
        Err(fault) => WhyEnding::Ended(Ending::Stopped(broken(fault))),
    }
}

// How it ends behind a capture with this fault, if it has one, and this trace, if it has the record.
fn traced(
    alloc: Global,
    asked: Option<u32>,
    totals: Totals,
    fault: Option<FormatFault>,
    trace: Option<Items<u8>>,
) -> WhyEnding
    requires { totals.dropped ≤ totals.records }
    ensures within { IsWithin result }
    ensures ends { TracedEnds totals asked fault trace result }
{
    match trace {
        Some(trace) => WhyEnding::Traced(outcome_of(fault), trace),
        None => untraced(alloc, asked, totals, fault),
    }
}

// The same if no record was traced.
fn untraced(
    alloc: Global,
    asked: Option<u32>,
    totals: Totals,
    fault: Option<FormatFault>,
) -> WhyEnding
    requires { totals.dropped ≤ totals.records }
    ensures within { IsWithin result }
    ensures ends { UntracedEnds totals asked fault result }
{
    match fault {
        Some(fault) => WhyEnding::Ended(Ending::Stopped(outcome_of(Some(fault)))),
        None => match asked {
            Some(number) => WhyEnding::Ended(missing(alloc, number)),
            None => WhyEnding::Ended(Ending::Completed(totals)),
        },
    }
}

// Shows that the capture has no record with this number.
fn missing(alloc: Global, number: u32) -> Ending
    ensures { IsMissing number result }
{
    let mut text = Vec::new(alloc);
    match push_missing_line(alloc, &mut text, u64::from(number)) {
        Ok(()) => Ending::Shown(Items::new(text)),
        Err(_) => Ending::Stopped(Outcome::OutOfMemory),
    }
}

// The outcome of a run that was broken off. Only Report was written.
fn broken(fault: RunFault) -> Outcome
    ensures { result ≡ broken fault }
{
    match fault {
        RunFault::ReadFault => Outcome::ReadFault(Slot::Capture),
        RunFault::WriteFault(Slot::Report) => Outcome::WriteFault(Slot::Report),
        RunFault::WriteFault(_) => Outcome::OutOfMemory,
        RunFault::OutOfMemory => Outcome::OutOfMemory,
    }
}

// The outcome of a capture with this fault, if it has one.
fn outcome_of(fault: Option<FormatFault>) -> Outcome
    ensures { result ≡ outcome_of fault }
{
    match fault {
        None => Outcome::Done,
        Some(FormatFault::Pcap(fault)) => Outcome::Capture(fault),
        Some(FormatFault::Ng(fault)) => Outcome::CaptureNg(fault),
    }
}
