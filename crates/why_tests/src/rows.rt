//! Calls over desks in memory, as rows with what each of them has to leave.
ghost use Rattle.std.specs.Prelude.{◌≡◌, [], None, IfSome};
ghost use Rattle.nfp_outside.specs.declared.slot.Slot.{Slot};

use crate::captures::Capture;
use crate::plenty::had;
use call_ending::Outcome;
use nfp_outside::{Desk, MemDesk, Slot};
use std::alloc::Global;
use std::process::Abort;
use std::sync::Wait;
use why_call::why;

/// The words behind `why`, a policy and a capture, and what the call has to leave.
#[derive(Clone, Copy)]
pub struct Row<'a> {
    pub words: &'a [&'a str],
    pub policy: &'a [u8],
    pub capture: Capture<'a>,
    /// The outcome, as it is printed for programmers.
    pub outcome: &'a str,
    pub report: &'a [u8],
    pub note: &'a [u8],
}

// The contract of the call is long, and the prover sees all of its clauses in every function that calls it. So all tests
// call this function, which promises nothing itself.
fn call<R: Wait, D: Desk>(rt: &R, alloc: Global, words: &[String], desk: &mut D) -> Outcome
    requires none_attached { (s : Slot) → (D.slots desk.old s).name ≡ None }
    requires note_empty { IfSome (D.slots desk.old Slot.Note).bytes (λ bytes. bytes ≡ []) }
{
    why(rt, alloc, words, desk)
}

fn words_of(rt: &impl Abort, alloc: Global, texts: &[&str]) -> Vec<String> {
    let mut words = Vec::new(alloc);
    for text in texts {
        had(rt, words.push(had(rt, String::from_str(alloc, text))));
    }
    words
}

// Makes the call of a row over a desk that moves seven bytes at a time.
fn run(rt: &(impl Abort + AllocGlobal + Wait), row: Row<'_>) -> (Outcome, MemDesk) {
    let alloc = rt.alloc();
    let words = words_of(rt, alloc, row.words);
    let policy = had(rt, row.policy.to_vec(alloc));
    let capture = row.capture.bytes(rt, alloc);
    let mut desk = MemDesk::new(alloc, policy, capture, 7, Vec::new(alloc));
    let outcome = call(rt, alloc, &words, &mut desk);
    (outcome, desk)
}

/// Makes the calls of these rows, and compares what each of them leaves.
pub fn compare(rt: &(impl Abort + AllocGlobal + Wait), rows: &[Row<'_>]) {
    for row in rows {
        compare_call(rt, *row);
    }
}

fn compare_call(rt: &(impl Abort + AllocGlobal + Wait), row: Row<'_>) {
    let (outcome, desk) = run(rt, row);
    is_outcome(rt, rt.alloc(), &outcome, row.outcome);
    is_same(rt, "out", desk.put(Slot::Out), b"");
    is_same(rt, "report", desk.put(Slot::Report), row.report);
    is_same(rt, "note", desk.put(Slot::Note), row.note);
}

fn is_outcome(rt: &impl Abort, alloc: Global, outcome: &Outcome, due: &str) {
    let text = had(rt, format!(in alloc; "{outcome:?}"));
    is_same(rt, "outcome", text.as_bytes(), due.as_bytes());
}

// One assertion for all: each costs the proof of its function more than this call does.
fn is_same(rt: &impl Abort, what: &str, found: &[u8], due: &[u8]) {
    assert_eq!(rt; found, due, "{what}");
}
