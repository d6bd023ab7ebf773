//! Runs over desks in memory, and the rows with their expected results.
ghost use Rattle.std.specs.Prelude.{◌≡◌, [], None, IfSome};
ghost use Rattle.nfp_outside.specs.declared.slot.Slot.{Slot};

use crate::gates::Watch;
use crate::packets::Capture;
use crate::plenty::had;
use nfp_outside::{Desk, Gate, MemDesk, Slot};
use nfp_run::{Outcome, nfp};
use std::alloc::Global;
use std::process::Abort;
use std::rt::Clock;
use std::sync::Wait;
use std::thread::Threads;

/// The words of a call.
pub type Words<'a> = &'a [&'a str];

/// A run without options.
pub const RUN: &[&str] = &["run", "p", "c", "o", "r"];

/// A run whose bursts have one packet: the first runs on threads, and the second on one thread.
pub const ONE_BY_ONE: &[&str] = &["run", "p", "c", "o", "r", "--burst", "1"];

/// Runs with one merger, two and many, over links and on boards.
pub const WAYS: &[Words<'static>] = &[
    &[
        "run",
        "p",
        "c",
        "o",
        "r",
        "--mergers",
        "1",
        "--merge",
        "board",
    ],
    &[
        "run",
        "p",
        "c",
        "o",
        "r",
        "--mergers",
        "2",
        "--merge",
        "inbox",
    ],
    &[
        "run",
        "p",
        "c",
        "o",
        "r",
        "--mergers",
        "16",
        "--merge",
        "board",
    ],
];

/// Calls with these words, over the same policy and capture, and what each of them has to leave.
#[derive(Clone, Copy)]
pub struct Row<'a> {
    pub calls: &'a [Words<'a>],
    /// The text of graphs, for calls whose words name one.
    pub graph: &'a [u8],
    pub policy: &'a [u8],
    pub capture: Capture<'a>,
    /// The outcome, as it is printed for programmers.
    pub outcome: &'a str,
    pub out: Capture<'a>,
    pub report: &'a [u8],
    pub note: &'a [u8],
}

/// The words of a command line.
fn words(rt: &impl Abort, alloc: Global, texts: &[&str]) -> Vec<String> {
    let mut words = Vec::new(alloc);
    for text in texts {
        had(rt, words.push(had(rt, String::from_str(alloc, text))));
    }
    words
}

// The contract of the top call is long, and the prover sees all of its clauses in every function that calls it. So all
// tests call this function, which promises nothing itself.
fn call<R: Threads + Wait + Clock + Sync, D: Desk, G: Gate + Sync>(
    rt: &R,
    alloc: Global,
    words: &[String],
    desk: &mut D,
    gate: &G,
) -> Outcome
    requires none_attached { (s : Slot) → (D.slots desk.old s).name ≡ None }
    requires note_empty { IfSome (D.slots desk.old Slot.Note).bytes (λ bytes. bytes ≡ []) }
{
    nfp(rt, alloc, words, desk, gate)
}

/// The content and the behaviour of a desk: its policy and its graphs, the most bytes that a call moves, and the calls
/// that fail.
#[derive(Clone, Copy)]
pub struct Given<'a> {
    pub policy: &'a [u8],
    pub graph: &'a [u8],
    pub step: u16,
    pub fails: &'a [(Slot, u64)],
}

/// Makes a run over a desk in memory with this capture, and returns what it left. All runs are over one type of desk
/// and one type of gate, since the program is compiled again for each.
pub fn run(
    rt: &(impl Abort + AllocGlobal + Threads + Wait + Clock + Sync),
    texts: &[&str],
    given: Given<'_>,
    capture: Vec<u8>,
    gate: &Watch,
) -> (Outcome, MemDesk) {
    let alloc = rt.alloc();
    let words = words(rt, alloc, texts);
    let policy = had(rt, given.policy.to_vec(alloc));
    let graph = had(rt, given.graph.to_vec(alloc));
    let fails = had(rt, given.fails.to_vec(alloc));
    let step = usize::from(given.step).max(1);
    let mut desk = MemDesk::new(alloc, policy, capture, step, fails).with_graph(graph);
    let outcome = call(rt, alloc, &words, &mut desk, gate);
    (outcome, desk)
}

/// Makes the calls of these rows, and compares what each of them leaves.
pub fn compare(rt: &(impl Abort + AllocGlobal + Threads + Wait + Clock + Sync), rows: &[Row<'_>]) {
    for row in rows {
        for call in row.calls {
            compare_call(rt, call, *row);
        }
    }
}

fn compare_call(
    rt: &(impl Abort + AllocGlobal + Threads + Wait + Clock + Sync),
    call: &[&str],
    row: Row<'_>,
) {
    let out = row.out.bytes(rt, rt.alloc());
    let capture = row.capture.bytes(rt, rt.alloc());
    let given = Given {
        policy: row.policy,
        graph: row.graph,
        step: 7,
        fails: &[],
    };
    let (outcome, desk) = run(rt, call, given, capture, &Watch::idle());
    is_outcome(rt, rt.alloc(), &outcome, row.outcome);
    is_same(rt, "out", desk.put(Slot::Out), &out);
    is_same(rt, "report", desk.put(Slot::Report), row.report);
    is_same(rt, "note", desk.put(Slot::Note), row.note);
}

fn is_outcome(rt: &impl Abort, alloc: Global, outcome: &Outcome, due: &str) {
    let text = had(rt, format!(in alloc; "{outcome:?}"));
    is_same(rt, "outcome", text.as_bytes(), due.as_bytes());
}

// One assertion for all: each costs the proof of its function more than this call does.
fn is_same(rt: &impl Abort, what: &str, found: &[u8], due: &[u8]) {
    assert_eq!(rt; found, due, "{what}");
}

/// Calls over a desk in memory, of which one call fails, and what each of them has to leave.
#[derive(Clone, Copy)]
pub struct Failure<'a> {
    pub calls: &'a [Words<'a>],
    pub policy: &'a [u8],
    pub capture: Capture<'a>,
    /// The slot, and the number of its calls that succeed before.
    pub fails: (Slot, u64),
    pub outcome: &'a str,
    pub out: Capture<'a>,
    pub note: &'a [u8],
}

/// Makes these calls, and compares what each of them leaves.
pub fn compare_failing(
    rt: &(impl Abort + AllocGlobal + Threads + Wait + Clock + Sync),
    failures: &[Failure<'_>],
) {
    for failure in failures {
        for call in failure.calls {
            compare_failing_call(rt, call, *failure);
        }
    }
}

fn compare_failing_call(
    rt: &(impl Abort + AllocGlobal + Threads + Wait + Clock + Sync),
    call: &[&str],
    failure: Failure<'_>,
) {
    let out = failure.out.bytes(rt, rt.alloc());
    let capture = failure.capture.bytes(rt, rt.alloc());
    let given = Given {
        policy: failure.policy,
        graph: b"",
        step: 4096,
        fails: &[failure.fails],
    };
    let (outcome, desk) = run(rt, call, given, capture, &Watch::idle());
    is_outcome(rt, rt.alloc(), &outcome, failure.outcome);
    is_same(rt, "out", desk.put(Slot::Out), &out);
    is_same(rt, "note", desk.put(Slot::Note), failure.note);
}
