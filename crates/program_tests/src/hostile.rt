//! Cut and malformed input, and each call of the desk failing: a table of the expected results.

use crate::gates::Watch;
use crate::packets::THREE;
use crate::plenty::had;
use crate::rows::{Given, RUN, run};
use crate::runs::POLICY;
use nfp_outside::{MemDesk, Slot};
use nfp_run::Outcome;
use pcap_io::CaptureFault;
use std::alloc::Global;
use std::process::Abort;
use std::rt::Clock;
use std::sync::Wait;
use std::thread::Threads;

// The greatest number of bytes of a policy.
const LONGEST_POLICY: usize = 1_048_576;

// A run of this policy in which the listed calls of the desk fail.
fn failing(
    rt: &(impl Abort + AllocGlobal + Threads + Wait + Clock + Sync),
    policy: &[u8],
    capture: Vec<u8>,
    fails: &[(Slot, u64)],
) -> (Outcome, MemDesk) {
    let given = Given {
        policy,
        graph: b"",
        step: 4096,
        fails,
    };
    run(rt, RUN, given, capture, &Watch::idle())
}

// Is this the expected outcome for the first bytes of a capture? Its head has 24 bytes and its three records have 58,
// of which the second is dropped.
fn is_due_of_cut(length: u32, outcome: &Outcome) -> bool {
    match outcome {
        Outcome::Done => matches!(length, 24 | 82 | 140 | 198),
        Outcome::Capture(CaptureFault::CutHead) => length < 24,
        Outcome::Capture(CaptureFault::CutRecord(number)) => *number == record_of(length),
        _ => false,
    }
}

// The record that is cut if a capture has this length, and 0 if none is.
fn record_of(length: u32) -> u32 {
    match length {
        25..=81 => 1,
        83..=139 => 2,
        141..=197 => 3,
        _ => 0,
    }
}

fn bytes_due_of_cut(length: u32) -> usize {
    match length {
        0..=23 => 0,
        24..=81 => 24,
        82..=197 => 82,
        _ => 140,
    }
}

// Out and Report are attached once the head is whole, and Out has the expected number of bytes.
fn is_left_of_cut(length: u32, desk: &MemDesk) -> bool {
    let is_refused = length < 24;
    desk.put(Slot::Out).len() == bytes_due_of_cut(length)
        && (desk.calls(Slot::Out) == 0) == is_refused
        && (desk.calls(Slot::Report) == 0) == is_refused
}

// Checks what a run over the first bytes of the capture leaves.
fn compare_cut(rt: &(impl Abort + AllocGlobal + Threads + Wait + Clock + Sync), length: u32) {
    let mut cut = THREE.bytes(rt, rt.alloc());
    cut.truncate(length as usize);
    let (outcome, desk) = failing(rt, POLICY, cut, &[]);
    assert!(rt;
        is_due_of_cut(length, &outcome) && is_left_of_cut(length, &desk),
        "{length}"
    );
}

#[test]
fn a_capture_is_cut_after_each_byte(rt: HostRuntime) {
    for length in 0..=198u32 {
        compare_cut(&rt, length);
    }
}

// A policy of a front part and `count` lines like this one.
fn repeated(rt: &impl Abort, alloc: Global, front: &[u8], line: &[u8], count: u32) -> Vec<u8> {
    let mut policy = had(rt, front.to_vec(alloc));
    for _ in 0..count {
        had(rt, policy.extend_from_slice(line));
    }
    policy
}

// A policy of `length` bytes, which has nothing but its version.
fn filled(rt: &impl Abort, alloc: Global, length: usize) -> Vec<u8> {
    let mut policy = had(rt, b"nfp 1\n#".to_vec(alloc));
    had(rt, policy.resize(length, b'x'));
    policy
}

const RULES: &[u8] = b"nfp 1\nchain main\nfn fw firewall\n";

const SEVENTEEN: &[u8] =
    b"nfp 1\nchain a\nchain b\nchain c\nchain d\nchain e\nchain f\nchain g\nchain h\nchain i\nchain j\nchain k\nchain l\nchain m\nchain n\nchain o\nchain p\nchain q\n";

// Compares the status and the line of a run by this policy.
fn compare_policy(
    rt: &(impl Abort + AllocGlobal + Threads + Wait + Clock + Sync),
    policy: &[u8],
    status: u8,
    note: &[u8],
) {
    let capture = THREE.bytes(rt, rt.alloc());
    let (outcome, desk) = failing(rt, policy, capture, &[]);
    assert!(rt;
        outcome.status() == status && desk.put(Slot::Note) == note,
        "{status}"
    );
}

#[test]
fn a_policy_passes_a_limit(rt: HostRuntime) {
    let alloc = rt.alloc();
    let many = repeated(&rt, alloc, RULES, b"rule deny src 10.0.0.9\n", 257);
    let longest = filled(&rt, alloc, LONGEST_POLICY);
    let too_long = filled(&rt, alloc, LONGEST_POLICY + 1);
    compare_policy(&rt, SEVENTEEN, 2, b"policy: line 18: too many chains\n");
    compare_policy(&rt, &many, 2, b"policy: line 260: too many rules\n");
    compare_policy(&rt, &longest, 0, b"done records 3 emitted 3 dropped 0\n");
    compare_policy(&rt, &too_long, 2, b"policy: too long\n");
}

// Is the outcome the fault of this slot if a call failed, and Done if none did?
fn is_due_of_failed(outcome: &Outcome, slot: Slot, failed: bool) -> bool {
    match outcome {
        Outcome::ReadFault(found) | Outcome::WriteFault(found) => failed && *found == slot,
        Outcome::Done => !failed,
        _ => false,
    }
}

// Was no later slot than this one touched?
fn is_untouched(desk: &MemDesk, slot: Slot) -> bool {
    match slot {
        Slot::Policy => desk.calls(Slot::Capture) == 0,
        Slot::Capture => desk.calls(Slot::Out) == 0,
        Slot::Out => desk.calls(Slot::Report) == 0,
        _ => true,
    }
}

// Out and Report hold front parts of what a whole run leaves there, or all of it if they may not be cut.
fn is_left(desk: &MemDesk, whole: &MemDesk, may_be_cut: bool) -> bool {
    is_part(desk.put(Slot::Out), whole.put(Slot::Out), may_be_cut)
        && is_part(desk.put(Slot::Report), whole.put(Slot::Report), may_be_cut)
}

fn is_part(bytes: &[u8], whole: &[u8], may_be_cut: bool) -> bool {
    whole.starts_with(bytes) && (may_be_cut || bytes == whole)
}

// Compares a run in which this call of a slot fails with a whole run, which makes `calls` calls.
fn compare_failed(
    rt: &(impl Abort + AllocGlobal + Threads + Wait + Clock + Sync),
    whole: &MemDesk,
    slot: Slot,
    call: u64,
    calls: u64,
) {
    let capture = THREE.bytes(rt, rt.alloc());
    let (outcome, desk) = failing(rt, POLICY, capture, &[(slot, call)]);
    let is_due = is_due_of_failed(&outcome, slot, call < calls)
        && (call > 0 || is_untouched(&desk, slot))
        && is_left(&desk, whole, slot != Slot::Note && call < calls);
    assert!(rt; is_due, "{slot:?} {call}");
}

const SLOTS: &[Slot] = &[
    Slot::Policy,
    Slot::Capture,
    Slot::Out,
    Slot::Report,
    Slot::Note,
];

fn compare_slots(rt: &(impl Abort + AllocGlobal + Threads + Wait + Clock + Sync), whole: &MemDesk) {
    for slot in SLOTS {
        compare_slot(rt, whole, *slot);
    }
}

// For this slot and k from 0 on, the k-th call on it fails, until a run makes fewer calls: that run has to be done.
fn compare_slot(
    rt: &(impl Abort + AllocGlobal + Threads + Wait + Clock + Sync),
    whole: &MemDesk,
    slot: Slot,
) {
    let calls = whole.calls(slot);
    assert!(rt; calls > 0);
    for call in 0..=calls {
        compare_failed(rt, whole, slot, call, calls);
    }
}

#[test]
fn each_call_of_the_desk_fails(rt: HostRuntime) {
    let capture = THREE.bytes(&rt, rt.alloc());
    let (outcome, whole) = failing(&rt, POLICY, capture, &[]);
    assert!(rt; matches!(outcome, Outcome::Done));
    compare_slots(&rt, &whole);
}
