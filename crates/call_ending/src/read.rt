//! Reads the policy, the bytes of a text and the head of the capture, and returns the reason if that fails.
ghost use Rattle.std.specs.Prelude.{◌≡◌, ◌≢◌, ◌≤◌, ◌⊎◌, length, All, IfOk, IfErr, IfSome, IsSome, IsTrue, MatchResult, Ok, Some, None};
ghost use Rattle.std.specs.List.{AllZip};
ghost use Rattle.nfp_outside.specs.declared.slot.Slot.{Slot};
ghost use Rattle.nfp_outside.specs.Outside.{is_read};
ghost use Rattle.policy_judge.specs.Judging.{judged};
ghost use Rattle.policy_judge.specs.Making.{functions_made};
ghost use Rattle.policy_judge.specs.Orders.{IsOrdered};
ghost use Rattle.policy_judge.specs.Settings.{IsSettled};
ghost use Rattle.call_ending.specs.Told.{IsReadWhole};
ghost use Rattle.call_ending.specs.Reading.{IsUnread, UnreadEnds, refused_by, EndsAtPolicy, Opens, OpensBehind, RefusedOpening, RefusesBehind, unread_capture};
ghost use Rattle.call_ending.specs.Reading.{OpensClassic, RefusedClassic};

use crate::ending::Ending;
use crate::outcome::Outcome;
use capture_bytes::fill;
use capture_items::NgSource;
use nfp_outside::{Desk, DeskFault, OutsideFault, Slot, read_all};
use pcap_io::{CaptureHead, PcapFault, Reader};
use pcapng_io::NgReadFault;
use policy_judge::{JudgeFault, Judged, judge, too_long};
use std::alloc::Global;

// The first bytes of a pcapng capture: the type of a section header block.
const NG_FRONT: [u8; 4] = [0x0a, 0x0d, 0x0d, 0x0a];

// The greatest number of bytes of a text.
const MAX_TEXT: usize = 1_048_576;

/// Why a text wasn't read whole.
pub enum Unread {
    TooLong,
    Failed,
    NoMemory,
}

/// Reads the policy whole and judges it.
#[tactic(auto, using(crate::proofs::PolicyEnds::unread_ends, crate::proofs::PolicyEnds::refused_ends))]
pub fn read_policy<D: Desk>(alloc: Global, desk: &mut D, name: &str) -> Result<Judged, Ending>
    requires { (D.slots desk.old Slot.Policy).name ≡ None }
    ensures read { MatchResult result
        (λ policy. IfSome (D.slots desk.old Slot.Policy).bytes (λ bytes. judged bytes ≡ Ok policy))
        (EndsAtPolicy (D.slots desk.old Slot.Policy) (D.slots desk.new Slot.Policy)) }
    ensures settled { IfOk result (λ policy. All IsSettled policy.policy.chains) }
    ensures ordered { IfOk result (λ policy. AllZip IsOrdered policy.policy.chains policy.orders) }
    ensures made { IfOk result (λ policy. policy.functions ≡ functions_made policy.policy.chains) }
    ensures few { IfOk result (λ policy. length policy.policy.chains ≤ 16) }
    ensures whole { IfOk result (λ policy. IsReadWhole (D.slots desk.new Slot.Policy)) }
    ensures name { ((D.slots desk.new Slot.Policy).name ≡ None) ⊎ ((D.slots desk.new Slot.Policy).name ≡ Some name.now) }
    ensures others { (s : Slot) → s ≢ Slot.Policy → D.slots desk.new s ≡ D.slots desk.old s }
{
    let bytes = match read_bytes(alloc, desk, Slot::Policy, name) {
        Ok(bytes) => bytes,
        Err(unread) => return Err(unread_ending(alloc, unread)),
    };
    match judge(alloc, &bytes) {
        Ok(judged) => Ok(judged),
        Err(fault) => Err(refused_by(fault)),
    }
}

/// A capture whose head was read, or whose first block.
#[derive(Drop)]
pub enum Opened {
    /// A classic capture: its head, and the reader after it.
    Pcap(CaptureHead, Reader),
    /// A pcapng capture.
    Ng(NgSource),
}

/// Attaches the capture, and reads its head, or its first block if it is a pcapng capture. The first four bytes decide.
pub fn open_capture<D: Desk>(alloc: Global, desk: &mut D, name: &str) -> Result<Opened, Outcome>
    requires { (D.slots desk.old Slot.Capture).name ≡ None }
    ensures ok { IfOk result (λ opened. Opens name.now opened (D.slots desk.old Slot.Capture) (D.slots desk.new Slot.Capture)) }
    ensures err { IfErr result (RefusedOpening (D.slots desk.old Slot.Capture) (D.slots desk.new Slot.Capture)) }
    ensures name { ((D.slots desk.new Slot.Capture).name ≡ None) ⊎ ((D.slots desk.new Slot.Capture).name ≡ Some name.now) }
    ensures later { (D.slots desk.old Slot.Capture).faults ≤ (D.slots desk.new Slot.Capture).faults }
    ensures others { (s : Slot) → s ≢ Slot.Capture → D.slots desk.new s ≡ D.slots desk.old s }
{
    match desk.attach(Slot::Capture, name) {
        Ok(()) => {}
        Err(fault) => return Err(unread_capture(fault)),
    }
    let mut first = [0; 4];
    match fill(desk, &mut first) {
        Ok(count) => open_by_format(alloc, desk, &first[..count]),
        Err(fault) => Err(unread_capture(fault)),
    }
}

/// Attaches the capture, and reads its head, which has to be that of a classic one.
pub fn open_classic<D: Desk>(desk: &mut D, name: &str) -> Result<(CaptureHead, Reader), Outcome>
    requires { (D.slots desk.old Slot.Capture).name ≡ None }
    ensures ok { IfOk result (λ x. OpensClassic name.now x.0 x.1 (D.slots desk.old Slot.Capture) (D.slots desk.new Slot.Capture)) }
    ensures err { IfErr result (RefusedClassic (D.slots desk.old Slot.Capture) (D.slots desk.new Slot.Capture)) }
    ensures name { ((D.slots desk.new Slot.Capture).name ≡ None) ⊎ ((D.slots desk.new Slot.Capture).name ≡ Some name.now) }
    ensures later { (D.slots desk.old Slot.Capture).faults ≤ (D.slots desk.new Slot.Capture).faults }
    ensures others { (s : Slot) → s ≢ Slot.Capture → D.slots desk.new s ≡ D.slots desk.old s }
{
    match desk.attach(Slot::Capture, name) {
        Ok(()) => {}
        Err(fault) => return Err(unread_capture(fault)),
    }
    match Reader::begin(desk) {
        Ok(opened) => Ok(opened),
        Err(PcapFault::Capture(fault)) => Err(Outcome::Capture(fault)),
        Err(PcapFault::ReadFault(_)) => Err(Outcome::ReadFault(Slot::Capture)),
        Err(PcapFault::OutOfMemory) => Err(Outcome::OutOfMemory),
    }
}

// The outcome after a desk refused to attach or to read a capture.
fn unread_capture(fault: DeskFault) -> Outcome
    ensures { result ≡ unread_capture fault }
{
    match fault {
        DeskFault::Failed => Outcome::ReadFault(Slot::Capture),
        DeskFault::NoMemory => Outcome::OutOfMemory,
    }
}

// Reads the head of a capture, or its first block, as its first bytes, which were read before, decide.
fn open_by_format<D: Desk>(alloc: Global, desk: &mut D, first: &[u8]) -> Result<Opened, Outcome>
    requires attached { IsSome (D.slots desk.old Slot.Capture).name }
    requires few { length first.now ≤ 4 }
    ensures ok { IfOk result (λ opened. OpensBehind first.now opened (D.slots desk.old Slot.Capture) (D.slots desk.new Slot.Capture)) }
    ensures err { IfErr result (RefusesBehind first.now (D.slots desk.old Slot.Capture) (D.slots desk.new Slot.Capture)) }
    ensures name { (D.slots desk.new Slot.Capture).name ≡ (D.slots desk.old Slot.Capture).name }
    ensures later { (D.slots desk.old Slot.Capture).faults ≤ (D.slots desk.new Slot.Capture).faults }
    ensures others { (s : Slot) → s ≢ Slot.Capture → D.slots desk.new s ≡ D.slots desk.old s }
{
    if first == NG_FRONT.as_slice() {
        match NgSource::begin(alloc, desk, first) {
            Ok(source) => Ok(Opened::Ng(source)),
            Err(NgReadFault::Ng(fault)) => Err(Outcome::CaptureNg(fault)),
            Err(NgReadFault::ReadFault(_)) => Err(Outcome::ReadFault(Slot::Capture)),
            Err(NgReadFault::OutOfMemory) => Err(Outcome::OutOfMemory),
        }
    } else {
        match Reader::begin_after(desk, first) {
            Ok((head, reader)) => Ok(Opened::Pcap(head, reader)),
            Err(PcapFault::Capture(fault)) => Err(Outcome::Capture(fault)),
            Err(PcapFault::ReadFault(_)) => Err(Outcome::ReadFault(Slot::Capture)),
            Err(PcapFault::OutOfMemory) => Err(Outcome::OutOfMemory),
        }
    }
}

/// Attaches a slot that holds a text, and reads its bytes.
#[tactic(auto, using(crate::proofs::ReadWhole::all_read))]
pub fn read_bytes<D: Desk>(
    alloc: Global,
    desk: &mut D,
    slot: Slot,
    name: &str,
) -> Result<Vec<u8>, Unread>
    requires read_slot { IsTrue (is_read slot) }
    requires free { (D.slots desk.old slot).name ≡ None }
    ensures read { MatchResult result
        (λ v. IfSome (D.slots desk.old slot).bytes (λ bytes. bytes ≡ v.items))
        (IsUnread MAX_TEXT (D.slots desk.old slot) (D.slots desk.new slot)) }
    ensures few { IfOk result (λ v. length v.items ≤ MAX_TEXT) }
    ensures whole { IfOk result (λ v. IsReadWhole (D.slots desk.new slot)) }
    ensures name { ((D.slots desk.new slot).name ≡ None) ⊎ ((D.slots desk.new slot).name ≡ Some name.now) }
    ensures others { (s : Slot) → s ≢ slot → D.slots desk.new s ≡ D.slots desk.old s }
{
    match desk.attach(slot, name) {
        Ok(()) => {}
        Err(DeskFault::Failed) => return Err(Unread::Failed),
        Err(DeskFault::NoMemory) => return Err(Unread::NoMemory),
    }
    match read_all(alloc, desk, slot, MAX_TEXT) {
        Ok(bytes) => Ok(bytes),
        Err(OutsideFault::TooLong) => Err(Unread::TooLong),
        Err(OutsideFault::ReadFault(_)) => Err(Unread::Failed),
        Err(_) => Err(Unread::NoMemory),
    }
}

// How a call ends if the policy wasn't read.
fn unread_ending(alloc: Global, unread: Unread) -> Ending
    ensures { UnreadEnds unread result }
{
    match unread {
        Unread::TooLong => refused_by(too_long(alloc)),
        Unread::Failed => Ending::Stopped(Outcome::ReadFault(Slot::Policy)),
        Unread::NoMemory => Ending::Stopped(Outcome::OutOfMemory),
    }
}

// How a call ends if the policy has this fault.
fn refused_by(fault: JudgeFault) -> Ending
    ensures { result ≡ refused_by fault }
{
    match fault {
        JudgeFault::Refused(refusal) => Ending::Refused(refusal),
        JudgeFault::OutOfMemory => Ending::Stopped(Outcome::OutOfMemory),
    }
}
