// A desk in memory that fails at listed calls.
ghost use Rattle.std.specs.Prelude.{◌≡◌, ◌↔◌, IsTrue, Contains};

use crate::call_counts::CallCounts;
use crate::desk::Desk;
use crate::fixed::FixedDesk;
use crate::slot::{DeskFault, Slot};
use std::alloc::Global;

/// A desk in memory that fails exactly at the calls that it is given a list of: the calls on a slot are counted from 0,
/// attach among them, and call k on a slot is `Failed` exactly if (slot, k) is listed. Apart from that it is a
/// [`FixedDesk`]. Its counts stay at the maximum of `u64` once they reach it.
#[derive(Drop)]
pub struct MemDesk {
    held: FixedDesk,
    fails: Vec<(Slot, u64)>,
    policy: CallCounts,
    capture: CallCounts,
    out: CallCounts,
    report: CallCounts,
    note: CallCounts,
    graph: CallCounts,
}

impl MemDesk {
    ghost use Rattle.std.specs.Prelude.{◌≡◌, ◌≢◌, ◌≤◌, [], None, false, IsTrue, IsErrOf, Contains, ◌↔◌};
    ghost use Rattle.nfp_outside.specs.declared.slot.Slot.{Slot};
    ghost use Rattle.nfp_outside.specs.Outside.{is_read, one_more, HasCause, CountsFailure};
    ghost use Rattle.nfp_outside.specs.Memory.{mem_slots, mem_contents, mem_step, calls_of, listed, call_counts};

    /// A desk whose read slots hold these bytes, Graph none, whose write slots are empty, which moves at most
    /// `step` bytes in a call, and which fails at the listed calls. Nothing is attached, and every
    /// count is 0.
    #[tactic(auto, unfolding(crate::specs::Slots::at_slot))]
    pub fn new(
        alloc: Global,
        policy: Vec<u8>,
        capture: Vec<u8>,
        step: usize,
        fails: Vec<(Slot, u64)>,
    ) -> Self
        requires { 1 ≤ step }
        ensures names { (s : Slot) → (mem_slots result s).name ≡ None }
        ensures policy { mem_contents result Slot.Policy ≡ policy.items }
        ensures capture { mem_contents result Slot.Capture ≡ capture.items }
        ensures graph { mem_contents result Slot.Graph ≡ [] }
        ensures empty { (s : Slot) → is_read s ≡ false → mem_contents result s ≡ [] }
        ensures faults { (s : Slot) → (mem_slots result s).faults ≡ 0 }
        ensures calls { (s : Slot) → calls_of result s ≡ 0 }
        ensures step { mem_step result ≡ step }
        ensures listed { listed result ≡ fails.items }
    {
        MemDesk {
            held: FixedDesk::new(alloc, policy, capture, step),
            fails,
            policy: CallCounts::new(),
            capture: CallCounts::new(),
            out: CallCounts::new(),
            report: CallCounts::new(),
            note: CallCounts::new(),
            graph: CallCounts::new(),
        }
    }

    /// The same desk, whose Graph holds these bytes and isn't attached.
    pub fn with_graph(mut self, graph: Vec<u8>) -> Self
        ensures name { (mem_slots result Slot.Graph).name ≡ None }
        ensures graph { mem_contents result Slot.Graph ≡ graph.items }
        ensures others { (s : Slot) → s ≢ Slot.Graph → mem_slots result s ≡ mem_slots self s }
        ensures faults { (s : Slot) → (mem_slots result s).faults ≡ (mem_slots self s).faults }
        ensures calls { (s : Slot) → calls_of result s ≡ calls_of self s }
        ensures step { mem_step result ≡ mem_step self }
        ensures listed { listed result ≡ listed self }
    {
        self.held = self.held.with_graph(graph);
        self
    }

    /// The bytes that a write slot holds.
    pub fn put(&self, slot: Slot) -> &[u8]
        requires { is_read slot ≡ false }
        ensures { result.now ≡ mem_contents self.now slot }
    {
        self.held.put(slot)
    }

    /// The number of calls on a slot so far, including attach and those that failed. It is the number of the next call.
    #[tactic(auto, unfolding(crate::specs::Slots::at_slot))]
    pub fn calls(&self, slot: Slot) -> u64
        ensures { result ≡ calls_of self.now slot }
    {
        match slot {
            Slot::Policy => self.policy.calls,
            Slot::Capture => self.capture.calls,
            Slot::Out => self.out.calls,
            Slot::Report => self.report.calls,
            Slot::Note => self.note.calls,
            Slot::Graph => self.graph.calls,
        }
    }

    // Whether the next call on a slot is listed.
    fn fails_next(&self, slot: Slot) -> bool
        ensures { IsTrue result ↔ Contains (listed self.now) (slot, calls_of self.now slot) }
    {
        is_listed(&self.fails, slot, self.calls(slot))
    }

    // Counts a call on a slot, and returns `Failed` if its number is listed.
    #[tactic(auto, unfolding(crate::specs::Slots::at_slot))]
    fn count(&mut self, slot: Slot) -> Result<(), DeskFault>
        ensures listed { IsErrOf result DeskFault.Failed ↔
            Contains (listed self.old) (slot, calls_of self.old slot) }
        ensures no_want { IsErrOf result DeskFault.NoMemory → ⊥ }
        ensures calls { calls_of self.new slot ≡ one_more (calls_of self.old slot) }
        ensures faults { CountsFailure
            (mem_slots self.old slot).faults (mem_slots self.new slot).faults result }
        ensures cause { HasCause (mem_slots self.old slot) (mem_slots self.new slot) result }
        ensures others { (s : Slot) → s ≢ slot → call_counts self.new s ≡ call_counts self.old s }
        ensures held { self.new.held ≡ self.old.held }
        ensures fails { self.new.fails ≡ self.old.fails }
    {
        let fails = self.fails_next(slot);
        match slot {
            Slot::Policy => self.policy.count(fails),
            Slot::Capture => self.capture.count(fails),
            Slot::Out => self.out.count(fails),
            Slot::Report => self.report.count(fails),
            Slot::Note => self.note.count(fails),
            Slot::Graph => self.graph.count(fails),
        }
    }
}

impl Desk for MemDesk {
    ghost use Rattle.std.specs.Prelude.{◌≡◌, ◌≢◌, ◌≤◌, length, min, IsOk, IfOk, OnOk, OnErr, IsErrOf, IsNone, IsSome, IsTrue, false, ◌⊎◌};
    ghost use Rattle.nfp_outside.specs.declared.slot.Slot.{Slot};
    ghost use Rattle.nfp_outside.specs.Outside.{is_read, KeepsSlot, Attaches, Reads, Writes, HasCause};
    ghost use Rattle.nfp_outside.specs.Memory.{mem_slots, mem_contents, mem_step, moved, Called};

    ghost slots = { mem_slots };

    /// `Failed` exactly if the number of the call is listed.
    fn attach(&mut self, slot: Slot, name: &str) -> Result<(), DeskFault>
        requires not_note { slot ≢ Slot.Note }
        requires free { IsNone (mem_slots self.old slot).name }
        ensures ok { OnOk result
            (Attaches slot name.now (mem_slots self.old slot) (mem_slots self.new slot)) }
        ensures err { OnErr result (KeepsSlot (mem_slots self.old slot) (mem_slots self.new slot)) }
        ensures cause { HasCause (mem_slots self.old slot) (mem_slots self.new slot) result }
        ensures others { (s : Slot) → s ≢ slot → mem_slots self.new s ≡ mem_slots self.old s }
        ensures called { Called slot self.old self.new result }
    {
        self.count(slot)?;
        self.held.attach(slot, name)
    }

    /// `Failed` exactly if the number of the call is listed, and never `NoMemory`. With `Ok`, the number of bytes is
    /// the least of the step, what is left, and the buffer's length.
    fn read(&mut self, slot: Slot, into: &mut [u8]) -> Result<usize, DeskFault>
        requires read_slot { IsTrue (is_read slot) }
        requires attached { IsSome (mem_slots self.old slot).name }
        ensures ok { IfOk result (λ k.
            Reads k into.new (mem_slots self.old slot) (mem_slots self.new slot)) }
        ensures err { OnErr result (KeepsSlot (mem_slots self.old slot) (mem_slots self.new slot)) }
        ensures cause { HasCause (mem_slots self.old slot) (mem_slots self.new slot) result }
        ensures others { (s : Slot) → s ≢ slot → mem_slots self.new s ≡ mem_slots self.old s }
        ensures moves { IfOk result (λ k.
            k ≡ moved (mem_step self.old) (mem_contents self.old slot) (length into.old)) }
        ensures no_want { IsErrOf result DeskFault.NoMemory → ⊥ }
        ensures called { Called slot self.old self.new result }
    {
        self.count(slot)?;
        self.held.read(slot, into)
    }

    /// `Failed` exactly if the number of the call is listed. With `Ok`, the number of bytes is the lesser of the step
    /// and the piece's length.
    fn write(&mut self, slot: Slot, bytes: &[u8]) -> Result<usize, DeskFault>
        requires write_slot { is_read slot ≡ false }
        requires attached { (slot ≡ Slot.Note) ⊎ IsSome (mem_slots self.old slot).name }
        ensures ok { IfOk result (λ k.
            Writes k bytes.now (mem_slots self.old slot) (mem_slots self.new slot)) }
        ensures err { OnErr result (KeepsSlot (mem_slots self.old slot) (mem_slots self.new slot)) }
        ensures cause { HasCause (mem_slots self.old slot) (mem_slots self.new slot) result }
        ensures others { (s : Slot) → s ≢ slot → mem_slots self.new s ≡ mem_slots self.old s }
        ensures moves { IfOk result (λ k. k ≡ min (mem_step self.old) (length bytes.now)) }
        ensures called { Called slot self.old self.new result }
    {
        self.count(slot)?;
        self.held.write(slot, bytes)
    }
}

// Whether a call on a slot is in the list of those that fail.
fn is_listed(fails: &[(Slot, u64)], slot: Slot, number: u64) -> bool
    ensures { IsTrue result ↔ Contains fails.now (slot, number) }
{
    for call in fails {
        if is_call(call, slot, number) {
            return true;
        }
    }
    false
}

fn is_call(call: &(Slot, u64), slot: Slot, number: u64) -> bool
    ensures { IsTrue result ↔ (call.now ≡ (slot, number)) }
{
    call.0 == slot && call.1 == number
}
