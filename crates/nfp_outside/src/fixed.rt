// A desk in memory that never fails.
ghost use Rattle.std.specs.Prelude.{◌≤◌};

use crate::desk::Desk;
use crate::held::{Sink, Source};
use crate::slot::{DeskFault, Slot};
use std::alloc::Global;

/// A desk in memory that never fails: any name is found, and each count of faults stays 0. Its view shows all its
/// bytes. A call that moves bytes moves as many as it can, up to a step.
#[derive(Drop)]
pub struct FixedDesk {
    alloc: Global,
    step: usize,
    policy: Source,
    capture: Source,
    out: Sink,
    report: Sink,
    note: Sink,
    graph: Source,
    ghost moves: { 1 ≤ step },
}

impl FixedDesk {
    ghost use Rattle.std.specs.Prelude.{◌≡◌, ◌≢◌, ◌≤◌, [], None, false};
    ghost use Rattle.nfp_outside.specs.declared.slot.Slot.{Slot};
    ghost use Rattle.nfp_outside.specs.Outside.{is_read};
    ghost use Rattle.nfp_outside.specs.Memory.{fixed_slots, contents, step_of};

    /// A desk whose read slots hold these bytes, Graph none, whose write slots are empty, and which moves at most
    /// `step` bytes in a call. Nothing is attached.
    #[tactic(auto, unfolding(crate::specs::Slots::at_slot))]
    pub fn new(alloc: Global, policy: Vec<u8>, capture: Vec<u8>, step: usize) -> Self
        requires { 1 ≤ step }
        ensures names { (s : Slot) → (fixed_slots result s).name ≡ None }
        ensures policy { contents result Slot.Policy ≡ policy.items }
        ensures capture { contents result Slot.Capture ≡ capture.items }
        ensures graph { contents result Slot.Graph ≡ [] }
        ensures empty { (s : Slot) → is_read s ≡ false → contents result s ≡ [] }
        ensures step { step_of result ≡ step }
    {
        FixedDesk {
            alloc,
            step,
            policy: Source::new(policy),
            capture: Source::new(capture),
            out: Sink::new(alloc),
            report: Sink::new(alloc),
            note: Sink::new(alloc),
            graph: Source::new(Vec::new(alloc)),
        }
    }

    /// The same desk, whose Graph holds these bytes and isn't attached.
    #[tactic(auto, unfolding(crate::specs::Slots::at_slot))]
    pub fn with_graph(mut self, graph: Vec<u8>) -> Self
        ensures name { (fixed_slots result Slot.Graph).name ≡ None }
        ensures graph { contents result Slot.Graph ≡ graph.items }
        ensures others { (s : Slot) → s ≢ Slot.Graph → fixed_slots result s ≡ fixed_slots self s }
        ensures step { step_of result ≡ step_of self }
    {
        self.graph = Source::new(graph);
        self
    }

    /// The bytes that a write slot holds.
    #[tactic(auto, unfolding(crate::specs::Slots::at_slot))]
    pub fn put(&self, slot: Slot) -> &[u8]
        requires { is_read slot ≡ false }
        ensures { result.now ≡ contents self.now slot }
    {
        match slot {
            Slot::Out => &self.out.bytes,
            Slot::Report => &self.report.bytes,
            _ => &self.note.bytes,
        }
    }
}

impl Desk for FixedDesk {
    ghost use Rattle.std.specs.Prelude.{◌≡◌, ◌≢◌, ◌≤◌, length, min, IsOk, IfOk, OnOk, OnErr, IsErrOf, IsNone, IsSome, IsTrue, false, ◌⊎◌};
    ghost use Rattle.nfp_outside.specs.declared.slot.Slot.{Slot};
    ghost use Rattle.nfp_outside.specs.Outside.{is_read, KeepsSlot, Attaches, Reads, Writes, HasCause};
    ghost use Rattle.nfp_outside.specs.Memory.{fixed_slots, contents, step_of, moved};

    ghost slots = { fixed_slots };

    /// Never `Failed`.
    #[tactic(auto, unfolding(crate::specs::Slots::at_slot))]
    fn attach(&mut self, slot: Slot, name: &str) -> Result<(), DeskFault>
        requires not_note { slot ≢ Slot.Note }
        requires free { IsNone (fixed_slots self.old slot).name }
        ensures ok { OnOk result
            (Attaches slot name.now (fixed_slots self.old slot) (fixed_slots self.new slot)) }
        ensures err { OnErr result
            (KeepsSlot (fixed_slots self.old slot) (fixed_slots self.new slot)) }
        ensures cause { HasCause (fixed_slots self.old slot) (fixed_slots self.new slot) result }
        ensures others { (s : Slot) → s ≢ slot → fixed_slots self.new s ≡ fixed_slots self.old s }
        ensures never_fails { IsErrOf result DeskFault.Failed → ⊥ }
        ensures step { step_of self.new ≡ step_of self.old }
    {
        match slot {
            Slot::Policy => self.policy.attach(self.alloc, name),
            Slot::Capture => self.capture.attach(self.alloc, name),
            Slot::Out => self.out.attach(self.alloc, name),
            Slot::Report => self.report.attach(self.alloc, name),
            Slot::Note => unreachable!(),
            Slot::Graph => self.graph.attach(self.alloc, name),
        }
    }

    /// Always `Ok`. The number of bytes is the least of the step, what is left, and the buffer's length.
    #[tactic(auto, unfolding(crate::specs::Slots::at_slot))]
    fn read(&mut self, slot: Slot, into: &mut [u8]) -> Result<usize, DeskFault>
        requires read_slot { IsTrue (is_read slot) }
        requires attached { IsSome (fixed_slots self.old slot).name }
        ensures answers { IsOk result }
        ensures ok { IfOk result (λ k.
            Reads k into.new (fixed_slots self.old slot) (fixed_slots self.new slot)) }
        ensures err { OnErr result
            (KeepsSlot (fixed_slots self.old slot) (fixed_slots self.new slot)) }
        ensures cause { HasCause (fixed_slots self.old slot) (fixed_slots self.new slot) result }
        ensures others { (s : Slot) → s ≢ slot → fixed_slots self.new s ≡ fixed_slots self.old s }
        ensures moves { IfOk result (λ k.
            k ≡ moved (step_of self.old) (contents self.old slot) (length into.old)) }
        ensures step { step_of self.new ≡ step_of self.old }
    {
        match slot {
            Slot::Policy => Ok(self.policy.read(into, self.step)),
            Slot::Capture => Ok(self.capture.read(into, self.step)),
            Slot::Graph => Ok(self.graph.read(into, self.step)),
            _ => unreachable!(),
        }
    }

    /// Never `Failed`. The number of bytes is the lesser of the step and the piece's length.
    #[tactic(auto, unfolding(crate::specs::Slots::at_slot))]
    fn write(&mut self, slot: Slot, bytes: &[u8]) -> Result<usize, DeskFault>
        requires write_slot { is_read slot ≡ false }
        requires attached { (slot ≡ Slot.Note) ⊎ IsSome (fixed_slots self.old slot).name }
        ensures ok { IfOk result (λ k.
            Writes k bytes.now (fixed_slots self.old slot) (fixed_slots self.new slot)) }
        ensures err { OnErr result
            (KeepsSlot (fixed_slots self.old slot) (fixed_slots self.new slot)) }
        ensures cause { HasCause (fixed_slots self.old slot) (fixed_slots self.new slot) result }
        ensures others { (s : Slot) → s ≢ slot → fixed_slots self.new s ≡ fixed_slots self.old s }
        ensures never_fails { IsErrOf result DeskFault.Failed → ⊥ }
        ensures moves { IfOk result (λ k. k ≡ min (step_of self.old) (length bytes.now)) }
        ensures step { step_of self.new ≡ step_of self.old }
    {
        match slot {
            Slot::Out => self.out.write(bytes, self.step),
            Slot::Report => self.report.write(bytes, self.step),
            Slot::Note => self.note.write(bytes, self.step),
            _ => unreachable!(),
        }
    }
}
