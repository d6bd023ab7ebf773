// A desk that weighs what is put into it, and keeps no byte.
ghost use Rattle.std.specs.Prelude.{◌≡◌, ◌≤◌, ◌+◌, ◌^◌, length, IfOk, OnErr, IsErrOf};
ghost use Rattle.nfp_outside.specs.Weights.{heavier};

use crate::desk::Desk;
use crate::slot::{DeskFault, Slot};
use crate::weight::Weight;
use std::alloc::Global;

/// A desk that keeps of the bytes that are put into it only their number and their weight, so its memory doesn't grow.
/// Its view shows these and no bytes.
///
/// Capture, Out, Report and Graph are attached from the start, under the empty name. Nothing is left in a read slot. It
/// never fails, so each count of faults stays 0; a piece with which the count of bytes would exceed the maximum of
/// `u64` is refused with `NoMemory`.
#[derive(Drop)]
pub struct Scales {
    alloc: Global,
    policy: Option<String>,
    out: Weight,
    report: Weight,
    note: Weight,
}

impl Scales {
    ghost use Rattle.std.specs.Prelude.{◌≡◌, IsNone, IsSome, Some, false};
    ghost use Rattle.nfp_outside.specs.declared.slot.Slot.{Slot};
    ghost use Rattle.nfp_outside.specs.Outside.{is_read};
    ghost use Rattle.nfp_outside.specs.Weights.{no_weight};
    ghost use Rattle.nfp_outside.specs.Scales.{scales_slots};

    /// A desk into which nothing was put. Capture, Out, Report and Graph are attached.
    #[tactic(auto, unfolding(crate::specs::Slots::at_slot))]
    pub fn new(alloc: Global) -> Self
        ensures policy { IsNone (scales_slots result Slot.Policy).name }
        ensures capture { IsSome (scales_slots result Slot.Capture).name }
        ensures out { IsSome (scales_slots result Slot.Out).name }
        ensures report { IsSome (scales_slots result Slot.Report).name }
        ensures empty { (s : Slot) → is_read s ≡ false → (scales_slots result s).weight ≡ Some no_weight }
    {
        Scales {
            alloc,
            policy: None,
            out: Weight::none(),
            report: Weight::none(),
            note: Weight::none(),
        }
    }

    /// The weight of what was put into a write slot.
    #[tactic(auto, unfolding(crate::specs::Slots::at_slot))]
    pub fn weight(&self, slot: Slot) -> Weight
        requires { is_read slot ≡ false }
        ensures { (scales_slots self.now slot).weight ≡ Some result }
    {
        match slot {
            Slot::Out => self.out,
            Slot::Report => self.report,
            _ => self.note,
        }
    }
}

impl Desk for Scales {
    ghost use Rattle.std.specs.Prelude.{◌≡◌, ◌≢◌, ◌≤◌, ◌+◌, ◌^◌, length, IfOk, IfSome, OnOk, OnErr, IsErrOf, IsNone, IsSome, IsTrue, Ok, false, ◌⊎◌};
    ghost use Rattle.nfp_outside.specs.declared.slot.Slot.{Slot};
    ghost use Rattle.nfp_outside.specs.Outside.{is_read, KeepsSlot, Attaches, Reads, Writes, HasCause};
    ghost use Rattle.nfp_outside.specs.Scales.{scales_slots};

    ghost slots = { scales_slots };

    /// Never `Failed`. Policy alone is free from the start.
    #[tactic(auto, unfolding(crate::specs::Slots::at_slot))]
    fn attach(&mut self, slot: Slot, name: &str) -> Result<(), DeskFault>
        requires not_note { slot ≢ Slot.Note }
        requires free { IsNone (scales_slots self.old slot).name }
        ensures ok { OnOk result
            (Attaches slot name.now (scales_slots self.old slot) (scales_slots self.new slot)) }
        ensures err { OnErr result
            (KeepsSlot (scales_slots self.old slot) (scales_slots self.new slot)) }
        ensures cause { HasCause (scales_slots self.old slot) (scales_slots self.new slot) result }
        ensures others { (s : Slot) → s ≢ slot → scales_slots self.new s ≡ scales_slots self.old s }
        ensures never_fails { IsErrOf result DeskFault.Failed → ⊥ }
    {
        match slot {
            Slot::Policy => match String::from_str(self.alloc, name) {
                Ok(text) => {
                    self.policy = Some(text);
                    Ok(())
                }
                Err(_) => Err(DeskFault::NoMemory),
            },
            _ => unreachable!(),
        }
    }

    /// Always the end: nothing is left in a read slot.
    #[tactic(auto, unfolding(crate::specs::Slots::at_slot))]
    fn read(&mut self, slot: Slot, into: &mut [u8]) -> Result<usize, DeskFault>
        requires read_slot { IsTrue (is_read slot) }
        requires attached { IsSome (scales_slots self.old slot).name }
        ensures ok { IfOk result (λ k.
            Reads k into.new (scales_slots self.old slot) (scales_slots self.new slot)) }
        ensures err { OnErr result
            (KeepsSlot (scales_slots self.old slot) (scales_slots self.new slot)) }
        ensures cause { HasCause (scales_slots self.old slot) (scales_slots self.new slot) result }
        ensures others { (s : Slot) → s ≢ slot → scales_slots self.new s ≡ scales_slots self.old s }
        ensures end { result ≡ Ok 0 }
    {
        Ok(0)
    }

    /// Takes the whole piece. `NoMemory` exactly if the count of bytes would exceed the maximum of `u64`, and never
    /// `Failed`.
    #[tactic(auto, unfolding(crate::specs::Slots::at_slot))]
    fn write(&mut self, slot: Slot, bytes: &[u8]) -> Result<usize, DeskFault>
        requires write_slot { is_read slot ≡ false }
        requires attached { (slot ≡ Slot.Note) ⊎ IsSome (scales_slots self.old slot).name }
        ensures ok { IfOk result (λ k.
            Writes k bytes.now (scales_slots self.old slot) (scales_slots self.new slot)) }
        ensures err { OnErr result
            (KeepsSlot (scales_slots self.old slot) (scales_slots self.new slot)) }
        ensures cause { HasCause (scales_slots self.old slot) (scales_slots self.new slot) result }
        ensures others { (s : Slot) → s ≢ slot → scales_slots self.new s ≡ scales_slots self.old s }
        ensures whole { IfOk result (λ k. k ≡ length bytes.now) }
        ensures no_room { OnErr result (IfSome (scales_slots self.old slot).weight (λ w.
            2 ^ 64 ≤ w.bytes + length bytes.now)) }
        ensures never_fails { IsErrOf result DeskFault.Failed → ⊥ }
    {
        match slot {
            Slot::Out => put(&mut self.out, bytes),
            Slot::Report => put(&mut self.report, bytes),
            Slot::Note => put(&mut self.note, bytes),
            _ => unreachable!(),
        }
    }
}

// Adds the weight of a piece after what was weighed.
fn put(weight: &mut Weight, bytes: &[u8]) -> Result<usize, DeskFault>
    ensures ok { IfOk result (λ k.
        (k ≡ length bytes.now) × (weight.new ≡ heavier bytes.now weight.old)) }
    ensures err { OnErr result
        ((2 ^ 64 ≤ weight.old.bytes + length bytes.now) × (weight.new ≡ weight.old)) }
    ensures never_fails { IsErrOf result DeskFault.Failed → ⊥ }
{
    match weight.with(bytes) {
        Some(heavier) => {
            *weight = heavier;
            Ok(bytes.len())
        }
        None => Err(DeskFault::NoMemory),
    }
}
