//! The origin of packets.
ghost use Rattle.std.specs.Prelude.{◌≡◌, ◌≢◌, ◌≤◌, ℕ, [], Bool, true, None, Option, IfNone, IfOk, IfSome, IsErrOf, IsSome, OnOk};
ghost use Rattle.nfp_outside.specs.declared.slot.Slot.{Slot};
ghost use Rattle.nfp_outside.specs.Outside.{IsRisen, SlotView};
ghost use Rattle.capture_items.specs.declared.fault.FormatFault.{FormatFault};
ghost use Rattle.capture_items.specs.Sources.{GivesNext, RefusesNext};
ghost use Rattle.capture_items.specs.Streams.{Stream};

use crate::fault::SourceFault;
use crate::given::Given;
use nfp_outside::{Desk, Slot};
use std::alloc::Global;

/// Returns the items of a capture, one after another, from the slot Capture of a desk: packets, of each of which a
/// format says `X` besides its record, and other blocks `B`. The reader of a format implements it.
pub trait Source<X, B> {
    /// The items that are still to come and the fault, if the desk shows what is left in the slot.
    ghost left: { Self → SlotView → Option (Stream X B) };

    /// The number of packets that it returned.
    ghost packets: { Self → ℕ };

    /// The number of packets and other blocks that it returned.
    ghost taken: { Self → ℕ };

    /// Whether `next` may be called: no call failed before.
    ghost is_open: { Self → Bool };

    /// A property of the slot once nothing is left: a source that reads the slot has read it to its end.
    ghost is_drained: { SlotView → Type 0 };

    /// The next item; `None` exactly if nothing is left. After an `Err` it must not be called again.
    fn next<D: Desk>(
        &mut self,
        alloc: Global,
        desk: &mut D,
    ) -> Result<Option<Given<X, B>>, SourceFault>
        requires attached { IsSome (D.slots desk.old Slot.Capture).name }
        requires open { is_open self.old ≡ true }
        ensures given { IfOk result (λ o. IfSome o (λ x. GivesNext left packets taken x self.old self.new (D.slots desk.old Slot.Capture) (D.slots desk.new Slot.Capture))) }
        ensures end { IfOk result (λ o. IfNone o (IfSome (left self.old (D.slots desk.old Slot.Capture)) (λ s. s ≡ record { given = []; fault = None }))) }
        ensures drained { IfOk result (λ o. IfNone o (is_drained (D.slots desk.new Slot.Capture))) }
        ensures refused { (fault : FormatFault) → IsErrOf result (SourceFault.Format fault) → RefusesNext left fault self.old (D.slots desk.old Slot.Capture) }
        ensures stays_open { OnOk result (is_open self.new ≡ true) }
        ensures later { (D.slots desk.old Slot.Capture).faults ≤ (D.slots desk.new Slot.Capture).faults }
        ensures read_fault { IsErrOf result SourceFault.ReadFault → IsRisen (D.slots desk.old Slot.Capture).faults (D.slots desk.new Slot.Capture).faults }
        ensures name { (D.slots desk.new Slot.Capture).name ≡ (D.slots desk.old Slot.Capture).name }
        ensures others { (s : Slot) → s ≢ Slot.Capture → D.slots desk.new s ≡ D.slots desk.old s };
}
