//! Attaches the slots that are written.
ghost use Rattle.std.specs.Prelude.{◌≡◌, ◌≢◌, ◌≤◌, IfErr, OnOk, None, false};
ghost use Rattle.nfp_outside.specs.declared.slot.Slot.{Slot};
ghost use Rattle.nfp_outside.specs.Outside.{is_read, Attaches};
ghost use Rattle.call_ending.specs.Reading.{RefusesAttaching};

use capture_items::RunFault;
use nfp_outside::{Desk, DeskFault, Slot};

/// Attaches a slot that is written.
pub fn attach_sink<D: Desk>(desk: &mut D, slot: Slot, name: &str) -> Result<(), RunFault>
    requires write_slot { is_read slot ≡ false }
    requires not_note { slot ≢ Slot.Note }
    requires free { (D.slots desk.old slot).name ≡ None }
    ensures ok { OnOk result (Attaches slot name.now (D.slots desk.old slot) (D.slots desk.new slot)) }
    ensures err { IfErr result (RefusesAttaching slot (D.slots desk.old slot) (D.slots desk.new slot)) }
    ensures later { (D.slots desk.old slot).faults ≤ (D.slots desk.new slot).faults }
    ensures others { (s : Slot) → s ≢ slot → D.slots desk.new s ≡ D.slots desk.old s }
{
    match desk.attach(slot, name) {
        Ok(()) => Ok(()),
        Err(DeskFault::Failed) => Err(RunFault::WriteFault(slot)),
        Err(DeskFault::NoMemory) => Err(RunFault::OutOfMemory),
    }
}
