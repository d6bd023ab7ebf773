//! Reading up to a number of bytes of the slot Capture, with the faults of a capture.
ghost use Rattle.std.specs.Prelude.{◌≡◌, ◌≢◌, ◌≤◌, IsSome, IfOk, IfErr, length};
ghost use Rattle.nfp_outside.specs.declared.slot.Slot.{Slot};
ghost use Rattle.capture_bytes.specs.Filling.{Fills};
ghost use Rattle.pcap_io.specs.Filling.{IsRefusal};

use crate::fault::PcapFault;
use nfp_outside::{Desk, DeskFault, Slot};

// Reads until the buffer is full or nothing is left, and returns the number of bytes.
pub fn fill<D: Desk>(desk: &mut D, into: &mut [u8]) -> Result<usize, PcapFault>
    requires { IsSome (D.slots desk.old Slot.Capture).name }
    ensures ok { IfOk result (λ k. Fills k into.new (D.slots desk.old Slot.Capture) (D.slots desk.new Slot.Capture)) }
    ensures err { IfErr result (IsRefusal (length into.old) (D.slots desk.old Slot.Capture) (D.slots desk.new Slot.Capture)) }
    ensures later { (D.slots desk.old Slot.Capture).faults ≤ (D.slots desk.new Slot.Capture).faults }
    ensures others { (s : Slot) → s ≢ Slot.Capture → D.slots desk.new s ≡ D.slots desk.old s }
{
    match capture_bytes::fill(desk, into) {
        Ok(count) => Ok(count),
        Err(DeskFault::Failed) => Err(PcapFault::ReadFault(Slot::Capture)),
        Err(DeskFault::NoMemory) => Err(PcapFault::OutOfMemory),
    }
}
