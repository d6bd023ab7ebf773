// Reads a whole slot, and writes a whole text.
ghost use Rattle.std.specs.Prelude.{◌≡◌, ◌≢◌, ◌+◌, ◌≤◌, ◌<◌, ◌++◌, ℕ, [], length, drop, take, Some, IfOk, OnOk, OnErr, IsOk, IfSome, IsSome, IsTrue, false, ◌⊎◌, IsErrOf, vec_len};
ghost use Rattle.nfp_outside.specs.declared.slot.Slot.{Slot};
ghost use Rattle.nfp_outside.specs.Outside.{is_read, ReadsAll, ReadsTooMuch, TakesFront, Appends, AppendsPrefix, ReadCause, WriteCause};

use crate::desk::Desk;
use crate::slot::{DeskFault, OutsideFault, Slot};
use std::alloc::Global;

// The most bytes that one call reads.
const CHUNK: usize = 4096;

/// All the bytes that are left in a read slot, unless there are more than `max`.
///
/// `TooLong` exactly if more than `max` bytes come, and then `max` + 1 bytes were taken; `ReadFault` of this slot only
/// if its count of faults rose; `OutOfMemory` if there is no memory for the bytes or at the desk. After each of these
/// some of the bytes may have been taken.
pub fn read_all<D: Desk>(
    alloc: Global,
    desk: &mut D,
    slot: Slot,
    max: usize,
) -> Result<Vec<u8>, OutsideFault>
    requires read_slot { IsTrue (is_read slot) }
    requires attached { IsSome (D.slots desk.old slot).name }
    ensures ok { IfOk result (λ v.
        ReadsAll v.items max (D.slots desk.old slot) (D.slots desk.new slot)) }
    ensures too_long { IsErrOf result OutsideFault.TooLong →
        ReadsTooMuch max (D.slots desk.old slot) (D.slots desk.new slot) }
    ensures err { OnErr result
        (TakesFront (max + 1) (D.slots desk.old slot) (D.slots desk.new slot)) }
    ensures cause { ReadCause slot (D.slots desk.old slot) (D.slots desk.new slot) result }
    ensures name { (D.slots desk.new slot).name ≡ (D.slots desk.old slot).name }
    ensures others { (s : Slot) → s ≢ slot → D.slots desk.new s ≡ D.slots desk.old s }
{
    let mut all = Vec::new(alloc);
    let mut buffer = [0u8; CHUNK];
    'pieces: while all.len() <= max {
        let room = (max - all.len()).min(CHUNK - 1) + 1;
        let count = match desk.read(slot, &mut buffer[..room]) {
            Ok(count) => count,
            Err(DeskFault::Failed) => return Err(OutsideFault::ReadFault(slot)),
            Err(DeskFault::NoMemory) => return Err(OutsideFault::OutOfMemory),
        };
        if count == 0 {
            return Ok(all);
        }
        if all.extend_from_slice(&buffer[..count]).is_err() {
            return Err(OutsideFault::OutOfMemory);
        }
    }
    Err(OutsideFault::TooLong)
}

/// Puts all the bytes into a write slot, by one write after another, each of all that remain. If there are none it
/// makes no call.
///
/// `WriteFault` of this slot only if its count of faults rose; `OutOfMemory` only if the desk returned `NoMemory`,
/// since nothing is allocated here. After either error the slot holds a front part of the bytes.
pub fn write_whole<D: Desk>(desk: &mut D, slot: Slot, bytes: &[u8]) -> Result<(), OutsideFault>
    requires write_slot { is_read slot ≡ false }
    requires attached { (slot ≡ Slot.Note) ⊎ IsSome (D.slots desk.old slot).name }
    ensures ok { OnOk result (Appends bytes.now (D.slots desk.old slot) (D.slots desk.new slot)) }
    ensures err { OnErr result
        (AppendsPrefix bytes.now (D.slots desk.old slot) (D.slots desk.new slot)) }
    ensures nothing { bytes.now ≡ [] → IsOk result × (desk.new ≡ desk.old) }
    ensures cause { WriteCause slot (D.slots desk.old slot) (D.slots desk.new slot) result }
    ensures others { (s : Slot) → s ≢ slot → D.slots desk.new s ≡ D.slots desk.old s }
{
    let mut rest = bytes;
    'pieces: while !rest.is_empty() {
        let count = match desk.write(slot, rest) {
            Ok(count) => count,
            Err(DeskFault::Failed) => return Err(OutsideFault::WriteFault(slot)),
            Err(DeskFault::NoMemory) => return Err(OutsideFault::OutOfMemory),
        };
        rest = &rest[count..];
    }
    Ok(())
}
