//! Reading up to a number of bytes of the slot Capture, in whatever pieces they come.
ghost use Rattle.std.specs.Prelude.{◌≡◌, ◌≢◌, IsSome, IfOk, length};
ghost use Rattle.nfp_outside.specs.declared.slot.Slot.{Slot};
ghost use Rattle.nfp_outside.specs.Outside.{HasCause, TakesFront};
ghost use Rattle.capture_bytes.specs.Filling.{Fills};

use nfp_outside::{Desk, DeskFault, Slot};

/// Reads from the slot Capture until the buffer is full or nothing is left, and returns the number of bytes. It
/// allocates nothing of its own, and passes on a fault of the desk.
pub fn fill<D: Desk>(desk: &mut D, into: &mut [u8]) -> Result<usize, DeskFault>
    requires { IsSome (D.slots desk.old Slot.Capture).name }
    ensures ok { IfOk result (λ k. Fills k into.new (D.slots desk.old Slot.Capture) (D.slots desk.new Slot.Capture)) }
    ensures taken { TakesFront (length into.old) (D.slots desk.old Slot.Capture) (D.slots desk.new Slot.Capture) }
    ensures cause { HasCause (D.slots desk.old Slot.Capture) (D.slots desk.new Slot.Capture) result }
    ensures others { (s : Slot) → s ≢ Slot.Capture → D.slots desk.new s ≡ D.slots desk.old s }
{
    let mut done = 0;
    'pieces: while done < into.len() {
        let count = match desk.read(Slot::Capture, &mut into[done..]) {
            Ok(count) => count,
            Err(fault) => return Err(fault),
        };
        if count == 0 {
            return Ok(done);
        }
        done += count;
    }
    Ok(done)
}
