// What a place for bytes promises.
ghost use Rattle.std.specs.Prelude.{◌≡◌, ◌≢◌, ◌≤◌, ◌<◌, length, IfOk, OnOk, OnErr, IsNone, IsSome, IsTrue, false, ◌⊎◌};
ghost use Rattle.nfp_outside.specs.declared.slot.Slot.{Slot};
ghost use Rattle.nfp_outside.specs.Outside.{SlotView, is_read, KeepsSlot, Attaches, Reads, Writes, HasCause};

use crate::slot::{DeskFault, Slot};

/// Named sources and sinks of bytes, one for each [`Slot`]. A call changes only the slot that it names. A call that is
/// refused leaves that slot's name and bytes as they were.
pub trait Desk {
    /// What each slot shows: its name, its bytes if the desk shows them, its count of faults.
    ghost slots: { Self → Slot → SlotView };

    /// Gives a slot its name. What is left in a read slot stays as it was; a write slot is made empty. `Failed` at a
    /// read slot can also mean that nothing of that name exists.
    fn attach(&mut self, slot: Slot, name: &str) -> Result<(), DeskFault>
        requires not_note { slot ≢ Slot.Note }
        requires free { IsNone (slots self.old slot).name }
        ensures ok { OnOk result
            (Attaches slot name.now (slots self.old slot) (slots self.new slot)) }
        ensures err { OnErr result (KeepsSlot (slots self.old slot) (slots self.new slot)) }
        ensures cause { HasCause (slots self.old slot) (slots self.new slot) result }
        ensures others { (s : Slot) → s ≢ slot → slots self.new s ≡ slots self.old s };

    /// Takes the first bytes that are left in a read slot, and returns the number of them. `Ok(0)` into a buffer with
    /// room is the end.
    fn read(&mut self, slot: Slot, into: &mut [u8]) -> Result<usize, DeskFault>
        requires read_slot { IsTrue (is_read slot) }
        requires attached { IsSome (slots self.old slot).name }
        ensures ok { IfOk result (λ k.
            Reads k into.new (slots self.old slot) (slots self.new slot)) }
        ensures err { OnErr result (KeepsSlot (slots self.old slot) (slots self.new slot)) }
        ensures cause { HasCause (slots self.old slot) (slots self.new slot) result }
        ensures others { (s : Slot) → s ≢ slot → slots self.new s ≡ slots self.old s };

    /// Appends the first bytes of a piece to a write slot, and returns the number of them: at least one if the piece
    /// isn't empty. A write that could take none is `Failed`.
    fn write(&mut self, slot: Slot, bytes: &[u8]) -> Result<usize, DeskFault>
        requires write_slot { is_read slot ≡ false }
        requires attached { (slot ≡ Slot.Note) ⊎ IsSome (slots self.old slot).name }
        ensures ok { IfOk result (λ k.
            Writes k bytes.now (slots self.old slot) (slots self.new slot)) }
        ensures err { OnErr result (KeepsSlot (slots self.old slot) (slots self.new slot)) }
        ensures cause { HasCause (slots self.old slot) (slots self.new slot) result }
        ensures others { (s : Slot) → s ≢ slot → slots self.new s ≡ slots self.old s };
}
