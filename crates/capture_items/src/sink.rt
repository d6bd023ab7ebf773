//! The destination of packets.
ghost use Rattle.std.specs.Prelude.{◌≡◌, ◌≢◌, ◌<◌, ◌^◌, ℕ, List, IsSome, OnErr, OnOk, length};
ghost use Rattle.nfp_outside.specs.declared.slot.Slot.{Slot};
ghost use Rattle.nfp_outside.specs.Outside.{Appends, AppendsPrefix, WriteCause};
ghost use Rattle.capture_items.specs.Streams.{spelled_with};
ghost use Rattle.capture_items.specs.declared.given.Given.{Given};
ghost use Rattle.capture_items.specs.declared.given.Given.TheVariants.{Block};

use capture_bytes::PcapRecord;
use nfp_outside::{Desk, OutsideFault, Slot};

/// Writes packets and other blocks, one after another, into the slot Out of a desk. The writer of a format implements
/// it.
pub trait Sink<X, B> {
    /// The bytes that are written for an item.
    ghost spelled: { Self → Given X B → List ℕ };

    /// Writes a packet after what was written before. After an `Err`, Out holds a front part of it, and no more is
    /// written.
    fn put<D: Desk>(
        &mut self,
        desk: &mut D,
        packet: &PcapRecord,
        beside: &X,
    ) -> Result<(), OutsideFault>
        requires attached { IsSome (D.slots desk.old Slot.Out).name }
        requires short { length packet.now.frame < 2 ^ 22 }
        ensures same { spelled self.new ≡ spelled self.old }
        ensures ok { OnOk result (Appends (spelled_with (spelled self.old) beside.now packet.now) (D.slots desk.old Slot.Out) (D.slots desk.new Slot.Out)) }
        ensures err { OnErr result (AppendsPrefix (spelled_with (spelled self.old) beside.now packet.now) (D.slots desk.old Slot.Out) (D.slots desk.new Slot.Out)) }
        ensures cause { WriteCause Slot.Out (D.slots desk.old Slot.Out) (D.slots desk.new Slot.Out) result }
        ensures others { (s : Slot) → s ≢ Slot.Out → D.slots desk.new s ≡ D.slots desk.old s };

    /// Writes another block, in the same way.
    fn put_block<D: Desk>(&mut self, desk: &mut D, block: &B) -> Result<(), OutsideFault>
        requires attached { IsSome (D.slots desk.old Slot.Out).name }
        ensures same { spelled self.new ≡ spelled self.old }
        ensures ok { OnOk result (Appends (spelled self.old (Block block.now)) (D.slots desk.old Slot.Out) (D.slots desk.new Slot.Out)) }
        ensures err { OnErr result (AppendsPrefix (spelled self.old (Block block.now)) (D.slots desk.old Slot.Out) (D.slots desk.new Slot.Out)) }
        ensures cause { WriteCause Slot.Out (D.slots desk.old Slot.Out) (D.slots desk.new Slot.Out) result }
        ensures others { (s : Slot) → s ≢ Slot.Out → D.slots desk.new s ≡ D.slots desk.old s };
}
