//! Where the part of a field is.

use crate::part::Part;

/// Where a packet's part of a field is.
#[derive(Drop)]
pub(crate) enum Place {
    /// In the frame, if the packet has the field at all.
    Inside,
    /// A branch has it.
    Gone,
    /// Outside the frame: a branch had it.
    Outside(Part),
}

ghost use Rattle.std.specs.Prelude.{◌≡◌, true, length, IfSome};
ghost use Rattle.std.specs.Borrow.{sem};
ghost use Rattle.packet_version.specs.Places.{beside, is_outside, rewritten_place, unwritten_place};
ghost use Rattle.packet_version.specs.Lending.{LendsPlace};

impl Place {
    /// Marks a part outside the frame as unwritten.
    pub(crate) fn forget_writer(&mut self)
        ensures { self.new ≡ unwritten_place self.old }
    {
        if let Place::Outside(part) = self {
            part.forget_writer();
        }
    }

    /// Writes the bytes of a part outside the frame, as many as it has.
    pub(crate) fn set(&mut self, writer: u32, bytes: &[u8])
        requires { IfSome (beside self.old) (λ p. length bytes.now ≡ length p.bytes) }
        ensures { self.new ≡ rewritten_place bytes.now writer self.old }
    {
        if let Place::Outside(part) = self {
            part.set(writer, bytes);
        }
    }

    /// Sets the writer of a part outside the frame, and lends its bytes.
    pub(crate) fn edit(&mut self, writer: u32) -> &mut [u8]
        requires { is_outside self.old ≡ true }
        ensures* writes_back { sem 𝓛 (LendsPlace self.entry writer result) }
        ensures bytes { IfSome (beside self.old) (λ p. result.now ≡ p.bytes) }
    {
        match self {
            Place::Outside(part) => part.edit(writer),
            _ => unreachable!(),
        }
    }
}
