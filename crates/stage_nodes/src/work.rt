//! The work of the functions of a branch on a packet.
ghost use Rattle.std.specs.Prelude.{◌≡◌, ℕ, false, IfOk, IfSome, IsSome};
ghost use Rattle.packet_version.specs.Versions.{PlainVersion};
ghost use Rattle.packet_messages.specs.Messages.{is_short, plain};
ghost use Rattle.stage_nodes.specs.Flows.{MayTake};
ghost use Rattle.stage_nodes.specs.Streams.{Kit, KeepsNothing, gave, moved};

use nfp_outside::Gate;
use packet_messages::Message;
use packet_version::Version;
use std::alloc::{AllocError, Global};
use std::sync::Wait;

/// The functions of a branch with their states, through which one version after another is run.
///
/// `kit` defines what they make of a version and which functions they are after it, and `may` which versions they may
/// take of a packet, by the packet's number in the burst.
pub trait BranchWork {
    ghost kit: { Kit Self };

    ghost may: { Self → ℕ → PlainVersion → Type 0 };

    /// Runs what comes of a packet through the functions; `place` is the packet's number in the burst, counted from 0.
    /// What has no version passes on, and no function sees it. If memory runs out the result is `Short`, and the states
    /// of the functions have no meaning from then on.
    fn turn<R: Wait, G: Gate>(
        &mut self,
        rt: &R,
        alloc: Global,
        gate: &G,
        place: u32,
        message: Message<Version>,
    ) -> Message<Version>
        requires may { MayTake may self.old place (plain message) }
        ensures turned { is_short (plain result) ≡ false →
            (plain result ≡ gave kit self.old (plain message)) × (self.new ≡ moved kit self.old (plain message)) };

    /// The same functions once more, if several of them may be at work: only if they keep no state, so that they are
    /// the same after each packet as before it. The only error is that memory runs out.
    fn try_clone(&self, alloc: Global) -> Result<Option<Self>, AllocError>
        ensures same { IfOk result (λ found. IfSome found (λ work. work ≡ self.now)) }
        ensures stateless { IfOk result (λ found. IsSome found → KeepsNothing kit self.now) };
}
