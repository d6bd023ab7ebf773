//! Where a dealer takes its packets.
ghost use Rattle.std.specs.Prelude.{◌<◌, ◌∷◌, List, length};
ghost use Rattle.packet_version.specs.Splitting.{PlainApart};
ghost use Rattle.packet_messages.specs.Messages.{Fits, PlainMessage, Owing, first, front, turned};
ghost use Rattle.stage_nodes.specs.Streams.{of_merged};

use merge_ops::Merged;
use packet_messages::{Inlets, Message};
use packet_version::Apart;
use std::alloc::Global;
use std::sync::Wait;

/// Packets that come one after another. `comes` says which may be the ones that are still to come.
pub trait Supply {
    ghost comes: { Self → List (PlainMessage PlainApart) → Type 0 };

    /// The next packet, or the word that memory ran out. If another node gives it, the call waits for it.
    fn next<R: Wait>(&mut self, rt: &R, alloc: Global) -> Merged
        requires more { (x : PlainMessage PlainApart) × (xs : List (PlainMessage PlainApart)) × comes self.old (x ∷ xs) }
        ensures next { (x : PlainMessage PlainApart) (xs : List (PlainMessage PlainApart)) →
            comes self.old (x ∷ xs) → Fits x (of_merged result) }
        ensures left { (x : PlainMessage PlainApart) (xs : List (PlainMessage PlainApart)) →
            comes self.old (x ∷ xs) → comes self.new xs };
}

/// Packets from the mergers of a stage, from each in turn.
impl Supply for Inlets<Apart> {
    ghost use Rattle.stage_nodes.specs.Dues.{ComesFrom};

    ghost comes = { ComesFrom };

    fn next<R: Wait>(&mut self, rt: &R, _alloc: Global) -> Merged {
        match self.accept_next(rt) {
            Message::Live(whole) => Merged::Whole(Box::into_inner(whole)),
            Message::Nil(position) => Merged::Gone(position),
            Message::Short => Merged::Short,
        }
    }
}
