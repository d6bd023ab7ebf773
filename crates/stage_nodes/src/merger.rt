//! The node of a merger.
ghost use Rattle.std.specs.Prelude.{◌≡◌, ◌<◌, ◌+◌, ◌-◌, ◌^◌, ◌∷◌, [], ℕ, suc, false, length, map};
ghost use Rattle.std.specs.List.{list_any};
ghost use Rattle.merge_ops.specs.Merging.{is_short as is_lost};
ghost use Rattle.packet_messages.specs.Messages.{Fits, PlainMessage.Nil, first, is_short, plain, rest};
ghost use Rattle.stage_nodes.specs.Streams.{of_merged};
ghost use Rattle.stage_nodes.specs.Turns.{BelongTo, MergerAt, MergerOwes, joined_row, places};

use crate::from_branches::FromBranches;
use crate::giving::Giving;
use merge_ops::{Arrival, Merged, merge};
use packet_messages::{Inlet, Message, Outlet, boxed};
use packet_version::{Apart, Base};
use std::alloc::Global;
use std::mem;
use std::sync::Wait;

/// A merger. `count` packets are still to come, of each the base from the dealer and the results of the branches: the
/// first is packet `first` of the burst, counted from 0, and each other is `step` places later. The node merges each
/// packet, and gives the result to the dealer of the next stage. Its row has room for the results of a packet, and is
/// empty between packets. It is short once a result was.
#[derive(Drop)]
pub struct Merger {
    pub base: Inlet<Base>,
    pub inlets: FromBranches,
    pub to: Giving<Outlet<Apart>>,
    pub row: Vec<Arrival>,
    pub first: u32,
    pub step: u32,
    pub count: u32,
}

/// Runs a merger until all its packets went on. From the first packet on for which memory ran out, it reports this for
/// all: whatever allocation fails, it gives one message for each that it owes.
pub fn run_merger<R: Wait>(rt: &R, alloc: Global, merger: &mut Merger)
    requires due { MergerOwes merger.old }
    ensures ample { merger.new.to.short ≡ false → merger.old.to.short ≡ false }
    ensures given { merger.new.to.ends ≡ [] }
{
    for _packet in 0..merger.count {
        merger.turn(rt, alloc);
    }
}

impl Merger {
    /// The next packet, which has the number `first` in the burst, if one is still to come.
    pub fn turn<R: Wait>(&mut self, rt: &R, alloc: Global)
        requires ready { MergerOwes self.old }
        ensures owes { MergerOwes self.new }
        ensures ample { self.new.to.short ≡ false → self.old.to.short ≡ false }
        ensures count { self.new.count ≡ self.old.count - 1 }
        ensures apart { self.new.step ≡ self.old.step }
        ensures step { 0 < self.old.count → self.new.first ≡ self.old.first + self.old.step }
        ensures packets { 0 < self.old.count → places self.old.first self.old.step self.old.count
            ≡ self.old.first ∷ places self.new.first self.new.step self.new.count }
    {
        if self.count == 0 {
            return;
        }
        let mut row = mem::replace(&mut self.row, Vec::new(alloc));
        self.merge_next(rt, alloc, &mut row, self.first);
        self.row = row;
        self.first += self.step;
        self.count -= 1;
    }

    /// The next packet, which has this number here.
    fn merge_next<R: Wait>(&mut self, rt: &R, alloc: Global, row: &mut Vec<Arrival>, packet: u32)
        requires empty { row.old.items ≡ [] }
        requires at { (n : ℕ) × MergerAt (suc n) self.old.to.short self.old.base self.old.inlets self.old.to.ends }
        ensures empty { row.new.items ≡ [] }
        ensures at { (n : ℕ) → MergerAt (suc n) self.old.to.short self.old.base self.old.inlets self.old.to.ends →
            MergerAt n self.new.to.short self.new.base self.new.inlets self.new.to.ends }
        ensures ample { self.new.to.short ≡ false → self.old.to.short ≡ false }
        ensures first { self.new.first ≡ self.old.first }
        ensures step { self.new.step ≡ self.old.step }
        ensures count { self.new.count ≡ self.old.count }
    {
        let reply = self.reply(rt, alloc, row, packet);
        self.to.give_on(rt, reply);
    }

    /// The result for the next packet, which has this number here. Once the merger is short, that is the word `Short`,
    /// and nothing is taken any more.
    fn reply<R: Wait>(
        &mut self,
        rt: &R,
        alloc: Global,
        row: &mut Vec<Arrival>,
        packet: u32,
    ) -> Message<Apart>
        requires empty { row.old.items ≡ [] }
        requires at { (n : ℕ) × MergerAt (suc n) self.old.to.short self.old.base self.old.inlets self.old.to.ends }
        ensures empty { row.new.items ≡ [] }
        ensures fits { Fits (first self.old.to.ends) (plain result) }
        ensures ample { is_short (plain result) ≡ false → self.old.to.short ≡ false }
        ensures taken { is_short (plain result) ≡ false → (self.new.base ≡ rest self.old.base) × (self.new.inlets ≡ map rest self.old.inlets) }
        ensures outlet { self.new.to.ends ≡ self.old.to.ends }
        ensures stays { self.new.to.short ≡ self.old.to.short }
        ensures first { self.new.first ≡ self.old.first }
        ensures step { self.new.step ≡ self.old.step }
        ensures count { self.new.count ≡ self.old.count }
    {
        let short = self.to.is_short();
        if short || row.reserve(self.inlets.len()).is_err() {
            return Message::Short;
        }
        self.inlets.accept_row(rt, packet, row);
        join(rt, alloc, self.base.accept(rt), row)
    }
}

/// The result for a packet, from its base and the arrivals of all branches, in branch order. The row is empty
/// afterwards.
fn join<R: Wait>(
    rt: &R,
    alloc: Global,
    base: Message<Base>,
    row: &mut Vec<Arrival>,
) -> Message<Apart>
    requires few { length row.old.items < 2 ^ 32 }
    requires belong { BelongTo (plain base) row.old.items }
    ensures joined { Fits (joined_row (plain base) row.old.items) (plain result) }
    ensures emptied { row.new.items ≡ [] }
{
    match base {
        Message::Live(base) => message_of(alloc, merge(rt, Box::into_inner(base), row)),
        Message::Nil(position) => gone(position, row),
        Message::Short => {
            row.clear();
            Message::Short
        }
    }
}

/// The result for a packet that was dropped before: the word that says where, unless a branch ran out of memory.
fn gone(position: u32, row: &mut Vec<Arrival>) -> Message<Apart>
    ensures word { plain result ≡ joined_row (Nil position) row.old.items }
    ensures emptied { row.new.items ≡ [] }
{
    let lost = some_is_lost(row.as_slice());
    row.clear();
    if lost {
        Message::Short
    } else {
        Message::Nil(position)
    }
}

/// Did a branch run out of memory?
fn some_is_lost(row: &[Arrival]) -> bool
    ensures { result ≡ list_any is_lost row.now }
{
    row.iter().any(|arrival| matches!(arrival, Arrival::Short))
}

/// The result for a packet as a message, or `Short`.
fn message_of(alloc: Global, merged: Merged) -> Message<Apart>
    ensures { Fits (of_merged merged) (plain result) }
{
    match merged {
        Merged::Whole(whole) => boxed(alloc, whole),
        Merged::Gone(position) => Message::Nil(position),
        Merged::Short => Message::Short,
    }
}
