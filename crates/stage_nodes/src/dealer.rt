//! The node of a dealer.
ghost use Rattle.std.specs.Prelude.{◌≡◌, ◌≤◌, ◌-◌, ℕ, suc, false, List, length, All};
ghost use Rattle.packet_fields.specs.declared.field.Field.{Field};
ghost use Rattle.action_profile.specs.Modes.{modes_of};
ghost use Rattle.packet_version.specs.Splitting.{PlainApart};
ghost use Rattle.packet_version.specs.Tallies.{count_of, raised};
ghost use Rattle.packet_messages.specs.Messages.{PlainMessage};
ghost use Rattle.stage_nodes.specs.Streams.{dealer_copies, of_merged};
ghost use Rattle.stage_nodes.specs.Dues.{DealerDue, NothingOwed};
ghost use Rattle.stage_nodes.specs.Turns.{DealerAt, DealerOwes, DealerReady, Deals, IsBoxed};

use crate::given::Given;
use crate::giving::{Giving, ToStage};
use crate::supply::Supply;
use action_profile::StageParts;
use merge_ops::Merged;
use packet_messages::all_boxed;
use packet_version::{Base, Tally, Version, deal};
use std::alloc::Global;
use std::mem;
use std::sync::Wait;

/// A dealer. `count` packets are still to come from its supply. It deals each to the branches of its stage, and gives
/// its base to the mergers. It counts the copies that it made so far, and is short once something that it gave was.
#[derive(Drop)]
pub struct Dealer<S> {
    pub parts: StageParts,
    pub source: S,
    pub to: Giving<ToStage>,
    pub tally: Tally,
    pub count: u32,
}

/// Runs a dealer until all its packets came. Returns the copies that it made, and whether memory ran out. From the
/// first packet on for which it did, it reports this for all: whatever allocation fails, it gives one message for each
/// that it owes.
pub fn run_dealer<S: Supply, R: Wait>(
    rt: &R,
    alloc: Global,
    dealer: &mut Dealer<S>,
) -> (Tally, bool)
    requires due { (xs : List (PlainMessage PlainApart)) × DealerDue S.comes dealer.old.parts dealer.old.count xs dealer.old.source dealer.old.to.ends.versions dealer.old.to.ends.bases }
    ensures ample { result.1 ≡ false → dealer.old.to.short ≡ false }
    ensures counted { (xs : List (PlainMessage PlainApart)) →
        DealerDue S.comes dealer.old.parts dealer.old.count xs dealer.old.source dealer.old.to.ends.versions dealer.old.to.ends.bases → result.1 ≡ false →
        (f : Field) → count_of result.0 f ≡ raised (count_of dealer.old.tally f) (dealer_copies dealer.old.parts.touches xs f) }
    ensures versions_given { All NothingOwed dealer.new.to.ends.versions }
    ensures bases_given { NothingOwed dealer.new.to.ends.bases }
{
    for _packet in 0..dealer.count {
        dealer.turn(rt, alloc);
    }
    let tally = mem::replace(&mut dealer.tally, Tally::new());
    (tally, dealer.to.is_short())
}

impl<S: Supply> Dealer<S> {
    /// The next packet, if one is still to come. The copies that the dealer will have made in the end, unless it is
    /// short then, stay the same.
    pub fn turn<R: Wait>(&mut self, rt: &R, alloc: Global)
        requires ready { (xs : List (PlainMessage PlainApart)) × DealerDue S.comes self.old.parts self.old.count xs self.old.source self.old.to.ends.versions self.old.to.ends.bases }
        ensures owes { (total : Field → ℕ) → DealerOwes S.comes total self.old → DealerOwes S.comes total self.new }
        ensures ample { self.new.to.short ≡ false → self.old.to.short ≡ false }
        ensures count { self.new.count ≡ self.old.count - 1 }
    {
        if self.count == 0 {
            return;
        }
        let mut tally = mem::replace(&mut self.tally, Tally::new());
        self.deal_next(rt, alloc, &mut tally);
        self.tally = tally;
        self.count -= 1;
    }

    /// The next packet.
    fn deal_next<R: Wait>(&mut self, rt: &R, alloc: Global, tally: &mut Tally)
        requires ready { DealerReady S.comes self.old.parts self.old.source self.old.to.ends.versions self.old.to.ends.bases }
        ensures at { (n : ℕ) (total : Field → ℕ) →
            DealerAt S.comes self.old.parts (suc n) total self.old.to.short tally.old self.old.source self.old.to.ends.versions self.old.to.ends.bases →
            DealerAt S.comes self.old.parts n total self.new.to.short tally.new self.new.source self.new.to.ends.versions self.new.to.ends.bases }
        ensures ample { self.new.to.short ≡ false → self.old.to.short ≡ false }
        ensures parts { self.new.parts ≡ self.old.parts }
        ensures count { self.new.count ≡ self.old.count }
    {
        let packet = self.source.next(rt, alloc);
        let given = dealing(alloc, &self.parts, packet, self.to.is_short(), tally);
        self.to.give_parts(rt, given);
    }
}

/// What a dealer gives for a packet. Once it is short, that is the word `Short`.
fn dealing(
    alloc: Global,
    parts: &StageParts,
    packet: Merged,
    short: bool,
    tally: &mut Tally,
) -> Given
    requires some { 1 ≤ length parts.now.touches }
    requires few { length parts.now.touches ≤ 64 }
    requires modes { parts.now.modes ≡ modes_of parts.now.touches }
    ensures { Deals parts.now.touches (of_merged packet) short tally.old tally.new result }
{
    if short {
        return Given::Word(None);
    }
    match packet {
        Merged::Whole(whole) => match deal(alloc, whole, parts, tally) {
            Ok((base, versions)) => in_boxes(alloc, base, versions),
            Err(_) => Given::Word(None),
        },
        Merged::Gone(position) => Given::Word(Some(position)),
        Merged::Short => Given::Word(None),
    }
}

/// The base and the versions of a packet in boxes, or the word that memory ran out.
fn in_boxes(alloc: Global, base: Base, versions: Vec<Version>) -> Given
    ensures { IsBoxed base versions.items result }
{
    let Ok(row) = all_boxed(alloc, versions) else {
        return Given::Word(None);
    };
    match Box::new(alloc, base) {
        Ok(base) => Given::Row(base, row),
        Err(_) => Given::Word(None),
    }
}
