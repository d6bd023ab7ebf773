//! The node of a branch.
ghost use Rattle.std.specs.Prelude.{◌≡◌, ◌<◌, ◌+◌, ◌-◌, ◌∷◌, ℕ, suc, false};
ghost use Rattle.packet_messages.specs.Messages.{is_short, plain};
ghost use Rattle.stage_nodes.specs.Streams.{gave, left, moved};
ghost use Rattle.stage_nodes.specs.Flows.{MayTake};
ghost use Rattle.stage_nodes.specs.Dues.{BranchDue, NothingOwed};
ghost use Rattle.stage_nodes.specs.Turns.{BranchOwes, BranchReady, places};

use crate::giving::Giving;
use crate::to_mergers::ToMergers;
use crate::work::BranchWork;
use nfp_outside::Gate;
use packet_messages::{Inlet, Message};
use packet_version::Version;
use std::alloc::Global;
use std::sync::Wait;

/// A branch, or one of its nodes if it has several. `count` versions are still to come from the dealer, in the packets'
/// order: the first is of packet `first` of the burst, counted from 0, and each other is of the packet `step` places
/// later. The node runs each through its functions, and gives the result to its mergers in turn. It is short once a
/// result was.
#[derive(Drop)]
pub struct Branch<F> {
    pub inlet: Inlet<Version>,
    pub to: Giving<ToMergers>,
    pub work: F,
    pub first: u32,
    pub step: u32,
    pub count: u32,
}

/// Runs a branch until all its versions came, and returns whether memory ran out. From the first version on for which
/// it did, it reports this for all: whatever allocation fails, it gives one message for each that it owes.
pub fn run_branch<F: BranchWork, R: Wait, G: Gate>(
    rt: &R,
    alloc: Global,
    gate: &G,
    branch: &mut Branch<F>,
) -> bool
    requires due { (end : F) × BranchOwes F.kit F.may end branch.old }
    ensures ample { result ≡ false → branch.old.to.short ≡ false }
    ensures functions { result ≡ false → branch.new.work ≡ left F.kit branch.old.work branch.old.inlet }
    ensures given { NothingOwed branch.new.to.ends }
{
    for _version in 0..branch.count {
        branch.turn(rt, alloc, gate);
    }
    branch.to.is_short()
}

impl<F: BranchWork> Branch<F> {
    /// The next version, of the packet `first`, if one is still to come. What the branch owes in the end stays the same.
    pub fn turn<R: Wait, G: Gate>(&mut self, rt: &R, alloc: Global, gate: &G)
        requires ready { (end : F) × BranchOwes F.kit F.may end self.old }
        ensures owes { (end : F) → BranchOwes F.kit F.may end self.old → BranchOwes F.kit F.may end self.new }
        ensures ample { self.new.to.short ≡ false → self.old.to.short ≡ false }
        ensures count { self.new.count ≡ self.old.count - 1 }
        ensures apart { self.new.step ≡ self.old.step }
        ensures step { 0 < self.old.count → self.new.first ≡ self.old.first + self.old.step }
        ensures packets { 0 < self.old.count → places self.old.first self.old.step self.old.count
            ≡ self.old.first ∷ places self.new.first self.new.step self.new.count }
    {
        if self.count == 0 {
            return;
        }
        self.turn_next(rt, alloc, gate, self.first);
        self.first += self.step;
        self.count -= 1;
    }

    /// The next version, of the packet with this number.
    fn turn_next<R: Wait, G: Gate>(&mut self, rt: &R, alloc: Global, gate: &G, place: u32)
        requires ready { BranchReady F.kit F.may self.old.step place self.old.to.short self.old.work self.old.inlet self.old.to.ends }
        ensures due { (n : ℕ) (end : F) →
            BranchDue F.kit F.may self.old.step place (suc n) end self.old.to.short self.old.work self.old.inlet self.old.to.ends →
            BranchDue F.kit F.may self.old.step (place + self.old.step) n end self.new.to.short self.new.work self.new.inlet self.new.to.ends }
        ensures ample { self.new.to.short ≡ false → self.old.to.short ≡ false }
        ensures first { self.new.first ≡ self.old.first }
        ensures step { self.new.step ≡ self.old.step }
        ensures count { self.new.count ≡ self.old.count }
    {
        let message = self.inlet.accept(rt);
        let short = self.to.is_short();
        let reply = answer(rt, alloc, gate, &mut self.work, place, message, short);
        self.to.give_turn(rt, reply);
    }
}

/// The result of the functions on a message of the packet with this number.
fn answer<F: BranchWork, R: Wait, G: Gate>(
    rt: &R,
    alloc: Global,
    gate: &G,
    work: &mut F,
    place: u32,
    message: Message<Version>,
    short: bool,
) -> Message<Version>
    requires may { short ≡ false → MayTake F.may work.old place (plain message) }
    ensures { is_short (plain result) ≡ false → (short ≡ false) × (is_short (plain message) ≡ false)
        × (plain result ≡ gave F.kit work.old (plain message)) × (work.new ≡ moved F.kit work.old (plain message)) }
{
    if short {
        return Message::Short;
    }
    match message {
        Message::Short => Message::Short,
        came => work.turn(rt, alloc, gate, place, came),
    }
}
