//! The ends into which a node gives. Once it gave the word that memory ran out, it gives nothing else.
ghost use Rattle.std.specs.Prelude.{◌≡◌, ◌<◌, false, length, map, All};
ghost use Rattle.packet_messages.specs.Messages.{Fits, Owing, first, front, is_short, plain, rest, turned};
ghost use Rattle.stage_nodes.specs.Turns.{GivenFits, is_lost};

use crate::given::Given;
use crate::to_mergers::ToMergers;
use packet_messages::{Fans, Message, Outlet, Outlets, message_without};
use packet_version::{Apart, Base, Version};
use std::marker::Model;
use std::sync::Wait;

/// The ends into which a node gives an item for each of its packets, and whether the last item was short. An item that
/// isn't short goes in only if none before was short: so after a short item a node gives only short ones.
#[derive(Drop)]
pub struct Giving<E> {
    ends: E,
    short: bool,
}

/// Where a dealer gives a packet: a version to each branch, whose nodes take turns if it has several, and the base of
/// the packet to the mergers in turn.
#[derive(Drop)]
pub struct ToStage {
    pub versions: Fans<Version>,
    pub bases: Outlets<Base>,
}

impl<E> Model for Giving<E> {
    ghost use Rattle.stage_nodes.specs.Giving.{PlainGiving};

    ghost Value = { PlainGiving E };

    ghost view = { λ g. record { ends = g.ends; short = g.short } };
}

impl<E> Giving<E> {
    /// These ends, into which nothing went yet.
    pub fn new(ends: E) -> Giving<E>
        ensures ends { result.ends ≡ ends }
        ensures ample { result.short ≡ false }
    {
        Giving { ends, short: false }
    }

    /// Was an item short?
    pub fn is_short(&self) -> bool
        ensures { result ≡ self.now.short }
    {
        self.short
    }
}

impl Giving<ToStage> {
    /// Gives what a dealer gives for a packet.
    pub(crate) fn give_parts<R: Wait>(&mut self, rt: &R, given: Given)
        requires versions_due { All (λ fan. Owing (front fan)) self.old.ends.versions }
        requires some { 0 < length self.old.ends.bases }
        requires base_due { Owing (front self.old.ends.bases) }
        requires fits { GivenFits self.old.ends.versions self.old.ends.bases given }
        requires stays { is_lost given ≡ false → self.old.short ≡ false }
        ensures versions { self.new.ends.versions ≡ map turned self.old.ends.versions }
        ensures bases { self.new.ends.bases ≡ turned self.old.ends.bases }
        ensures short { self.new.short ≡ is_lost given }
    {
        match given {
            Given::Row(base, row) => {
                self.ends.versions.give_each(rt, row);
                self.ends.bases.give_next(rt, Message::Live(base));
                self.short = false;
            }
            Given::Word(position) => {
                self.ends.versions.give_word(rt, position);
                self.ends.bases.give_next(rt, message_without(position));
                self.short = position.is_none();
            }
        }
    }
}

impl Giving<ToMergers> {
    /// Gives the result of a version to the merger whose turn it is, which then is the last.
    pub(crate) fn give_turn<R: Wait>(&mut self, rt: &R, reply: Message<Version>)
        requires some { 0 < length self.old.ends }
        requires due { Owing (front self.old.ends) }
        requires fits { Fits (first (front self.old.ends)) (plain reply) }
        requires stays { is_short (plain reply) ≡ false → self.old.short ≡ false }
        ensures given { self.new.ends ≡ turned self.old.ends }
        ensures short { self.new.short ≡ is_short (plain reply) }
    {
        self.short = reply.is_short();
        self.ends.give_next(rt, reply);
    }
}

impl Giving<Outlet<Apart>> {
    /// Gives the result for a packet to the dealer of the next stage.
    pub(crate) fn give_on<R: Wait>(&mut self, rt: &R, reply: Message<Apart>)
        requires due { Owing self.old.ends }
        requires fits { Fits (first self.old.ends) (plain reply) }
        requires stays { is_short (plain reply) ≡ false → self.old.short ≡ false }
        ensures given { self.new.ends ≡ rest self.old.ends }
        ensures short { self.new.short ≡ is_short (plain reply) }
    {
        self.short = reply.is_short();
        self.ends.give(rt, reply);
    }
}
