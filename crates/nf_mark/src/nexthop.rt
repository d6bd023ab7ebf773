//! A nexthop, and the link addresses that it writes.

mod build;
mod lines;

use crate::deciding::{first_place, push_rule};
use crate::link_address::LinkAddress;
use crate::present::has_field;
use chain_walk::Verdict;
use frame_seen::{seen_address, seen_address6};
use function_lines::{FitRules, Fitting};
use packet_fields::Field;
use packet_function::DecidingLine;
use packet_version::{View, later_write_stands_over, unwritten_stays, written_is_one_value};
use policy_text::{Match, Seen, TagSeen};
use std::alloc::AllocError;

/// A rule: the link addresses of a packet whose destination lies in a prefix.
#[derive(Debug, Drop)]
pub struct NexthopRule {
    /// One clause: the prefix of the destination, of either version of IP.
    pub fit: Match,
    /// The interface to which the frame goes.
    pub link_dst: LinkAddress,
    /// The interface from which the frame comes.
    pub link_src: LinkAddress,
}

impl Fitting for NexthopRule {
    ghost fit = { λ rule. rule.fit };

    fn fit(&self) -> &Match {
        &self.fit
    }
}

/// Rules, of which the first whose prefix holds a packet's destination decides over which link it goes.
#[derive(Debug, Drop)]
pub struct Nexthop {
    pub rules: FitRules<NexthopRule>,
}

impl Nexthop {
    ghost use Rattle.std.specs.Prelude.{◌≡◌, ◌++◌, Ok, true, is_ok, IsSome, IfOk, OnOk, OnErr};
    ghost use Rattle.std.specs.Option.{option_copied};
    ghost use Rattle.action_profile.specs.Profiles.{profile_of};
    ghost use Rattle.action_profile.specs.declared.kind.Kind.{Kind};
    ghost use Rattle.packet_version.specs.Views.{seen_values, viewed, wrote_all};
    ghost use Rattle.packet_function.specs.Deciding.{decided};
    ghost use Rattle.nf_mark.specs.Seeing.{shown_in};
    ghost use Rattle.nf_mark.specs.NexthopViews.{HasLinks};
    ghost use Rattle.nf_mark.specs.Nexthops.{nexthop_behaviour, nexthop_decides, deciding_place, rule_for};

    /// Sends one packet on over a link, through a view of a nexthop's profile: if the packet has both link addresses
    /// and a rule's prefix holds its destination, it gets those of the first such rule. It allocates nothing.
    pub fn step(&mut self, view: &mut View) -> Result<Verdict, AllocError>
        requires profile { view.old.profile ≡ nexthop_behaviour.profile self.old }
        ensures after { self.new ≡ (viewed nexthop_behaviour self.old view.old).after }
        ensures verdict { result ≡ Ok (viewed nexthop_behaviour self.old view.old).verdict }
        ensures view { view.new ≡ wrote_all (viewed nexthop_behaviour self.old view.old).written view.old }
    {
        let Some(rule) = self.rule_for(view) else {
            unwritten_stays(view);
            return Ok(Verdict::Pass);
        };
        write_links(view, rule.link_dst, rule.link_src);
        Ok(Verdict::Pass)
    }

    // The rule that applies to a packet.
    fn rule_for(&self, view: &View) -> Option<&NexthopRule>
        requires profile { view.now.profile ≡ profile_of Kind.Nexthop }
        ensures rule { option_copied result ≡ rule_for self.now (shown_in view.now) }
        ensures there { IsSome result → HasLinks view.now }
    {
        if !has_field(view, Field::LinkDst) {
            return None;
        }
        if !has_field(view, Field::LinkSrc) {
            return None;
        }
        self.rules.first_met(&seen_in(view))
    }

    /// Appends the rule that decides what it does to one packet, which it sees through a view of a nexthop's profile: the
    /// first whose prefix holds the destination, if the packet has both link addresses. If memory runs out, it appends
    /// nothing.
    pub fn decide(&self, view: &View, deciding: &mut Vec<DecidingLine>) -> Result<(), AllocError>
        requires profile { view.now.profile ≡ nexthop_behaviour.profile self.now }
        ensures decided { OnOk result (deciding.new.items ≡
            deciding.old.items ++ decided nexthop_behaviour nexthop_decides view.now.version.fixed self.now (seen_values view.now)) }
        ensures stays { OnErr result (deciding.new.items ≡ deciding.old.items) }
    {
        push_rule(self.deciding_place(view), deciding)
    }

    // The place of the rule that decides on a packet.
    fn deciding_place(&self, view: &View) -> Option<usize>
        requires profile { view.now.profile ≡ profile_of Kind.Nexthop }
        ensures { result ≡ deciding_place self.now (shown_in view.now) }
    {
        if !has_field(view, Field::LinkDst) {
            return None;
        }
        if !has_field(view, Field::LinkSrc) {
            return None;
        }
        first_place(self.rules.as_slice(), &seen_in(view))
    }

    /// The same nexthop once more, with the same rules in memory. The only error is that memory runs out.
    pub fn try_clone(&self) -> Result<Nexthop, AllocError>
        ensures { IfOk result (λ same. same ≡ self.now) }
    {
        Ok(Nexthop {
            rules: self.rules.try_clone()?,
        })
    }

    /// Appends the lines of its state, which a nexthop doesn't have.
    pub fn state_lines(&self, _out: &mut Vec<u8>) -> Result<(), AllocError>
        ensures none { _out.new ≡ _out.old }
        ensures never_fails { is_ok result ≡ true }
    {
        Ok(())
    }
}

ghost use Rattle.std.specs.Prelude.{◌≡◌};
ghost use Rattle.action_profile.specs.Profiles.{profile_of};
ghost use Rattle.action_profile.specs.declared.kind.Kind.{Kind};
ghost use Rattle.frame_seen.specs.Seeing.{seen_by};
ghost use Rattle.packet_version.specs.Views.{wrote_all};
ghost use Rattle.nf_mark.specs.Seeing.{shown_in};
ghost use Rattle.nf_mark.specs.NexthopViews.{HasLinks};
ghost use Rattle.nf_mark.specs.Nexthops.{links};

/// What a nexthop's prefixes see of the packet of a view.
fn seen_in(view: &View) -> Seen
    requires profile { view.now.profile ≡ profile_of Kind.Nexthop }
    ensures { result ≡ seen_by (shown_in view.now).values view.now.version.fixed.proto }
{
    let destination = view.get(Field::DstIp);
    Seen {
        tag: TagSeen::Absent,
        src: None,
        dst: seen_address(destination),
        src6: None,
        dst6: seen_address6(destination),
        sport: None,
        dport: None,
        proto: view.proto(),
        ether_type: None,
        tcp_flags: None,
    }
}

/// Writes the link addresses of a frame: its destination and its source.
fn write_links(view: &mut View, to: LinkAddress, from: LinkAddress)
    requires profile { view.old.profile ≡ profile_of Kind.Nexthop }
    requires there { HasLinks view.old }
    ensures { view.new ≡ wrote_all (links to from) view.old }
{
    view.set(Field::LinkDst, &to.bytes());
    view.set(Field::LinkSrc, &from.bytes());
    written_is_one_value();
    later_write_stands_over();
}
