//! A network function of any kind.

use action_profile::{Kind, Profile, profile};
use nf_filter::{Firewall, Signature};
use nf_mark::{Hop, Marker, Nexthop, Redactor, Tagger, Untagger};
use nf_observe::{Limiter, Monitor, look};
use nf_translate::{Balancer, Nat};
use packet_function::{DecidingLine, FlowNote, Function};
use packet_version::{Verdict, View};
use std::alloc::{AllocError, Global};

/// A network function of any kind that is built.
#[derive(Debug, Drop)]
pub enum NetFunction {
    /// Drops packets by their addresses, ports and tag.
    Firewall(Firewall),
    /// Gives each endpoint inside a public port of its own, and translates what passes (RFC 3022).
    Nat(Nat),
    /// Sends each flow to one of several backends.
    Balancer(Balancer),
    /// Counts the packets and bytes of each flow.
    Monitor(Monitor),
    /// Drops what a source sends beyond a rate.
    Limiter(Limiter),
    /// Writes the type of service, whose high six bits are the DSCP (RFC 2474).
    Marker(Marker),
    /// Reduces the time to live by one, and drops a packet for which nothing would be left (RFC 791, RFC 8200).
    Hop(Hop),
    /// Puts a tag before the tags that are there (IEEE 802.1Q).
    Tagger(Tagger),
    /// Removes the outermost tag.
    Untagger(Untagger),
    /// Drops packets in whose data one of its patterns occurs.
    Signature(Signature),
    /// Sends packets to another link address by their destination.
    Nexthop(Nexthop),
    /// Overwrites its patterns in a packet's data.
    Redactor(Redactor),
}

impl Function for NetFunction {
    ghost use Rattle.net_functions.specs.NetFunctions.{net_behaviour, net_decides, lines_of};
    ghost use Rattle.net_functions.specs.NetDeciding.{net_decides_drops};
    ghost use Rattle.net_functions.specs.NetFunctionLaws.{net_keeps};
    ghost use Rattle.net_functions.specs.NetNotes.{net_notes, net_counts};
    ghost use Rattle.net_functions.specs.StateRows.{rows_of};

    ghost behaviour = { net_behaviour };

    ghost notes = { net_notes };

    ghost lines = { lines_of };

    ghost rows = { rows_of };

    ghost decides = { net_decides };

    #[tactic(auto, unfolding(crate::specs::NetFunctions::profile_by))]
    fn profile(&self) -> Profile {
        match self {
            NetFunction::Firewall(_) => profile(Kind::Firewall),
            NetFunction::Nat(_) => profile(Kind::Nat),
            NetFunction::Balancer(_) => profile(Kind::Balancer),
            NetFunction::Monitor(_) => profile(Kind::Monitor),
            NetFunction::Limiter(_) => profile(Kind::Limiter),
            NetFunction::Marker(_) => profile(Kind::Marker),
            NetFunction::Hop(_) => profile(Kind::Hop),
            NetFunction::Tagger(_) => profile(Kind::Tagger),
            NetFunction::Untagger(_) => profile(Kind::Untagger),
            NetFunction::Signature(_) => profile(Kind::Signature),
            NetFunction::Nexthop(_) => profile(Kind::Nexthop),
            NetFunction::Redactor(_) => profile(Kind::Redactor),
        }
    }

    #[tactic(auto, unfolding(crate::specs::NetFunctions::profile_by, crate::specs::NetFunctions::step_by, crate::specs::StateRows::rows_of))]
    fn step(&mut self, view: &mut View) -> Result<Verdict, AllocError> {
        match self {
            NetFunction::Firewall(firewall) => firewall.step(view),
            NetFunction::Nat(nat) => nat.step(view),
            NetFunction::Balancer(balancer) => balancer.step(view),
            // A monitor counts, and doesn't step.
            NetFunction::Monitor(_) => Ok(Verdict::Pass),
            NetFunction::Limiter(limiter) => limiter.step(view),
            NetFunction::Marker(marker) => marker.step(view),
            NetFunction::Hop(hop) => hop.step(view),
            NetFunction::Tagger(tagger) => tagger.step(view),
            NetFunction::Untagger(untagger) => untagger.step(view),
            NetFunction::Signature(signature) => signature.step(view),
            NetFunction::Nexthop(nexthop) => nexthop.step(view),
            NetFunction::Redactor(redactor) => redactor.step(view),
        }
    }

    #[tactic(auto, unfolding(crate::specs::NetFunctions::profile_by, crate::specs::NetFunctions::net_decides))]
    fn decide(&self, view: &View, deciding: &mut Vec<DecidingLine>) -> Result<(), AllocError> {
        match self {
            NetFunction::Firewall(firewall) => firewall.decide(view, deciding),
            NetFunction::Nat(nat) => nat.decide(view, deciding),
            NetFunction::Balancer(balancer) => balancer.decide(view, deciding),
            NetFunction::Limiter(limiter) => limiter.decide(view, deciding),
            NetFunction::Marker(marker) => marker.decide(view, deciding),
            NetFunction::Hop(hop) => hop.decide(view, deciding),
            NetFunction::Tagger(tagger) => tagger.decide(view, deciding),
            NetFunction::Signature(signature) => signature.decide(view, deciding),
            NetFunction::Nexthop(nexthop) => nexthop.decide(view, deciding),
            NetFunction::Redactor(redactor) => redactor.decide(view, deciding),
            // Neither has a line.
            NetFunction::Monitor(_) | NetFunction::Untagger(_) => Ok(()),
        }
    }

    #[tactic(auto, unfolding(crate::specs::NetFunctions::profile_by, crate::specs::NetNotes::look_by))]
    fn look(&self, view: &View) -> Option<FlowNote> {
        match self {
            NetFunction::Monitor(_) => look(view),
            // The others count nothing.
            _ => None,
        }
    }

    #[tactic(auto, unfolding(crate::specs::NetFunctions::profile_by, crate::specs::NetNotes::settle_by, crate::specs::StateRows::rows_of))]
    fn settle(&mut self, note: &FlowNote) -> Result<(), AllocError> {
        match self {
            NetFunction::Monitor(monitor) => monitor.settle(note),
            _ => Ok(()),
        }
    }

    #[tactic(auto, unfolding(crate::specs::NetFunctions::lines_of, crate::specs::NetFunctions::profile_by))]
    fn state_lines(&self, out: &mut Vec<u8>) -> Result<(), AllocError> {
        match self {
            NetFunction::Firewall(firewall) => firewall.state_lines(out),
            NetFunction::Nat(nat) => nat.state_lines(out),
            NetFunction::Balancer(balancer) => balancer.state_lines(out),
            NetFunction::Monitor(monitor) => monitor.state_lines(out),
            NetFunction::Limiter(limiter) => limiter.state_lines(out),
            NetFunction::Marker(marker) => marker.state_lines(out),
            NetFunction::Hop(hop) => hop.state_lines(out),
            NetFunction::Tagger(tagger) => tagger.state_lines(out),
            NetFunction::Untagger(untagger) => untagger.state_lines(out),
            NetFunction::Signature(signature) => signature.state_lines(out),
            NetFunction::Nexthop(nexthop) => nexthop.state_lines(out),
            NetFunction::Redactor(redactor) => redactor.state_lines(out),
        }
    }

    #[tactic(auto, unfolding(crate::specs::NetFunctions::lines_of, crate::specs::StateRows::rows_of))]
    fn state_count(&self) -> usize {
        match self {
            NetFunction::Nat(nat) => nat.state_count(),
            NetFunction::Balancer(balancer) => balancer.state_count(),
            NetFunction::Monitor(monitor) => monitor.state_count(),
            NetFunction::Limiter(limiter) => limiter.state_count(),
            // The others keep no state.
            _ => 0,
        }
    }

    #[tactic(auto, unfolding(crate::specs::StateRows::rows_of))]
    fn state_line(&self, place: usize, out: &mut Vec<u8>) -> Result<(), AllocError> {
        match self {
            NetFunction::Nat(nat) => nat.state_line(place, out),
            NetFunction::Balancer(balancer) => balancer.state_line(place, out),
            NetFunction::Monitor(monitor) => monitor.state_line(place, out),
            NetFunction::Limiter(limiter) => limiter.state_line(place, out),
            _ => unreachable!(),
        }
    }

    #[tactic(auto, unfolding(crate::specs::NetFunctions::profile_by))]
    fn try_clone(&self, _alloc: Global) -> Result<Option<NetFunction>, AllocError> {
        match self {
            NetFunction::Firewall(firewall) => Ok(Some(NetFunction::Firewall(
                firewall.try_clone()?,
            ))),
            NetFunction::Marker(marker) => Ok(Some(NetFunction::Marker(marker.try_clone()?))),
            NetFunction::Tagger(tagger) => Ok(Some(NetFunction::Tagger(tagger.try_clone()?))),
            NetFunction::Signature(signature) => Ok(Some(NetFunction::Signature(
                signature.try_clone()?,
            ))),
            NetFunction::Nexthop(nexthop) => Ok(Some(NetFunction::Nexthop(nexthop.try_clone()?))),
            NetFunction::Redactor(redactor) => Ok(Some(NetFunction::Redactor(
                redactor.try_clone()?,
            ))),
            NetFunction::Hop(hop) => Ok(Some(NetFunction::Hop(*hop))),
            NetFunction::Untagger(untagger) => Ok(Some(NetFunction::Untagger(*untagger))),
            // These keep a state, and a monitor counts.
            NetFunction::Nat(_)
            | NetFunction::Balancer(_)
            | NetFunction::Monitor(_)
            | NetFunction::Limiter(_) => Ok(None),
        }
    }

    ghost keeps = { net_keeps };

    ghost decides_drops = { net_decides_drops };

    ghost counts = { net_counts };
}
