//! A marker, and the type of service that it writes.

mod build;
mod lines;

use crate::deciding::{first_place, push_rule};
use crate::present::has_field;
use chain_walk::Verdict;
use frame_seen::{seen_address, seen_address6, seen_port};
use function_lines::{FitRules, Fitting};
use packet_fields::Field;
use packet_function::DecidingLine;
use packet_version::{View, unwritten_stays, written_is_one_value};
use policy_text::{Match, Seen, TagSeen};
use std::alloc::AllocError;

/// A rule: a packet that meets all its clauses gets this type of service.
#[derive(Debug, Drop)]
pub struct MarkRule {
    /// The second byte of the IPv4 header (RFC 791, 3.1).
    pub tos: u8,
    pub fit: Match,
}

impl Fitting for MarkRule {
    ghost fit = { λ rule. rule.fit };

    fn fit(&self) -> &Match {
        &self.fit
    }
}

/// Rules, of which the first that a packet meets sets its type of service.
#[derive(Debug, Drop)]
pub struct Marker {
    pub rules: FitRules<MarkRule>,
}

impl Marker {
    ghost use Rattle.std.specs.Prelude.{◌≡◌, ◌++◌, Ok, length, true, is_ok, IsSome, IfOk, OnOk, OnErr};
    ghost use Rattle.action_profile.specs.Profiles.{profile_of};
    ghost use Rattle.action_profile.specs.declared.kind.Kind.{Kind};
    ghost use Rattle.packet_fields.specs.declared.field.Field.{Field};
    ghost use Rattle.packet_version.specs.Views.{seen_values, viewed, wrote_all, HasBytes};
    ghost use Rattle.packet_function.specs.Deciding.{decided};
    ghost use Rattle.nf_mark.specs.Seeing.{shown_in};
    ghost use Rattle.nf_mark.specs.Markers.{marker_behaviour, marker_decides, deciding_place, tos_for, new_tos};

    /// Marks one packet through a view of a marker's profile: if the packet has a type of service and meets a rule, it
    /// gets that of the first such rule. It allocates nothing.
    pub fn step(&mut self, view: &mut View) -> Result<Verdict, AllocError>
        requires profile { view.old.profile ≡ marker_behaviour.profile self.old }
        ensures after { self.new ≡ (viewed marker_behaviour self.old view.old).after }
        ensures verdict { result ≡ Ok (viewed marker_behaviour self.old view.old).verdict }
        ensures view { view.new ≡ wrote_all (viewed marker_behaviour self.old view.old).written view.old }
    {
        let Some(tos) = self.new_tos(view) else {
            unwritten_stays(view);
            return Ok(Verdict::Pass);
        };
        view.set(Field::Tos, &[tos]);
        written_is_one_value();
        Ok(Verdict::Pass)
    }

    // The type of service to write, if any.
    fn new_tos(&self, view: &View) -> Option<u8>
        requires profile { view.now.profile ≡ profile_of Kind.Marker }
        ensures tos { result ≡ new_tos self.now (shown_in view.now) }
        ensures there { IsSome result → HasBytes view.now Field.Tos (λ old. length old ≡ 1) }
    {
        if !has_field(view, Field::Tos) {
            return None;
        }
        self.tos_for(&seen_in(view))
    }

    // The type of service for a packet with these values.
    #[tactic(auto, unfolding(crate::specs::Markers::tos_for))]
    fn tos_for(&self, seen: &Seen) -> Option<u8>
        ensures { result ≡ tos_for self.now seen.now }
    {
        match self.rules.first_met(seen) {
            Some(rule) => Some(rule.tos),
            None => None,
        }
    }

    /// Appends the rule that decides what it does to one packet, which it sees through a view of a marker's profile: the
    /// first that the packet meets, if it has a type of service. If memory runs out, it appends nothing.
    pub fn decide(&self, view: &View, deciding: &mut Vec<DecidingLine>) -> Result<(), AllocError>
        requires profile { view.now.profile ≡ marker_behaviour.profile self.now }
        ensures decided { OnOk result (deciding.new.items ≡
            deciding.old.items ++ decided marker_behaviour marker_decides view.now.version.fixed self.now (seen_values view.now)) }
        ensures stays { OnErr result (deciding.new.items ≡ deciding.old.items) }
    {
        push_rule(self.deciding_place(view), deciding)
    }

    // The place of the rule that decides on a packet.
    fn deciding_place(&self, view: &View) -> Option<usize>
        requires profile { view.now.profile ≡ profile_of Kind.Marker }
        ensures { result ≡ deciding_place self.now (shown_in view.now) }
    {
        if !has_field(view, Field::Tos) {
            return None;
        }
        first_place(self.rules.as_slice(), &seen_in(view))
    }

    /// The same marker once more, with the same rules in memory. The only error is that memory runs out.
    pub fn try_clone(&self) -> Result<Marker, AllocError>
        ensures { IfOk result (λ same. same ≡ self.now) }
    {
        Ok(Marker {
            rules: self.rules.try_clone()?,
        })
    }

    /// Appends the lines of its state, which a marker doesn't have.
    pub fn state_lines(&self, _out: &mut Vec<u8>) -> Result<(), AllocError>
        ensures none { _out.new ≡ _out.old }
        ensures never_fails { is_ok result ≡ true }
    {
        Ok(())
    }
}

ghost use Rattle.std.specs.Prelude.{◌≡◌};
ghost use Rattle.action_profile.specs.Profiles.{profile_of};
ghost use Rattle.action_profile.specs.declared.kind.Kind.{Kind};
ghost use Rattle.nf_mark.specs.Markers.{all_seen};
ghost use Rattle.nf_mark.specs.Seeing.{shown_in};

/// What a marker's clauses see of the packet of a view.
fn seen_in(view: &View) -> Seen
    requires profile { view.now.profile ≡ profile_of Kind.Marker }
    ensures { result ≡ all_seen (shown_in view.now) }
{
    let source = view.get(Field::SrcIp);
    let destination = view.get(Field::DstIp);
    Seen {
        tag: TagSeen::Absent,
        src: seen_address(source),
        dst: seen_address(destination),
        src6: seen_address6(source),
        dst6: seen_address6(destination),
        sport: seen_port(view.get(Field::SrcPort)),
        dport: seen_port(view.get(Field::DstPort)),
        proto: view.proto(),
        ether_type: view.ether_type(),
        tcp_flags: view.tcp_flags(),
    }
}
