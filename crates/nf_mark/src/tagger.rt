//! A tagger, and the tag that it adds.

mod build;
mod lines;

use crate::deciding::{first_place, push_rule};
use crate::present::has_field;
use chain_walk::Verdict;
use frame_seen::{seen_address, seen_address6, seen_tags};
use function_lines::{FitRules, Fitting};
use packet_fields::Field;
use packet_function::DecidingLine;
use packet_version::{View, unwritten_stays, written_is_one_value};
use policy_text::{Match, Seen};
use std::alloc::AllocError;

/// A rule: a packet that meets all its clauses gets this tag.
#[derive(Debug, Drop)]
pub struct TagRule {
    /// The tag's control information (IEEE 802.1Q, 9.6): three bits of priority, one bit that is 0, and twelve bits of
    /// the VLAN id.
    pub control: u16,
    pub fit: Match,
}

impl Fitting for TagRule {
    ghost fit = { λ rule. rule.fit };

    fn fit(&self) -> &Match {
        &self.fit
    }
}

/// Rules, of which the first that a packet meets sets its tag.
#[derive(Debug, Drop)]
pub struct Tagger {
    pub rules: FitRules<TagRule>,
}

impl Tagger {
    ghost use Rattle.std.specs.Prelude.{◌≡◌, ◌++◌, Ok, true, is_ok, IsSome, IfOk, OnOk, OnErr};
    ghost use Rattle.action_profile.specs.Profiles.{profile_of};
    ghost use Rattle.action_profile.specs.declared.kind.Kind.{Kind};
    ghost use Rattle.packet_fields.specs.declared.field.Field.{Field};
    ghost use Rattle.packet_version.specs.Views.{viewed, wrote_all, seen_parts, seen_values, HasTagRoom};
    ghost use Rattle.packet_function.specs.Deciding.{decided};
    ghost use Rattle.nf_mark.specs.Seeing.{shown_in};
    ghost use Rattle.nf_mark.specs.Taggers.{tagger_behaviour, tagger_decides, deciding_place, control_for, new_control};

    /// Tags one packet through a view of a tagger's profile, in which there is room for one more tag: if the packet
    /// meets a rule, it gets the tag of the first such rule, before the tags that it has. It allocates nothing.
    pub fn step(&mut self, view: &mut View) -> Result<Verdict, AllocError>
        requires profile { view.old.profile ≡ tagger_behaviour.profile self.old }
        requires room { IsSome (seen_parts view.old Field.Tag) → HasTagRoom view.old }
        ensures after { self.new ≡ (viewed tagger_behaviour self.old view.old).after }
        ensures verdict { result ≡ Ok (viewed tagger_behaviour self.old view.old).verdict }
        ensures view { view.new ≡ wrote_all (viewed tagger_behaviour self.old view.old).written view.old }
    {
        let Some(control) = self.new_control(view) else {
            unwritten_stays(view);
            return Ok(Verdict::Pass);
        };
        view.push_tag(tag_of(control));
        written_is_one_value();
        Ok(Verdict::Pass)
    }

    // The control information of the tag to add, if any.
    fn new_control(&self, view: &View) -> Option<u16>
        requires profile { view.now.profile ≡ profile_of Kind.Tagger }
        ensures control { result ≡ new_control self.now (shown_in view.now) }
        ensures there { IsSome result → IsSome (seen_parts view.now Field.Tag) }
    {
        if !has_field(view, Field::Tag) {
            return None;
        }
        self.control_for(&seen_in(view))
    }

    // The control information for a packet with these values.
    #[tactic(auto, unfolding(crate::specs::Taggers::control_for))]
    fn control_for(&self, seen: &Seen) -> Option<u16>
        ensures { result ≡ control_for self.now seen.now }
    {
        match self.rules.first_met(seen) {
            Some(rule) => Some(rule.control),
            None => None,
        }
    }

    /// Appends the rule that decides what it does to one packet, which it sees through a view of a tagger's profile: the
    /// first that the packet meets, if it has a place for tags. If memory runs out, it appends nothing.
    pub fn decide(&self, view: &View, deciding: &mut Vec<DecidingLine>) -> Result<(), AllocError>
        requires profile { view.now.profile ≡ tagger_behaviour.profile self.now }
        ensures decided { OnOk result (deciding.new.items ≡
            deciding.old.items ++ decided tagger_behaviour tagger_decides view.now.version.fixed self.now (seen_values view.now)) }
        ensures stays { OnErr result (deciding.new.items ≡ deciding.old.items) }
    {
        push_rule(self.deciding_place(view), deciding)
    }

    // The place of the rule that decides on a packet.
    fn deciding_place(&self, view: &View) -> Option<usize>
        requires profile { view.now.profile ≡ profile_of Kind.Tagger }
        ensures { result ≡ deciding_place self.now (shown_in view.now) }
    {
        if !has_field(view, Field::Tag) {
            return None;
        }
        first_place(self.rules.as_slice(), &seen_in(view))
    }

    /// The same tagger once more, with the same rules in memory. The only error is that memory runs out.
    pub fn try_clone(&self) -> Result<Tagger, AllocError>
        ensures { IfOk result (λ same. same ≡ self.now) }
    {
        Ok(Tagger {
            rules: self.rules.try_clone()?,
        })
    }

    /// Appends the lines of its state, which a tagger doesn't have.
    pub fn state_lines(&self, _out: &mut Vec<u8>) -> Result<(), AllocError>
        ensures none { _out.new ≡ _out.old }
        ensures never_fails { is_ok result ≡ true }
    {
        Ok(())
    }
}

ghost use Rattle.std.specs.Prelude.{◌≡◌};
ghost use Rattle.action_profile.specs.Profiles.{profile_of};
ghost use Rattle.action_profile.specs.declared.kind.Kind.{Kind};
ghost use Rattle.frame_seen.specs.Seeing.{seen_by};
ghost use Rattle.nf_mark.specs.Seeing.{shown_in};
ghost use Rattle.nf_mark.specs.Taggers.{tag_of};

/// A customer tag (IEEE 802.1Q, 9.5) with this control information, as in a frame.
fn tag_of(control: u16) -> [u8; 4]
    ensures { result ≡ tag_of control }
{
    let bytes = control.to_be_bytes();
    [0x81, 0x00, bytes[0], bytes[1]]
}

/// What a tagger's clauses see of the packet of a view.
fn seen_in(view: &View) -> Seen
    requires profile { view.now.profile ≡ profile_of Kind.Tagger }
    ensures { result ≡ seen_by (shown_in view.now).values view.now.version.fixed.proto }
{
    let source = view.get(Field::SrcIp);
    Seen {
        tag: seen_tags(view.get(Field::Tag)),
        src: seen_address(source),
        dst: None,
        src6: seen_address6(source),
        dst6: None,
        sport: None,
        dport: None,
        proto: view.proto(),
        ether_type: None,
        tcp_flags: None,
    }
}
