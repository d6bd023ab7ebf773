//! A firewall and its decisions.
use crate::guard::Guard;
use crate::verdict::verdict;
use chain_walk::Verdict;
use frame_seen::{seen_address, seen_address6, seen_port, seen_tags};
use function_lines::{Asked, FitRules, Fitting};
use packet_fields::Field;
use packet_function::{DecidingLine, SettingKey};
use packet_version::{View, unwritten_stays};
use policy_text::{Match, Seen, fits};
use std::alloc::AllocError;
use std::marker::Model;

/// A rule: whether a packet that meets all its clauses passes.
#[derive(Debug, Drop)]
pub struct Rule {
    pub allow: bool,
    pub fit: Match,
}

/// A rule, with a guard made from its clauses on addresses. A contract sees it as the rule.
#[derive(Debug, Drop)]
pub struct GuardedRule {
    pub rule: Rule,
    guard: Guard,
}

impl Model for GuardedRule {
    ghost use Rattle.std.specs.Prelude.{◌≡◌};
    ghost use Rattle.nf_filter.specs.declared.firewall.Rule.{Rule};
    ghost use Rattle.nf_filter.specs.Guards.{guard_of};

    ghost Value = { Rule };

    ghost view = { λ g. g.rule };

    ghost invariant = { λ g. g.guard ≡ guard_of g.rule.fit };
}

impl Fitting for GuardedRule {
    ghost fit = { λ rule. rule.fit };

    fn fit(&self) -> &Match {
        &self.rule.fit
    }
}

impl GuardedRule {
    ghost use Rattle.std.specs.Prelude.{◌≡◌};
    ghost use Rattle.policy_text.specs.Meeting.{is_fitting};

    pub(crate) fn new(rule: Rule) -> GuardedRule
        ensures { result ≡ rule }
    {
        let guard = Guard::of(&rule.fit);
        GuardedRule { rule, guard }
    }

    /// Does a packet with these values meet all clauses?
    #[tactic(auto, using(crate::proofs::Guards::not_let))]
    fn is_met_by(&self, seen: &Seen) -> bool
        ensures { result ≡ is_fitting self.now.fit seen.now }
    {
        if !self.guard.lets(seen) {
            return false;
        }
        fits(&self.rule.fit, seen)
    }
}

/// Rules, of which the first that a packet meets decides.
#[derive(Debug, Drop)]
pub struct Firewall {
    /// Does a packet pass that meets no rule?
    pub default: bool,
    pub rules: FitRules<GuardedRule>,
}

impl Firewall {
    ghost use Rattle.std.specs.Prelude.{◌≡◌, IfOk};
    ghost use Rattle.nf_filter.specs.Firewalls.{passes};

    /// The same firewall once more, with the same rules in memory. The only error is that memory runs out.
    pub fn try_clone(&self) -> Result<Firewall, AllocError>
        ensures { IfOk result (λ same. same ≡ self.now) }
    {
        Ok(Firewall {
            default: self.default,
            rules: self.rules.try_clone()?,
        })
    }

    /// Does a packet with these values pass?
    #[tactic(auto, unfolding(crate::specs::Firewalls::passes))]
    pub(crate) fn judge(&self, seen: &Seen) -> bool
        ensures { result ≡ passes self.now seen.now }
    {
        match first_met(self.rules.as_slice(), seen) {
            Some(met) => met.rule.allow,
            None => self.default,
        }
    }
}

impl Firewall {
    ghost use Rattle.std.specs.Prelude.{◌≡◌, ◌++◌, Ok, true, is_ok, position, OnOk, OnErr};
    ghost use Rattle.policy_text.specs.Meeting.{is_fitting};
    ghost use Rattle.packet_function.specs.Deciding.{decided};
    ghost use Rattle.action_profile.specs.Profiles.{profile_of};
    ghost use Rattle.action_profile.specs.declared.kind.Kind.{Kind};
    ghost use Rattle.nf_filter.specs.Firewalls.{all_seen};
    ghost use Rattle.packet_version.specs.Views.{seen_values, viewed, wrote_all};
    ghost use Rattle.nf_filter.specs.Firewalls.{firewall_behaviour, firewall_decides, line_at, passes};

    /// Judges one packet through a view of a firewall's profile. It writes nothing and allocates nothing.
    pub fn step(&mut self, view: &mut View) -> Result<Verdict, AllocError>
        requires profile { view.old.profile ≡ firewall_behaviour.profile self.old }
        ensures after { self.new ≡ (viewed firewall_behaviour self.old view.old).after }
        ensures verdict { result ≡ Ok (viewed firewall_behaviour self.old view.old).verdict }
        ensures view { view.new ≡ wrote_all (viewed firewall_behaviour self.old view.old).written view.old }
    {
        // Nothing is written, so the view is as it was.
        unwritten_stays(view);
        Ok(verdict(self.passes(view)))
    }

    // Does the packet of a view pass? Only the values that the rules need are read.
    #[tactic(auto, unfolding(crate::specs::Firewalls::passes))]
    fn passes(&self, view: &View) -> bool
        requires profile { view.now.profile ≡ profile_of Kind.Firewall }
        ensures { result ≡ passes self.now (all_seen (seen_values view.now) view.now.version.fixed) }
    {
        let asked = self.rules.asked();
        self.judge(&seen_in(view, asked))
    }

    /// Appends the line that decides on one packet, which it sees through a view of a firewall's profile: that of the
    /// first rule of which the packet meets all clauses, or `set default` if it meets no rule. If memory runs out, it
    /// appends nothing.
    pub fn decide(&self, view: &View, deciding: &mut Vec<DecidingLine>) -> Result<(), AllocError>
        requires profile { view.now.profile ≡ firewall_behaviour.profile self.now }
        ensures decided { OnOk result (deciding.new.items ≡
            deciding.old.items ++ decided firewall_behaviour firewall_decides view.now.version.fixed self.now (seen_values view.now)) }
        ensures stays { OnErr result (deciding.new.items ≡ deciding.old.items) }
    {
        deciding.push(self.deciding_line(&all_in(view)))?;
        Ok(())
    }

    // The line that decides on a packet with these values.
    fn deciding_line(&self, seen: &Seen) -> DecidingLine
        ensures { result ≡ line_at (position (λ rule. is_fitting rule.fit seen.now) self.now.rules) }
    {
        match first_place(self.rules.as_slice(), seen) {
            Some(place) => DecidingLine::Rule(place),
            None => DecidingLine::Set(SettingKey::Default),
        }
    }

    /// Appends the lines of its state, which a firewall doesn't have.
    pub fn state_lines(&self, _out: &mut Vec<u8>) -> Result<(), AllocError>
        ensures none { _out.new ≡ _out.old }
        ensures never_fails { is_ok result ≡ true }
    {
        Ok(())
    }
}

ghost use Rattle.std.specs.Prelude.{◌≡◌, true, length, position, IfSome};
ghost use Rattle.std.specs.Option.{option_copied};
ghost use Rattle.packet_fields.specs.Fields.{IsLengthOf};
ghost use Rattle.action_profile.specs.Profiles.{profile_of, reads_of};
ghost use Rattle.action_profile.specs.declared.kind.Kind.{Kind};
ghost use Rattle.nf_filter.specs.Firewalls.{all_seen};
ghost use Rattle.policy_text.specs.Meeting.{is_fitting};
ghost use Rattle.function_lines.specs.Asking.{Shows};
ghost use Rattle.function_lines.specs.Rules.{first_met};
ghost use Rattle.packet_version.specs.Views.{seen_values};

/// The first rule of which a packet meets all clauses.
fn first_met<'a>(rules: &'a [GuardedRule], seen: &Seen) -> Option<&'a GuardedRule>
    ensures { option_copied result ≡ first_met (λ rule. rule.fit) seen.now rules.now }
{
    rules.iter().find(|rule| rule.is_met_by(seen))
}

/// The place of that rule, counted from 0.
fn first_place(rules: &[GuardedRule], seen: &Seen) -> Option<usize>
    ensures { result ≡ position (λ rule. is_fitting rule.fit seen.now) rules.now }
{
    rules.iter().position(|rule| rule.is_met_by(seen))
}

/// All values of the packet of a view.
#[tactic(auto, using(crate::proofs::AllShown::all_shown))]
fn all_in(view: &View) -> Seen
    requires profile { view.now.profile ≡ profile_of Kind.Firewall }
    ensures { result ≡ all_seen (seen_values view.now) view.now.version.fixed }
{
    let all = Asked {
        tag: true,
        source: true,
        destination: true,
        source_port: true,
        destination_port: true,
    };
    seen_in(view, all)
}

/// The values of the packet of a view that these clauses need.
fn seen_in(view: &View, asked: Asked) -> Seen
    requires profile { view.now.profile ≡ profile_of Kind.Firewall }
    ensures { Shows asked (all_seen (seen_values view.now) view.now.version.fixed) result }
{
    let source = asked_value(view, asked.source, Field::SrcIp);
    let destination = asked_value(view, asked.destination, Field::DstIp);
    Seen {
        tag: seen_tags(asked_value(view, asked.tag, Field::Tag)),
        src: seen_address(source),
        dst: seen_address(destination),
        src6: seen_address6(source),
        dst6: seen_address6(destination),
        sport: seen_port(asked_value(view, asked.source_port, Field::SrcPort)),
        dport: seen_port(asked_value(view, asked.destination_port, Field::DstPort)),
        proto: view.proto(),
        ether_type: view.ether_type(),
        tcp_flags: view.tcp_flags(),
    }
}

/// The bytes of a field, if it is needed.
#[inline(always)]
fn asked_value(view: &View, is_asked: bool, field: Field) -> Option<&[u8]>
    requires read { reads_of view.now.profile field ≡ true }
    ensures value { is_asked ≡ true → option_copied result ≡ seen_values view.now field }
    ensures size { IfSome result (λ bytes. IsLengthOf field (length bytes.now)) }
{
    if is_asked { view.get(field) } else { None }
}
