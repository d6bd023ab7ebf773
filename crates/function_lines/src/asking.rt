//! Rules, and the values of a packet that they need.
ghost use Rattle.std.specs.Prelude.{◌≡◌};
ghost use Rattle.function_lines.specs.Asking.{looks_at, fit_asks, rules_ask, asked_of};

use crate::rule::{Fitting, first_met};
use crate::shared::SharedItems;
use item_list::Items;
use policy_text::{Clause, Match, Seen};
use std::alloc::{AllocError, Global};
use std::marker::Model;

/// A value of a packet at which clauses look, besides those that no function writes.
#[derive(Clone, Copy)]
enum Value {
    Tag,
    Source,
    Destination,
    SourcePort,
    DestinationPort,
}

/// The values of a packet at which some clause of some rule looks, besides those that no function writes: the EtherType,
/// the protocol and TCP's control bits. An address may be of either version of IP.
#[derive(Clone, Copy, Debug)]
pub struct Asked {
    pub tag: bool,
    pub source: bool,
    pub destination: bool,
    pub source_port: bool,
    pub destination_port: bool,
}

/// Rules that hold clauses, shared by several owners and changed by none. A contract sees them as a list. The values
/// that they need are determined once, so that nothing else of a packet has to be read.
#[derive(Debug, Drop)]
pub struct FitRules<R: Fitting> {
    rules: SharedItems<R>,
    asked: Asked,
}

impl<R: Fitting> Model for FitRules<R> {
    ghost use Rattle.std.specs.Prelude.{◌≡◌, List};
    ghost use Rattle.function_lines.specs.Asking.{asked_of};

    ghost Value = { List R };

    ghost view = { λ s. s.rules };

    ghost invariant = { λ s. s.asked ≡ asked_of R.fit s.rules };
}

impl<R: Fitting + Drop> FitRules<R> {
    ghost use Rattle.std.specs.Prelude.{◌≡◌, IfOk};
    ghost use Rattle.std.specs.Option.{option_copied};
    ghost use Rattle.policy_text.specs.declared.seen.Seen.{Seen};
    ghost use Rattle.function_lines.specs.Asking.{Shows};
    ghost use Rattle.function_lines.specs.Rules.{first_met as first_met_of};

    /// Makes rules ready to be shared, with one owner so far. The only error is that memory runs out.
    pub fn new(alloc: Global, rules: Items<R>) -> Result<FitRules<R>, AllocError>
        ensures { IfOk result (λ s. s ≡ rules) }
    {
        let asked = asked_of(rules.as_slice());
        let rules = SharedItems::new(alloc, rules)?;
        Ok(FitRules { rules, asked })
    }

    /// The same rules once more, for one more owner. It copies no rule and allocates nothing. The only error is that no
    /// more owners can be counted.
    pub fn try_clone(&self) -> Result<FitRules<R>, AllocError>
        ensures { IfOk result (λ s. s ≡ self.now) }
    {
        let asked = self.asked;
        let rules = self.rules.try_clone()?;
        Ok(FitRules { rules, asked })
    }

    /// The rules, in their order.
    pub fn as_slice(&self) -> &[R]
        ensures { result.now ≡ self.now }
    {
        self.rules.as_slice()
    }

    /// The values that some rule needs. If only these of a packet are known, the same rule is met.
    #[tactic(auto, using(crate::proofs::EnoughSeen::same_first_met))]
    pub fn asked(&self) -> Asked
        ensures { (full seen : Seen) → Shows result full seen → first_met_of R.fit seen self.now ≡ first_met_of R.fit full self.now }
    {
        self.asked
    }

    /// The first rule of which a packet meets all clauses.
    pub fn first_met(&self, seen: &Seen) -> Option<&R>
        ensures { option_copied result ≡ first_met_of R.fit seen.now self.now }
    {
        first_met(self.rules.as_slice(), seen)
    }
}

// The values that some rule needs.
fn asked_of<R: Fitting>(rules: &[R]) -> Asked
    ensures { result ≡ asked_of R.fit rules.now }
{
    Asked {
        tag: rules_ask(Value::Tag, rules),
        source: rules_ask(Value::Source, rules),
        destination: rules_ask(Value::Destination, rules),
        source_port: rules_ask(Value::SourcePort, rules),
        destination_port: rules_ask(Value::DestinationPort, rules),
    }
}

fn rules_ask<R: Fitting>(value: Value, rules: &[R]) -> bool
    ensures { result ≡ rules_ask R.fit value rules.now }
{
    rules.iter().any(|rule| fit_asks(value, rule.fit()))
}

fn fit_asks(value: Value, fit: &Match) -> bool
    ensures { result ≡ fit_asks value fit.now }
{
    fit.clauses
        .as_slice()
        .iter()
        .any(|clause| looks_at(value, *clause))
}

fn looks_at(value: Value, clause: Clause) -> bool
    ensures { result ≡ looks_at value clause }
{
    match clause {
        Clause::TagId(_) | Clause::NoTag => matches!(value, Value::Tag),
        Clause::Src(..) | Clause::Src6(..) | Clause::Version4 | Clause::Version6 => {
            matches!(value, Value::Source)
        }
        Clause::Dst(..) | Clause::Dst6(..) => matches!(value, Value::Destination),
        Clause::Sport(..) => matches!(value, Value::SourcePort),
        Clause::Dport(..) => matches!(value, Value::DestinationPort),
        Clause::Proto(_) | Clause::Flags(..) => false,
    }
}
