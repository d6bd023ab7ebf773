//! The rules of a function as its lines spell them.
ghost use Rattle.std.specs.Prelude.{◌≡◌, IfOk, OnOk, ◌++◌};
ghost use Rattle.std.specs.Option.{option_to_list};
ghost use Rattle.policy_lint.specs.Rules.{word_of, firewall_fit, marker_fit, tagger_fit, nexthop_fit, fit_by, rule_fit, rule_of, rules_of};

use crate::asking::Asks;
use crate::finding::Finding;
use action_profile::Kind;
use function_lines::read_fit;
use item_list::Items;
use policy_text::{FunctionDecl, Match, Setting, Word, clause_of};
use std::alloc::{AllocError, Global};

/// A rule of a function of which the first that a packet meets decides.
#[derive(Debug, Drop)]
pub struct RuleLine {
    /// Its line, counted from 1.
    pub line: u32,
    /// The line of the `fn` that it belongs to.
    pub owner: u32,
    /// Is it a firewall's that allows?
    pub allow: bool,
    /// The clauses that a packet has to meet.
    pub fit: Match,
}

impl Asks for RuleLine {
    ghost use Rattle.policy_lint.specs.declared.finding.Finding.TheVariants.{RuleCovered};

    ghost asking = { record { line = λ r. r.line; fit = λ r. r.fit; told = λ line by. RuleCovered line by } };

    fn line(&self) -> u32 {
        self.line
    }

    fn fit(&self) -> &Match {
        &self.fit
    }

    fn told(line: u32, by: u32) -> Finding {
        Finding::RuleCovered { line, by }
    }
}

/// The rules of a function, in order.
pub fn rules_of(alloc: Global, decl: &FunctionDecl) -> Result<Items<RuleLine>, AllocError>
    ensures { IfOk result (λ rules. rules ≡ rules_of decl.now) }
{
    let mut rules = Items::new(Vec::new(alloc));
    keep_rules(alloc, &mut rules, decl)?;
    Ok(rules)
}

/// Adds the rules of a function to others.
#[tactic(auto, using(crate::proofs::Steps::keeps_none, crate::proofs::Steps::keeps_more, crate::proofs::Steps::keeps_all))]
pub fn keep_rules(
    alloc: Global,
    rules: &mut Items<RuleLine>,
    decl: &FunctionDecl,
) -> Result<(), AllocError>
    ensures { OnOk result (rules.new ≡ rules.old ++ rules_of decl.now) }
{
    let kind = decl.kind;
    let owner = decl.line;
    let settings = decl.settings.as_slice();
    'settings: for place in 0..settings.len() {
        let rule = rule_of(alloc, kind, owner, &settings[place])?;
        keep(rules, rule)?;
    }
    Ok(())
}

// Keeps the rule, where there is one.
fn keep(rules: &mut Items<RuleLine>, rule: Option<RuleLine>) -> Result<(), AllocError>
    ensures { OnOk result (rules.new ≡ rules.old ++ option_to_list rule) }
{
    if let Some(rule) = rule {
        rules.push(rule)?;
    }
    Ok(())
}

// The rule that a line is, where it is one.
fn rule_of(
    alloc: Global,
    kind: Kind,
    owner: u32,
    setting: &Setting,
) -> Result<Option<RuleLine>, AllocError>
    ensures { IfOk result (λ rule. rule ≡ rule_of kind owner setting.now) }
{
    let words = setting.words.as_slice();
    let line = setting.line;
    let allow = word_of(words, 1) == b"allow".as_slice();
    let fit = rule_fit(alloc, kind, words)?;
    Ok(fit.map(|fit| RuleLine {
        line,
        owner,
        allow,
        fit,
    }))
}

/// A word of a line, none past its end.
pub fn word_of(words: &[Word], place: usize) -> &[u8]
    ensures { result.now ≡ word_of words.now place }
{
    match words.get(place) {
        Some(word) => word.bytes(),
        None => &[],
    }
}

fn rule_fit(alloc: Global, kind: Kind, words: &[Word]) -> Result<Option<Match>, AllocError>
    ensures { IfOk result (λ fit. fit ≡ rule_fit kind words.now) }
{
    if word_of(words, 0) == b"rule".as_slice() {
        fit_by(alloc, kind, words)
    } else {
        Ok(None)
    }
}

fn fit_by(alloc: Global, kind: Kind, words: &[Word]) -> Result<Option<Match>, AllocError>
    ensures { IfOk result (λ fit. fit ≡ fit_by kind words.now) }
{
    match kind {
        Kind::Firewall => firewall_fit(alloc, words),
        Kind::Marker => marker_fit(alloc, words),
        Kind::Tagger => tagger_fit(alloc, words),
        Kind::Nexthop => nexthop_fit(alloc, words),
        _ => Ok(None),
    }
}

#[tactic(auto, unfolding(crate::specs::Rules::firewall_fit))]
fn firewall_fit(alloc: Global, words: &[Word]) -> Result<Option<Match>, AllocError>
    ensures { IfOk result (λ fit. fit ≡ firewall_fit words.now) }
{
    if words.len() < 2 {
        return Ok(None);
    }
    read_fit(alloc, &words[2..])
}

#[tactic(auto, unfolding(crate::specs::Rules::marker_fit))]
fn marker_fit(alloc: Global, words: &[Word]) -> Result<Option<Match>, AllocError>
    ensures { IfOk result (λ fit. fit ≡ marker_fit words.now) }
{
    if words.len() < 3 {
        return Ok(None);
    }
    read_fit(alloc, &words[3..])
}

#[tactic(auto, unfolding(crate::specs::Rules::tagger_fit))]
fn tagger_fit(alloc: Global, words: &[Word]) -> Result<Option<Match>, AllocError>
    ensures { IfOk result (λ fit. fit ≡ tagger_fit words.now) }
{
    if words.len() < 5 {
        return Ok(None);
    }
    read_fit(alloc, &words[5..])
}

#[tactic(auto, unfolding(crate::specs::Rules::nexthop_fit))]
fn nexthop_fit(alloc: Global, words: &[Word]) -> Result<Option<Match>, AllocError>
    ensures { IfOk result (λ fit. fit ≡ nexthop_fit words.now) }
{
    if words.len() < 2 {
        return Ok(None);
    }
    let Some(clause) = clause_of(b"dst", words[1].bytes()) else {
        return Ok(None);
    };
    let mut clauses = Vec::new(alloc);
    clauses.push(clause)?;
    Ok(Some(Match {
        clauses: Items::new(clauses),
    }))
}
