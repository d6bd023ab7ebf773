//! Firewalls that deny by addresses of one version of IP alone.
ghost use Rattle.std.specs.Prelude.{◌≡◌, ◌++◌, find, OnOk, IfOk};
ghost use Rattle.std.specs.List.{list_all, list_any};
ghost use Rattle.std.specs.Option.{option_copied};
ghost use Rattle.policy_text.specs.declared.policy.ChainPolicy.{ChainPolicy};
ghost use Rattle.policy_lint.specs.Versions.{other_than, is_prefix, is_of, takes_all, asks_by, is_denied_by, denies_by, names, has_open, denies_alone, comes, is_alone, firewall_rules, all_rules, drops_rest, told_version, alone_in};
ghost use Rattle.policy_lint.specs.declared.finding.Finding.TheVariants.{DeniesIpv4Alone, DeniesIpv6Alone};
ghost use Rattle.policy_lint.specs.declared.versions.Version.TheVariants.{Ipv4, Ipv6};

use crate::asking::push_one;
use crate::finding::Finding;
use crate::firewalls::{default_of, is_empty, is_firewall};
use crate::rule_line::{RuleLine, keep_rules};
use item_list::Items;
use policy_text::{ChainPolicy, Clause, FunctionDecl, Match};
use std::alloc::{AllocError, Global};

/// A version of IP.
#[derive(Clone, Copy)]
pub enum Version {
    Ipv4,
    Ipv6,
}

/// Adds the first firewall of a chain, after these chains, that denies by addresses of one version alone, where none of its chain
/// names the other, though packets of the other come to them.
pub fn push_alone(
    alloc: Global,
    found: &mut Items<Finding>,
    before: &[ChainPolicy],
    chain: &ChainPolicy,
) -> Result<(), AllocError>
    ensures { OnOk result (found.new ≡ found.old ++ alone_in before.now chain.now) }
{
    let functions = chain.functions.as_slice();
    if has_rest(functions) {
        return Ok(());
    }
    let rules = all_rules(alloc, functions)?;
    let rules = rules.as_slice();
    push_one(found, told_alone4(before, chain, rules))?;
    push_one(found, told_alone6(before, chain, rules))
}

// Does a firewall of these drop what meets none of its rules?
fn has_rest(functions: &[FunctionDecl]) -> bool
    ensures { result ≡ list_any drops_rest functions.now }
{
    functions.iter().any(|decl| drops_rest(decl))
}

fn drops_rest(decl: &FunctionDecl) -> bool
    ensures { result ≡ drops_rest decl.now }
{
    is_firewall(decl.kind) && !default_of(decl)
}

// The rules of all firewalls.
#[tactic(auto, using(crate::proofs::Steps::rules_more))]
fn all_rules(alloc: Global, functions: &[FunctionDecl]) -> Result<Items<RuleLine>, AllocError>
    ensures { IfOk result (λ rules. rules ≡ all_rules functions.now) }
{
    let mut rules = Items::new(Vec::new(alloc));
    'functions: for place in 0..functions.len() {
        keep_firewall(alloc, &mut rules, &functions[place])?;
    }
    Ok(rules)
}

fn keep_firewall(
    alloc: Global,
    rules: &mut Items<RuleLine>,
    decl: &FunctionDecl,
) -> Result<(), AllocError>
    ensures { OnOk result (rules.new ≡ rules.old ++ firewall_rules decl.now) }
{
    if is_firewall(decl.kind) {
        keep_rules(alloc, rules, decl)
    } else {
        Ok(())
    }
}

fn told_alone4(before: &[ChainPolicy], chain: &ChainPolicy, rules: &[RuleLine]) -> Option<Finding>
    ensures { result ≡ told_version Ipv4 (λ line. DeniesIpv4Alone line) before.now chain.now rules.now }
{
    if is_alone(Version::Ipv4, before, chain, rules) {
        let rule = first_denying(Version::Ipv4, rules)?;
        Some(Finding::DeniesIpv4Alone { line: rule.owner })
    } else {
        None
    }
}

fn told_alone6(before: &[ChainPolicy], chain: &ChainPolicy, rules: &[RuleLine]) -> Option<Finding>
    ensures { result ≡ told_version Ipv6 (λ line. DeniesIpv6Alone line) before.now chain.now rules.now }
{
    if is_alone(Version::Ipv6, before, chain, rules) {
        let rule = first_denying(Version::Ipv6, rules)?;
        Some(Finding::DeniesIpv6Alone { line: rule.owner })
    } else {
        None
    }
}

// The first rule that denies by an address of the version.
fn first_denying(version: Version, rules: &[RuleLine]) -> Option<&RuleLine>
    ensures { option_copied result ≡ find (is_denied_by version) rules.now }
{
    rules.iter().find(|rule| is_denied_by(version, rule))
}

fn is_alone(
    version: Version,
    before: &[ChainPolicy],
    chain: &ChainPolicy,
    rules: &[RuleLine],
) -> bool
    ensures { result ≡ is_alone version before.now chain.now rules.now }
{
    denies_alone(version, rules) && comes(other_than(version), before, chain)
}

fn other_than(version: Version) -> Version
    ensures { result ≡ other_than version }
{
    match version {
        Version::Ipv4 => Version::Ipv6,
        Version::Ipv6 => Version::Ipv4,
    }
}

fn denies_alone(version: Version, rules: &[RuleLine]) -> bool
    ensures { result ≡ denies_alone version rules.now }
{
    denies_by(version, rules) && !names(other_than(version), rules) && !has_open(rules)
}

fn denies_by(version: Version, rules: &[RuleLine]) -> bool
    ensures { result ≡ denies_by version rules.now }
{
    rules.iter().any(|rule| is_denied_by(version, rule))
}

fn is_denied_by(version: Version, rule: &RuleLine) -> bool
    ensures { result ≡ is_denied_by version rule.now }
{
    !rule.allow && has_prefix(version, &rule.fit)
}

fn names(version: Version, rules: &[RuleLine]) -> bool
    ensures { result ≡ names version rules.now }
{
    rules.iter().any(|rule| asks_by(version, &rule.fit))
}

fn has_open(rules: &[RuleLine]) -> bool
    ensures { result ≡ has_open rules.now }
{
    rules
        .iter()
        .any(|rule| is_empty(rule.fit.clauses.as_slice()))
}

fn has_prefix(version: Version, fit: &Match) -> bool
    ensures { result ≡ list_any (is_prefix version) fit.now.clauses }
{
    fit.clauses
        .as_slice()
        .iter()
        .any(|clause| is_prefix(version, clause))
}

fn is_prefix(version: Version, clause: &Clause) -> bool
    ensures { result ≡ is_prefix version clause.now }
{
    match (version, *clause) {
        (Version::Ipv4, Clause::Src(_, _)) => true,
        (Version::Ipv4, Clause::Dst(_, _)) => true,
        (Version::Ipv6, Clause::Src6(_, _)) => true,
        (Version::Ipv6, Clause::Dst6(_, _)) => true,
        _ => false,
    }
}

/// Does a clause ask for the version, by an address or by its number?
pub fn asks_by(version: Version, fit: &Match) -> bool
    ensures { result ≡ asks_by version fit.now }
{
    fit.clauses
        .as_slice()
        .iter()
        .any(|clause| is_of(version, clause))
}

// May packets of this version come to the chain?
fn comes(version: Version, before: &[ChainPolicy], chain: &ChainPolicy) -> bool
    ensures { result ≡ comes version before.now chain.now }
{
    !asks_by(other_than(version), &chain.fit) && !all_taken(version, before)
}

fn all_taken(version: Version, chains: &[ChainPolicy]) -> bool
    ensures { result ≡ list_any (λ (c : ChainPolicy). list_all (takes_all version) c.fit.clauses) chains.now }
{
    chains.iter().any(|chain| takes_each(version, &chain.fit))
}

fn takes_each(version: Version, fit: &Match) -> bool
    ensures { result ≡ list_all (takes_all version) fit.now.clauses }
{
    fit.clauses
        .as_slice()
        .iter()
        .all(|clause| takes_all(version, clause))
}

fn is_of(version: Version, clause: &Clause) -> bool
    ensures { result ≡ is_of version clause.now }
{
    match (version, *clause) {
        (Version::Ipv4, Clause::Src(_, _)) => true,
        (Version::Ipv4, Clause::Dst(_, _)) => true,
        (Version::Ipv4, Clause::Version4) => true,
        (Version::Ipv6, Clause::Src6(_, _)) => true,
        (Version::Ipv6, Clause::Dst6(_, _)) => true,
        (Version::Ipv6, Clause::Version6) => true,
        _ => false,
    }
}

/// Does the clause take all addresses of the version?
pub fn takes_all(version: Version, clause: &Clause) -> bool
    ensures { result ≡ takes_all version clause.now }
{
    match (version, *clause) {
        (Version::Ipv4, Clause::Src(_, bits)) => bits == 0,
        (Version::Ipv4, Clause::Dst(_, bits)) => bits == 0,
        (Version::Ipv4, Clause::Version4) => true,
        (Version::Ipv6, Clause::Src6(_, bits)) => bits == 0,
        (Version::Ipv6, Clause::Dst6(_, bits)) => bits == 0,
        (Version::Ipv6, Clause::Version6) => true,
        _ => false,
    }
}
