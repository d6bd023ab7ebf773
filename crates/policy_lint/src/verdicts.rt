//! Firewalls that let all pass or none, by what all of their rules say.
ghost use Rattle.std.specs.Prelude.{◌≡◌, ◌++◌, not, OnOk};
ghost use Rattle.std.specs.List.{list_any, list_all};
ghost use Rattle.policy_lint.specs.Rules.{rules_of};
ghost use Rattle.policy_lint.specs.Verdicts.{takes_version, names_all, allows_some, allows_alone, are_some, denies_all, drops_none, drops_each, told_firewall};

use crate::asking::push_if;
use crate::finding::Finding;
use crate::firewalls::{default_of, is_firewall};
use crate::rule_line::RuleLine;
use crate::versions::{Version, takes_all};
use item_list::Items;
use policy_text::{Clause, FunctionDecl};
use std::alloc::AllocError;

/// Adds what is odd in a firewall of these rules by itself.
pub fn push_firewall(
    found: &mut Items<Finding>,
    decl: &FunctionDecl,
    rules: &[RuleLine],
) -> Result<(), AllocError>
    requires { rules.now ≡ rules_of decl.now }
    ensures { OnOk result (found.new ≡ found.old ++ told_firewall decl.now) }
{
    let line = decl.line;
    push_if(found, drops_none(decl, rules), Finding::DropsNone { line })?;
    push_if(found, drops_each(decl, rules), Finding::DropsEach { line })
}

fn drops_none(decl: &FunctionDecl, rules: &[RuleLine]) -> bool
    requires { rules.now ≡ rules_of decl.now }
    ensures { result ≡ drops_none decl.now }
{
    is_firewall(decl.kind) && default_of(decl) && allows_alone(rules)
}

fn drops_each(decl: &FunctionDecl, rules: &[RuleLine]) -> bool
    requires { rules.now ≡ rules_of decl.now }
    ensures { result ≡ drops_each decl.now }
{
    is_firewall(decl.kind) && !default_of(decl) && denies_all(rules)
}

fn allows_alone(rules: &[RuleLine]) -> bool
    ensures { result ≡ allows_alone rules.now }
{
    are_some(rules) && allow(rules)
}

fn allow(rules: &[RuleLine]) -> bool
    ensures { result ≡ list_all allows_some rules.now }
{
    rules.iter().all(|rule| allows_some(rule))
}

fn allows_some(rule: &RuleLine) -> bool
    ensures { result ≡ allows_some rule.now }
{
    rule.allow && !names_all(rule)
}

// Does the rule take all packets of a version of IP?
fn names_all(rule: &RuleLine) -> bool
    ensures { result ≡ names_all rule.now }
{
    rule.fit.clauses.as_slice().iter().any(|c| takes_version(c))
}

fn takes_version(clause: &Clause) -> bool
    ensures { result ≡ takes_version clause.now }
{
    takes_all(Version::Ipv4, clause) || takes_all(Version::Ipv6, clause)
}

fn denies_all(rules: &[RuleLine]) -> bool
    ensures { result ≡ denies_all rules.now }
{
    are_some(rules) && deny(rules)
}

fn are_some(rules: &[RuleLine]) -> bool
    ensures { result ≡ are_some rules.now }
{
    !rules.is_empty()
}

fn deny(rules: &[RuleLine]) -> bool
    ensures { result ≡ list_all (λ r. not r.allow) rules.now }
{
    rules.iter().all(|rule| !rule.allow)
}
