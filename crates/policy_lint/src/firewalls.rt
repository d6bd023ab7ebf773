//! What firewalls drop altogether.
ghost use Rattle.std.specs.Prelude.{◌≡◌, find, IfOk};
ghost use Rattle.std.specs.List.{list_any};
ghost use Rattle.std.specs.Option.{option_copied};
ghost use Rattle.policy_lint.specs.Firewalls.{sets_deny, default_of, is_empty, ends, drops_by, is_firewall, drops_all};

use crate::rule_line::{RuleLine, rules_of, word_of};
use action_profile::Kind;
use policy_text::{Clause, FunctionDecl, Setting};
use std::alloc::{AllocError, Global};

/// Does the function drop every packet?
pub fn drops_all(alloc: Global, decl: &FunctionDecl) -> Result<bool, AllocError>
    ensures { IfOk result (λ drops. drops ≡ drops_all decl.now) }
{
    if !is_firewall(decl.kind) {
        return Ok(false);
    }
    let rules = rules_of(alloc, decl)?;
    Ok(drops_by(default_of(decl), rules.as_slice()))
}

pub fn is_firewall(kind: Kind) -> bool
    ensures { result ≡ is_firewall kind }
{
    matches!(kind, Kind::Firewall)
}

/// Does a packet pass that meets no rule?
pub fn default_of(decl: &FunctionDecl) -> bool
    ensures { result ≡ default_of decl.now }
{
    !denies_by_default(decl.settings.as_slice())
}

fn denies_by_default(settings: &[Setting]) -> bool
    ensures { result ≡ list_any sets_deny settings.now }
{
    settings.iter().any(|setting| sets_deny(setting))
}

fn sets_deny(setting: &Setting) -> bool
    ensures { result ≡ sets_deny setting.now }
{
    let words = setting.words.as_slice();
    word_of(words, 0) == b"set".as_slice()
        && word_of(words, 1) == b"default".as_slice()
        && word_of(words, 2) == b"deny".as_slice()
}

// Does no packet pass a firewall of these rules?
fn drops_by(default: bool, rules: &[RuleLine]) -> bool
    ensures { result ≡ drops_by default rules.now }
{
    match end_of(rules) {
        Some(rule) => !rule.allow,
        None => !default,
    }
}

// The first rule that allows, or that each packet meets.
fn end_of(rules: &[RuleLine]) -> Option<&RuleLine>
    ensures { option_copied result ≡ find ends rules.now }
{
    rules.iter().find(|rule| ends(rule))
}

fn ends(rule: &RuleLine) -> bool
    ensures { result ≡ ends rule.now }
{
    rule.allow || is_empty(rule.fit.clauses.as_slice())
}

pub fn is_empty(clauses: &[Clause]) -> bool
    ensures { result ≡ is_empty clauses.now }
{
    clauses.is_empty()
}
