//! Clauses that are hardly meant as they are spelled.
ghost use Rattle.std.specs.Prelude.{◌≡◌, ◌++◌, ◌-◌, ◌%◌, ◌^◌, OnOk};
ghost use Rattle.policy_lint.specs.Spelling.{bits_past, has_bits_past, is_loose_fit, told_fit, is_marker, marks_ipv6, told_rule, told_rules};

use crate::asking::push_if;
use crate::finding::Finding;
use crate::opposing::clash;
use crate::rule_line::RuleLine;
use crate::versions::{Version, asks_by};
use action_profile::Kind;
use item_list::Items;
use policy_text::{Clause, Match};
use std::alloc::AllocError;

/// Adds what is odd in rules of a function of this kind, each by itself.
#[tactic(auto, using(crate::proofs::Steps::begins, crate::proofs::Steps::ends))]
pub fn push_told_rules(
    found: &mut Items<Finding>,
    kind: Kind,
    rules: &[RuleLine],
) -> Result<(), AllocError>
    ensures { OnOk result (found.new ≡ found.old ++ told_rules kind rules.now) }
{
    'rules: for place in 0..rules.len() {
        push_rule(found, kind, &rules[place])?;
    }
    Ok(())
}

fn push_rule(found: &mut Items<Finding>, kind: Kind, rule: &RuleLine) -> Result<(), AllocError>
    ensures { OnOk result (found.new ≡ found.old ++ told_rule kind rule.now) }
{
    let line = rule.line;
    push_fit(found, line, &rule.fit)?;
    push_if(
        found,
        marks_ipv6(kind, &rule.fit),
        Finding::MarksIpv6 { line },
    )
}

/// Adds what is odd in the clauses of a line.
pub fn push_fit(found: &mut Items<Finding>, line: u32, fit: &Match) -> Result<(), AllocError>
    ensures { OnOk result (found.new ≡ found.old ++ told_fit line fit.now) }
{
    push_if(found, clash(fit), Finding::ClausesClash { line })?;
    push_if(found, is_loose_fit(fit), Finding::BitsPastLength { line })
}

fn marks_ipv6(kind: Kind, fit: &Match) -> bool
    ensures { result ≡ marks_ipv6 kind fit.now }
{
    is_marker(kind) && asks_by(Version::Ipv6, fit)
}

fn is_marker(kind: Kind) -> bool
    ensures { result ≡ is_marker kind }
{
    matches!(kind, Kind::Marker)
}

fn is_loose_fit(fit: &Match) -> bool
    ensures { result ≡ is_loose_fit fit.now }
{
    fit.clauses.as_slice().iter().any(|c| has_bits_past(c))
}

fn has_bits_past(clause: &Clause) -> bool
    ensures { result ≡ has_bits_past clause.now }
{
    match *clause {
        Clause::Src(prefix, bits) => bits_past(bits, prefix) != 0,
        Clause::Dst(prefix, bits) => bits_past(bits, prefix) != 0,
        Clause::Src6(prefix, bits) => bits_past6(bits, prefix) != 0,
        Clause::Dst6(prefix, bits) => bits_past6(bits, prefix) != 0,
        _ => false,
    }
}

/// The bits of a prefix that don't count, as a number.
pub fn bits_past(bits: u8, prefix: u32) -> u32
    ensures { result ≡ bits_past 32 bits prefix }
{
    if bits == 0 {
        prefix
    } else if bits < 32 {
        prefix % (1 << (32 - bits))
    } else {
        0
    }
}

fn bits_past6(bits: u8, prefix: u128) -> u128
    ensures { result ≡ bits_past 128 bits prefix }
{
    if bits == 0 {
        prefix
    } else if bits < 128 {
        prefix % (1 << (128 - bits))
    } else {
        0
    }
}
