//! Chains of limiters beside a nat that they make packets miss.
ghost use Rattle.std.specs.Prelude.{◌≡◌, ◌++◌, [], find, OnOk};
ghost use Rattle.std.specs.List.{list_all, list_any};
ghost use Rattle.std.specs.Option.{option_copied};
ghost use Rattle.policy_lint.specs.Apart.{is_monitor, limits_or_counts, limits_alone, asks_some, takes_from, told_apart, apart_in, apart};
ghost use Rattle.policy_lint.specs.Behind.{limits};
ghost use Rattle.policy_lint.specs.Gathering.{gathered};

use crate::asking::push_one;
use crate::behind::is_limiter;
use crate::finding::Finding;
use crate::nats::{NatLines, keep_nats};
use crate::opposing::are_apart;
use action_profile::Kind;
use item_list::Items;
use policy_text::{ChainPolicy, Clause, FunctionDecl};
use std::alloc::{AllocError, Global};

/// Adds the chains of limiters that take packets from the inside of a nat in a chain after them.
#[tactic(auto, using(crate::proofs::Steps::begins, crate::proofs::Steps::ends))]
pub fn push_apart(
    alloc: Global,
    found: &mut Items<Finding>,
    chains: &[ChainPolicy],
) -> Result<(), AllocError>
    ensures { OnOk result (found.new ≡ found.old ++ apart chains.now) }
{
    'chains: for place in 0..chains.len() {
        push_apart_in(alloc, found, &chains[..place], &chains[place])?;
    }
    Ok(())
}

fn push_apart_in(
    alloc: Global,
    found: &mut Items<Finding>,
    before: &[ChainPolicy],
    chain: &ChainPolicy,
) -> Result<(), AllocError>
    ensures { OnOk result (found.new ≡ found.old ++ apart_in before.now chain.now) }
{
    let mut nats = Items::new(Vec::new(alloc));
    keep_nats(&mut nats, chain.functions.as_slice())?;
    push_apart_from(found, before, nats.as_slice())
}

#[tactic(auto, using(crate::proofs::Steps::begins, crate::proofs::Steps::ends))]
fn push_apart_from(
    found: &mut Items<Finding>,
    before: &[ChainPolicy],
    nats: &[NatLines],
) -> Result<(), AllocError>
    ensures { OnOk result (found.new ≡ found.old ++ gathered (λ others n. told_apart before.now n) [] nats.now) }
{
    'nats: for place in 0..nats.len() {
        push_nat(found, before, nats[place])?;
    }
    Ok(())
}

fn push_nat(
    found: &mut Items<Finding>,
    before: &[ChainPolicy],
    nat: NatLines,
) -> Result<(), AllocError>
    ensures { OnOk result (found.new ≡ found.old ++ told_apart before.now nat) }
{
    match taker_in(nat, before) {
        Some(chain) => {
            let line = chain.line;
            let by = nat.inside_line;
            push_one(found, Some(Finding::LimiterApart { line, by }))
        }
        None => Ok(()),
    }
}

// The first chain of limiters that takes packets from inside.
fn taker_in(nat: NatLines, chains: &[ChainPolicy]) -> Option<&ChainPolicy>
    ensures { option_copied result ≡ find (takes_from nat) chains.now }
{
    chains.iter().find(|chain| takes_from(nat, chain))
}

fn takes_from(nat: NatLines, chain: &ChainPolicy) -> bool
    ensures { result ≡ takes_from nat chain.now }
{
    limits_alone(chain.functions.as_slice()) && ask_some(nat, chain.fit.clauses.as_slice())
}

fn limits_alone(functions: &[FunctionDecl]) -> bool
    ensures { result ≡ limits_alone functions.now }
{
    has_limiter(functions) && limit_or_count(functions)
}

fn has_limiter(functions: &[FunctionDecl]) -> bool
    ensures { result ≡ list_any limits functions.now }
{
    functions.iter().any(|decl| limits(decl))
}

fn limits(decl: &FunctionDecl) -> bool
    ensures { result ≡ limits decl.now }
{
    is_limiter(decl.kind)
}

fn limit_or_count(functions: &[FunctionDecl]) -> bool
    ensures { result ≡ list_all limits_or_counts functions.now }
{
    functions.iter().all(|decl| limits_or_counts(decl))
}

fn limits_or_counts(decl: &FunctionDecl) -> bool
    ensures { result ≡ limits_or_counts decl.now }
{
    limits(decl) || is_monitor(decl.kind)
}

fn is_monitor(kind: Kind) -> bool
    ensures { result ≡ is_monitor kind }
{
    matches!(kind, Kind::Monitor)
}

fn ask_some(nat: NatLines, clauses: &[Clause]) -> bool
    ensures { result ≡ list_any (asks_some nat) clauses.now }
{
    clauses.iter().any(|clause| asks_some(nat, *clause))
}

// Does the clause ask for sources of which some are inside?
fn asks_some(nat: NatLines, clause: Clause) -> bool
    ensures { result ≡ asks_some nat clause }
{
    match clause {
        Clause::Src(prefix, bits) => !are_apart(prefix, bits, nat.prefix, nat.bits),
        _ => false,
    }
}
