//! All that is odd in a policy.
ghost use Rattle.std.specs.Prelude.{◌≡◌, ◌++◌, [], IfOk, OnOk};
ghost use Rattle.policy_lint.specs.Findings.{told_function, told_functions, told_in, order_at, findings};
ghost use Rattle.policy_lint.specs.Gathering.{gathered};
ghost use Rattle.policy_lint.specs.Findings.{told_at};

use crate::apart::push_apart;
use crate::asking::push_covered;
use crate::behind::{push_limited, push_unreached};
use crate::finding::Finding;
use crate::limits::push_limiter;
use crate::nats::push_nats;
use crate::patterns::push_patterns;
use crate::rule_line::rules_of;
use crate::spelling::{push_fit, push_told_rules};
use crate::verdicts::push_firewall;
use crate::versions::push_alone;
use crate::walking::push_walked;
use item_list::Items;
use policy_check::Order;
use policy_text::{ChainPolicy, FunctionDecl, Policy};
use std::alloc::{AllocError, Global};

/// What is odd in a policy without fault, given the lines of its text that a comment cuts off, which [`crate::cut_lines`] returns, and
/// the order of each of its chains. Its one refusal is that there is no memory.
pub fn lint(
    alloc: Global,
    cuts: &[bool],
    policy: &Policy,
    orders: &[Order],
) -> Result<Items<Finding>, AllocError>
    ensures { IfOk result (λ found. found ≡ findings cuts.now policy.now.chains orders.now) }
{
    let chains = policy.chains.as_slice();
    let mut found = Items::new(Vec::new(alloc));
    push_covered(&mut found, chains)?;
    push_chains(alloc, &mut found, cuts, chains, orders)?;
    push_nats(alloc, &mut found, chains)?;
    push_apart(alloc, &mut found, chains)?;
    Ok(found)
}

#[tactic(auto, using(crate::proofs::Steps::begins, crate::proofs::Steps::ends))]
fn push_chains(
    alloc: Global,
    found: &mut Items<Finding>,
    cuts: &[bool],
    chains: &[ChainPolicy],
    orders: &[Order],
) -> Result<(), AllocError>
    ensures { OnOk result (found.new ≡ found.old ++ gathered (told_at cuts.now orders.now) [] chains.now) }
{
    'chains: for place in 0..chains.len() {
        let order = order_at(orders, place);
        push_chain(alloc, found, cuts, order, &chains[..place], &chains[place])?;
    }
    Ok(())
}

// The order of the chain at a place.
fn order_at(orders: &[Order], place: usize) -> &[u32]
    ensures { result.now ≡ order_at orders.now place }
{
    match orders.get(place) {
        Some(order) => order.positions.as_slice(),
        None => &[],
    }
}

// Adds what is odd in a chain, after these and of this order.
fn push_chain(
    alloc: Global,
    found: &mut Items<Finding>,
    cuts: &[bool],
    order: &[u32],
    before: &[ChainPolicy],
    chain: &ChainPolicy,
) -> Result<(), AllocError>
    ensures { OnOk result (found.new ≡ found.old ++ told_in cuts.now order.now before.now chain.now) }
{
    let functions = chain.functions.as_slice();
    push_fit(found, chain.line, &chain.fit)?;
    push_functions(alloc, found, cuts, functions)?;
    push_alone(alloc, found, before, chain)?;
    push_unreached(alloc, found, functions, order)?;
    push_limited(found, functions, order)?;
    push_walked(alloc, found, chain, order)
}

// Adds what is odd in functions, each by itself.
#[tactic(auto, using(crate::proofs::Steps::begins, crate::proofs::Steps::ends))]
fn push_functions(
    alloc: Global,
    found: &mut Items<Finding>,
    cuts: &[bool],
    functions: &[FunctionDecl],
) -> Result<(), AllocError>
    ensures { OnOk result (found.new ≡ found.old ++ told_functions cuts.now functions.now) }
{
    'functions: for place in 0..functions.len() {
        push_function(alloc, found, cuts, &functions[place])?;
    }
    Ok(())
}

fn push_function(
    alloc: Global,
    found: &mut Items<Finding>,
    cuts: &[bool],
    decl: &FunctionDecl,
) -> Result<(), AllocError>
    ensures { OnOk result (found.new ≡ found.old ++ told_function cuts.now decl.now) }
{
    let rules = rules_of(alloc, decl)?;
    push_covered(found, rules.as_slice())?;
    push_told_rules(found, decl.kind, rules.as_slice())?;
    push_patterns(found, cuts, decl)?;
    push_firewall(found, decl, rules.as_slice())?;
    push_limiter(found, decl)
}
