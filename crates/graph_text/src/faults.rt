//! The faults of the stages in which a text places functions.

ghost use Rattle.std.specs.Prelude.{◌≡◌};
ghost use Rattle.graph_compile.specs.Parts.{profile_at};
ghost use Rattle.graph_text.specs.Faults.{missing, is_out_of_order, out_of_order, actions_in, actions_between, is_forbidden_beside, forbidden, missing_fault, order_fault, forbidden_as, table_fault, faultless};
ghost use Rattle.graph_text.specs.Standing.{has_behind, least, least_behind};
ghost use Rattle.graph_text.specs.Steps.{Gives};

use crate::chains::declared;
use crate::fault::{GraphFault, GraphReadFault};
use crate::standing::{are_beside, comes_before, is_placed};
use action_profile::Profile;
use dependency_table::{Action, Answer, pair};
use graph_compile::Branch;
use item_list::Items;

/// Is every function of the chain placed, in the chain's order, and none beside one that is forbidden before it?
/// Otherwise returns the first fault.
#[tactic(auto, unfolding(crate::specs::Faults::faultless))]
pub(crate) fn faultless(
    chain: u32,
    order: &[u32],
    profiles: &[Profile],
    stages: &[Items<Branch>],
) -> Result<(), GraphReadFault>
    ensures { Gives (λ x. x) result (faultless chain order.now profiles.now stages.now) }
{
    if let Some(fault) = missing_fault(chain, order, stages) {
        return Err(GraphReadFault::Graph(fault));
    }
    if let Some(fault) = order_fault(chain, order, stages) {
        return Err(GraphReadFault::Graph(fault));
    }
    if let Some(fault) = table_fault(chain, order, profiles, stages) {
        return Err(GraphReadFault::Graph(fault));
    }
    Ok(())
}

fn missing_fault(chain: u32, order: &[u32], stages: &[Items<Branch>]) -> Option<GraphFault>
    ensures { result ≡ missing_fault chain order.now stages.now }
{
    let position = missing(order.len() + 1, stages)?;
    Some(GraphFault::Missing(chain, declared(order, position)))
}

// The least position below `end` that isn't placed.
fn missing(end: usize, stages: &[Items<Branch>]) -> Option<usize>
    ensures { result ≡ missing end stages.now }
{
    (1..end).find(|p| !is_placed(stages, *p))
}

fn order_fault(chain: u32, order: &[u32], stages: &[Items<Branch>]) -> Option<GraphFault>
    ensures { result ≡ order_fault chain order.now stages.now }
{
    let (first, second) = out_of_order(order.len() + 1, stages)?;
    Some(GraphFault::OutOfOrder(chain, declared(order, first), declared(order, second)))
}

// The first two functions of which the later one of the chain is placed before the earlier one.
fn out_of_order(end: usize, stages: &[Items<Branch>]) -> Option<(usize, usize)>
    ensures { result ≡ out_of_order end stages.now }
{
    let first = first_out_of_order(end, stages)?;
    let second = out_of_order_with(end, stages, first)?;
    Some((first, second))
}

fn first_out_of_order(end: usize, stages: &[Items<Branch>]) -> Option<usize>
    ensures { result ≡ least (has_behind (is_out_of_order stages.now) end) end }
{
    (1..end).find(|p| out_of_order_with(end, stages, *p).is_some())
}

fn out_of_order_with(end: usize, stages: &[Items<Branch>], first: usize) -> Option<usize>
    ensures { result ≡ least_behind (is_out_of_order stages.now) end first }
{
    (1..end).find(|q| first < *q && comes_before(stages, *q, first))
}

fn table_fault(
    chain: u32,
    order: &[u32],
    profiles: &[Profile],
    stages: &[Items<Branch>],
) -> Option<GraphFault>
    ensures { result ≡ table_fault chain order.now profiles.now stages.now }
{
    let pair = forbidden(order.len() + 1, profiles, stages)?;
    forbidden_as(chain, order, profiles, pair)
}

fn forbidden_as(
    chain: u32,
    order: &[u32],
    profiles: &[Profile],
    pair: (usize, usize),
) -> Option<GraphFault>
    ensures { result ≡ forbidden_as chain order.now profiles.now pair }
{
    let (first, second) = pair;
    let (a, b) = actions_between(profiles, first, second)?;
    Some(GraphFault::Forbidden(chain, declared(order, first), declared(order, second), a, b))
}

// The first two functions that are side by side though the table forbids the earlier one before the later one.
fn forbidden(end: usize, profiles: &[Profile], stages: &[Items<Branch>]) -> Option<(usize, usize)>
    ensures { result ≡ forbidden end profiles.now stages.now }
{
    let first = first_forbidden(end, profiles, stages)?;
    let second = forbidden_with(end, profiles, stages, first)?;
    Some((first, second))
}

fn first_forbidden(end: usize, profiles: &[Profile], stages: &[Items<Branch>]) -> Option<usize>
    ensures { result ≡ least (has_behind (is_forbidden_beside profiles.now stages.now) end) end }
{
    (1..end).find(|p| forbidden_with(end, profiles, stages, *p).is_some())
}

fn forbidden_with(
    end: usize,
    profiles: &[Profile],
    stages: &[Items<Branch>],
    first: usize,
) -> Option<usize>
    ensures { result ≡ least_behind (is_forbidden_beside profiles.now stages.now) end first }
{
    (1..end).find(|q| first < *q && is_forbidden_beside(profiles, stages, first, *q))
}

fn is_forbidden_beside(
    profiles: &[Profile],
    stages: &[Items<Branch>],
    first: usize,
    second: usize,
) -> bool
    ensures { result ≡ is_forbidden_beside profiles.now stages.now first second }
{
    are_beside(stages, first, second) && actions_between(profiles, first, second).is_some()
}

// The actions for which the table forbids one function before another.
fn actions_between(profiles: &[Profile], first: usize, second: usize) -> Option<(Action, Action)>
    ensures { result ≡ actions_between profiles.now first second }
{
    let x = profile_at(profiles, first)?;
    let y = profile_at(profiles, second)?;
    actions_in(pair(&x, &y))
}

fn actions_in(answer: Answer) -> Option<(Action, Action)>
    ensures { result ≡ actions_in answer }
{
    match answer {
        Answer::Forbidden { first, second } => Some((first, second)),
        _ => None,
    }
}

fn profile_at(profiles: &[Profile], position: usize) -> Option<Profile>
    ensures { result ≡ profile_at profiles.now position }
{
    profiles.get(position.saturating_sub(1)).copied()
}
