//! The lines that put functions into branches.

ghost use Rattle.graph_text.specs.Listing.{branch_in, branch_of, branch_line};
ghost use Rattle.graph_text.specs.Soundness.{HasFewFunctions};
ghost use Rattle.graph_text.specs.Steps.{Gives};

use crate::chains::{functions_at, order_at, positions_named};
use crate::fault::{GraphFault, GraphReadFault};
use crate::forms::names_of;
use crate::listed::{Listed, with_branch};
use crate::standing::stands_twice;
use graph_compile::Branch;
use item_list::Items;
use policy_check::Order;
use policy_text::{ChainPolicy, Line};
use std::alloc::Global;

/// `branch NAME ..`.
pub(crate) fn branch_line(
    alloc: Global,
    chains: &[ChainPolicy],
    orders: &[Order],
    listed: Items<Listed>,
    line: &Line<'_>,
) -> Result<Items<Listed>, GraphReadFault>
    requires { HasFewFunctions orders.now }
    ensures { Gives (λ x. x) result (branch_line chains.now orders.now listed line.now) }
{
    let positions = branch_of(alloc, chains, orders, listed.as_slice(), line)?;
    Ok(with_branch(alloc, listed, Branch { positions })?)
}

// The positions of the functions of the branch.
fn branch_of(
    alloc: Global,
    chains: &[ChainPolicy],
    orders: &[Order],
    listed: &[Listed],
    line: &Line<'_>,
) -> Result<Items<u32>, GraphReadFault>
    requires { HasFewFunctions orders.now }
    ensures { Gives (λ x. x) result (branch_of chains.now orders.now listed.now line.now) }
{
    match listed.last() {
        None => Err(GraphReadFault::Graph(GraphFault::Syntax(line.number()))),
        Some(here) => branch_in(alloc, chains, orders, here, line),
    }
}

fn branch_in(
    alloc: Global,
    chains: &[ChainPolicy],
    orders: &[Order],
    here: &Listed,
    line: &Line<'_>,
) -> Result<Items<u32>, GraphReadFault>
    requires { HasFewFunctions orders.now }
    ensures { Gives (λ x. x) result (branch_in chains.now orders.now here.now line.now) }
{
    let stages = here.stages.as_slice();
    if !here.opened && stages.is_empty() {
        return Err(GraphReadFault::Graph(GraphFault::Syntax(line.number())));
    }
    let functions = functions_at(chains, here.chain);
    let order = order_at(orders, here.chain);
    let Some(positions) = positions_named(alloc, functions, order, names_of(line.words()))? else {
        return Err(GraphReadFault::Graph(GraphFault::UnknownName(line.number())));
    };
    if stands_twice(stages, &positions) {
        return Err(GraphReadFault::Graph(GraphFault::Twice(line.number())));
    }
    Ok(Items::new(positions))
}
