//! Reads the lines of a graph text.

ghost use Rattle.std.specs.Prelude.{◌≡◌, ◌≤◌, [], length};
ghost use Rattle.graph_text.specs.Listing.{is_listed, chain_line, stage_line, after_line, after_lines, listed_by};
ghost use Rattle.graph_text.specs.Soundness.{HasFewFunctions};
ghost use Rattle.graph_text.specs.Steps.{Gives};

use crate::branch_lines::branch_line;
use crate::chains::{chain_named, functions_at, has_whole};
use crate::fault::{GraphFault, GraphReadFault};
use crate::forms::{has_branch, is_branch, is_chain, is_stage, is_version};
use crate::listed::{Listed, with_stage};
use item_list::Items;
use policy_check::Order;
use policy_text::{ChainPolicy, Line};
use std::alloc::Global;

/// What the lines of a text list.
#[tactic(auto, unfolding(crate::specs::Listing::listed_by))]
pub(crate) fn listed_by(
    alloc: Global,
    chains: &[ChainPolicy],
    orders: &[Order],
    lines: &[Line<'_>],
) -> Result<Items<Listed>, GraphReadFault>
    requires few_chains { length chains.now ≤ 16 }
    requires few_functions { HasFewFunctions orders.now }
    ensures { Gives (λ x. x) result (listed_by chains.now orders.now lines.now) }
{
    let Some((first, lines)) = lines.split_first() else {
        return Err(GraphReadFault::Graph(GraphFault::BadVersionLine));
    };
    if !is_version(first.words()) {
        return Err(GraphReadFault::Graph(GraphFault::BadVersionLine));
    }
    after_lines(alloc, chains, orders, lines)
}

// What these lines after the version line list.
fn after_lines(
    alloc: Global,
    chains: &[ChainPolicy],
    orders: &[Order],
    lines: &[Line<'_>],
) -> Result<Items<Listed>, GraphReadFault>
    requires few_chains { length chains.now ≤ 16 }
    requires few_functions { HasFewFunctions orders.now }
    ensures { Gives (λ x. x) result (after_lines chains.now orders.now [] lines.now) }
{
    let mut listed = Items::new(Vec::new(alloc));
    'lines: for (index, line) in lines.iter().enumerate() {
        listed = after_line(alloc, chains, orders, listed, line, &lines[index + 1..])?;
    }
    Ok(listed)
}

// What the lines up to this one list. `later` are the lines after it.
#[tactic(auto, unfolding(crate::specs::Listing::after_line))]
fn after_line(
    alloc: Global,
    chains: &[ChainPolicy],
    orders: &[Order],
    listed: Items<Listed>,
    line: &Line<'_>,
    later: &[Line<'_>],
) -> Result<Items<Listed>, GraphReadFault>
    requires few_chains { length chains.now ≤ 16 }
    requires few_functions { HasFewFunctions orders.now }
    ensures { Gives (λ x. x) result (after_line chains.now orders.now listed line.now later.now) }
{
    let words = line.words();
    if is_chain(words) {
        chain_line(alloc, chains, listed, line)
    } else if is_stage(words) {
        stage_line(listed, line, later)
    } else if is_branch(words) {
        branch_line(alloc, chains, orders, listed, line)
    } else {
        Err(GraphReadFault::Graph(GraphFault::Syntax(line.number())))
    }
}

// `chain NAME`.
fn chain_line(
    alloc: Global,
    chains: &[ChainPolicy],
    listed: Items<Listed>,
    line: &Line<'_>,
) -> Result<Items<Listed>, GraphReadFault>
    requires { length chains.now ≤ 16 }
    ensures { Gives (λ x. x) result (chain_line chains.now listed line.now) }
{
    let Some(chain) = chain_named(chains, line.word(1)) else {
        return Err(GraphReadFault::Graph(GraphFault::UnknownName(line.number())));
    };
    if is_listed(listed.as_slice(), chain) {
        return Err(GraphReadFault::Graph(GraphFault::Twice(line.number())));
    }
    if has_whole(functions_at(chains, chain)) {
        return Err(GraphReadFault::Graph(GraphFault::WholeChain(line.number())));
    }
    let mut listed = listed;
    listed.push(Listed {
        chain,
        opened: false,
        stages: Items::new(Vec::new(alloc)),
    })?;
    Ok(listed)
}

fn is_listed(listed: &[Listed], chain: u32) -> bool
    ensures { result ≡ is_listed listed.now chain }
{
    listed.iter().any(|l| l.chain == chain)
}

// `stage`.
fn stage_line(
    listed: Items<Listed>,
    line: &Line<'_>,
    later: &[Line<'_>],
) -> Result<Items<Listed>, GraphReadFault>
    ensures { Gives (λ x. x) result (stage_line listed line.now later.now) }
{
    if listed.as_slice().is_empty() || !has_branch(later) {
        return Err(GraphReadFault::Graph(GraphFault::Syntax(line.number())));
    }
    Ok(with_stage(listed)?)
}
