//! Reads a whole graph text.

ghost use Rattle.std.specs.Prelude.{◌≡◌, ◌≤◌, suc, length, map, slice_set, IfOk};
ghost use Rattle.std.specs.List.{AllByRecursion, AllZip};
ghost use Rattle.graph_compile.specs.Facts.{IsLawful, IsFull};
ghost use Rattle.graph_compile.specs.Lawful.{IsStaged};
ghost use Rattle.graph_compile.specs.Stages.{stage_of};
ghost use Rattle.graph_text.specs.Chains.{functions_at, order_at};
ghost use Rattle.graph_text.specs.Graphs.{graphs_of, graphs_of_utf8, graphs_with, graph_due, graph_of_stages, no_graph};
ghost use Rattle.graph_text.specs.Soundness.{EachGraph, HasFewBranches, IsOrderOf, IsSound};
ghost use Rattle.graph_text.specs.Steps.{Gives};

use crate::chains::{functions_at, order_at, profiles_in};
use crate::fault::{GraphFault, GraphReadFault};
use crate::faults::faultless;
use crate::forms::lines_of;
use crate::listed::Listed;
use crate::listing::listed_by;
use action_profile::Profile;
use graph_compile::{Branch, Graph, Stage, lawful_graph_is_staged, parts};
use item_list::Items;
use policy_check::Order;
use policy_text::{ChainPolicy, FunctionDecl, Policy};
use std::alloc::{AllocError, Global};
use std::str::from_utf8;

/// Reads a graph text of at most 1,048,576 bytes, for a policy with the order of each of its chains. Returns the graph
/// of each chain of the policy that the text lists, and `None` for each other chain, or the text's first fault.
pub fn read_graphs(
    alloc: Global,
    bytes: &[u8],
    policy: &Policy,
    orders: &[Order],
) -> Result<Vec<Option<Graph>>, GraphReadFault>
    requires short { length bytes.now ≤ 1048576 }
    requires few { length policy.now.chains ≤ 16 }
    requires ordered { AllZip IsOrderOf policy.now.chains orders.now }
    ensures exact { Gives (λ graphs. graphs.items) result (graphs_of bytes.now policy.now.chains orders.now) }
    ensures each { IfOk result (λ graphs. length graphs.items ≡ length policy.now.chains) }
    // The clauses that a compiled graph has too.
    ensures lawful { IfOk result (λ graphs. EachGraph (λ chain graph. IsLawful graph chain) policy.now.chains orders.now graphs.items) }
    ensures staged { IfOk result (λ graphs. EachGraph (λ chain graph. IsStaged chain 1 graph.stages (suc (length chain))) policy.now.chains orders.now graphs.items) }
    ensures full { IfOk result (λ graphs. EachGraph (λ chain graph. IsFull graph) policy.now.chains orders.now graphs.items) }
{
    lawful_graph_is_staged();
    graphs_of(alloc, bytes, policy.chains.as_slice(), orders)
}

// Reads any bytes.
fn graphs_of(
    alloc: Global,
    bytes: &[u8],
    chains: &[ChainPolicy],
    orders: &[Order],
) -> Result<Vec<Option<Graph>>, GraphReadFault>
    requires short { length bytes.now ≤ 1048576 }
    requires few { length chains.now ≤ 16 }
    requires ordered { AllZip IsOrderOf chains.now orders.now }
    ensures { Gives (λ graphs. graphs.items) result (graphs_of bytes.now chains.now orders.now) }
{
    match from_utf8(bytes) {
        Err(fault) => Err(GraphReadFault::Graph(GraphFault::NotUtf8(fault.valid_up_to()))),
        Ok(_) => graphs_of_utf8(alloc, bytes, chains, orders),
    }
}

// Reads a text that is UTF-8.
#[tactic(auto, unfolding(crate::specs::Graphs::graphs_of_utf8), using(crate::proofs::Reading::all_sound, crate::proofs::Ordered::few_functions))]
fn graphs_of_utf8(
    alloc: Global,
    text: &[u8],
    chains: &[ChainPolicy],
    orders: &[Order],
) -> Result<Vec<Option<Graph>>, GraphReadFault>
    requires short { length text.now ≤ 1048576 }
    requires few { length chains.now ≤ 16 }
    requires ordered { AllZip IsOrderOf chains.now orders.now }
    ensures { Gives (λ graphs. graphs.items) result (graphs_of_utf8 text.now chains.now orders.now) }
{
    let lines = lines_of(alloc, text)?;
    let listed = listed_by(alloc, chains, orders, &lines)?;
    graphs_with(alloc, chains, orders, listed)
}

// The graphs of the chains that are listed.
fn graphs_with(
    alloc: Global,
    chains: &[ChainPolicy],
    orders: &[Order],
    listed: Items<Listed>,
) -> Result<Vec<Option<Graph>>, GraphReadFault>
    requires ordered { AllZip IsOrderOf chains.now orders.now }
    requires sound { AllByRecursion (IsSound orders.now) listed }
    ensures { Gives (λ graphs. graphs.items) result (graphs_with chains.now orders.now (map no_graph chains.now) listed) }
{
    let mut graphs = no_graphs(alloc, chains)?;
    'listed: for one in listed.into_vec() {
        let place = one.chain;
        let graph = graph_due(alloc, chains, orders, one)?;
        set_graph(&mut graphs, place, graph);
    }
    Ok(graphs)
}

/// `None` for each of these chains. The only error is that memory runs out.
pub fn no_graphs(alloc: Global, chains: &[ChainPolicy]) -> Result<Vec<Option<Graph>>, AllocError>
    ensures { IfOk result (λ graphs. graphs.items ≡ map no_graph chains.now) }
{
    let mut graphs = Vec::new(alloc);
    'chains: for chain in chains {
        graphs.push(no_graph(chain))?;
    }
    Ok(graphs)
}

fn no_graph(_chain: &ChainPolicy) -> Option<Graph>
    ensures { result ≡ no_graph _chain.now }
{
    None
}

fn set_graph(graphs: &mut Vec<Option<Graph>>, place: u32, graph: Graph)
    ensures { graphs.new.items ≡ slice_set graphs.old.items place (Some graph) }
{
    let place = place as usize;
    if place < graphs.len() {
        graphs[place] = Some(graph);
    }
}

// The graph of a chain that is listed.
#[tactic(auto, unfolding(crate::specs::Graphs::graph_due), using(crate::proofs::Ordered::inside_at, crate::proofs::Ordered::few_branches))]
fn graph_due(
    alloc: Global,
    chains: &[ChainPolicy],
    orders: &[Order],
    listed: Listed,
) -> Result<Graph, GraphReadFault>
    requires ordered { AllZip IsOrderOf chains.now orders.now }
    requires sound { IsSound orders.now listed }
    ensures { Gives (λ x. x) result (graph_due (functions_at chains.now listed.chain) (order_at orders.now listed.chain) listed) }
{
    let Listed {
        chain,
        opened: _,
        stages,
    } = listed;
    let order = order_at(orders, chain);
    let profiles = profiles_in(alloc, functions_at(chains, chain), order)?;
    faultless(chain, order, &profiles, stages.as_slice())?;
    Ok(graph_of_stages(alloc, &profiles, stages)?)
}

fn graph_of_stages(
    alloc: Global,
    profiles: &[Profile],
    stages: Items<Items<Branch>>,
) -> Result<Graph, AllocError>
    requires { AllByRecursion HasFewBranches stages }
    ensures { IfOk result (λ graph. graph ≡ graph_of_stages profiles.now stages) }
{
    let mut made = Items::new(Vec::new(alloc));
    'stages: for branches in stages.into_vec() {
        made.push(stage_of(alloc, profiles, branches)?)?;
    }
    Ok(Graph { stages: made })
}

fn stage_of(
    alloc: Global,
    profiles: &[Profile],
    branches: Items<Branch>,
) -> Result<Stage, AllocError>
    requires { HasFewBranches branches }
    ensures { IfOk result (λ stage. stage ≡ stage_of profiles.now branches) }
{
    let parts = parts(alloc, branches.as_slice(), profiles)?;
    Ok(Stage { branches, parts })
}
