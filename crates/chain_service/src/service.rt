//! The chains of a policy, ready to run.
ghost use Rattle.std.specs.Prelude.{◌≡◌, ◌≤◌, All, IfOk, length, map};
ghost use Rattle.std.specs.List.{AllZip};
ghost use Rattle.policy_text.specs.Names.{name_at, names_at};
ghost use Rattle.policy_judge.specs.Making.{functions_made, place_of};
ghost use Rattle.policy_judge.specs.Orders.{IsOrdered};
ghost use Rattle.chain_service.specs.Fitting.{FitAll, Fits};
ghost use Rattle.chain_service.specs.Opening.{IsOpening, IsOpeningChain, chains_of, pieces_in};
ghost use Rattle.policy_chains.specs.Services.{in_graph, names_by, pieces_at, pieces_by, service_among};

use crate::in_graph::in_graph;
use crate::pieces::ChainPieces;
use crate::running::running_pieces;
use classifier::ClassTable;
use graph_compile::Graph;
use item_list::Items;
use net_functions::Made;
use packet_version::Tally;
use policy_chains::{chain_parts, one_piece_has_the_profiles};
use policy_check::Order;
use policy_judge::Judged;
use policy_text::{ChainPolicy, FunctionDecl, Name, Policy, name_at};
use std::alloc::{AllocError, Global};

/// A chain that runs: its declaration; the names of its functions, in the order in which a packet goes through them;
/// its pieces, each with a graph that is compiled for its functions, or that was written for them; and the copies that
/// were made of its packets' fields.
#[derive(Drop)]
pub struct ServiceChain {
    pub declared: ChainPolicy,
    pub names: Items<Name>,
    pub pieces: ChainPieces,
    pub copies: Tally,
}

/// Chains that run side by side, in the order of the text, and the table that decides which of them takes a packet.
#[derive(Drop)]
pub struct Service {
    pub classes: ClassTable,
    pub chains: Items<ServiceChain>,
}

/// The service of a policy without fault, with each chain in the graph that is written for it, if there is one. A chain
/// that has a function that rewrites packets whole besides others is compiled, whatever is written.
#[tactic(auto, using(crate::proofs::Opens::opens))]
pub fn make_service(
    alloc: Global,
    judged: Judged,
    graphs: Vec<Option<Graph>>,
) -> Result<Service, AllocError>
    requires ordered { AllZip IsOrdered judged.policy.chains judged.orders }
    requires made { judged.functions ≡ functions_made judged.policy.chains }
    requires few { length judged.policy.chains ≤ 16 }
    requires fit { FitAll judged.policy.chains judged.orders graphs.items }
    ensures runs { IfOk result (λ s. chains_of s.chains ≡ service_among judged.policy.chains judged.orders graphs.items) }
    ensures opening { IfOk result IsOpening }
{
    let Judged {
        policy,
        orders,
        functions,
    } = judged;
    let classes = ClassTable::new(alloc, &policy)?;
    let Policy { chains } = policy;
    let chains = service_chains(alloc, chains, orders, graphs, functions)?;
    Ok(Service { classes, chains })
}

// The chains. Each is cut, in its order, into pieces of the functions that were made for it, and runs in the graph that
// is written for it.
fn service_chains(
    alloc: Global,
    chains: Items<ChainPolicy>,
    orders: Items<Order>,
    graphs: Vec<Option<Graph>>,
    made: Items<Items<Option<Made>>>,
) -> Result<Items<ServiceChain>, AllocError>
    requires ordered { AllZip IsOrdered chains orders }
    requires fit { FitAll chains orders graphs.items }
    requires made { made ≡ functions_made chains }
    ensures declared { IfOk result (λ s. map (λ c. c.declared) s ≡ chains) }
    ensures names { IfOk result (λ s. map (λ c. c.names) s ≡ names_by chains orders) }
    ensures pieces { IfOk result (λ s. map pieces_in s ≡ pieces_by chains orders graphs.items) }
    ensures opening { IfOk result (All IsOpeningChain) }
{
    let mut running = Vec::new(alloc);
    let chains = chains.into_vec().into_iter().zip(orders.into_vec());
    let chains = chains.zip(graphs);
    'chains: for (((chain, order), graph), made) in chains.zip(made.into_vec()) {
        running.push(service_chain(alloc, chain, &order, graph, made)?)?;
    }
    Ok(Items::new(running))
}

// A chain with the names of its functions in its order, and its pieces.
fn service_chain(
    alloc: Global,
    chain: ChainPolicy,
    order: &Order,
    graph: Option<Graph>,
    made: Items<Option<Made>>,
) -> Result<ServiceChain, AllocError>
    requires ordered { IsOrdered chain order.now }
    requires fits { Fits (chain, order.now) graph }
    requires made { made ≡ map place_of chain.functions }
    ensures declared { IfOk result (λ c. c.declared ≡ chain) }
    ensures names { IfOk result (λ c. c.names ≡ names_at chain.functions order.now.positions) }
    ensures pieces { IfOk result (λ c. pieces_in c ≡ in_graph graph (pieces_at chain.functions order.now.positions)) }
    ensures opening { IfOk result IsOpeningChain }
{
    let declared = chain.functions.as_slice();
    let places = order.positions.as_slice();
    let names = names(alloc, declared, places)?;
    let parts = chain_parts(alloc, declared, places, made.into_vec())?;
    let pieces = running_pieces(alloc, parts)?;
    one_piece_has_the_profiles();
    let pieces = in_graph(pieces, graph)?;
    Ok(ServiceChain {
        declared: chain,
        names: Items::new(names),
        pieces: ChainPieces::new(pieces),
        copies: Tally::new(),
    })
}

// The names of the functions that are declared at these places.
fn names(alloc: Global, declared: &[FunctionDecl], places: &[u32]) -> Result<Vec<Name>, AllocError>
    ensures { IfOk result (λ names. names.items ≡ names_at declared.now places.now) }
{
    let mut names = Vec::new(alloc);
    'places: for place in places {
        names.push(name(alloc, declared, *place)?)?;
    }
    Ok(names)
}

fn name(alloc: Global, declared: &[FunctionDecl], place: u32) -> Result<Name, AllocError>
    ensures { IfOk result (λ name. name ≡ name_at declared.now place) }
{
    let name = name_at(declared, place).to_vec(alloc)?;
    Ok(Name::new(name))
}
