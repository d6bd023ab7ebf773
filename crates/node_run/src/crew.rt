//! Nodes that share a thread.
ghost use Rattle.std.specs.Prelude.{◌≡◌, ◌<◌, ◌++◌, ◌∷◌, [], false, length, All, OnOk};
ghost use Rattle.node_run.specs.Nodes.{Keeps, is_going, is_ready};
ghost use Rattle.node_run.specs.Crews.{CrewKeeps, HaveTurned, KeepsAll, KeepsMore};

use crate::keeping::keep;
use crate::node::{Done, Node, is_next, run_node, turn_node};
use nfp_outside::Gate;
use packet_version::Tally;
use stage_nodes::BranchWork;
use std::alloc::{AllocError, Global};
use std::marker::Model;
use std::snapshot::Snapshot;
use std::sync::Wait;
use std::thread::Promise;

/// Nodes that run on one thread, in this order. Contracts see them.
#[derive(Drop)]
pub(crate) struct Crew<F> {
    nodes: Vec<Node<F>>,
}

impl<F> Model for Crew<F> {
    ghost use Rattle.std.specs.Prelude.{List};
    ghost use Rattle.node_run.specs.declared.node.Node.{Node};

    ghost Value = { List (Node F) };

    ghost view = { λ c. c.nodes.items };
}

impl<F: Drop> Crew<F> {
    /// No nodes.
    pub(crate) fn new(alloc: Global) -> Crew<F>
        ensures { result ≡ [] }
    {
        Crew {
            nodes: Vec::new(alloc),
        }
    }

    /// Adds a node after the others. The only error is that memory runs out.
    pub(crate) fn push(&mut self, node: Node<F>) -> Result<(), AllocError>
        ensures { OnOk result (self.new ≡ self.old ++ node ∷ []) }
    {
        self.nodes.push(node)?;
        Ok(())
    }

    /// Its nodes.
    pub(crate) fn into_nodes(self) -> Vec<Node<F>>
        ensures { result.items ≡ self }
    {
        self.nodes
    }
}

/// What a crew returns: the functions of its branches in their order, the copies that its dealers made, and whether one
/// of its nodes ran out of memory.
#[derive(Drop)]
pub(crate) struct CrewDone<F> {
    pub(crate) functions: Vec<F>,
    pub(crate) tally: Tally,
    pub(crate) short: bool,
}

/// The promise that a crew returns what is due, unless memory ran out.
#[derive(Drop)]
pub(crate) struct Due<F>(pub(crate) Snapshot<Crew<F>>);

impl<F: BranchWork> Promise<CrewDone<F>> for Due<F> {
    ghost use Rattle.node_run.specs.Crews.{CrewKeeps};

    ghost kept_by = { λ p r. CrewKeeps F.kit p.0.value r };
}

/// Runs the nodes of a crew to their ends, packet by packet for `count` packets: for each packet its nodes take their
/// turns in their order, those that have one. Then each node takes the turns that are left, one node after another.
pub(crate) fn run_crew<F: BranchWork + Drop, R: Wait, G: Gate>(
    rt: &R,
    alloc: Global,
    gate: &G,
    crew: Crew<F>,
    count: u32,
) -> CrewDone<F>
    requires { All (is_ready F.kit F.may) crew }
    ensures { CrewKeeps F.kit crew result }
{
    let mut nodes = crew.into_nodes();
    for packet in 0..count {
        turn_packet(rt, alloc, gate, &mut nodes, packet);
    }
    end_all(rt, alloc, gate, nodes)
}

/// Takes the turns for a packet, of all nodes of a crew in their order.
fn turn_packet<F: BranchWork + Drop, R: Wait, G: Gate>(
    rt: &R,
    alloc: Global,
    gate: &G,
    nodes: &mut Vec<Node<F>>,
    packet: u32,
)
    requires { All (is_going F.kit F.may) nodes.old.items }
    ensures { HaveTurned F.kit F.may nodes.old.items nodes.new.items }
{
    turn_all(rt, alloc, gate, nodes.as_mut_slice(), packet);
}

/// Takes the turns for a packet, of these nodes in their order.
fn turn_all<F: BranchWork + Drop, R: Wait, G: Gate>(
    rt: &R,
    alloc: Global,
    gate: &G,
    nodes: &mut [Node<F>],
    packet: u32,
)
    requires { All (is_going F.kit F.may) nodes.old }
    ensures { HaveTurned F.kit F.may nodes.old nodes.new }
{
    for index in 0..nodes.len() {
        turn_at(rt, alloc, gate, nodes, index, packet);
    }
}

/// Takes the turn for a packet, of the node at this place, if the packet is the node's next.
fn turn_at<F: BranchWork + Drop, R: Wait, G: Gate>(
    rt: &R,
    alloc: Global,
    gate: &G,
    nodes: &mut [Node<F>],
    index: usize,
    packet: u32,
)
    requires inside { index < length nodes.old }
    requires going { All (is_going F.kit F.may) nodes.old }
    ensures { HaveTurned F.kit F.may nodes.old nodes.new }
{
    if !is_next(&nodes[index], packet) {
        return;
    }
    turn_node(rt, alloc, gate, &mut nodes[index]);
}

/// Takes all turns that are left, one node after another. Each is run to its end, whatever allocation fails.
fn end_all<F: BranchWork + Drop, R: Wait, G: Gate>(
    rt: &R,
    alloc: Global,
    gate: &G,
    nodes: Vec<Node<F>>,
) -> CrewDone<F>
    requires { All (is_going F.kit F.may) nodes.items }
    ensures { KeepsAll F.kit nodes.items result.functions.items result.tally result.short }
{
    let mut functions = Vec::new(alloc);
    let mut tally = Tally::new();
    let mut short = false;
    for node in nodes {
        let done = run_node(rt, alloc, gate, node);
        short = keep_or_short(&mut functions, &mut tally, short, done);
    }
    CrewDone {
        functions,
        tally,
        short,
    }
}

/// Keeps what a node returned, and returns whether memory has run out by now.
fn keep_or_short<F: Drop>(
    functions: &mut Vec<F>,
    tally: &mut Tally,
    short: bool,
    done: Done<F>,
) -> bool
    ensures { result ≡ false → (short ≡ false) × KeepsMore done functions.old.items functions.new.items tally.old tally.new }
{
    match keep(functions, tally, done) {
        Ok(()) => short,
        Err(_) => true,
    }
}
