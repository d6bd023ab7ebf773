//! A node of any kind.
ghost use Rattle.std.specs.Prelude.{◌≡◌};
ghost use Rattle.node_run.specs.Nodes.{HasTurned, Keeps, has_next, is_going};

use nfp_outside::Gate;
use packet_messages::Inlets;
use packet_version::{Apart, Tally};
use stage_nodes::{Branch, BranchWork, Dealer, Merger, run_branch, run_dealer, run_merger};
use std::alloc::Global;
use std::sync::Wait;

/// A dealer of a stage after the first, a branch, a replica of a branch that keeps no state, or a merger, with its ends
/// of links and of boards.
#[derive(Drop)]
pub enum Node<F> {
    Dealer(Dealer<Inlets<Apart>>),
    Branch(Branch<F>),
    Replica(Branch<F>),
    Merger(Merger),
}

/// What a node returns: a branch its functions, unless it is a replica, a dealer the copies that it made, and each
/// whether it ran out of memory. A merger reports that for the packets that it gives.
#[derive(Drop)]
pub(crate) struct Done<F> {
    pub(crate) function: Option<F>,
    pub(crate) tally: Tally,
    pub(crate) short: bool,
}

/// Is the packet with this number in the burst the next one of a node?
pub(crate) fn is_next<F>(node: &Node<F>, packet: u32) -> bool
    ensures { result ≡ has_next node.now packet }
{
    match node {
        Node::Dealer(_) => true,
        Node::Branch(branch) => branch.first == packet,
        Node::Replica(branch) => branch.first == packet,
        Node::Merger(merger) => merger.first == packet,
    }
}

/// Takes the next turn of a node, if it has one left.
pub(crate) fn turn_node<F: BranchWork + Drop, R: Wait, G: Gate>(
    rt: &R,
    alloc: Global,
    gate: &G,
    node: &mut Node<F>,
)
    requires { is_going F.kit F.may node.old }
    ensures { HasTurned F.kit F.may node.old node.new }
{
    match node {
        Node::Dealer(dealer) => dealer.turn(rt, alloc),
        Node::Branch(branch) => branch.turn(rt, alloc, gate),
        Node::Replica(branch) => branch.turn(rt, alloc, gate),
        Node::Merger(merger) => merger.turn(rt, alloc),
    }
}

/// Takes all turns that a node has left.
pub(crate) fn run_node<F: BranchWork + Drop, R: Wait, G: Gate>(
    rt: &R,
    alloc: Global,
    gate: &G,
    node: Node<F>,
) -> Done<F>
    requires { is_going F.kit F.may node }
    ensures { Keeps F.kit node result }
{
    match node {
        Node::Dealer(mut dealer) => {
            let (tally, short) = run_dealer(rt, alloc, &mut dealer);
            Done {
                function: None,
                tally,
                short,
            }
        }
        Node::Branch(mut branch) => {
            let short = run_branch(rt, alloc, gate, &mut branch);
            Done {
                function: Some(branch.work),
                tally: Tally::new(),
                short,
            }
        }
        Node::Replica(mut branch) => {
            let short = run_branch(rt, alloc, gate, &mut branch);
            Done {
                function: None,
                tally: Tally::new(),
                short,
            }
        }
        Node::Merger(mut merger) => {
            run_merger(rt, alloc, &mut merger);
            Done {
                function: None,
                tally: Tally::new(),
                short: false,
            }
        }
    }
}
