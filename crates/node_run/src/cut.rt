//! The number of threads of a run, and which nodes share one.
ghost use Rattle.std.specs.Prelude.{◌≡◌, ◌<◌, ◌≤◌, ◌++◌, ◌∷◌, [], length, IfOk, OnOk};
ghost use Rattle.node_run.specs.Runs.{flat};

use crate::crew::Crew;
use crate::node::Node;
use std::alloc::{AllocError, Global};
use std::thread;
use std::thread::Threads;

// The weight of a branch for each packet of the burst. A dealer and a merger weigh an eighth of it for each branch.
const BRANCH: u64 = 64;

const EACH: u64 = 8;

/// The greatest number of threads of a run, including the caller's: twice the number of processors, but at least four.
pub fn most_threads<R: Threads>(rt: &R) -> usize
    ensures { 4 ≤ result }
{
    let processors = match thread::available_parallelism(rt) {
        Ok(count) => count.get(),
        Err(_) => 0,
    };
    processors.saturating_mul(2).max(4)
}

/// The greatest number of crews besides the caller: at most the number of threads, and at most one more than the number
/// of packets, since fewer packets can't be at work in more places with profit.
pub(crate) fn most_crews<R: Threads>(rt: &R, count: u32) -> usize
    ensures { 0 < result }
{
    let threads = most_threads(rt) - 1;
    threads.min((count as usize).saturating_add(1))
}

/// Cuts the nodes into at most this number of crews, each of consecutive nodes, with shares of the work as even as
/// possible. The only error is that memory runs out.
pub(crate) fn crews_of<F: Drop>(
    alloc: Global,
    nodes: Vec<Node<F>>,
    most: usize,
) -> Result<Vec<Crew<F>>, AllocError>
    requires some { 0 < most }
    ensures nodes { IfOk result (λ crews. flat crews.items ≡ nodes.items) }
    ensures few { IfOk result (λ crews. length crews.items ≤ most) }
{
    let whole = weight_of_all(nodes.as_slice());
    let mut before: u64 = 0;
    let mut crews = Vec::new(alloc);
    for node in nodes {
        let weight = weight_of(&node);
        let fresh = is_share_done(before, whole, crews.len(), most);
        place(alloc, &mut crews, node, fresh, most)?;
        before = before.saturating_add(weight);
    }
    Ok(crews)
}

/// Cuts the nodes into groups in which no node waits for another: the branches of a stage, its mergers, or the dealer
/// of the next stage. The only error is that memory runs out.
pub(crate) fn groups_of<F: Drop>(
    alloc: Global,
    nodes: Vec<Node<F>>,
) -> Result<Vec<Crew<F>>, AllocError>
    ensures { IfOk result (λ groups. flat groups.items ≡ nodes.items) }
{
    let mut last = Rank::Dealer;
    let mut groups = Vec::new(alloc);
    for node in nodes {
        let rank = rank_of(&node);
        place(alloc, &mut groups, node, rank != last, usize::MAX)?;
        last = rank;
    }
    Ok(groups)
}

/// The role of a node in its stage.
#[derive(Clone, Copy, PartialEq, Eq)]
enum Rank {
    Dealer,
    Branch,
    Merger,
}

/// The role of this node.
fn rank_of<F>(node: &Node<F>) -> Rank {
    match node {
        Node::Dealer(_) => Rank::Dealer,
        Node::Branch(_) => Rank::Branch,
        Node::Replica(_) => Rank::Branch,
        Node::Merger(_) => Rank::Merger,
    }
}

/// Adds a node: to a crew of its own if one is due and another is allowed, and otherwise to the last crew.
fn place<F: Drop>(
    alloc: Global,
    crews: &mut Vec<Crew<F>>,
    node: Node<F>,
    fresh: bool,
    most: usize,
) -> Result<(), AllocError>
    requires some { 0 < most }
    requires few { length crews.old.items ≤ most }
    ensures nodes { OnOk result (flat crews.new.items ≡ flat crews.old.items ++ node ∷ []) }
    ensures few { OnOk result (length crews.new.items ≤ most) }
{
    let mut crew = next_crew(alloc, crews, fresh, most);
    crew.push(node)?;
    crews.push(crew)?;
    Ok(())
}

/// A crew for the next node: one without nodes, or the last crew, which is taken out.
fn next_crew<F: Drop>(alloc: Global, crews: &mut Vec<Crew<F>>, fresh: bool, most: usize) -> Crew<F>
    requires some { 0 < most }
    requires few { length crews.old.items ≤ most }
    ensures nodes { flat crews.new.items ++ result ≡ flat crews.old.items }
    ensures few { length crews.new.items < most }
{
    if fresh && crews.len() < most {
        return Crew::new(alloc);
    }
    match crews.pop() {
        Some(crew) => crew,
        None => Crew::new(alloc),
    }
}

/// Have nodes of weight `before` reached the share of `crews` crews out of `most`, rounded by half a share?
fn is_share_done(before: u64, whole: u64, crews: usize, most: usize) -> bool {
    let shares = before.saturating_mul(most as u64).saturating_add(whole / 2);
    shares >= whole.saturating_mul(crews as u64)
}

/// The weight of all these nodes.
fn weight_of_all<F>(nodes: &[Node<F>]) -> u64 {
    let mut whole: u64 = 0;
    for node in nodes {
        whole = whole.saturating_add(weight_of(node));
    }
    whole
}

/// The weight of a node: its work on a packet times its share of the packets.
fn weight_of<F>(node: &Node<F>) -> u64 {
    match node {
        Node::Dealer(dealer) => weight_of_row(dealer.parts.touches.as_slice().len()),
        Node::Branch(branch) => share_of(BRANCH, branch.step),
        Node::Replica(branch) => share_of(BRANCH, branch.step),
        Node::Merger(merger) => share_of(weight_of_row(merger.inlets.len()), merger.step),
    }
}

/// The weight of giving its part of a packet to each of this number of branches, or of taking it.
fn weight_of_row(branches: usize) -> u64 {
    EACH.saturating_mul(branches as u64)
}

/// One of `shares` equal shares.
fn share_of(weight: u64, shares: u32) -> u64 {
    if shares == 0 {
        return weight;
    }
    weight / u64::from(shares)
}
