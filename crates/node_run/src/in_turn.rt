//! Runs nodes group by group, each group joined before the next begins.
ghost use Rattle.std.specs.Prelude.{◌≡◌, ◌<◌, ℕ, List, length, All, IfOk, OnOk, slice_index_or, false};
ghost use Rattle.packet_fields.specs.declared.field.Field.{Field};
ghost use Rattle.packet_version.specs.Splitting.{PlainApart};
ghost use Rattle.packet_version.specs.Tallies.{count_of, raised};
ghost use Rattle.packet_messages.specs.Messages.{PlainMessage};
ghost use Rattle.node_run.specs.Crews.{CrewKeeps, GivesTogether};
ghost use Rattle.node_run.specs.Nodes.{Keeps, copies_by_all, gather, is_going, is_ready};
ghost use Rattle.node_run.specs.Runs.{HasRun, MayRun, flat};

use crate::collect::collect;
use crate::crew::{Crew, CrewDone};
use crate::cut::groups_of;
use crate::first::{Dealt, First, deal_first};
use crate::keeping::{keep, keep_crew};
use crate::node::{Done, Node, run_node};
use chain_walk::Fate;
use nfp_outside::Gate;
use packet_messages::Inlets;
use packet_version::{Apart, Tally};
use stage_nodes::{BranchWork, Supply};
use std::alloc::{AllocError, Global};
use std::sync::Wait;
use std::thread;
use std::thread::Threads;

/// Deals the packets to the first stage, runs one group of nodes after another, and collects what comes from the last
/// stage. No node waits for one that is still to be run.
pub(crate) fn run_in_turn<
    F: BranchWork + Drop + Send,
    S: Supply + Drop,
    R: Threads + Wait + Sync,
    G: Gate + Sync,
>(
    rt: &R,
    alloc: Global,
    gate: &G,
    first: First<S>,
    nodes: Vec<Node<F>>,
    behind: Inlets<Apart>,
    count: u32,
) -> Result<(Vec<F>, Vec<Fate>, Tally), AllocError>
    requires run { (copies : Field → ℕ) × (due : List (PlainMessage PlainApart)) × MayRun F.kit F.may S.comes copies first nodes.items count behind due }
    ensures { (copies : Field → ℕ) (due : List (PlainMessage PlainApart)) → MayRun F.kit F.may S.comes copies first nodes.items count behind due → IfOk result (λ ran. HasRun F.kit copies nodes.items due ran.0.items ran.1.items ran.2) }
{
    let groups = groups_of(alloc, nodes)?;
    let dealt = deal_first(rt, alloc, first);
    let (functions, tally) = run_groups(rt, alloc, gate, dealt, groups)?;
    let fates = collect(rt, alloc, behind, count)?;
    Ok((functions, fates, tally))
}

/// Runs the groups in their order. Returns the functions of their branches, and the copies that they and the first
/// dealer made. Fails if memory ran out.
fn run_groups<F: BranchWork + Drop + Send, R: Threads + Wait + Sync, G: Gate + Sync>(
    rt: &R,
    alloc: Global,
    gate: &G,
    dealt: Dealt,
    groups: Vec<Crew<F>>,
) -> Result<(Vec<F>, Tally), AllocError>
    requires ready { All (All (is_ready F.kit F.may)) groups.items }
    ensures functions { IfOk result (λ ended. ended.0.items ≡ gather F.kit (flat groups.items)) }
    ensures counted { IfOk result (λ ended. (f : Field) → count_of ended.1 f ≡ raised (count_of dealt.tally f) (copies_by_all f (flat groups.items))) }
    ensures found { OnOk result (dealt.short ≡ false) }
{
    if dealt.short {
        return Err(AllocError);
    }
    let mut functions = Vec::new(alloc);
    let mut tally = dealt.tally;
    for group in groups {
        let done = run_group(rt, alloc, gate, group)?;
        keep_crew(&mut functions, &mut tally, done)?;
    }
    Ok((functions, tally))
}

/// Runs the nodes of a group side by side, and joins them.
fn run_group<F: BranchWork + Drop + Send, R: Threads + Wait + Sync, G: Gate + Sync>(
    rt: &R,
    alloc: Global,
    gate: &G,
    group: Crew<F>,
) -> Result<CrewDone<F>, AllocError>
    requires ready { All (is_ready F.kit F.may) group }
    ensures { IfOk result (CrewKeeps F.kit group) }
{
    let dones = run_beside(rt, alloc, gate, group.into_nodes())?;
    keep_all(alloc, dones)
}

/// Runs each of these nodes to its end, on a thread of its own if one can be started, and returns their results, in
/// their order. The only error is that memory for that runs out.
fn run_beside<F: BranchWork + Drop + Send, R: Threads + Wait + Sync, G: Gate + Sync>(
    rt: &R,
    alloc: Global,
    gate: &G,
    nodes: Vec<Node<F>>,
) -> Result<Vec<Done<F>>, AllocError>
    requires going { All (is_going F.kit F.may) nodes.items }
    ensures count { IfOk result (λ dones. length dones.items ≡ length nodes.items) }
    ensures each { IfOk result (λ dones. (k : ℕ) (d e : _) → k < length nodes.items → Keeps F.kit (slice_index_or nodes.items k d) (slice_index_or dones.items k e)) }
{
    let run = |node: Node<F>| -> Done<F>
        requires { is_going F.kit F.may node }
        ensures { Keeps F.kit node result }
    { run_node(rt, alloc, gate, node) };
    thread::map_vec(rt, nodes, &run)
}

/// Keeps what nodes returned, in their order. Fails if memory ran out.
fn keep_all<F: Drop>(alloc: Global, dones: Vec<Done<F>>) -> Result<CrewDone<F>, AllocError>
    ensures { IfOk result (GivesTogether dones.items) }
{
    let mut functions = Vec::new(alloc);
    let mut tally = Tally::new();
    for done in dones {
        keep(&mut functions, &mut tally, done)?;
    }
    Ok(CrewDone {
        functions,
        tally,
        short: false,
    })
}
