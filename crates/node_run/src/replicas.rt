//! Nodes of a branch that keeps no state: one for each merger, each with functions of its own.
ghost use Rattle.std.specs.Prelude.{◌≡◌, ◌<◌, ◌≤◌, ◌++◌, ◌+◌, ◌-◌, ◌∷◌, [], ℕ, suc, List, IfOk, IfSome, OnOk};
ghost use Rattle.packet_fields.specs.declared.field.Field.{Field};
ghost use Rattle.packet_version.specs.Versions.{PlainVersion};
ghost use Rattle.packet_messages.specs.Messages.{PlainMessage};
ghost use Rattle.stage_nodes.specs.Streams.{left};
ghost use Rattle.node_run.specs.Nodes.{AreNodes, branch_ready};
ghost use Rattle.node_run.specs.Edges.{HasFirst, HaveJoined, to_split};
ghost use Rattle.node_run.specs.Wired.{HasWired, MayWire};
ghost use Rattle.node_run.specs.Replicas.{AreReplicas, ReplicasFit};

use crate::branches::{Branches, version_fan};
use crate::fans::share_count;
use crate::node::Node;
use action_profile::Touch;
use packet_messages::{Inlets, Parcel};
use packet_version::{Apart, Version};
use ruled_links::LinkDue;
use stage_nodes::{Branch, BranchWork, Giving, ToMergers};
use std::alloc::{AllocError, Global};
use std::marker::Brand;

/// The requested number of clones of the functions, if they keep no state.
pub(crate) fn replicas_of<F: BranchWork + Drop>(
    alloc: Global,
    work: &F,
    count: u32,
) -> Result<Option<Vec<F>>, AllocError>
    requires { 0 < count }
    ensures { IfOk result (λ found. IfSome found (λ replicas. AreReplicas F.kit work.now count replicas.items)) }
{
    let mut replicas = Vec::new(alloc);
    for _replica in 0..count {
        match work.try_clone(alloc)? {
            Some(replica) => replicas.push(replica)?,
            None => return Ok(None),
        }
    }
    Ok(Some(replicas))
}

/// Adds a branch with a node for each merger: the first has its functions, and returns them at the end, and the others
/// have these replicas of them.
pub(crate) fn wire_replicas<F: BranchWork + Drop, D: LinkDue<Parcel<Apart>>>(
    alloc: Global,
    touch: Touch,
    work: F,
    replicas: Vec<F>,
    ends: ToMergers,
    mergers: u32,
    count: u32,
    wired: &mut Branches<F>,
) -> Result<(), AllocError>
    requires replicas { AreReplicas F.kit work (mergers - 1) replicas.items }
    requires branch { MayWire F.kit F.may touch work mergers count D.due ends }
    ensures { OnOk result (HasWired F.kit F.may touch work mergers D.due wired.old wired.new) }
{
    let (versions, inlets) = version_fan::<F, D, Brand>(alloc, touch, mergers, count)?;
    wired.versions.push(versions)?;
    push_replicas(
        alloc,
        work,
        replicas,
        inlets,
        ends,
        mergers,
        count,
        &mut wired.nodes,
    )?;
    Ok(())
}

/// The nodes of a branch, one for each merger, in their order.
fn push_replicas<F: BranchWork + Drop>(
    alloc: Global,
    work: F,
    replicas: Vec<F>,
    inlets: Inlets<Version>,
    ends: ToMergers,
    mergers: u32,
    count: u32,
    nodes: &mut Vec<Node<F>>,
) -> Result<(), AllocError>
    requires replicas { AreReplicas F.kit work (mergers - 1) replicas.items }
    requires some { 0 < mergers }
    requires few_mergers { mergers ≤ 16 }
    requires few { count < 65537 }
    requires fits { (versions : List (PlainMessage PlainVersion)) × ReplicasFit F.kit F.may work mergers 0 mergers count versions inlets ends }
    ensures nodes { OnOk result ((fs : List F) (c : Field → ℕ) → AreNodes F.kit F.may nodes.old.items fs c → AreNodes F.kit F.may nodes.new.items (fs ++ work ∷ []) c) }
    ensures joined { OnOk result (HaveJoined (to_split mergers count inlets ends) nodes.old.items nodes.new.items) }
{
    let mut inlets = inlets;
    let mut ends = ends;
    let first = replica_at(alloc, work, &mut inlets, &mut ends, mergers, 0, count)?;
    nodes.push(Node::Branch(first))?;
    let mut merger = 1;
    for replica in replicas {
        let other = replica_at(
            alloc,
            replica,
            &mut inlets,
            &mut ends,
            mergers,
            merger,
            count,
        )?;
        nodes.push(Node::Replica(other))?;
        merger += 1;
    }
    Ok(())
}

/// The node for this merger, which has the first of the ends that are left.
fn replica_at<F: BranchWork + Drop>(
    alloc: Global,
    work: F,
    inlets: &mut Inlets<Version>,
    ends: &mut ToMergers,
    mergers: u32,
    merger: u32,
    count: u32,
) -> Result<Branch<F>, AllocError>
    requires some { 0 < mergers }
    requires few_mergers { mergers ≤ 16 }
    requires inside { merger < mergers }
    requires few { count < 65537 }
    requires fits { (versions : List (PlainMessage PlainVersion)) × (c : ℕ) × ReplicasFit F.kit F.may work mergers merger (suc c) count versions inlets.old ends.old }
    ensures ready { IfOk result (λ b. branch_ready F.kit F.may b) }
    ensures work { IfOk result (λ b. left F.kit b.work b.inlet ≡ work) }
    ensures first { IfOk result (λ b. HasFirst mergers merger count b inlets.old inlets.new ends.old ends.new) }
    ensures on { OnOk result ((versions : List (PlainMessage PlainVersion)) (c : ℕ) → ReplicasFit F.kit F.may work mergers merger (suc c) count versions inlets.old ends.old →
        ReplicasFit F.kit F.may work mergers (merger + 1) c count versions inlets.new ends.new) }
{
    let inlet = inlets.take_first();
    let mut outlets = ToMergers::new(alloc);
    outlets.push(ends.take_first())?;
    let to = Giving::new(outlets);
    Ok(Branch {
        inlet,
        to,
        work,
        first: merger,
        step: mergers,
        count: share_count(count, mergers, merger),
    })
}
