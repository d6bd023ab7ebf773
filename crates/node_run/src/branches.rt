//! The branches of a stage, with their links from the dealer and their ends to the mergers.
ghost use Rattle.std.specs.Prelude.{◌≡◌, ◌<◌, ◌≤◌, length, map, All, IfOk, OnOk};
ghost use Rattle.packet_messages.specs.Messages.{Owing, front, rest};
ghost use Rattle.packet_messages.specs.Turns.{columns, shares};
ghost use Rattle.stage_nodes.specs.Streams.{Edge.ToBranch, came_from, stream};
ghost use Rattle.stage_nodes.specs.Flows.{AllMayTake};
ghost use Rattle.node_run.specs.Wired.{AreWired, HasWired, MayWire};

use crate::fans::fan;
use crate::node::Node;
use crate::replicas::{replicas_of, wire_replicas};
use action_profile::Touch;
use packet_messages::{Fans, Inlets, Outlets, Parcel};
use packet_version::{Apart, Version};
use ruled_links::LinkDue;
use stage_nodes::{Branch, BranchWork, Giving, ToMergers, take_ends};
use std::alloc::{AllocError, Global};
use std::marker::Brand;

/// The branches of a stage: the ends from which the dealer serves them, and their nodes.
#[derive(Drop)]
pub(crate) struct Branches<F> {
    pub(crate) versions: Fans<Version>,
    pub(crate) nodes: Vec<Node<F>>,
}

/// The branches with these touches and functions, each with its ends to the mergers, for `count` packets.
pub(crate) fn wire_branches<F: BranchWork + Drop, D: LinkDue<Parcel<Apart>>>(
    alloc: Global,
    touches: &[Touch],
    functions: Vec<F>,
    ends: Vec<ToMergers>,
    mergers: u32,
    count: u32,
) -> Result<Branches<F>, AllocError>
    requires some { 0 < mergers }
    requires few_mergers { mergers ≤ 16 }
    requires few { count < 65537 }
    requires many { length D.due ≡ count }
    requires owners { length functions.items ≡ length touches.now }
    requires take { AllMayTake F.kit F.may touches.now functions.items D.due }
    requires ends { ends.items ≡ columns mergers (came_from F.kit touches.now functions.items D.due) }
    ensures { IfOk result (λ w. AreWired F.kit F.may touches.now functions.items mergers D.due w) }
{
    let mut ends = ends;
    let mut wired = Branches {
        versions: Fans::new(alloc),
        nodes: Vec::new(alloc),
    };
    let mut branch = 0;
    for work in functions {
        let own = next_ends(alloc, &mut ends)?;
        wire_branch::<F, D>(
            alloc,
            touches[branch],
            work,
            own,
            mergers,
            count,
            &mut wired,
        )?;
        branch += 1;
    }
    Ok(wired)
}

/// The ends of the next branch, one to each merger.
fn next_ends(alloc: Global, ends: &mut Vec<ToMergers>) -> Result<ToMergers, AllocError>
    requires { All Owing ends.old.items }
    ensures row { IfOk result (λ row. row ≡ map front ends.old.items) }
    ensures after { OnOk result (ends.new.items ≡ map rest ends.old.items) }
{
    take_ends(alloc, ends.as_mut_slice())
}

/// Adds a branch, which gives into these ends. If its functions keep no state and there are several mergers, it has a
/// node for each of them, and otherwise one for all.
fn wire_branch<F: BranchWork + Drop, D: LinkDue<Parcel<Apart>>>(
    alloc: Global,
    touch: Touch,
    work: F,
    ends: ToMergers,
    mergers: u32,
    count: u32,
    wired: &mut Branches<F>,
) -> Result<(), AllocError>
    requires { MayWire F.kit F.may touch work mergers count D.due ends }
    ensures { OnOk result (HasWired F.kit F.may touch work mergers D.due wired.old wired.new) }
{
    if mergers > 1
        && let Some(replicas) = replicas_of(alloc, &work, mergers - 1)?
    {
        return wire_replicas::<F, D>(alloc, touch, work, replicas, ends, mergers, count, wired);
    }
    wire_alone::<F, D>(alloc, touch, work, ends, mergers, count, wired)
}

/// Adds a branch with one node.
fn wire_alone<F: BranchWork + Drop, D: LinkDue<Parcel<Apart>>>(
    alloc: Global,
    touch: Touch,
    work: F,
    ends: ToMergers,
    mergers: u32,
    count: u32,
    wired: &mut Branches<F>,
) -> Result<(), AllocError>
    requires { MayWire F.kit F.may touch work mergers count D.due ends }
    ensures { OnOk result (HasWired F.kit F.may touch work mergers D.due wired.old wired.new) }
{
    let (versions, mut inlets) = version_fan::<F, D, Brand>(alloc, touch, 1, count)?;
    wired.versions.push(versions)?;
    let to = Giving::new(ends);
    wired.nodes.push(Node::Branch(Branch {
        inlet: inlets.take_first(),
        to,
        work,
        first: 0,
        step: 1,
        count,
    }))?;
    Ok(())
}

/// The links from the dealer to a branch with this number of nodes.
pub(crate) fn version_fan<F: BranchWork, D: LinkDue<Parcel<Apart>>, E: LinkDue<Parcel<Version>>>(
    alloc: Global,
    touch: Touch,
    nodes: u32,
    count: u32,
) -> Result<(Outlets<Version>, Inlets<Version>), AllocError>
    requires due { E.due ≡ stream F.kit D.due (ToBranch touch) }
    requires some { 0 < nodes }
    requires few { count < 65537 }
    requires many { length D.due ≡ count }
    ensures { IfOk result (λ e. (e.0 ≡ shares nodes (stream F.kit D.due (ToBranch touch))) × (e.1 ≡ shares nodes (stream F.kit D.due (ToBranch touch)))) }
{
    fan::<Version, E>(alloc, nodes, count)
}
