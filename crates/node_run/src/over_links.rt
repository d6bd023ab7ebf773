//! A stage's branches and a merger meet over links, one from each branch.
ghost use Rattle.std.specs.Prelude.{◌≡◌, ◌<◌, length, map, IfOk};
ghost use Rattle.packet_messages.specs.Turns.{share};
ghost use Rattle.stage_nodes.specs.Streams.{Edge.FromBranch, came_from, stream};
ghost use Rattle.node_run.specs.Wired.{MayMeet};

use crate::fans::share_count;
use action_profile::Touch;
use packet_messages::{Inlet, Inlets, Outlet, Parcel, edge};
use packet_version::{Apart, Version};
use ruled_links::LinkDue;
use stage_nodes::{BranchWork, FromBranches, ToMerger, ToMergers};
use std::alloc::{AllocError, Global};
use std::marker::Brand;

/// The links from the branches with these touches and functions to one of `mergers` mergers, for its share of `count`
/// packets: the branches' ends, and the merger's.
pub(crate) fn meet_over_links<F: BranchWork, D: LinkDue<Parcel<Apart>>>(
    alloc: Global,
    touches: &[Touch],
    functions: &[F],
    mergers: u32,
    merger: u32,
    count: u32,
) -> Result<(ToMergers, FromBranches), AllocError>
    requires { MayMeet touches.now functions.now mergers count D.due }
    ensures ends { IfOk result (λ e. e.0 ≡ map (share mergers merger) (came_from F.kit touches.now functions.now D.due)) }
    ensures inlets { IfOk result (λ e. e.1 ≡ map (share mergers merger) (came_from F.kit touches.now functions.now D.due)) }
{
    let mut ends = ToMergers::new(alloc);
    let mut inlets = Inlets::new(alloc);
    for branch in 0..functions.len() {
        let (outlet, inlet) = branch_link::<F, D, Brand>(
            alloc,
            touches[branch],
            &functions[branch],
            mergers,
            merger,
            count,
        )?;
        ends.push(ToMerger::of_link(outlet))?;
        inlets.push(inlet)?;
    }
    let from_branches = FromBranches::of_links(alloc, inlets)?;
    Ok((ends, from_branches))
}

/// The link from a branch to one of the mergers.
fn branch_link<F: BranchWork, D: LinkDue<Parcel<Apart>>, E: LinkDue<Parcel<Version>>>(
    alloc: Global,
    touch: Touch,
    work: &F,
    mergers: u32,
    merger: u32,
    count: u32,
) -> Result<(Outlet<Version>, Inlet<Version>), AllocError>
    requires due { E.due ≡ share mergers merger (stream F.kit D.due (FromBranch touch work.now)) }
    requires some { 0 < mergers }
    requires few { count < 65537 }
    requires many { length D.due ≡ count }
    ensures { IfOk result (λ e. (e.0 ≡ share mergers merger (stream F.kit D.due (FromBranch touch work.now))) × (e.1 ≡ share mergers merger (stream F.kit D.due (FromBranch touch work.now)))) }
{
    edge::<Version, E>(alloc, share_count(count, mergers, merger))
}
