//! Where the branches of a stage meet its mergers.
ghost use Rattle.std.specs.Prelude.{◌≡◌, ◌<◌, ◌∷◌, length, map, IfOk};
ghost use Rattle.packet_messages.specs.Turns.{share};
ghost use Rattle.stage_nodes.specs.Streams.{came_from};
ghost use Rattle.node_run.specs.Wired.{MayMeet, Meets};

use crate::on_board::meet_on_board;
use crate::over_links::meet_over_links;
use action_profile::Touch;
use packet_messages::Parcel;
use packet_version::Apart;
use ruled_links::LinkDue;
use stage_nodes::{BranchWork, FromBranches, ToMergers};
use std::alloc::{AllocError, Global};
use std::marker::Brand;

/// How the results of the branches of a stage come together.
#[derive(Clone, Copy, PartialEq, Eq, Debug)]
pub enum MergeWay {
    /// Over links, from which the mergers take.
    Inbox,
    /// On boards, one for each merger, where each branch puts its results and the merger polls.
    Board,
}

/// For each merger of a stage the ends of the branches, in branch order, and its own.
#[derive(Drop)]
pub(crate) struct Meeting {
    pub(crate) ends: Vec<ToMergers>,
    pub(crate) inlets: Vec<FromBranches>,
}

/// Where the branches with these touches and functions meet `mergers` mergers, for `count` packets. The ends have one
/// contract for both ways.
pub(crate) fn meet<F: BranchWork, D: LinkDue<Parcel<Apart>>>(
    alloc: Global,
    way: MergeWay,
    touches: &[Touch],
    functions: &[F],
    mergers: u32,
    count: u32,
) -> Result<Meeting, AllocError>
    requires { MayMeet touches.now functions.now mergers count D.due }
    ensures { IfOk result (λ w. Meets mergers (came_from F.kit touches.now functions.now D.due) w) }
{
    let mut ends = Vec::new(alloc);
    let mut inlets = Vec::new(alloc);
    for merger in 0..mergers {
        let (own, from_branches) = meet_merger::<F, D>(
            alloc, way, touches, functions, mergers, merger, count,
        )?;
        ends.push(own)?;
        inlets.push(from_branches)?;
    }
    Ok(Meeting { ends, inlets })
}

/// Where the branches meet one merger, which has its share of the packets.
fn meet_merger<F: BranchWork, D: LinkDue<Parcel<Apart>>>(
    alloc: Global,
    way: MergeWay,
    touches: &[Touch],
    functions: &[F],
    mergers: u32,
    merger: u32,
    count: u32,
) -> Result<(ToMergers, FromBranches), AllocError>
    requires { MayMeet touches.now functions.now mergers count D.due }
    ensures ends { IfOk result (λ e. e.0 ≡ map (share mergers merger) (came_from F.kit touches.now functions.now D.due)) }
    ensures inlets { IfOk result (λ e. e.1 ≡ map (share mergers merger) (came_from F.kit touches.now functions.now D.due)) }
{
    match way {
        MergeWay::Inbox => {
            meet_over_links::<F, D>(alloc, touches, functions, mergers, merger, count)
        }
        MergeWay::Board => {
            meet_on_board::<F, D, Brand>(alloc, touches, functions, mergers, merger, count)
        }
    }
}

/// Takes the first of these ends out.
pub(crate) fn take_first<T>(ends: &mut Vec<T>) -> T
    requires { 0 < length ends.old.items }
    ensures { ends.old.items ≡ result ∷ ends.new.items }
{
    ends.remove(0)
}
