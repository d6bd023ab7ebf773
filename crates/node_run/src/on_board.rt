//! A stage's branches and a merger meet on a board.
ghost use Rattle.std.specs.Prelude.{◌≡◌, map, IfOk};
ghost use Rattle.packet_messages.specs.Turns.{share};
ghost use Rattle.stage_nodes.specs.Streams.{came_from};
ghost use Rattle.node_run.specs.Wired.{MayMeet};

use crate::fans::share_count;
use action_profile::Touch;
use merge_board::BoardDue;
use packet_messages::{BoardOutlet, Parcel, board_ends};
use packet_version::{Apart, Version};
use ruled_links::LinkDue;
use stage_nodes::{BranchWork, FromBranches, ToMerger, ToMergers};
use std::alloc::{AllocError, Global};

/// A board for the branches with these touches and functions and one of `mergers` mergers, for its share of `count`
/// packets: the branches' seats, and the merger's.
pub(crate) fn meet_on_board<F: BranchWork, D: LinkDue<Parcel<Apart>>, E: BoardDue<Parcel<Version>>>(
    alloc: Global,
    touches: &[Touch],
    functions: &[F],
    mergers: u32,
    merger: u32,
    count: u32,
) -> Result<(ToMergers, FromBranches), AllocError>
    requires due { E.due ≡ map (share mergers merger) (came_from F.kit touches.now functions.now D.due) }
    requires meet { MayMeet touches.now functions.now mergers count D.due }
    ensures ends { IfOk result (λ e. e.0 ≡ map (share mergers merger) (came_from F.kit touches.now functions.now D.due)) }
    ensures inlets { IfOk result (λ e. e.1 ≡ map (share mergers merger) (came_from F.kit touches.now functions.now D.due)) }
{
    let branches = touches.len() as u32;
    let own = share_count(count, mergers, merger);
    let (seats, inlets) = board_ends::<Version, E>(alloc, branches, own)?;
    let ends = branch_ends(alloc, seats)?;
    let from_branches = FromBranches::of_board(alloc, inlets)?;
    Ok((ends, from_branches))
}

/// The branches' seats as ends to the merger.
fn branch_ends(alloc: Global, seats: Vec<BoardOutlet<Version>>) -> Result<ToMergers, AllocError>
    ensures { IfOk result (λ ends. ends ≡ seats.items) }
{
    let mut ends = ToMergers::new(alloc);
    for seat in seats {
        ends.push(ToMerger::of_board(seat))?;
    }
    Ok(ends)
}
