//! Makes a board of messages with all its seats.
ghost use Rattle.std.specs.Prelude.{◌≡◌, ◌<◌, ◌≤◌, length, All, IfOk};
ghost use Rattle.std.specs.Arc.{arc_value};
ghost use Rattle.merge_board.specs.Ends.{each, new_branch, new_merger};
ghost use Rattle.packet_messages.specs.BoardSeats.{HasRoom};

use crate::board_inlets::{BoardInlets, inlets_of};
use crate::board_outlet::{BoardOutlet, outlet_of};
use crate::parcel::Parcel;
use merge_board::{Board, BoardDue, BranchSeat, MergerSeat, Seats};
use std::alloc::{AllocError, Global};
use std::sync::Arc;

/// Makes a board for at most this number of packets of one merger, and returns its ends: the outlet of each branch, and
/// the merger's inlets. The only error is that memory runs out, and no later call allocates any.
///
/// `D.due` is what is due on it, a row for each branch. A caller makes the board in a function that is generic in `D`
/// and requires what `D.due` is. It calls this function with `Brand` for `D`, and its proof picks the rows.
pub fn board_ends<P: Drop, D: BoardDue<Parcel<P>>>(
    alloc: Global,
    branches: u32,
    count: u32,
) -> Result<(Vec<BoardOutlet<P>>, BoardInlets<P>), AllocError>
    requires branches { (0 < branches) × (branches ≤ 64) }
    requires few { count < 65537 }
    requires rows { length D.due ≡ branches }
    requires long { All (λ row. length row ≤ count) D.due }
    ensures outlets { IfOk result (λ e. e.0.items ≡ D.due) }
    ensures inlets { IfOk result (λ e. e.1 ≡ D.due) }
{
    let packets = at_least_one(count);
    let (board, seats) = Board::<Parcel<P>>::new::<D>(alloc, packets, branches, 1)?;
    let board = Arc::new(alloc, board)?;
    let Seats { branch, merger } = seats;
    let outlets = all_outlets::<P, D>(alloc, &board, branch)?;
    let inlets = only_inlets::<P, D>(board, merger, branches);
    Ok((outlets, inlets))
}

// `count`, but at least 1: a board can't be for no packets.
fn at_least_one(count: u32) -> u32
    ensures some { 0 < result }
    ensures room { count ≤ result }
    ensures few { count < 65537 → result ≤ 65536 }
{
    count.max(1)
}

// The outlet of each branch, in order.
fn all_outlets<P: Drop, D: BoardDue<Parcel<P>>>(
    alloc: Global,
    board: &Arc<Board<Parcel<P>>>,
    seats: Vec<BranchSeat<Parcel<P>>>,
) -> Result<Vec<BoardOutlet<P>>, AllocError>
    requires seats { seats.items ≡ each (new_branch (arc_value board.now).board D.due) (arc_value board.now).branches }
    requires room { HasRoom (arc_value board.now) D.due }
    ensures { IfOk result (λ o. o.items ≡ D.due) }
{
    let mut outlets = Vec::new(alloc);
    for seat in seats {
        let shared = Arc::try_clone(board)?;
        outlets.push(outlet_of(shared, seat))?;
    }
    Ok(outlets)
}

// The inlets of the one merger.
#[tactic(auto, using(crate::proofs::Dealt::one_seat))]
fn only_inlets<P: Drop, D: BoardDue<Parcel<P>>>(
    board: Arc<Board<Parcel<P>>>,
    mut seats: Vec<MergerSeat<Parcel<P>>>,
    branches: u32,
) -> BoardInlets<P>
    requires seats { seats.items ≡ each (new_merger (arc_value board).board D.due) 1 }
    requires room { HasRoom (arc_value board) D.due }
    requires branches { (arc_value board).branches ≡ branches }
    ensures { result ≡ D.due }
{
    let seat = seats.remove(0);
    inlets_of(board, seat, branches)
}
