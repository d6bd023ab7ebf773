//! How the seats of a board are dealt out: one role after another, the branches first.
ghost use Rattle.std.specs.Prelude.{◌≡◌, ◌<◌, ◌*◌, ◌+◌, IfOk, OnOk};
ghost use Rattle.merge_board.specs.Ends.{each, new_branch, new_merger};
ghost use Rattle.merge_board.specs.Rule.{HasDealt};

use crate::fit::{BoardDue, BoardFit};
use crate::plays::Deal;
use crate::rule::{Ruled, Sizes, View};
use crate::seats::{BranchSeat, MergerSeat};
use atomic_table::{Seat, Shared};
use std::alloc::{AllocError, Global};

type Lines<T> = Shared<Option<T>, View<T>, Sizes, Ruled<T>>;

type Sitting<T> = Seat<Option<T>, View<T>>;

/// The seats of all branches, dealt out first.
pub(crate) fn branch_seats<T: BoardFit, D: BoardDue<T>>(
    alloc: Global,
    table: &Lines<T>,
    maker: &mut Sitting<T>,
    branches: u32,
) -> Result<Vec<BranchSeat<T>>, AllocError>
    requires table { maker.old.table_id ≡ table.now.table_id }
    requires some { 0 < table.now.table_id.words }
    requires wide { table.now.table_id.slots ≡ table.now.table_id.words * branches }
    requires maker { HasDealt branches 0 D.due maker.old.me.0 }
    ensures seats { IfOk result (λ s. s.items ≡ each (new_branch table.now.table_id D.due) branches) }
    ensures table { OnOk result (maker.new.table_id ≡ maker.old.table_id) }
    ensures maker { OnOk result (HasDealt branches branches D.due maker.new.me.0) }
{
    let mut seats = Vec::with_capacity(alloc, branches as usize)?;
    for branch in 0..branches {
        let seat = table.split_seat::<Deal<T, D>>(maker);
        seats.push_reserved(BranchSeat { seat, branch });
    }
    Ok(seats)
}

/// The seats of all mergers, dealt out after those of the branches.
pub(crate) fn merger_seats<T: BoardFit, D: BoardDue<T>>(
    alloc: Global,
    table: &Lines<T>,
    maker: &mut Sitting<T>,
    branches: u32,
    mergers: u32,
) -> Result<Vec<MergerSeat<T>>, AllocError>
    requires table { maker.old.table_id ≡ table.now.table_id }
    requires some { 0 < table.now.table_id.words }
    requires wide { table.now.table_id.slots ≡ table.now.table_id.words * branches }
    requires maker { HasDealt branches branches D.due maker.old.me.0 }
    ensures { IfOk result (λ s. s.items ≡ each (new_merger table.now.table_id D.due) mergers) }
{
    let mut seats = Vec::with_capacity(alloc, mergers as usize)?;
    for merger in 0..mergers {
        let seat = table.split_seat::<Deal<T, D>>(maker);
        seats.push_reserved(MergerSeat { seat, merger });
    }
    Ok(seats)
}
