//! The board, and its calls.
ghost use Rattle.std.specs.Prelude.{◌≡◌, ◌<◌, ◌≤◌, ◌+◌, ◌%◌, ◌↔◌, ℕ, [], ◌∷◌, false, length, IsSome, IsNone, IfOk, IfSome};
ghost use Rattle.std.specs.Vec.{vec_capacity};
ghost use mathlib.Core.Option.{some};
ghost use lib.ListN.{get_elem?};
ghost use Rattle.merge_board.specs.Rule.{has, IsFit, LacksBit};
ghost use Rattle.merge_board.specs.Ends.{AreAllOf, each, new_branch, new_merger};

use crate::deal::{branch_seats, merger_seats};
use crate::fit::{BoardDue, BoardFit};
use crate::rule::{Ruled, Sizes, View};
use crate::seats::{BranchSeat, MergerSeat, Seats};
use acc_table::Complete;
use atomic_table::Table;
use std::alloc::{AllocError, Global};
use std::marker::Model;

/// Where the branches of a stage put their results for each packet, and its mergers collect them. Threads share it. A
/// contract sees which board it is, and for how many packets, branches and mergers.
#[derive(Drop)]
pub struct Board<T: BoardFit> {
    pub(crate) table: Table<Option<T>, View<T>, Sizes, Ruled<T>, Global>,
    pub(crate) sizes: Sizes,
}

impl<T: BoardFit> Model for Board<T> {
    ghost use Rattle.merge_board.specs.Ends.{Sized};
    ghost use Rattle.merge_board.specs.Kept.{IsSized};

    ghost Value = { Sized };

    ghost view = { λ s. record { board = s.table.shared.table_id; pids = s.sizes.pids; branches = s.sizes.branches; mergers = s.sizes.mergers } };

    ghost invariant = { λ s. IsSized s.table.shared.key s.sizes s.table.shared.table_id };
}

impl<T: BoardFit + Drop> Board<T> {
    /// Makes an empty board for this number of packets, branches and mergers, and returns its seats, each list in the
    /// order of their numbers. The only error is that memory runs out, and no later call allocates any.
    ///
    /// `D.due` is what is due on it. A caller makes the board in a function that is generic in `D` and requires what
    /// `D.due` is. It calls this function with `Brand` for `D`, and its proof picks the lists.
    pub fn new<D: BoardDue<T>>(
        alloc: Global,
        pids: u32,
        branches: u32,
        mergers: u32,
    ) -> Result<(Board<T>, Seats<T>), AllocError>
        requires some_pids { 0 < pids }
        requires few_pids { pids ≤ 65536 }
        requires some_branches { 0 < branches }
        requires few_branches { branches ≤ 64 }
        requires some_mergers { 0 < mergers }
        requires few_mergers { mergers ≤ 16 }
        ensures pids { IfOk result (λ b. b.0.pids ≡ pids) }
        ensures branches { IfOk result (λ b. b.0.branches ≡ branches) }
        ensures mergers { IfOk result (λ b. b.0.mergers ≡ mergers) }
        ensures branch { IfOk result (λ b. b.1.branch.items ≡ each (new_branch b.0.board D.due) branches) }
        ensures merger { IfOk result (λ b. b.1.merger.items ≡ each (new_merger b.0.board D.due) mergers) }
    {
        let sizes = Sizes {
            pids,
            branches,
            mergers,
        };
        let words = Vec::from_elem(alloc, 0u64, pids as usize)?;
        let slots = pids as usize * branches as usize;
        let (table, mut maker) = Table::vacant(alloc, words.as_slice(), slots, &sizes)?;
        let branch = branch_seats::<T, D>(alloc, &table.shared, &mut maker, branches)?;
        let merger = merger_seats::<T, D>(alloc, &table.shared, &mut maker, branches, mergers)?;
        Ok((Board { table, sizes }, Seats { branch, merger }))
    }

    /// Ends a board, which needs all its seats. The values that no merger got are dropped. It allocates nothing.
    pub fn close(self, seats: Seats<T>)
        requires branch { AreAllOf self.board self.branches (λ s. s.board) seats.branch.items }
        requires merger { AreAllOf self.board self.mergers (λ s. s.board) seats.merger.items }
    {
        drop(seats);
        drop(self);
    }
}

impl<T: BoardFit> Board<T> {
    /// Puts the value of this seat's branch for a packet, which it hasn't put before. It neither waits nor allocates
    /// memory, and never fails.
    pub fn put(&self, seat: &mut BranchSeat<T>, pid: u32, value: T)
        requires board { seat.old.board ≡ self.now.board }
        requires pid { pid < self.now.pids }
        requires first { has seat.old.put pid ≡ false }
        requires fits { IsFit T.fits seat.old.due seat.old.branch pid value }
        ensures { seat.new ≡ record seat.old { put = pid ∷ seat.old.put } }
    {
        self.fill(&mut seat.seat, seat.branch, pid, value);
    }

    /// Checks once whether the values of all branches are there for a packet of this seat's merger, which it hasn't
    /// completed before. If so, it moves them into `into` in branch order, and the packet is complete. It neither waits
    /// nor allocates memory.
    pub fn poll(&self, seat: &mut MergerSeat<T>, pid: u32, into: &mut Vec<T>) -> Option<Complete>
        requires board { seat.old.board ≡ self.now.board }
        requires pid { pid < self.now.pids }
        requires own { pid % self.now.mergers ≡ seat.old.merger }
        requires first { has seat.old.done pid ≡ false }
        requires empty { into.old.items ≡ [] }
        requires room { self.now.branches ≤ vec_capacity into.old }

        // The seat keeps what was loaded. The result is `None` exactly if a branch's bit is missing in it.
        ensures loads { seat.new.loads ≡ seat.old.loads + 1 }
        ensures loaded { seat.new.pid ≡ pid }
        ensures none { IsNone result ↔ LacksBit self.now.branches seat.new.word }

        // One value from each branch, in branch order, and each fits what is due.
        ensures number { IfSome result (λ c. c.pid ≡ pid) }
        ensures count { IsSome result → length into.new.items ≡ self.now.branches }
        ensures values { IsSome result → (b : ℕ) → (x : T) → get_elem? into.new.items b ≡ some x → IsFit T.fits seat.old.due b pid x }
        ensures no_values { IsNone result → into.new.items ≡ [] }

        // A packet that is complete is done.
        ensures done { IsSome result → seat.new.done ≡ pid ∷ seat.old.done }
        ensures not_done { IsNone result → seat.new.done ≡ seat.old.done }

        ensures same_board { seat.new.board ≡ seat.old.board }
        ensures merger { seat.new.merger ≡ seat.old.merger }
        ensures due { seat.new.due ≡ seat.old.due }
        ensures room { vec_capacity into.new ≡ vec_capacity into.old }
    {
        if self.gather(&mut seat.seat, pid, into) {
            Some(Complete { pid })
        } else {
            None
        }
    }
}
