//! The steps on the word of a packet, one function for each, in the numbers of the board.
ghost use Rattle.std.specs.Prelude.{◌≡◌, ◌<◌, ◌*◌, ◌+◌, ◌%◌, ◌++◌, ℕ, ◌∷◌, false, None, Some, length};
ghost use Rattle.atomic_table.specs.Table.{rest};
ghost use Rattle.merge_board.specs.Kept.{IsBranch, IsMerger};
ghost use Rattle.merge_board.specs.Rule.{has, IsFit, AllSet};
ghost use Rattle.merge_board.specs.Steps.{shelf, seen, completed, AreDue};

use crate::board::Board;
use crate::fit::BoardFit;
use crate::plays::{Announce, Look, Take};
use crate::rule::View;
use atomic_table::Seat;

impl<T: BoardFit> Board<T> {
    /// A branch takes its slot of the packet, which is empty.
    pub(crate) fn take_slot(&self, seat: &mut Seat<Option<T>, View<T>>, branch: u32, pid: u32)
        requires board { seat.old.table_id ≡ self.now.board }
        requires seat { IsBranch seat.old.table_id seat.old.me branch }
        requires pid { pid < self.now.pids }
        requires first { has seat.old.me.0.pids pid ≡ false }
        ensures table { seat.new.table_id ≡ seat.old.table_id }
        ensures view { seat.new.me.0 ≡ record seat.old.me.0 { hand = Some pid } }
        ensures slot { seat.new.me.1 ≡ (pid * self.now.branches + branch, None) ∷ seat.old.me.1 }
    {
        self.table.shared.load::<Take>(seat, pid as usize);
    }

    /// A branch announces the value in its slot of the packet, and gives the slot back.
    pub(crate) fn announce(&self, seat: &mut Seat<Option<T>, View<T>>, branch: u32, pid: u32)
        requires board { seat.old.table_id ≡ self.now.board }
        requires wide { seat.old.table_id.slots ≡ seat.old.table_id.words * seat.old.me.0.branches }
        requires plays { seat.old.me.0.makes ≡ false }
        requires role { seat.old.me.0.role ≡ branch }
        requires within { branch < seat.old.me.0.branches }
        requires pid { pid < self.now.pids }
        requires in_hand { seat.old.me.0.hand ≡ Some pid }
        requires value { (x : T) × (seat.old.me.1 ≡ (pid * self.now.branches + branch, Some x) ∷ rest seat.old.me.1) × IsFit T.fits seat.old.me.0.due branch pid x }
        ensures table { seat.new.table_id ≡ seat.old.table_id }
        ensures view { seat.new.me.0 ≡ record seat.old.me.0 { pids = pid ∷ seat.old.me.0.pids; hand = None } }
        ensures others { seat.new.me.1 ≡ rest seat.old.me.1 }
    {
        self.table
            .shared
            .fetch_or::<Announce>(seat, pid as usize, 1 << branch);
    }

    /// A merger looks at the word of a packet of its own. If all values are there, it takes their slots.
    pub(crate) fn look(&self, seat: &mut Seat<Option<T>, View<T>>, pid: u32) -> u64
        requires board { seat.old.table_id ≡ self.now.board }
        requires seat { IsMerger seat.old.table_id seat.old.me (pid % self.now.mergers) }
        requires pid { pid < self.now.pids }
        requires first { has seat.old.me.0.pids pid ≡ false }
        ensures table { seat.new.table_id ≡ seat.old.table_id }
        ensures all { AllSet self.now.branches result → seat.new.me.0 ≡ completed seat.old.me.0 pid result seat.new.me.0.got }
        ensures slots { AllSet self.now.branches result → seat.new.me.1 ≡ shelf (pid * self.now.branches) 0 seat.new.me.0.got ++ seat.old.me.1 }
        ensures count { AllSet self.now.branches result → length seat.new.me.0.got ≡ self.now.branches }
        ensures due { AllSet self.now.branches result → AreDue T.fits seat.old.me.0.due pid 0 seat.new.me.0.got }
        ensures lacks { ¬ AllSet self.now.branches result → seat.new.me.0 ≡ seen seat.old.me.0 pid result }
    {
        self.table.shared.load::<Look<T>>(seat, pid as usize)
    }
}
