//! How a branch fills its slot of a packet, and how a merger empties all slots of a packet.
ghost use Rattle.std.specs.Prelude.{◌≡◌, ◌<◌, ◌≤◌, ◌*◌, ◌+◌, ◌%◌, ◌++◌, ◌↔◌, ℕ, List, [], ◌∷◌, true, false, None, Some, Option, length, IsTrue, IsFalse};
ghost use Rattle.std.specs.Vec.{vec_capacity, vec_len};
ghost use Rattle.atomic_table.specs.Table.{rest};
ghost use Rattle.merge_board.specs.Kept.{IsBranch, IsMerger};
ghost use Rattle.merge_board.specs.Rule.{has, IsFit, AllSet};
ghost use Rattle.merge_board.specs.Steps.{shelf, seen, completed, AreDue};

use crate::board::Board;
use crate::fit::BoardFit;
use crate::rule::View;
use atomic_table::Seat;

impl<T: BoardFit> Board<T> {
    /// Puts the value into the branch's slot of the packet, and then the branch's bit into the packet's word.
    pub(crate) fn fill(&self, seat: &mut Seat<Option<T>, View<T>>, branch: u32, pid: u32, value: T)
        requires board { seat.old.table_id ≡ self.now.board }
        requires seat { IsBranch seat.old.table_id seat.old.me branch }
        requires pid { pid < self.now.pids }
        requires first { has seat.old.me.0.pids pid ≡ false }
        requires fits { IsFit T.fits seat.old.me.0.due branch pid value }
        ensures table { seat.new.table_id ≡ seat.old.table_id }
        ensures view { seat.new.me ≡ (record seat.old.me.0 { pids = pid ∷ seat.old.me.0.pids; hand = None }, []) }
    {
        let slot = pid as usize * self.sizes.branches as usize + branch as usize;
        self.take_slot(seat, branch, pid);
        match self.table.shared.exchange(seat, slot, Some(value)) {
            None => {}
            Some(_) => unreachable!(),
        }
        self.announce(seat, branch, pid);
    }

    /// Whether the word has the bit of each branch.
    fn is_whole(&self, word: u64) -> bool
        ensures { IsTrue result ↔ AllSet self.now.branches word }
    {
        let whole = u64::MAX >> (64 - self.sizes.branches);
        word & whole == whole
    }

    /// Loads the packet's word once. If all values are there, they are moved into `into`.
    pub(crate) fn gather(
        &self,
        seat: &mut Seat<Option<T>, View<T>>,
        pid: u32,
        into: &mut Vec<T>,
    ) -> bool
        requires board { seat.old.table_id ≡ self.now.board }
        requires seat { IsMerger seat.old.table_id seat.old.me (pid % self.now.mergers) }
        requires pid { pid < self.now.pids }
        requires first { has seat.old.me.0.pids pid ≡ false }
        requires empty { into.old.items ≡ [] }
        requires room { self.now.branches ≤ vec_capacity into.old }
        ensures table { seat.new.table_id ≡ seat.old.table_id }
        ensures whole { IsTrue result ↔ AllSet self.now.branches seat.new.me.0.word }
        ensures all { IsTrue result → seat.new.me.0 ≡ completed seat.old.me.0 pid seat.new.me.0.word into.new.items }
        ensures count { IsTrue result → length into.new.items ≡ self.now.branches }
        ensures due { IsTrue result → AreDue T.fits seat.old.me.0.due pid 0 into.new.items }
        ensures lacks { IsFalse result → seat.new.me.0 ≡ seen seat.old.me.0 pid seat.new.me.0.word }
        ensures nothing { IsFalse result → into.new.items ≡ [] }
        ensures room { vec_capacity into.new ≡ vec_capacity into.old }
    {
        let word = self.look(seat, pid);
        if !self.is_whole(word) {
            return false;
        }
        self.empty(seat, pid, into);
        true
    }

    /// Moves the values of all slots of the packet into `into`, in branch order.
    fn empty(&self, seat: &mut Seat<Option<T>, View<T>>, pid: u32, into: &mut Vec<T>)
        requires board { seat.old.table_id ≡ self.now.board }
        requires pid { pid < self.now.pids }
        requires full { (ys : List (ℕ × Option T)) × (seat.old.me.1 ≡ shelf (pid * self.now.branches) 0 seat.old.me.0.got ++ ys) }
        requires all { length seat.old.me.0.got ≡ self.now.branches }
        requires empty { into.old.items ≡ [] }
        requires room { self.now.branches ≤ vec_capacity into.old }
        ensures table { seat.new.table_id ≡ seat.old.table_id }
        ensures view { seat.new.me.0 ≡ seat.old.me.0 }
        ensures values { into.new.items ≡ seat.old.me.0.got }
        ensures room { vec_capacity into.new ≡ vec_capacity into.old }
    {
        let base = pid as usize * self.sizes.branches as usize;
        for branch in 0..self.sizes.branches as usize {
            self.hand_over(seat, base + branch, into);
        }
    }

    /// Moves the value of the front slot into `into`, and puts the slot after the others.
    fn hand_over(&self, seat: &mut Seat<Option<T>, View<T>>, slot: usize, into: &mut Vec<T>)
        requires board { seat.old.table_id ≡ self.now.board }
        requires full { (x : T) × (seat.old.me.1 ≡ (slot, Some x) ∷ rest seat.old.me.1) }
        requires room { vec_len into.old < vec_capacity into.old }
        ensures table { seat.new.table_id ≡ seat.old.table_id }
        ensures seat { seat.new.me ≡ (seat.old.me.0, rest seat.old.me.1 ++ (slot, None) ∷ []) }
        ensures value { (x : T) × (seat.old.me.1 ≡ (slot, Some x) ∷ rest seat.old.me.1) × (into.new.items ≡ into.old.items ++ x ∷ []) }
        ensures len { vec_len into.new ≡ vec_len into.old + 1 }
        ensures room { vec_capacity into.new ≡ vec_capacity into.old }
    {
        match self.table.shared.exchange(seat, slot, None) {
            Some(value) => into.push_reserved(value),
            None => unreachable!(),
        }
        seat.turn();
    }
}
