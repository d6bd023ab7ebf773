//! The table of results, and its calls.
ghost use Rattle.std.specs.Prelude.{◌≡◌, ◌≢◌, ◌↔◌, ◌<◌, ◌≤◌, ℕ, [], IfOk, IfSome, IsNone, IsSome, All, None, Some, length, map, slice_index_or};
ghost use Rattle.std.specs.Vec.{vec_capacity};
ghost use Rattle.std.specs.FinMap as finite;
ghost use Rattle.acc_table.specs.Arrivals.{HasRoomFor, IsOpen, arrivals, bucket_len, forgetting, keeping, nothing, open_count, with_arrival};

use crate::links::Links;
use crate::place::{free_rows, place_for};
use crate::row::Row;
use std::alloc::{AllocError, Global};
use std::marker::Model;

/// The greatest number of packets of a table.
pub const MOST_ENTRIES: u32 = 65_536;

/// The greatest number of branches of a stage.
pub const MOST_BRANCHES: u32 = 64;

/// Every branch has returned its value for the packet of this number.
#[derive(Clone, Copy, PartialEq, Eq, Debug)]
pub struct Complete {
    pub pid: u32,
}

/// The results of packets so far. A contract sees a finite map: `arrivals` of a packet's number are its results, by
/// branch.
#[derive(Drop)]
pub struct AccTable<T> {
    branches: u32,
    rows: Vec<Row<T>>,
    links: Links,
}

impl<T> Model for AccTable<T> {
    ghost use Rattle.std.specs.Prelude.{length};
    ghost use Rattle.std.specs.FinMap.{from_entries};
    ghost use Rattle.acc_table.specs.Arrivals.{Table, table_code};
    ghost use Rattle.acc_table.specs.Links.{IsWhole};
    ghost use Rattle.acc_table.specs.Rows.{opened};

    ghost Value = { Table T };

    ghost coded = { table_code T.code };

    ghost view = { λ t. record { entries = length t.rows.items; branches = t.branches; waiting = from_entries (opened t.rows.items) } };

    ghost invariant = { λ t. IsWhole t.branches t.rows.items t.links };
}

impl<T: Drop> AccTable<T> {
    /// An empty table with room for `entries` packets at a time, each with `branches` branches.
    pub fn with_room(alloc: Global, entries: u32, branches: u32) -> Result<AccTable<T>, AllocError>
        requires some_entries { 0 < entries }
        requires few_entries { entries ≤ 65536 }
        requires some_branches { 0 < branches }
        requires few_branches { branches ≤ 64 }
        ensures made { IfOk result (λ t. t ≡ record { entries = entries; branches = branches; waiting = finite.empty }) }
        ensures nothing { IfOk result (λ t. (p : ℕ) → arrivals t p ≡ nothing branches) }
        ensures none_open { IfOk result (λ t. (p : ℕ) → IsOpen t p → ⊥) }
    {
        Ok(AccTable {
            branches,
            rows: free_rows(alloc, entries as usize, branches as usize)?,
            links: Links::all_free(alloc, entries as usize)?,
        })
    }

    /// Takes the value of one branch for the packet of this number. If it was the last, the packet is complete: the
    /// values of all its branches are in `into`, in branch order, and the table forgets the packet. It allocates
    /// nothing.
    pub fn arrive(&mut self, pid: u32, branch: u32, value: T, into: &mut Vec<T>) -> Option<Complete>
        requires branch { branch < self.old.branches }
        requires first { slice_index_or (arrivals self.old pid) branch None ≡ None }
        requires room { HasRoomFor self.old pid }
        requires empty { into.old.items ≡ [] }
        requires into_room { self.old.branches ≤ vec_capacity into.old }

        // Complete exactly if every branch has arrived now, with the values in branch order.
        ensures complete { IsSome result ↔ All (λ a. IsSome a) (with_arrival self.old pid branch value) }
        ensures number { IfSome result (λ c. c.pid ≡ pid) }
        ensures values { IsSome result → map Some into.new.items ≡ with_arrival self.old pid branch value }
        ensures no_values { IsNone result → into.new.items ≡ [] }

        // A packet that is complete is forgotten, and the value of any other packet is kept.
        ensures forgotten { IsSome result → self.new ≡ forgetting self.old pid }
        ensures kept { IsNone result → self.new ≡ keeping self.old pid (with_arrival self.old pid branch value) }

        // The same, packet by packet.
        ensures none_left { IsSome result → arrivals self.new pid ≡ nothing self.old.branches }
        ensures arrived { IsNone result → arrivals self.new pid ≡ with_arrival self.old pid branch value }
        ensures others { (p : ℕ) → p ≢ pid → arrivals self.new p ≡ arrivals self.old p }
        ensures still_open { IsNone result ↔ IsOpen self.new pid }
        ensures others_open { (p : ℕ) → p ≢ pid → (IsOpen self.new p ↔ IsOpen self.old p) }

        ensures entries { self.new.entries ≡ self.old.entries }
        ensures branches { self.new.branches ≡ self.old.branches }
        ensures into_room { vec_capacity into.old ≤ vec_capacity into.new }
    {
        let place = place_for(self.rows.as_slice(), &mut self.links, pid);
        let row = &mut self.rows[place];
        row.put(pid, branch as usize, value);
        if !row.is_whole() {
            return None;
        }
        row.hand_over(into);
        self.links.give_back(pid, place);
        Some(Complete { pid })
    }

    /// The number of packets of which some values have come, but not all.
    pub fn open_count(&self) -> u32
        ensures { result ≡ open_count self.now }
    {
        self.links.taken()
    }
    /// The number of open packets in this packet's bucket: those whose numbers have the same remainder by the least
    /// power of two that is at least the table's number of entries. It is the most that `arrive` looks at.
    pub fn chain_len(&self, pid: u32) -> u32
        ensures { result ≡ bucket_len self.now pid }
    {
        self.links.chain_len(pid)
    }
}
