//! How the rows of a table are linked, by their places: the free rows in one list, and in each bucket of numbers the
//! rows of its packets.
ghost use Rattle.std.specs.Prelude.{ℕ, ◌≡◌, ◌≢◌, ◌<◌, ◌≤◌, ◌+◌, ◌-◌, ◌%◌, ◌^◌, List, IfOk, IfSome, IsNone, None, Some, Option, length, replicate, slice_index_or, slice_set, sum_by};
ghost use Rattle.std.specs.List.{HoldsAt};
ghost use Rattle.acc_table.specs.Arrivals.{heads_for};
ghost use Rattle.acc_table.specs.Links.{AreLinked, IsBefore, IsIn, PlainLinks, freeing, none, one_in, owners, taking, unlinking};
ghost use Rattle.acc_table.specs.Rows.{Absent};

use crate::row::Row;
use std::alloc::{AllocError, Global};
use std::marker::Model;

/// The end of a list: no place follows.
const NONE: u32 = u32::MAX;

/// The place after each place, the first place of each bucket, the first free place, and the number of places that
/// aren't free.
#[derive(Drop)]
pub struct Links {
    nexts: Vec<u32>,
    heads: Vec<u32>,
    free: u32,
    taken: u32,
}

impl Model for Links {
    ghost use Rattle.acc_table.specs.Links.{PlainLinks};

    ghost Value = { PlainLinks };

    ghost view = { λ l. record { nexts = l.nexts.items; heads = l.heads.items; free = l.free; taken = l.taken } };
}

impl Links {
    /// This number of places, all free.
    pub fn all_free(alloc: Global, places: usize) -> Result<Links, AllocError>
        requires { places ≤ 65536 }
        ensures { IfOk result (λ l. AreLinked (heads_for places) (replicate places None) l) }
    {
        let mut nexts = Vec::with_capacity(alloc, places)?;
        let mut free = NONE;
        for place in 0..places {
            nexts.push(free)?;
            free = place as u32;
        }
        let heads = empty_heads(alloc, head_count(places))?;
        Ok(Links {
            nexts,
            heads,
            free,
            taken: 0,
        })
    }

    /// The bucket of a packet: by the low bits of its number.
    fn bucket(&self, pid: u32) -> usize
        requires { 0 < length self.now.heads }
        ensures bucket { result ≡ pid % length self.now.heads }
        ensures within { result < length self.now.heads }
    {
        pid as usize % self.heads.len()
    }

    /// The packet's row, found in its bucket.
    pub fn row_of<T: Drop>(&self, rows: &[Row<T>], pid: u32) -> Option<usize>
        requires { AreLinked (heads_for (length rows.now)) (owners rows.now) self.now }
        ensures within { IfSome result (λ i. i < length rows.now) }
        ensures found { IfSome result (HoldsAt (λ r. r.pid ≡ Some pid) rows.now) }
        ensures absent { IsNone result → Absent pid rows.now }
    {
        let mut at = self.heads[self.bucket(pid)];
        for _step in 0..rows.len() {
            if at == NONE {
                return None;
            }
            let place = at as usize;
            if rows[place].is_of(pid) {
                return Some(place);
            }
            at = self.nexts[place];
        }
        None
    }

    /// The number of rows in the packet's bucket.
    pub fn chain_len(&self, pid: u32) -> u32
        requires linked { (buckets : ℕ) × (os : List (Option ℕ)) × AreLinked buckets os self.now }
        ensures { (buckets : ℕ) → (os : List (Option ℕ)) → AreLinked buckets os self.now → result ≡ sum_by (one_in buckets (pid % buckets)) os }
    {
        let mut at = self.heads[self.bucket(pid)];
        let places = self.nexts.len() as u32;
        for step in 0..places {
            if at == NONE {
                return step;
            }
            at = self.nexts[at as usize];
        }
        places
    }

    /// The number of rows that aren't free.
    pub fn taken(&self) -> u32
        ensures { result ≡ self.now.taken }
    {
        self.taken
    }

    /// Takes the first free row, and puts it first into the packet's bucket.
    pub fn take_first(&mut self, pid: u32) -> usize
        requires some_heads { 0 < length self.old.heads }
        requires some_free { self.old.free < length self.old.nexts }
        requires few_taken { self.old.taken < 65536 }
        ensures place { result ≡ self.old.free }
        ensures taken { self.new ≡ taking self.old (pid % length self.old.heads) }
    {
        let bucket = self.bucket(pid);
        let place = self.free as usize;
        let next = self.nexts[place];
        self.nexts[place] = self.heads[bucket];
        self.heads[bucket] = self.free;
        self.free = next;
        self.taken += 1;
        place
    }

    /// Takes the row out of the packet's bucket, and puts it first into the list of the free.
    pub fn give_back(&mut self, pid: u32, place: usize)
        requires some_heads { 0 < length self.old.heads }
        requires is_in { IsIn self.old (pid % length self.old.heads) place }
        requires some_taken { 0 < self.old.taken }
        ensures { (before : Option ℕ) × IsBefore self.old (pid % length self.old.heads) place before × (self.new ≡ record (freeing (unlinking self.old (pid % length self.old.heads) place before) place) { taken = self.old.taken - 1 }) }
    {
        let bucket = self.bucket(pid);
        let before = self.before(bucket, place);
        self.unlink(bucket, place, before);
        self.nexts[place] = self.free;
        self.free = place as u32;
        self.taken -= 1;
    }

    /// The place of the bucket after which this one comes.
    fn before(&self, bucket: usize, place: usize) -> Option<usize>
        requires bucket { bucket < length self.now.heads }
        requires is_in { IsIn self.now bucket place }
        ensures { IsBefore self.now bucket place result }
    {
        let mut at = self.heads[bucket] as usize;
        if at == place {
            return None;
        }
        for _step in 0..self.nexts.len() {
            let next = self.nexts[at] as usize;
            if next == place {
                return Some(at);
            }
            at = next;
        }
        unreachable!()
    }

    /// Takes the place out of its bucket. `before` is the one in front of it.
    fn unlink(&mut self, bucket: usize, place: usize, before: Option<usize>)
        requires bucket { bucket < length self.old.heads }
        requires place { place < length self.old.nexts }
        requires before { IsBefore self.old bucket place before }
        ensures { self.new ≡ unlinking self.old bucket place before }
    {
        let next = self.nexts[place];
        match before {
            None => self.heads[bucket] = next,
            Some(before) => self.nexts[before] = next,
        }
    }
}

/// The least power of two that is at least `entries`.
fn head_count(entries: usize) -> usize
    requires { entries ≤ 65536 }
    ensures heads { result ≡ heads_for entries }
    ensures some { 0 < result }
{
    let mut heads = 1;
    for _doubled in 0..16_u32 {
        if entries <= heads {
            return heads;
        }
        heads *= 2;
    }
    heads
}

/// This number of buckets, without rows.
fn empty_heads(alloc: Global, count: usize) -> Result<Vec<u32>, AllocError>
    ensures { IfOk result (λ v. v.items ≡ replicate count none) }
{
    let mut heads = Vec::with_capacity(alloc, count)?;
    for _i in 0..count {
        heads.push(NONE)?;
    }
    Ok(heads)
}
