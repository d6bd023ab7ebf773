//! Fills a table with open packets, and then completes the oldest and opens one more, again and again: what
//! `bench/arrivals` measures. Its words are the number of open packets and the number of rounds; it prints the number
//! of rounds that it made.
ghost use Rattle.std.specs.Prelude.{◌≡◌, ◌≢◌, ◌<◌, ◌≤◌, ℕ, [], IsTrue, None, slice_index_or};
ghost use Rattle.std.specs.Vec.{vec_capacity};
ghost use Rattle.acc_table.specs.Arrivals.{IsOpen, arrivals, nothing};
ghost use Rattle.bench_program.specs.Rolling.{Rolls};

use crate::number;
use acc_table::{AccTable, MOST_ENTRIES};
use std::alloc::{AllocError, Global};
use std::io;

/// The greatest number of rounds, so that the packets' numbers suffice.
const MOST_ROUNDS: u32 = 1_000_000_000;

/// A packet comes from its first branch. Returns whether it is open now.
fn opens(table: &mut AccTable<u32>, entries: u32, pid: u32, values: &mut Vec<u32>) -> bool
    requires entries { entries ≡ table.old.entries }
    requires branches { table.old.branches ≡ 2 }
    requires fresh { arrivals table.old pid ≡ nothing 2 }
    requires empty { values.old.items ≡ [] }
    requires room { 2 ≤ vec_capacity values.old }
    ensures entries { table.new.entries ≡ table.old.entries }
    ensures branches { table.new.branches ≡ 2 }
    ensures opened { IsTrue result → IsOpen table.new pid }
    ensures second { IsTrue result → slice_index_or (arrivals table.new pid) 1 None ≡ None }
    ensures others { (p : ℕ) → p ≢ pid → arrivals table.new p ≡ arrivals table.old p }
    ensures others_open { (p : ℕ) → p ≢ pid → IsOpen table.old p → IsOpen table.new p }
    ensures empty { IsTrue result → values.new.items ≡ [] }
    ensures room { 2 ≤ vec_capacity values.new }
{
    if table.open_count() >= entries {
        return false;
    }
    table.arrive(pid, 0, pid, values).is_none()
}

/// A packet that is open comes from its second branch. Returns whether it is complete.
fn completes(table: &mut AccTable<u32>, pid: u32, values: &mut Vec<u32>) -> bool
    requires branches { table.old.branches ≡ 2 }
    requires opened { IsOpen table.old pid }
    requires second { slice_index_or (arrivals table.old pid) 1 None ≡ None }
    requires empty { values.old.items ≡ [] }
    requires room { 2 ≤ vec_capacity values.old }
    ensures entries { table.new.entries ≡ table.old.entries }
    ensures branches { table.new.branches ≡ 2 }
    ensures others { (p : ℕ) → p ≢ pid → arrivals table.new p ≡ arrivals table.old p }
    ensures others_open { (p : ℕ) → p ≢ pid → IsOpen table.old p → IsOpen table.new p }
    ensures empty { values.new.items ≡ [] }
    ensures room { 2 ≤ vec_capacity values.new }
{
    let complete = table.arrive(pid, 1, pid, values).is_some();
    values.clear();
    complete
}

/// Opens `entries` packets, numbered from 0. Returns whether all are open.
fn filled(table: &mut AccTable<u32>, entries: u32, values: &mut Vec<u32>) -> bool
    requires entries { entries ≡ table.old.entries }
    requires rolls { Rolls table.old 0 0 }
    requires empty { values.old.items ≡ [] }
    requires room { 2 ≤ vec_capacity values.old }
    ensures entries { table.new.entries ≡ table.old.entries }
    ensures rolls { IsTrue result → Rolls table.new 0 entries }
    ensures empty { IsTrue result → values.new.items ≡ [] }
    ensures room { 2 ≤ vec_capacity values.new }
{
    for pid in 0..entries {
        if !opens(table, entries, pid, values) {
            return false;
        }
    }
    true
}

/// Makes the rounds, and returns the number that succeeded.
fn rolled(table: &mut AccTable<u32>, entries: u32, rounds: u32, values: &mut Vec<u32>) -> u32
    requires few { entries ≤ 65536 }
    requires some { 0 < entries }
    requires few_rounds { rounds ≤ 1000000000 }
    requires entries { entries ≡ table.old.entries }
    requires rolls { Rolls table.old 0 entries }
    requires empty { values.old.items ≡ [] }
    requires room { 2 ≤ vec_capacity values.old }
{
    for round in 0..rounds {
        let complete = completes(table, round, values);
        if !opens(table, entries, entries + round, values) || !complete {
            return round;
        }
    }
    rounds
}

fn run(alloc: Global, entries: u32, rounds: u32) -> Result<u32, AllocError>
    requires few { entries ≤ 65536 }
    requires some { 0 < entries }
    requires few_rounds { rounds ≤ 1000000000 }
{
    let mut values = Vec::with_capacity(alloc, 2)?;
    let mut table = AccTable::with_room(alloc, entries, 2)?;
    if !filled(&mut table, entries, &mut values) {
        return Ok(0);
    }
    Ok(rolled(&mut table, entries, rounds, &mut values))
}

/// Makes the rounds of the words.
pub fn measure(rt: &(impl Alloc<A = Global> + Print), words: &[String]) -> io::Result<()> {
    let entries = number(words, 0, 1);
    let rounds = number(words, 1, 0);
    if entries == 0 || entries > MOST_ENTRIES || rounds > MOST_ROUNDS {
        return println!(rt; "too many");
    }
    match run(rt.alloc(), entries, rounds) {
        Ok(went) => println!(rt; "rounds {went}"),
        Err(_) => println!(rt; "no memory"),
    }
}
