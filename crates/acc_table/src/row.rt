//! A row of a table: its packet, and the results of that packet, by branch.
ghost use Rattle.std.specs.Prelude.{◌≡◌, ◌↔◌, ◌<◌, ◌≤◌, ◌+◌, ◌++◌, ◌∷◌, [], IsTrue, IfOk, IsNone, IsSome, All, None, Some, length, map, replicate, slice_set};
ghost use Rattle.std.specs.Vec.{vec_capacity, vec_len};
ghost use Rattle.acc_table.specs.Arrivals.{nothing};

use std::alloc::{AllocError, Global};
use std::marker::Model;

/// A place for one packet, free or taken.
#[derive(Drop)]
pub struct Row<T> {
    pid: Option<u32>,
    arrived: Vec<Option<T>>,
}

impl<T> Model for Row<T> {
    ghost use Rattle.acc_table.specs.Rows.{Place};

    ghost Value = { Place T };

    ghost view = { λ r. record { pid = r.pid; arrived = r.arrived.items } };
}

impl<T: Drop> Row<T> {
    /// A free row for this number of branches.
    pub fn free(alloc: Global, branches: usize) -> Result<Row<T>, AllocError>
        ensures { IfOk result (λ r. r ≡ record { pid = None; arrived = nothing branches }) }
    {
        let mut arrived = Vec::with_capacity(alloc, branches)?;
        for _i in 0..branches {
            arrived.push(None)?;
        }
        Ok(Row { pid: None, arrived })
    }

    pub fn is_of(&self, pid: u32) -> bool
        ensures { IsTrue result ↔ (self.now.pid ≡ Some pid) }
    {
        self.pid == Some(pid)
    }

    pub fn is_free(&self) -> bool
        ensures { IsTrue result ↔ (self.now.pid ≡ None) }
    {
        self.pid.is_none()
    }

    /// Takes the value of one branch of this packet.
    pub fn put(&mut self, pid: u32, branch: usize, value: T)
        requires { branch < length self.old.arrived }
        ensures { self.new ≡ record { pid = Some pid; arrived = slice_set self.old.arrived branch (Some value) } }
    {
        self.pid = Some(pid);
        self.arrived[branch] = Some(value);
    }

    /// Whether every branch has returned its value.
    pub fn is_whole(&self) -> bool
        ensures { IsTrue result ↔ All (λ a. IsSome a) self.now.arrived }
    {
        self.arrived.iter().all(|a| a.is_some())
    }

    /// Moves the values out in branch order, and is free.
    pub fn hand_over(&mut self, into: &mut Vec<T>)
        requires whole { All (λ a. IsSome a) self.old.arrived }
        requires empty { into.old.items ≡ [] }
        requires room { length self.old.arrived ≤ vec_capacity into.old }
        ensures values { map Some into.new.items ≡ self.old.arrived }
        ensures free { self.new ≡ record { pid = None; arrived = nothing (length self.old.arrived) } }
        ensures room { vec_capacity into.old ≤ vec_capacity into.new }
    {
        self.pid = None;
        for slot in self.arrived.iter_mut() {
            hand_over_one(slot, into);
        }
    }
}

fn hand_over_one<T: Drop>(slot: &mut Option<T>, into: &mut Vec<T>)
    requires whole { IsSome slot.old }
    requires room { vec_len into.old < vec_capacity into.old }
    ensures value { map Some into.new.items ≡ map Some into.old.items ++ slot.old ∷ [] }
    ensures empty { slot.new ≡ None }
    ensures len { vec_len into.new ≡ vec_len into.old + 1 }
    ensures room { vec_capacity into.old ≤ vec_capacity into.new }
{
    if let Some(value) = slot.take() {
        let _ = into.push(value);
    }
}
