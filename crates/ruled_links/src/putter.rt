//! The end of a link into which messages are put.
ghost use Rattle.std.specs.Prelude.{◌≡◌, ◌<◌, ◌++◌, ◌∷◌, [], length};
ghost use Rattle.ruled_links.specs.Fitting.{FitsAt};

use crate::fit::LinkFit;
use crate::rule::{Knowledge, Put, Queue};
use crossbeam_queue::Pass;
use std::marker::Model;
use std::sync::{Arc, Wait};

/// The end of a link into which messages are put. A contract sees which link it is, its capacity, what is
/// due on it and what was put, each in order.
#[derive(Drop)]
pub struct Putter<T: LinkFit> {
    pub(crate) queue: Arc<Queue<T>>,
    pub(crate) pass: Pass<T, Knowledge<T>>,
    pub(crate) capacity: u32,
    pub(crate) puts: u64,
}

impl<T: LinkFit> Model for Putter<T> {
    ghost use Rattle.std.specs.Arc.{arc_value};
    ghost use Rattle.ruled_links.specs.Ends.{PutEnd, known};
    ghost use Rattle.ruled_links.specs.Kept.{IsPutting};

    ghost Value = { PutEnd T };

    ghost view = { λ s. record { link = s.pass.table_id; capacity = s.capacity; due = (known s.pass).due; put = (known s.pass).put } };

    ghost invariant = { λ s. IsPutting (arc_value s.queue) s.pass s.capacity s.puts };
}

impl<T: LinkFit> Putter<T> {
    /// Puts a message after those that were put before. It never fails, and allocates nothing.
    pub fn put<R: Wait>(&mut self, rt: &R, message: T)
        requires room { length self.old.put < self.old.capacity }
        requires fits { FitsAt T.fits self.old.due (length self.old.put) message }
        ensures put { self.new ≡ record self.old { put = self.old.put ++ message ∷ [] } }
    {
        match self.queue.push_as::<Put, R>(rt, &mut self.pass, message) {
            Ok(()) => self.puts += 1,
            Err(_) => unreachable!(),
        }
    }
}
