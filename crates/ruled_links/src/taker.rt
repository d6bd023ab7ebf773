//! The end of a link from which messages are taken.
ghost use Rattle.std.specs.Prelude.{◌≡◌, ◌++◌, ◌∷◌, [], length, IfSome, IsNone};
ghost use Rattle.ruled_links.specs.Fitting.{FitsAt};

use crate::fit::LinkFit;
use crate::rule::{Knowledge, Queue, Taken};
use crate::waiting::pause;
use crossbeam_queue::Pass;
use crossbeam_utils::Backoff;
use std::marker::Model;
use std::sync::{Arc, Wait};

/// The end of a link from which messages are taken. A contract sees which link it is, what is due on it
/// and what was taken, each in order.
#[derive(Drop)]
pub struct Taker<T: LinkFit> {
    pub(crate) queue: Arc<Queue<T>>,
    pub(crate) pass: Pass<T, Knowledge<T>>,
    pub(crate) takes: u64,
}

impl<T: LinkFit> Model for Taker<T> {
    ghost use Rattle.std.specs.Arc.{arc_value};
    ghost use Rattle.ruled_links.specs.Ends.{TakeEnd, known};
    ghost use Rattle.ruled_links.specs.Kept.{IsTaking};

    ghost Value = { TakeEnd T };

    ghost view = { λ s. record { link = s.pass.table_id; due = (known s.pass).due; taken = (known s.pass).taken } };

    ghost invariant = { λ s. IsTaking (arc_value s.queue) s.pass s.takes };
}

impl<T: LinkFit> Taker<T> {
    /// Takes the oldest message that the link holds. `None` if the link was empty at a step of this call. It allocates
    /// nothing.
    pub fn try_take<R: Wait>(&mut self, rt: &R) -> Option<T>
        ensures taken { IfSome result (λ message. self.new ≡ record self.old { taken = self.old.taken ++ message ∷ [] }) }
        ensures fits { IfSome result (λ message. FitsAt T.fits self.old.due (length self.old.taken) message) }
        ensures none { IsNone result → self.new ≡ self.old }
    {
        let message = self.queue.pop_as::<Taken<T>, R>(rt, &mut self.pass)?;
        self.takes += 1;
        Some(message)
    }

    /// Waits for the next message, and takes it: the oldest one that wasn't taken yet. It allocates nothing, and pauses
    /// between two tries.
    pub fn take<R: Wait>(&mut self, rt: &R) -> T
        ensures taken { self.new ≡ record self.old { taken = self.old.taken ++ result ∷ [] } }
        ensures fits { FitsAt T.fits self.old.due (length self.old.taken) result }
    {
        let backoff = Backoff::new();
        for _ in rt.forever() {
            if let Some(message) = self.try_take(rt) {
                return message;
            }
            pause(rt, &backoff);
        }
        unreachable!()
    }
}
