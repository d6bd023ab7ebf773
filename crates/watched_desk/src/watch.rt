//! The watcher that the program uses.

use crate::progress::Progress;
use crate::seen::Seen;
use crate::watched::Watcher;
use nfp_outside::Slot;
use std::rt::{Clock, Files};

/// Keeps what a message needs, and shows how far the run is, if that is wanted.
#[derive(Drop)]
pub struct Watch<R: Clock + Files + Eprint + Drop> {
    pub seen: Seen,
    pub progress: Option<Progress<R>>,
}

impl<R: Clock + Files + Eprint + Drop> Watch<R> {
    /// Ends the run and returns what was seen of it. Nothing is shown any more.
    pub fn end(self) -> Seen {
        let Watch { seen, progress } = self;
        if let Some(mut progress) = progress {
            progress.clear();
        }
        seen
    }
}

impl<R: Clock + Files + Eprint + Drop> Watcher for Watch<R> {
    fn attaching(&mut self, slot: Slot, name: &str) {
        self.seen.attaching(slot, name);
        if let Some(progress) = &mut self.progress {
            progress.attaching(slot, name);
        }
    }

    fn passed(&mut self, slot: Slot, bytes: &[u8]) {
        self.seen.passed(slot, bytes);
        if let Some(progress) = &mut self.progress {
            progress.passed(slot, bytes);
        }
    }

    fn writing(&mut self, slot: Slot) {
        self.seen.writing(slot);
        if let Some(progress) = &mut self.progress {
            progress.writing(slot);
        }
    }
}
