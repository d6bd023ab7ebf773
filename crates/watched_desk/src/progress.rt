//! How far a long run is, on standard error.

use crate::amount::Amount;
use crate::record_count::RecordCount;
use crate::watched::Watcher;
use nfp_outside::Slot;
use std::fs;
use std::rt::{Clock, Files};
use std::time::{Duration, Instant};

/// The milliseconds that a run has to last before its progress is shown.
const PATIENCE: u128 = 1500;

/// The least milliseconds between two lines.
const PAUSE: u128 = 200;

/// The least bytes between two looks at the clock.
const STRIDE: u64 = 65536;

/// Goes to the beginning of the terminal's line and clears it.
const CLEAR: &str = "\r\x1b[K";

/// Shows on standard error, which should be a terminal, how much of the capture was read: one line that is overwritten,
/// from about 1.5 seconds on and some five times a second. It is cleared before the last line of the run is printed.
///
/// The size of the capture is known if it is a file. If the clock or standard error fails, nothing is shown.
#[derive(Drop)]
pub struct Progress<R: Clock + Files + Eprint + Drop> {
    rt: R,
    start: Option<Instant>,
    shown: Option<Instant>,
    records: RecordCount,
    bytes: u64,
    next: u64,
    size: Option<u64>,
}

impl<R: Clock + Files + Eprint + Drop> Progress<R> {
    /// Starts the clock of a run.
    pub fn new(rt: R) -> Self {
        let start = Instant::now(&rt).ok();
        Progress {
            rt,
            start,
            shown: None,
            records: RecordCount::new(),
            bytes: 0,
            next: STRIDE,
            size: None,
        }
    }

    /// Clears the line, if one is shown.
    pub fn clear(&mut self) {
        if self.shown.is_some() {
            self.shown = None;
            let _ = self.rt.eprint(CLEAR);
        }
    }

    // Counts bytes of the capture that have passed.
    fn count(&mut self, bytes: &[u8]) {
        self.records.follow(bytes);
        self.bytes = self.bytes.saturating_add(bytes.len() as u64);
        if self.bytes >= self.next {
            self.next = self.bytes.saturating_add(STRIDE);
            self.look();
        }
    }

    // Shows how far the run is, if a new line is due.
    fn look(&mut self) {
        let Some(start) = self.start else {
            return;
        };
        let Ok(now) = Instant::now(&self.rt) else {
            return;
        };
        if self.is_due(start, now) {
            self.show(now.duration_since(start));
            self.shown = Some(now);
        }
    }

    fn is_due(&self, start: Instant, now: Instant) -> bool {
        match self.shown {
            Some(shown) => now.duration_since(shown).as_millis() >= PAUSE,
            None => now.duration_since(start).as_millis() >= PATIENCE,
        }
    }

    fn show(&self, time: Duration) {
        let amount = Amount {
            bytes: self.bytes,
            size: self.size,
            records: self.records.records(),
            time,
        };
        let _ = self.rt.eprint(format_args!("{CLEAR}{amount}"));
    }
}

impl<R: Clock + Files + Eprint + Drop> Watcher for Progress<R> {
    fn attaching(&mut self, slot: Slot, name: &str) {
        if slot == Slot::Capture {
            self.size = size_of(&self.rt, name);
        }
    }

    fn passed(&mut self, slot: Slot, bytes: &[u8]) {
        if slot == Slot::Capture {
            self.count(bytes);
        }
    }

    fn writing(&mut self, slot: Slot) {
        if slot == Slot::Note {
            self.clear();
        }
    }
}

// The size of a file in bytes, if `name` is a file.
fn size_of(rt: &impl Files, name: &str) -> Option<u64> {
    match fs::metadata(rt, name) {
        Ok(told) if told.is_file() => Some(told.len()),
        _ => None,
    }
}
