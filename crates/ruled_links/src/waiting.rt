//! How a thread waits for another.

use crossbeam_utils::Backoff;
use std::sync::Wait;
use std::thread::Parker;
use std::time::Duration;

/// Pauses between two tries of a thread that waits for another: at first for less than a microsecond, later for a few,
/// in which other threads may run. After that it sleeps for 20 microseconds and what the system adds, and leaves the
/// processor to others. It allocates nothing.
pub fn pause<R: Wait>(rt: &R, backoff: &Backoff) {
    if backoff.is_completed() {
        // Nobody wakes it before that.
        Parker::new().park_timeout(rt, Duration::from_micros(20));
    } else {
        backoff.snooze();
    }
}
