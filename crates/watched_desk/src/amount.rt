//! How far a run is, and the line that shows it.
ghost use Rattle.std.specs.Prelude.{◌≤◌, IfSome};

use std::fmt;
use std::time::Duration;

/// The bytes of a megabyte.
const MEGABYTE: u64 = 1_000_000;

/// From this number of seconds on, the time that is left is shown in minutes.
const LONG: u64 = 120;

/// How far the reading of a capture is. It is displayed as `nfp: 45 % of 1000 MB, 700000 records, 85.3 MB/s, 6 s left`,
/// without percent and time left if the size isn't known.
#[derive(Clone, Copy, Debug)]
pub struct Amount {
    /// The bytes that were read.
    pub bytes: u64,
    /// The bytes of the whole file, if known.
    pub size: Option<u64>,
    /// The records that were read whole.
    pub records: u64,
    /// How long it took so far.
    pub time: Duration,
}

impl Amount {
    // The part that was read, in percent of the size.
    fn percent(&self, size: u64) -> u64
        ensures { result ≤ 100 }
    {
        if size == 0 {
            return 100;
        }
        (self.bytes.saturating_mul(100) / size).min(100)
    }

    // The speed in bytes per millisecond, at least 1.
    fn speed(&self) -> u64
        ensures { 1 ≤ result }
    {
        let whole = self.time.as_secs().saturating_mul(1000);
        let millis = whole.saturating_add(u64::from(self.time.subsec_millis()));
        (self.bytes / millis.max(1)).max(1)
    }

    // The seconds that are left of a file of this size, at the speed so far.
    fn seconds_left(&self, size: u64) -> u64 {
        size.saturating_sub(self.bytes) / self.speed() / 1000
    }
}

impl fmt::Display for Amount {
    fn fmt<W: fmt::Write>(&self, f: &mut fmt::Formatter<W>) -> fmt::Result {
        match self.size {
            Some(size) => write!(f, "nfp: {} % of {} MB", self.percent(size), size / MEGABYTE)?,
            None => write!(f, "nfp: {} MB", self.bytes / MEGABYTE)?,
        }
        let speed = self.speed();
        let (whole, tenth) = (speed / 1000, speed / 100 % 10);
        write!(f, ", {} records, {whole}.{tenth} MB/s", self.records)?;
        match self.size {
            Some(size) => TimeLeft(self.seconds_left(size)).fmt(f),
            None => Ok(()),
        }
    }
}

/// Seconds that are left.
#[derive(Clone, Copy)]
struct TimeLeft(u64);

impl fmt::Display for TimeLeft {
    fn fmt<W: fmt::Write>(&self, f: &mut fmt::Formatter<W>) -> fmt::Result {
        let seconds = self.0;
        if seconds < LONG {
            write!(f, ", {seconds} s left")
        } else {
            write!(f, ", {} min left", seconds / 60)
        }
    }
}
