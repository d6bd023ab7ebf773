use packet_fields::Frame;

/// The unit of the fraction of a record's time.
#[derive(Clone, Copy, Debug, PartialEq, Eq)]
pub enum Unit {
    /// Microseconds.
    Micro,
    /// Nanoseconds.
    Nano,
}

/// A record of a capture.
#[derive(Drop)]
pub struct PcapRecord {
    /// The whole seconds of its time.
    pub seconds: u32,
    /// The rest of its time, in the capture's unit; it may be more than a second.
    pub fraction: u32,
    /// The length that the frame had on the wire.
    pub wire: u32,
    /// The captured bytes.
    pub frame: Frame,
}

impl PcapRecord {
    ghost use Rattle.std.specs.Prelude.{◌≡◌};
    ghost use Rattle.capture_bytes.specs.Packets.{time_of};

    /// Its time in nanoseconds, if its fraction has this unit.
    pub fn time(&self, unit: Unit) -> u64
        ensures { result ≡ time_of unit self.now }
    {
        let seconds = self.seconds;
        let fraction = self.fraction;
        let whole = u64::from(seconds) * 1_000_000_000;
        match unit {
            Unit::Micro => whole + u64::from(fraction) * 1_000,
            Unit::Nano => whole + u64::from(fraction),
        }
    }
}
