//! The time of a packet in one way.

/// The number of packets of a sample. The time of fewer may be far from what is usual, since one burst of a few packets
/// may be lucky.
const SAMPLE: u32 = 1_024;

/// The time of a packet in one way, as measured on samples of at least 1,024 packets.
#[derive(Clone, Copy, PartialEq, Eq, Debug)]
pub struct Way {
    /// The nanoseconds of a packet, once a sample was full.
    pub each: Option<u64>,
    /// The number of packets of the sample that isn't full yet.
    pub packets: u32,
    /// The nanoseconds that these packets took.
    pub nanos: u64,
}

ghost use Rattle.std.specs.Prelude.{◌≡◌, ◌<◌, ◌/◌, Some, None};
ghost use Rattle.pace.specs.Pacing.{kept, timed};

impl Way {
    /// A way that wasn't tried.
    pub fn new() -> Way
        ensures { result ≡ record { each = None; packets = 0; nanos = 0 } }
    {
        Way {
            each: None,
            packets: 0,
            nanos: 0,
        }
    }

    /// A way in which a packet takes `each` nanoseconds.
    pub(crate) fn known(each: u64) -> Way
        ensures { result ≡ record { each = Some each; packets = 0; nanos = 0 } }
    {
        Way {
            each: Some(each),
            packets: 0,
            nanos: 0,
        }
    }

    /// The way after a burst of `packets` packets, at least one, which took `nanos` nanoseconds.
    pub(crate) fn timed(self, packets: u32, nanos: u64) -> Way
        requires some { 0 < packets }
        ensures { result ≡ timed packets nanos self }
    {
        let packets = self.packets.saturating_add(packets);
        let nanos = self.nanos.saturating_add(nanos);
        if packets >= SAMPLE {
            Way::known(kept(self.each, nanos / u64::from(packets)))
        } else {
            Way {
                each: self.each,
                packets,
                nanos,
            }
        }
    }
}

/// The time of a packet to keep for a way, from the time kept `before` and that of this sample.
fn kept(before: Option<u64>, each: u64) -> u64
    ensures { result ≡ kept before each }
{
    match before {
        None => each,
        Some(before) => each.min(before.saturating_add(before / 16)),
    }
}
