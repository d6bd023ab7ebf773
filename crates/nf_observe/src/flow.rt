//! What is counted of a flow.

/// The packets of a flow, and their bytes.
#[derive(Clone, Copy, PartialEq, Eq, Debug)]
pub struct FlowCounts {
    pub packets: u64,
    pub bytes: u64,
}

impl FlowCounts {
    ghost use Rattle.std.specs.Prelude.{◌≡◌};
    ghost use Rattle.nf_observe.specs.Flows.{with_packet};

    /// The counts before the first packet.
    pub const NONE: FlowCounts = FlowCounts {
        packets: 0,
        bytes: 0,
    };

    /// The counts with one more packet, of `bytes` bytes.
    pub fn with_packet(self, bytes: u16) -> FlowCounts
        ensures { result ≡ with_packet self bytes }
    {
        FlowCounts {
            packets: self.packets.saturating_add(1),
            bytes: self.bytes.saturating_add(u64::from(bytes)),
        }
    }
}
