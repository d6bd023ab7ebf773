//! The counts of a flow.
use crate::key::FlowKey;

/// The counts of a flow. Times are nanoseconds since 1970.
#[derive(Clone, Copy, PartialEq, Eq, Debug)]
pub struct FlowLine {
    pub key: FlowKey,
    /// The number of its packets, up to the largest number of 64 bits.
    pub packets: u64,
    /// The sum of their IP lengths, up to the largest number of 64 bits.
    pub bytes: u64,
    /// The least time of its records.
    pub begun: u64,
    /// The greatest time of its records.
    pub last: u64,
    /// The number of its first record in the capture, from 1.
    pub first: u32,
    /// The bitwise or of its TCP flags (RFC 793, 3.1).
    pub flags: u8,
}

// The widest fields come first here too.
const _: () = prove!(size_of::<FlowLine>() == 96);
