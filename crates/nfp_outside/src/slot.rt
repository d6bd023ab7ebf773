// The slots of a desk, and why a call on one is refused.

use thiserror::Error;

/// A place that bytes come from or go to. Policy, Capture and Graph are read, the others are written.
#[derive(Clone, Copy, Debug, PartialEq, Eq)]
pub enum Slot {
    /// What the operator wants: the text of a policy. Read.
    Policy,
    /// The captured packets. Read.
    Capture,
    /// The packets that passed. Written.
    Out,
    /// What became of the others. Written.
    Report,
    /// A note to the operator. Written, and open from the start.
    Note,
    /// The text of graphs that the operator wrote by hand. Read.
    Graph,
}

/// Why a call of a desk was refused. Nothing was taken, put or attached then.
#[derive(Clone, Copy, Debug, PartialEq, Eq, Error)]
pub enum DeskFault {
    /// The slot failed, and its count of faults rose.
    #[error("the slot failed")]
    Failed,
    /// Out of memory in the call.
    #[error("out of memory")]
    NoMemory,
}

/// Why reading or writing a whole slot was refused.
#[derive(Clone, Copy, Debug, PartialEq, Eq, Error)]
pub enum OutsideFault {
    /// A read of this slot failed.
    #[error("{0:?} can't be read")]
    ReadFault(Slot),
    /// A write to this slot failed.
    #[error("{0:?} can't be written")]
    WriteFault(Slot),
    /// The slot had more bytes than the caller allowed.
    #[error("too long")]
    TooLong,
    /// Out of memory, here or at the desk.
    #[error("out of memory")]
    OutOfMemory,
}
