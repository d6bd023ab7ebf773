//! Why a capture isn't read further.
ghost use Rattle.std.specs.Prelude.{◌≡◌};
ghost use Rattle.pcapng_io.specs.declared.fault.NgReadFault.TheVariants.{OutOfMemory};

use nfp_outside::Slot;
use std::alloc::AllocError;
use thiserror::Error;

/// Why a capture isn't read further. Blocks and packets are counted from 1.
#[derive(Clone, Copy, Debug, PartialEq, Eq, Error)]
pub enum NgFault {
    /// The capture ends inside this block.
    #[error("block {0} is cut")]
    CutBlock(u64),
    /// This block isn't as its type asks, or its type isn't read.
    #[error("block {0} is malformed")]
    BadBlock(u64),
    /// The block (first number) claims a length above 16,777,216 (second number).
    #[error("block {0} has {1} bytes")]
    BlockTooLong(u64, u32),
    /// The link type of an interface isn't Ethernet, but this one.
    #[error("the link type is {0}, and not Ethernet")]
    BadLink(u32),
    /// The resolution of the interface in this block isn't accepted.
    #[error("the resolution in block {0} isn't accepted")]
    BadResolution(u64),
    /// The packet in this block names an interface that its section hasn't.
    #[error("block {0} names no interface of its section")]
    NoInterface(u64),
    /// The packet (first number) claims a captured length above 262,144 (second number).
    #[error("the frame of packet {0} has {1} bytes")]
    FrameTooLong(u32, u32),
    /// A packet follows after 4,294,967,295 packets.
    #[error("too many packets")]
    TooManyRecords,
    /// A block follows after 1,099,511,627,775 blocks.
    #[error("too many blocks")]
    TooManyBlocks,
}

/// Why reading a capture from a desk was refused.
#[derive(Clone, Copy, Debug, PartialEq, Eq, Error)]
pub enum NgReadFault {
    /// The capture's bytes aren't read further.
    #[error(transparent)]
    Ng(NgFault),
    /// A read of this slot failed; it is the slot Capture.
    #[error("{0:?} can't be read")]
    ReadFault(Slot),
    /// Out of memory, here or at the desk.
    #[error("out of memory")]
    OutOfMemory,
}

impl From<AllocError> for NgReadFault {
    ghost from_gives = { λ _ e. e ≡ OutOfMemory };

    fn from(_: AllocError) -> Self {
        NgReadFault::OutOfMemory
    }
}
