use crate::capture::CaptureFault;
use nfp_outside::Slot;
use thiserror::Error;

/// Why reading a capture from a desk was refused.
#[derive(Clone, Copy, Debug, PartialEq, Eq, Error)]
pub enum PcapFault {
    /// The capture's bytes aren't read further.
    #[error(transparent)]
    Capture(CaptureFault),
    /// A read of this slot failed; it is the slot Capture.
    #[error("{0:?} can't be read")]
    ReadFault(Slot),
    /// Out of memory, here or at the desk.
    #[error("out of memory")]
    OutOfMemory,
}
