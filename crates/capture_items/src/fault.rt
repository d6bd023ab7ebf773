//! Why a capture isn't read to its end, in either format, and why a run was aborted.
ghost use Rattle.std.specs.Prelude.{◌≡◌};
ghost use Rattle.capture_items.specs.declared.fault.RunFault.TheVariants.{OutOfMemory};

use nfp_outside::Slot;
use pcap_io::CaptureFault;
use pcapng_io::NgFault;
use std::alloc::{AllocError, AllocFailed};

/// The first fault of a capture, by its format.
#[derive(Clone, Copy, Debug, PartialEq, Eq)]
pub enum FormatFault {
    /// The fault of a classic capture.
    Pcap(CaptureFault),
    /// The fault of a pcapng capture.
    Ng(NgFault),
}

/// Why a source returned nothing more.
#[derive(Clone, Copy, Debug, PartialEq, Eq)]
pub enum SourceFault {
    /// The capture has this fault, and isn't read further.
    Format(FormatFault),
    /// The capture couldn't be read further.
    ReadFault,
    /// Out of memory.
    OutOfMemory,
}

/// Why a run was aborted before the end of its capture, or before everything was written.
#[derive(Clone, Copy, Debug, PartialEq, Eq)]
pub enum RunFault {
    /// The capture couldn't be read further.
    ReadFault,
    /// This slot couldn't be written, or attached.
    WriteFault(Slot),
    /// Out of memory.
    OutOfMemory,
}

impl From<AllocError> for RunFault {
    ghost from_gives = { λ _ e. e ≡ OutOfMemory };

    fn from(_: AllocError) -> Self {
        RunFault::OutOfMemory
    }
}

impl<T: Drop> From<AllocFailed<T>> for RunFault {
    ghost from_gives = { λ _ e. e ≡ OutOfMemory };

    fn from(_: AllocFailed<T>) -> Self {
        RunFault::OutOfMemory
    }
}
