//! How a call of the program ends.
ghost use Rattle.std.specs.Prelude.{◌≡◌};
ghost use Rattle.call_ending.specs.declared.outcome.Outcome.TheVariants.{OutOfMemory};
ghost use Rattle.call_ending.specs.Status.{status_of};

use capture_items::RunFault;
use command_words::UsageFault;
use graph_text::GraphFault;
use nfp_outside::Slot;
use pcap_io::CaptureFault;
use pcapng_io::NgFault;
use policy_judge::PolicyFault;
use std::alloc::{AllocError, AllocFailed};

/// How a call ended.
#[derive(Debug, Drop)]
pub enum Outcome {
    /// The whole capture, which has no fault, went through the chains; or the plan of a policy without
    /// fault was shown.
    Done,
    /// The words are refused, and nothing was touched.
    Usage(UsageFault),
    /// The policy has this first fault.
    Policy(PolicyFault),
    /// The graphs that were written for a policy without fault have this first fault.
    Graph(GraphFault),
    /// The capture, which is a classic one, has this first fault. The records before it went through the chains.
    Capture(CaptureFault),
    /// The same for a pcapng capture.
    CaptureNg(NgFault),
    /// This slot couldn't be read.
    ReadFault(Slot),
    /// This slot couldn't be written.
    WriteFault(Slot),
    /// Out of memory.
    OutOfMemory,
}

impl Outcome {
    /// The exit status of the program.
    pub fn status(&self) -> u8
        ensures { result ≡ status_of self.now }
    {
        match self {
            Outcome::Done => 0,
            Outcome::Usage(_) => 1,
            Outcome::Policy(_) => 2,
            Outcome::Graph(_) => 8,
            Outcome::Capture(_) => 3,
            Outcome::CaptureNg(_) => 3,
            Outcome::ReadFault(_) => 4,
            Outcome::WriteFault(_) => 5,
            Outcome::OutOfMemory => 6,
        }
    }
}

impl From<RunFault> for Outcome {
    ghost use Rattle.call_ending.specs.Broken.{broken_by};

    ghost from_gives = { λ fault outcome. outcome ≡ broken_by fault };

    fn from(fault: RunFault) -> Self {
        match fault {
            RunFault::ReadFault => Outcome::ReadFault(Slot::Capture),
            RunFault::WriteFault(slot) => Outcome::WriteFault(slot),
            RunFault::OutOfMemory => Outcome::OutOfMemory,
        }
    }
}

impl From<AllocError> for Outcome {
    ghost from_gives = { λ _ e. e ≡ OutOfMemory };

    fn from(_: AllocError) -> Self {
        Outcome::OutOfMemory
    }
}

impl<T: Drop> From<AllocFailed<T>> for Outcome {
    ghost from_gives = { λ _ e. e ≡ OutOfMemory };

    fn from(_: AllocFailed<T>) -> Self {
        Outcome::OutOfMemory
    }
}
