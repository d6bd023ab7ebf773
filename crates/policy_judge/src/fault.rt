//! Why a policy is refused.

use item_list::Items;
use policy_check::CheckFault;
use policy_text::TextFault;
use std::alloc::{AllocError, AllocFailed};

/// The first fault of a policy. Its `OutOfMemory` variants don't occur here.
#[derive(Debug, Drop)]
pub enum PolicyFault {
    /// The text has more than 1,048,576 bytes.
    TooLong,
    Text(TextFault),
    /// The least line, counted from 1, that a function refuses among its settings.
    BadSetting(u32),
    /// The chain, counted from 0, has a cycle or a forbidden Priority.
    Check { chain: u32, fault: CheckFault },
}

/// A fault, and the line that reports it.
#[derive(Debug, Drop)]
pub struct Refusal {
    pub fault: PolicyFault,
    pub line: Items<u8>,
}

/// Why a policy text isn't accepted.
#[derive(Debug, Drop)]
pub enum JudgeFault {
    Refused(Refusal),
    OutOfMemory,
}

impl From<AllocError> for JudgeFault {
    ghost use Rattle.std.specs.Prelude.{◌≡◌};
    ghost use Rattle.policy_judge.specs.declared.fault.JudgeFault.TheVariants.{OutOfMemory};

    ghost from_gives = { λ _ e. e ≡ OutOfMemory };

    fn from(_e: AllocError) -> JudgeFault {
        JudgeFault::OutOfMemory
    }
}

impl<T: Drop> From<AllocFailed<T>> for JudgeFault {
    ghost use Rattle.std.specs.Prelude.{◌≡◌};
    ghost use Rattle.policy_judge.specs.declared.fault.JudgeFault.TheVariants.{OutOfMemory};

    ghost from_gives = { λ _ e. e ≡ OutOfMemory };

    fn from(_e: AllocFailed<T>) -> JudgeFault {
        JudgeFault::OutOfMemory
    }
}
