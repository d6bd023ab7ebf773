//! The results of checking a chain.

ghost use Rattle.std.specs.Prelude.{◌≡◌};

use dependency_table::Action;
use item_list::Items;
use std::alloc::{AllocError, AllocFailed};

/// The order in which the functions of a chain take a packet.
#[derive(Debug, Drop)]
pub struct Order {
    /// The functions, counted from 0 as declared, in chain order.
    pub positions: Items<u32>,
}

/// Why a chain has no order. Functions are counted from 0 as declared.
#[derive(Debug, Drop)]
pub enum CheckFault {
    /// Functions of which each must come before the next, and the last before the first. The earliest declared of them
    /// is first.
    Cycle(Items<u32>),
    /// The first Priority in the text, on this line, whose lower function may not come before the higher one: an action
    /// of the lower function forbids one of the higher.
    PriorityForbidden {
        high: u32,
        low: u32,
        line: u32,
        /// What the lower function does.
        first: Action,
        /// What the higher function does.
        second: Action,
    },
    OutOfMemory,
}

impl From<AllocError> for CheckFault {
    ghost use Rattle.policy_check.specs.declared.fault.CheckFault.TheVariants.{OutOfMemory};

    ghost from_gives = { λ _ e. e ≡ OutOfMemory };

    fn from(_e: AllocError) -> CheckFault {
        CheckFault::OutOfMemory
    }
}

impl<T: Drop> From<AllocFailed<T>> for CheckFault {
    ghost use Rattle.policy_check.specs.declared.fault.CheckFault.TheVariants.{OutOfMemory};

    ghost from_gives = { λ _ e. e ≡ OutOfMemory };

    fn from(_e: AllocFailed<T>) -> CheckFault {
        CheckFault::OutOfMemory
    }
}
