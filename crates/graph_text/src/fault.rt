//! Why a graph text is refused.

ghost use Rattle.std.specs.Prelude.{◌≡◌};

use dependency_table::Action;
use std::alloc::{AllocError, AllocFailed};

/// The first fault of a graph text. Lines are counted from 1; chains of the policy and functions of a chain are counted
/// from 0, as they are declared.
#[derive(Clone, Copy, Debug, PartialEq, Eq)]
pub enum GraphFault {
    /// The text has more than 1,048,576 bytes.
    TooLong,
    /// The byte place, counted from 0, from which on the text isn't UTF-8.
    NotUtf8(usize),
    BadVersionLine,
    /// A line that has no known form, is in no chain or no stage, or opens a stage without a branch.
    Syntax(u32),
    UnknownName(u32),
    /// A line that lists a chain again, or a function that is placed already.
    Twice(u32),
    /// A line that lists a chain with a function that rewrites packets whole, as the ends of tunnels do.
    WholeChain(u32),
    /// In this chain this function is missing.
    Missing(u32, u32),
    /// In this chain the first of these functions comes before the second, but the text has them the other way round.
    OutOfOrder(u32, u32, u32),
    /// In this chain these functions are side by side, though this action of the first must come before this one of the
    /// second.
    Forbidden(u32, u32, u32, Action, Action),
}

/// Why a graph text isn't accepted.
#[derive(Clone, Copy, Debug, PartialEq, Eq)]
pub enum GraphReadFault {
    Graph(GraphFault),
    OutOfMemory,
}

impl From<AllocError> for GraphReadFault {
    ghost use Rattle.graph_text.specs.declared.fault.GraphReadFault.TheVariants.{OutOfMemory};

    ghost from_gives = { λ _ e. e ≡ OutOfMemory };

    fn from(_e: AllocError) -> GraphReadFault {
        GraphReadFault::OutOfMemory
    }
}

impl<T: Drop> From<AllocFailed<T>> for GraphReadFault {
    ghost use Rattle.graph_text.specs.declared.fault.GraphReadFault.TheVariants.{OutOfMemory};

    ghost from_gives = { λ _ e. e ≡ OutOfMemory };

    fn from(_e: AllocFailed<T>) -> GraphReadFault {
        GraphReadFault::OutOfMemory
    }
}
