//! Why a text is refused.

ghost use Rattle.std.specs.Prelude.{◌≡◌};

use std::alloc::{AllocError, AllocFailed};

/// The first fault of a policy text. Lines and columns are counted from 1, and a column counts bytes.
#[derive(Clone, Copy, Debug, PartialEq, Eq)]
pub enum TextFault {
    /// The byte place, counted from 0, from which on the text isn't UTF-8.
    NotUtf8(usize),
    /// The line, and the column of the first word that doesn't fit its form.
    Syntax(u32, u32),
    UnknownKind(u32),
    DuplicateName(u32),
    UnknownName(u32),
    TooManyFunctions(u32),
    TooManyChains(u32),
    TooManyRules(u32),
    BadVersionLine,
    OutOfMemory,
}

impl From<AllocError> for TextFault {
    ghost use Rattle.policy_text.specs.declared.fault.TextFault.TheVariants.{OutOfMemory};

    ghost from_gives = { λ _ e. e ≡ OutOfMemory };

    fn from(_e: AllocError) -> TextFault {
        TextFault::OutOfMemory
    }
}

impl<T: Drop> From<AllocFailed<T>> for TextFault {
    ghost use Rattle.policy_text.specs.declared.fault.TextFault.TheVariants.{OutOfMemory};

    ghost from_gives = { λ _ e. e ≡ OutOfMemory };

    fn from(_e: AllocFailed<T>) -> TextFault {
        TextFault::OutOfMemory
    }
}

/// Why a function can't be built from its settings.
#[derive(Clone, Copy, Debug, PartialEq, Eq)]
pub enum BuildFault {
    /// The least line that is refused.
    BadSetting(u32),
    OutOfMemory,
}

impl From<AllocError> for BuildFault {
    ghost use Rattle.policy_text.specs.declared.fault.BuildFault.TheVariants.{OutOfMemory};

    ghost from_gives = { λ _ e. e ≡ OutOfMemory };

    fn from(_e: AllocError) -> BuildFault {
        BuildFault::OutOfMemory
    }
}

impl<T: Drop> From<AllocFailed<T>> for BuildFault {
    ghost use Rattle.policy_text.specs.declared.fault.BuildFault.TheVariants.{OutOfMemory};

    ghost from_gives = { λ _ e. e ≡ OutOfMemory };

    fn from(_e: AllocFailed<T>) -> BuildFault {
        BuildFault::OutOfMemory
    }
}

/// Why words are no clauses.
#[derive(Clone, Copy, Debug, PartialEq, Eq)]
pub enum MatchFault {
    /// The place, counted from 0, of the first word that doesn't fit, or the number of words if one is missing.
    BadWord(usize),
    OutOfMemory,
}

impl From<AllocError> for MatchFault {
    ghost use Rattle.policy_text.specs.declared.fault.MatchFault.TheVariants.{OutOfMemory};

    ghost from_gives = { λ _ e. e ≡ OutOfMemory };

    fn from(_e: AllocError) -> MatchFault {
        MatchFault::OutOfMemory
    }
}

impl<T: Drop> From<AllocFailed<T>> for MatchFault {
    ghost use Rattle.policy_text.specs.declared.fault.MatchFault.TheVariants.{OutOfMemory};

    ghost from_gives = { λ _ e. e ≡ OutOfMemory };

    fn from(_e: AllocFailed<T>) -> MatchFault {
        MatchFault::OutOfMemory
    }
}
