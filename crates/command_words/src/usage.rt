//! Why words are refused.
ghost use Rattle.std.specs.Prelude.{◌≡◌};
ghost use Rattle.command_words.specs.declared.usage.WordsFault.TheVariants.{OutOfMemory};

use std::alloc::AllocError;

/// A number among the words of a command.
#[derive(Clone, Copy, Debug)]
pub enum Option4 {
    /// The value of `--mergers`.
    Mergers,
    /// The value of `--burst`.
    Burst,
    /// The value of `--workers`.
    Workers,
    /// The value of `--record`.
    Record,
    /// The first name of `demo`.
    Seed,
    /// The second name of `demo`.
    Count,
}

/// Why the words of the command line are refused: the first fault, in this order.
#[derive(Clone, Copy, Debug)]
pub enum UsageFault {
    /// There is no word.
    NoCommand,
    /// The first word is no command.
    UnknownCommand,
    /// A name is missing or one is too many; an option is unknown, is given twice or has no value; a word that begins
    /// with a dash is given for a name or a value; or a name or a value is empty or a single dash.
    Words,
    /// This number isn't 1 to 20 digits, or is outside its range.
    Number(Option4),
    /// The value of `--merge` is neither `inbox` nor `board`.
    Merge,
    /// Two of the names of files of `run`, `plan`, `flows` or `why` are equal.
    SameName,
}

/// Why no command was read.
#[derive(Clone, Copy)]
pub enum WordsFault {
    /// The words are refused.
    Usage(UsageFault),
    /// Out of memory.
    OutOfMemory,
}

impl From<AllocError> for WordsFault {
    ghost from_gives = { λ _ e. e ≡ OutOfMemory };

    fn from(_: AllocError) -> Self {
        WordsFault::OutOfMemory
    }
}
