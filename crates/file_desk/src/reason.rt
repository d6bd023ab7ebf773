// Why a slot over a file failed.

use nfp_outside::Slot;
use std::io;

/// Why a slot over a file failed, as the failed call reported it. It is for messages that explain to an operator what
/// to do.
#[derive(Clone, Copy, Debug)]
pub enum Reason {
    /// The system refused the call.
    System(io::Error),
    /// The file is attached at this slot already, perhaps by another name.
    AttachedAt(Slot),
    /// Standard output leads to the file, so what is printed would get into it.
    StandardOutput,
    /// Standard error leads to the file, so messages would get into it.
    StandardError,
    /// Both lead to the file.
    BothStreams,
    /// Another run has locked the file.
    Locked,
    /// The file took nothing of a piece.
    TookNothing,
}

/// Why a file wasn't opened.
#[derive(Clone, Copy, Debug)]
pub enum OpenFault {
    /// It can't be opened, for this reason.
    Failed(Reason),
    /// Out of memory for its buffer.
    NoMemory,
}
