//! How a call of the program ends, and what it reads first.
//!
//! An [`Outcome`] is what a call returns; it decides the exit status (`specs/Status.antt`). An [`Ending`] is how the work
//! ended before its line is put into Note by [`put_note`]; `specs/Notes.antt` has every line, and [`put_line`] puts one
//! that was made elsewhere. `specs/Left.antt` says what a call leaves in a slot. [`read_policy`] reads a policy whole and
//! judges it, [`read_bytes`] reads any text, and [`open_capture`] attaches a capture of either format and reads its head
//! or its first block ([`open_classic`] only that of a classic one). [`attach_sink`] attaches a slot that is written. Each
//! returns the reason if that fails.
//!
//! Left out: the commands, and what they do with what was read.
#![tactic(auto)]

mod attach;
mod ending;
mod note;
mod outcome;
mod read;

pub use attach::attach_sink;
pub use ending::{Ending, GraphRefusal};
pub use note::{put_line, put_note, write_fault_text};
pub use outcome::Outcome;
pub use read::{Opened, Unread, open_capture, open_classic, read_bytes, read_policy};
