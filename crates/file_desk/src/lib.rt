//! A desk over files and standard output.
//!
//! [`FileDesk`] opens the files whose names a program attaches to the slots of a [`Desk`](nfp_outside::Desk), by the
//! calls of a [`System`]. No contract can say what the system will give, so as a desk it shows the names and the counts
//! of faults, and no bytes.
//!
//! Beside that, a file to write has an account: what it holds, whether it was emptied, and what is gathered for it
//! (`specs/Accounts.antt`). The calls of [`FileDesk`] say what they do to it: Out stays as it was until Report is
//! attached, a write appends the bytes that it says it took, and Note takes nothing before all is handed on. They say
//! it of any files whose calls keep to the clauses of [`System`] and [`OutputFile`]. That the operating system, which is
//! a [`Host`], keeps to them is trusted.
//!
//! What is put into a file is gathered, and passed on in pieces of 64 KiB. So a failed write of gathered bytes counts
//! when it is found: at the call of its own slot that needed the room, or at that of Note, before which all gathered
//! bytes are written. With [`FileDesk::set_sync`] the files of Out and Report are also brought to the disk then, which their
//! calls `sync` say they did. [`FileDesk::hand_on`] returns the slot for which either failed. [`FileDesk::reason`] returns why a slot
//! failed; nothing is promised of it. Bytes that are still gathered when the desk is dropped are written then, if
//! possible.
//!
//! Left out: that a file was kept by the system, and any wait for a reader.
#![tactic(auto)]

mod files;
mod host;
mod identity;
mod port;
mod reason;
mod system;
mod target;

pub use files::FileDesk;
pub use host::{Host, HostInput, HostOutput, Lockable};
pub use identity::Identity;
pub use reason::Reason;
pub use system::{InputFile, OutputFile, Stream, System};
