//! The call `why`: which line of a policy decided on each packet of a capture, and what became of it.
//!
//! What [`why`] promises is its theorem: its contract states it, and `specs/Due.antt` defines the result that is due.
//! [`a_good_why_is_done`] says of this result that words, policy and capture without fault give Done. The call leads
//! packets by the plain walk, on one thread: no stage, branch, burst or merger stands in its result, and its crate names
//! none of theirs.
//!
//! Left out: the word `why` itself, which the program reads, and files, which stand behind a desk.
#![tactic(auto)]

mod call;
mod ending;
mod explain;
mod laws;
mod ready;

pub use call::why;
pub use laws::a_good_why_is_done;
