//! One value that several threads read, and that its owner gets back whole.
//!
//! [`share`] puts a value into a slot of its own. It returns the right to get the value back, an [`Owner`], and the
//! requested number of rights to read it, each a [`Reader`]. A reader claims the value by [`Reader::read`], looks at it
//! by [`Shown::part`], and gives the claim back by [`Shown::done`]. [`Owner::take`] waits while a claim exists and then
//! returns the value itself. If the rights to read go out one by one, [`lend`] shares the value and [`Owner::reader`]
//! gives out each of them.
//!
//! Contracts see an owner, a reader and a claim each as the value that was shared. So what is read and what is returned
//! is what was shared, whatever the other threads do, and nobody writes it in between. The value is never cloned: only
//! [`share`] and [`lend`] allocate memory.
//!
//! Left out: that a call which waits ever returns. A reader that claims the value after it was taken waits forever.
#![tactic(auto)]

mod home;
mod lease;

pub use lease::{Owner, Reader, ShareFault, Shown, lend, share};
