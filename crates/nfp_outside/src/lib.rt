//! Where a program's bytes come from and go to.
//!
//! A [`Desk`] has six slots: three that are read and three that are written. Each slot has a name once it is attached,
//! the bytes that are left in it or were put into it, and a count of the calls on it that failed. [`read_all`] and
//! [`write_whole`] move whole texts over a desk, and each step of a function passes a [`Gate`] first.
//!
//! The contracts here promise: which bytes a call takes or puts; that a refused call leaves the names and the bytes as
//! they were; that a fault is returned only if the count of its own slot rose in that call, or is at the maximum of its
//! type; and that no call changes a slot that it doesn't name.
//!
//! There are three desks here, all of them in memory. [`FixedDesk`] never fails. [`MemDesk`] fails exactly at the calls
//! that it is given a list of. [`Scales`] keeps no byte, and shows what was put into each slot by its [`Weight`]. A
//! desk over files is in the crate `file_desk`.
#![tactic(auto)]

mod call_counts;
mod desk;
mod fixed;
mod gate;
mod held;
mod memory;
mod scales;
mod slot;
mod weight;
mod whole;

pub use desk::Desk;
pub use fixed::FixedDesk;
pub use gate::{Gate, OpenGate};
pub use memory::MemDesk;
pub use scales::Scales;
pub use slot::{DeskFault, OutsideFault, Slot};
pub use weight::{Weight, weights_add_up};
pub use whole::{read_all, write_whole};
