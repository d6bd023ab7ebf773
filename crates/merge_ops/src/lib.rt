//! Merges the versions of a packet after a stage.
//!
//! Each branch of a stage returns an [`Arrival`]: its version of the packet, or the chain position of the function that
//! dropped it, or nothing, if a worker ran out of memory. [`decide`] decides what becomes of the packet, and [`merge`]
//! carries it out: it takes the lent parts back into the base, and puts in for each field the part that was written
//! last.
//!
//! The contracts promise: a packet is short exactly if an arrival is; otherwise it is gone exactly if it was dropped,
//! at the least chain position; otherwise each field has the part with the greatest writer, or the packet's own part if
//! nobody wrote it. [`merge_only`] does the same after a stage of one branch, which had the packet whole. The rest of
//! the frame and the fixed values are those of the base. The list of arrivals is emptied, and nothing is allocated.
//! [`merged_is_written_last`] says this about the values, [`last_writer_is_greatest`] says who wrote last, and
//! [`unwritten_is_same`] that a packet which nobody wrote comes back as the same frame.
//!
//! After the last stage [`Merged::into_fate`] joins the parts of a packet that goes on to its frame.
//!
//! `specs/Behind.antt` says what `merge` requires of the arrivals: one from each branch of the base's stage, in branch
//! order, each with the fields that its branch got. [`dealt_are_arrivals`] and [`written_is_made`] derive it from what
//! was dealt and then written.
#![tactic(auto)]

mod alone;
mod arrival;
mod decision;
mod fate;
mod laws;
mod merging;

pub use alone::merge_only;
pub use arrival::Arrival;
pub use decision::{Decision, MergeOp, decide};
pub use laws::{
    dealt_are_arrivals, last_writer_is_greatest, merged_is_written_last, unwritten_is_same,
    written_is_made,
};
pub use merging::{Merged, merge};
