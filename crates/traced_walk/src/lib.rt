//! The sequential model of what each function did to a packet.
//!
//! `specs/Traced.antt` is the walk of `chain_walk`, and that of `piece_walk`, with the acts of the functions that a
//! packet reaches: which lines of a function's declaration decided its step, whether it dropped the packet, and the
//! frame before it and behind it.
//!
//! [`the_trace_is_the_walk`] says that without its acts a trace is the walk; [`a_drop_is_the_last_act`] that a packet is
//! dropped exactly if the last act dropped it; [`acts_follow_each_other`] that each function of a piece acts on the
//! frame that the one before left; and [`a_drop_has_one_line`] that each drop has exactly one deciding line.
//!
//! `specs/Ways.antt` has the way of each packet of a capture through the chain that takes it. By
//! [`the_ways_are_the_walk`] each packet ends as `service_walk` says. Left out: what the lines are in the text of a
//! policy.
#![tactic(auto)]

mod laws;

pub use laws::{
    a_drop_has_one_line, a_drop_is_the_last_act, acts_follow_each_other, the_trace_is_the_walk,
    the_ways_are_the_walk,
};
