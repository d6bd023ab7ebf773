//! The sequential model of a service chain: a whole packet walks through the functions of the chain, one after another,
//! and each packet of a capture through the functions as the packet before it left them.
//!
//! The definitions of `specs/Walk.antt` are the reference: every other way to run a chain (in bursts, in branches, in
//! threads) is proved equal to them. They know no stage, part, copy, queue or thread. `frame_walk` has the plain body
//! of the definition for one packet.
//!
//! A `Behaviour` of `specs/Step.antt` defines once what a function does: its profile, and its step as a function of
//! what it sees of a packet, namely the values of the fields that it reads, which of the fields that it writes are
//! there, and the packet's [`Fixed`] values. To see a whole frame and to see a version of it are two readings of this
//! one definition. Every function obeys `KeepsProfile` of `specs/Laws.antt`. From it alone, [`frames_walk_as_fields`]
//! says that a frame walks as its fields do, and [`values_stay_well_formed`] that a function leaves values in the form
//! that those of a frame have.
//!
//! A function that counts is a function like any other, whose step notes a packet and settles the note. Some code has
//! to run it before it is known whether an earlier function drops the packet. For that there are the same functions
//! with their counting left out (`quiet` of `specs/Counting.antt`, and [`quiet_functions_keep_to_profiles`]), and a
//! definition of the note of a packet and of how it is settled (`CountsByNotes` of `specs/Notes.antt`).
#![tactic(auto)]

mod fixed;
mod laws;
mod verdict;
mod walk;

pub use fixed::Fixed;
pub use laws::{
    frames_are_built_again, frames_walk_as_fields, packets_walk_in_a_row,
    quiet_functions_keep_to_profiles, step_is_put_together, values_stay_well_formed,
};
pub use verdict::Verdict;
pub use walk::Fate;
