//! Why a graph of branches gives what the chain gives.
//!
//! A packet goes through the stages of a graph. In each stage every branch has a version of it, with the fields that
//! the branch touches, and the functions of the branch act on that version one after another. After the stage the
//! versions are merged: the packet is gone at the least position where it was dropped, and otherwise each field has the
//! value that was written last. `specs/Flow.antt` defines this over functions of any type (`Behaviour` of
//! `chain_walk`).
//!
//! [`graph_is_chain`] is the law: for every lawful graph, every profile and all initial states, the packet ends as if
//! it walked through the functions of the chain one after another, and leaves every function in the same state. It
//! rests only on profiles, on the law that every function keeps to its profile, and on lawfulness; it never depends on
//! what one kind of function does.
//!
//! A function that counts doesn't change meanwhile: it notes the packet, and its note is settled after the graph, once
//! it is known that no function before it dropped the packet. [`notes_are_settled_behind`] says that this is what the
//! walk does, and [`branches_note_as_the_walk`] that each branch notes what the walk would.
//!
//! Other laws hold between two steps of a run, for any branches and stages, lawful or not: functions keep their
//! profiles and their number ([`profiles_stay`]), a packet keeps the fields that it has ([`fields_stay`]), and a packet
//! that is gone after a stage was dropped in that stage ([`stage_reached`]).
//!
//! There is no code here: the code that runs a graph is in a crate above.
#![tactic(auto)]

mod laws;

pub use laws::{
    branches_note_as_the_walk, fields_stay, graph_is_chain, notes_are_settled_behind,
    profiles_stay, stage_reached,
};
