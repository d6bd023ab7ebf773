//! Why a burst of packets may go through a graph stage by stage, and in each stage branch by branch.
//!
//! The functions of a chain are split among the branches that own them. In each stage every branch takes all packets of
//! a burst in their order, and changes only its own functions. After the stage each packet is merged from what the
//! branches returned for it, and then all packets go on to the next stage. `specs/Bursts.antt` defines this over
//! functions of any type (`Behaviour` of `chain_walk`). `specs/Stations.antt` has the terms that it uses: a step over
//! many values, and values at stations in a row or side by side.
//!
//! [`burst_is_chain`] is the law: for every lawful graph, every profile and all initial states, the packets end as
//! those that walk through the chain one after another, and of the functions that the walks leave, each branch is left
//! with those that it owns. [`packets_merge_apart`] says that a packet after a stage is made only of what the branches
//! returned for it, [`owned_is_whole`] that functions which are split like this can be joined again in only one way,
//! and [`copies_are_same`] that the copies counted stage by stage are those of the stages that each packet reaches.
//! These laws are about the fields of packets; by [`frames_walk_in_bursts`] they hold of whole frames.
//!
//! Functions that count don't change meanwhile. Their notes are settled after the burst, and
//! [`notes_are_settled_behind_bursts`] says that each branch is then left with the functions that the walks leave,
//! counting included. A branch may list its notes one after another and settle them one by one
//! ([`notes_are_settled_as_listed`]). The notes of a packet that goes through all stages by itself are settled by their
//! positions ([`notes_are_settled_by_position`]).
//!
//! In this order no branch of a stage waits for another, and no function is seen by two branches, so each may run on a
//! thread of its own. There is no code here: the code that runs a burst is in a crate above.
#![tactic(auto)]

mod laws;

pub use laws::{
    burst_is_chain, copies_are_same, frames_walk_in_bursts, notes_are_settled_as_listed,
    notes_are_settled_behind_bursts, notes_are_settled_by_position, owned_is_whole,
    packets_merge_apart,
};
