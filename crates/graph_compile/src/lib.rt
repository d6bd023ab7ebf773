//! Which functions of a chain run side by side, and what each branch gets of a packet.
//!
//! A chain of network functions becomes a list of stages, which a packet passes one after another. A stage has branches
//! that work on the packet side by side, and a branch is a run of functions, one after another. [`compile`] makes the
//! stages by one greedy pass over the chain: a function joins the branch that must come before it, opens a branch if
//! none must, and closes the stage if two must. [`lawful`] decides of any graph whether it may replace the chain.
//! [`in_a_row`] makes the graph of one branch in which all functions come one after another, for a burst that one
//! thread runs: a packet ends the same way by either graph, and the row copies nothing ([`copies_nothing`]).
//!
//! Each field of a packet is shared by the branches that only read it, moved to the one branch that touches it, or
//! copied for those that write it. [`parts`] returns this for any branches. [`copies`] counts the copies, and
//! [`no_copy_is_spared`] says that none is unnecessary. [`functions_are_placed_for_cause`] and
//! [`fields_are_handed_on_by_rule`] describe the resulting stages and fields without the algorithm.
//!
//! `specs/Facts.antt` says what a lawful graph is. [`lawful_graph_is_staged`] and [`lawful_stage_has_owners`] say the
//! same stage by stage and position by position, for proofs that go over the functions in chain order. A lawful graph
//! may have a stage without a branch, and then the stages before and after it are compared with nothing; no stage that
//! [`compile`] makes is empty.
//!
//! Left out: how a packet is dealt to branches and merged again.
#![tactic(auto)]

mod copying;
mod draft;
mod graph;
mod handing;
mod lawfulness;
mod laws;
mod placing;
mod row;
mod touching;

pub use copying::{copies, copies_nothing};
pub use graph::{Branch, Graph, Stage};
pub use handing::parts;
pub use lawfulness::{lawful, stands};
pub use laws::{
    fields_are_handed_on_by_rule, functions_are_placed_for_cause, lawful_graph_is_staged,
    lawful_stage_has_owners, no_copy_is_spared, stages_rise, unwritten_is_not_copied,
};
pub use placing::compile;
pub use row::in_a_row;
