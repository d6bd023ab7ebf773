//! Packets go one after another through the graph of a chain, on the caller's thread.
//!
//! A [`Running`] has the functions of a chain, in the states in which the last packet left them, and a graph that is
//! lawful for their profiles. [`run_plain`] runs the packets of a burst through it on one thread: each is split into
//! its parts and dealt, stage by stage, to the branches, which act on versions of it one after another; the versions
//! are merged after each stage, and a packet that goes out is joined to a frame again.
//!
//! The contracts promise, for every lawful graph, every kind of function and all initial states (`Leads` of
//! `specs/Leading.antt`): the fates of the packets are those of packets that walk through the functions of the chain
//! one after another (`fates` of `chain_walk`), and so are the states of the functions (`functions_after`); the graph
//! stays; the tally rises by exactly the copies that `copies_made` of `specs/Counting.antt` counts, which are those of
//! the stages that each packet reaches, up to the maximum of its type. The only error is that memory runs out.
//!
//! A function that counts packets only notes a packet on its way (`step_on`), and doesn't change: it may be in a branch
//! beside a function of an earlier position that drops the packet. After the last stage, when the fate of the packet is
//! known, each note is settled, except those at positions after a drop. So a packet that was dropped isn't counted
//! after its drop.
//!
//! The proof has three steps. A function sees the same through a view of a version as in the whole packet
//! (`packet_version`); a stage of branches that are not forbidden beside each other gives what its functions give one
//! after another (`graph_law`); and a whole frame walks as its fields do (`chain_walk`). All three hold for functions
//! whose counting is left out, and a fourth law, that notes may be settled by their positions (`burst_law`), adds it
//! again. Here the code is proved to follow these laws: a branch (`run_branch`), a stage, a packet, a burst.
//! [`run_gated`] does the same past a gate, and [`run_items`] for a piece of a burst: pieces that are run one after
//! another are the burst (`pieces_are_led_in_a_row`). [`run_in_a_row`] does it through a graph of one branch, which
//! copies nothing, and counts what the chain's own graph copies.
//!
//! Left out: checksums (frames that go out are not sealed), and threads.
#![tactic(auto)]

mod branch;
mod copies;
mod laws;
mod noted;
mod packet;
mod pieces;
mod plain;
mod row;
mod running;
mod stage;

pub use branch::{Acted, step_on};
pub use chain_walk::Fate;
pub use laws::{
    branches_hold_what_is_named, dealt_versions_go_on, due_copies_are_counted,
    functions_keep_to_profiles, merged_packets_go_on, versions_go_on,
};
pub use pieces::pieces_are_led_in_a_row;
pub use plain::{count_adders, is_of, run_gated, run_items, run_plain};
pub use row::run_in_a_row;
pub use running::Running;
