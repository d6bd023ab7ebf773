//! Why the messages between the nodes of a run are a burst that walks.
//!
//! `stage_nodes` says what is due on the links between dealers, branches and mergers, for any functions of the
//! branches. Here a branch has the functions of a chain that it owns (`specs/Owned.antt`), and the stages are those of
//! a graph (`specs/Works.antt`). [`nodes_walk_the_chain`] is the law: for every lawful graph, all initial states and
//! every burst whose packets may enter its first stage (`specs/Ready.antt`), each node may take all that is due to it;
//! and the packets after the last stage, and the functions with which the branches are left, are those of packets that
//! walk through the chain one after another, each meeting the functions as the packet before left them. The dealers
//! make the copies of the walks. Functions that count don't change meanwhile: each branch lists what its functions note
//! of the packets (`specs/Listed.antt`), and the law says what each has listed.
//!
//! It rests on the law of bursts (`burst_law`). A branch of nodes never sees the results of another branch, so its
//! stream is the same whether the branches run one after another or side by side; a merger makes each packet only of
//! what the branches returned for it.
//!
//! [`bursts_in_parts_lead`] relates a burst of packets in parts to whole frames that walk: frames that were taken apart
//! may enter, and if packets in parts end as those that walk, so do the frames.
//!
//! There is no code here: the code that runs the nodes is in a crate above.
#![tactic(auto)]

mod frames;
mod laws;

pub use frames::bursts_in_parts_lead;
pub use laws::nodes_walk_the_chain;
