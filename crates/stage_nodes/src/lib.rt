//! The nodes of a stage: a dealer, branches and mergers, which work side by side on a stream of packets.
//!
//! A [`Dealer`] takes packets one after another from its [`Supply`], which may be the mergers of the stage before, and
//! deals each: a version goes to each branch, and the base of the packet to the mergers in turn. A [`Branch`] runs the
//! versions that it gets through its functions ([`BranchWork`]), in the packets' order, and gives each result to its
//! mergers in turn. If its functions neither keep a state nor count, a branch may have several nodes with the same
//! functions ([`BranchWork::try_clone`]), to which the dealer gives versions in turn. A [`Merger`] takes, for each of
//! its packets, the results of the branches and the base, merges them (`merge_ops`), and gives the packet to the dealer
//! of the next stage. Branches and mergers meet in one of two ways, and neither node knows which: [`ToMerger`] and
//! [`FromBranches`] are ends of links (`packet_messages`), where the merger takes from one branch after another, or
//! seats at the merger's board (`packet_messages`), where each branch puts its result and the merger polls until all
//! are there. Each node owns its ends of links and its seats, and shares nothing else, so it can run on a thread of its
//! own: [`run_dealer`], [`run_branch`] and [`run_merger`] run one until all its packets went through it.
//!
//! A packet that was dropped goes on as a word that says where, through every later node. If a node runs out of memory,
//! or takes the word that another did, it gives that word for this packet and for all later ones: each node gives one
//! message for each that it owes, whatever comes, so no neighbour waits for a message that was left out. A node gives
//! only by its [`Giving`], which knows whether that word went into it: after it nothing else may.
//!
//! The contracts promise: on each link, and to each merger, a node gives what is due, or the word that memory ran out,
//! if what it takes is so too. What is due is defined on lists, `stream` in `specs/Streams.antt`: on the edge from a
//! dealer to a branch, the versions that it deals to the branch; on the edge to the mergers, the base of each packet;
//! on the edge from a branch to the mergers, the results of its functions on all versions one after another; and on the
//! edge after the mergers, the result of merging each packet's base and the results of its branches. Unless memory ran
//! out, a branch returns the functions that are left after all its versions, and a dealer the copies that are due for
//! all its packets. `specs/Dues.antt` says which ends fit a node.
//!
//! Left out: that a node ends, since it waits for its neighbours. The caller makes the links and the boards and starts
//! the nodes, and its `BranchWork` says which functions a branch has.
#![tactic(auto)]

mod arrival;
mod board_rows;
mod branch;
mod dealer;
mod from_branches;
mod given;
mod giving;
mod link_rows;
mod merger;
mod supply;
mod to_mergers;
mod work;

pub use branch::{Branch, run_branch};
pub use dealer::{Dealer, run_dealer};
pub use from_branches::FromBranches;
pub use giving::{Giving, ToStage};
pub use merger::{Merger, run_merger};
pub use supply::Supply;
pub use to_mergers::{ToMerger, ToMergers, take_ends};
pub use work::BranchWork;
