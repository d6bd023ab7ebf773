//! A burst goes through the graph of a chain whose dealers, branches and mergers are nodes, at work side by side.
//!
//! [`run_piped`] and [`run_joined`] do what `run_plain` of `graph_run` does, and have the same contract: the packets
//! end as those that walk through the chain one after another, and so do the functions; the tally rises by the same
//! copies; the only error is that memory runs out. Both run the burst through the same nodes (`node_run`). Each stage
//! has a dealer, its branches and its mergers, and each of these is a node. A dealer takes a packet and deals it to the
//! branches; a branch takes its versions in the packets' order; a merger merges the results of the branches for a
//! packet, and gives it to the next stage's dealer. The first dealer runs in the caller's thread and takes frames apart
//! as it deals them. A branch whose functions neither keep a state nor count, by their profiles, has a node for each
//! merger, with the same functions. The nodes send each other messages over links with one giver and one taker each.
//! The results of branches go to the mergers over such links too ([`MergeWay::Inbox`]), or each branch puts them in its
//! place on the merger's board, where the merger looks at a packet's word until it has the bit of each branch
//! ([`MergeWay::Board`]). The two ways have one contract, which doesn't mention the way.
//!
//! With [`run_piped`] all nodes are at work at the same time, and share as many threads as suit the machine: no stage
//! waits for the stage before it, so a packet may be in the first stage while the one before it is in the last. If a
//! graph has one stage of one branch, or no stage, nothing could run beside it. If steps are so light that threads cost
//! more than they save, as measured on the packets before (`pace`), threads don't pay. Such packets go through the
//! functions in a row on the caller's thread (`run_in_a_row` of `graph_run`), and the copies that the graph would make
//! are counted. A long burst goes in pieces, so that no trial of a way is longer than necessary. With [`run_joined`]
//! all packets go through one stage before the next begins: its branches side by side, then its mergers. If every stage
//! has one branch it runs as `run_gated` too. A burst without packets starts no thread.
//!
//! A function that counts doesn't change while packets are on their way: its branch numbers the packets that come,
//! including those that are gone, and lists what the function notes of each ([`ListedNote`]). After the burst, when it
//! is known which function dropped which packet, the notes are settled in the order of the list, except those on
//! packets that a function at an earlier position dropped (`settled_notes`): so a function that counts may be beside an
//! earlier one that drops packets.
//!
//! The functions of the chain are moved out of their places to the branches that own them (`splitting`), and back in
//! chain order once all nodes have ended (`returning`): each branch has the functions at its positions, and functions
//! that are split like this are joined to the same list. [`branch_turn`] is a branch's work on one packet: its
//! functions one after another, until one drops it.
//!
//! `stream_law` says why this is the walk: what is due on each link is fixed before the first step, and what comes from
//! the last stage are the packets that walk through the chain one after another. Here a graph and its functions become
//! the works of nodes (`works`), frames are taken apart one after another (`frames`), the nodes run and join packets to
//! frames after the last stage (`node_run`), and their functions are returned, with their notes settled (`back`,
//! `settling`).
//!
//! Each step of a function passes the gate first. No clause mentions the gate, threads, or what happens at the same
//! time: the promises hold for every schedule in which the run ends. That it ends is not promised, since a node waits
//! for what another gives.
#![tactic(auto)]

mod back;
mod frames;
mod joined;
mod owned;
mod pipe;
mod piped;
mod returning;
mod settling;
mod splitting;
mod stages;
mod turn;
mod works;

pub use chain_walk::Fate;
pub use joined::run_joined;
pub use node_run::MergeWay;
pub use packet_messages::Message;
pub use piped::run_piped;
pub use settled_notes::ListedNote;
pub use turn::branch_turn;
