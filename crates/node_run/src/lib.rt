//! A burst through stages whose nodes run side by side.
//!
//! [`run_nodes`] runs a burst of packets through the stages of a graph. In each stage a dealer takes the packets in
//! their order and deals each to the branches; a branch runs every version that it gets through its functions; and the
//! mergers merge the results of all branches for a packet, merger i of m for the packets i, i + m, i + 2m and so on.
//! Dealers, branches and mergers are the nodes of `stage_nodes`. The caller runs the dealer of the first stage, which
//! asks for one packet of the burst after another, and then joins the packets that come from the last stage to their
//! frames. The other nodes, in the order in which packets reach them, are cut into crews, no more of them than the
//! machine can use ([`most_threads`]). Each crew runs on a thread of its own if one can be started. If not, the caller
//! runs it to its end, once it has dealt all packets, and goes on with the next. A crew takes the packets in their
//! order, and each through its nodes in their order. That is the schedule of a run whose nodes are all at work at once
//! ([`Schedule`]). They may also be at work in turn: the branches of a stage with all packets, then its mergers, then
//! the dealer of the next stage, each such group side by side and joined before the next begins. The nodes, their links
//! and what is proved of each are the same.
//!
//! A branch whose functions neither keep a state nor count has a node for each merger, its replicas: each has the
//! versions of its merger's packets, which the dealer gives in turn, and gives the results of its functions to that
//! merger. For such functions, the results on a share of the versions are that share of the results on all. The first
//! node has the branch's functions and returns them, and each other node has a clone of the functions, which it drops.
//!
//! The results of the branches of a stage get to its mergers in one of two ways ([`MergeWay`]). Over links, each branch
//! has a link to each merger, and a merger takes from its links in branch order. On boards (`packet_messages`), each
//! merger has a word for each of its packets and a place for each branch's version: a branch puts its result and marks
//! the word, and the merger looks at the words in rising order, each until all branches have marked it. Either is a
//! `Meeting`: for each merger the ends of the branches and its own, seen as the messages that are still due on them.
//! Both are made under one contract, so the nodes of a stage are wired from a meeting in the same way, whichever it is.
//!
//! The order of waiting: a branch waits for its dealer, a merger for the dealer and the branches of its stage, a dealer
//! for the mergers of the stage before, and the caller for the mergers of the last stage. The first dealer waits for
//! nobody: it has the burst itself. A node that waits polls, and pauses between two polls. Nobody waits for room, since
//! all links, boards and tables are made before the first node starts, with room for all that is due on them
//! (`packet_messages`); so a crew can be run before those that take from it, and crews are started in the order in
//! which packets reach them. Among all turns that are still to be taken, consider those of the least packet, and of
//! these the one of the first node: it waits for none of the others, and is the next of its crew. So nodes of one crew
//! never block each other forever.
//!
//! The contracts promise, over all interleavings: each link and each board is made for its share of what is due on its
//! edge (`stream` of `stage_nodes`' definitions), so what is put there is that, or the word that memory ran out, which
//! no other word follows from the same node. [`wire_stage`], which makes the nodes of a stage, says which nodes these
//! are, and what is due on each of their ends (`edges`); so every message on a link or a board of a stage that runs
//! fits the one due there, since an end gives and takes no other. The results for the packets are what the stages make
//! of them one after another (`through` of `stage_nodes`' definitions), each branch's functions are those after all its
//! versions (`ends_of`), and the tally has the copies that the dealers made (`copies_along`). None of this depends on
//! the number of mergers, the way in which they meet the branches, or the number of crews or threads. If memory runs
//! out anywhere, the whole burst fails, and nothing is promised of the functions. All threads are joined on every path
//! to the return.
//!
//! The modules: `fans` makes the links by which a stream is shared in turn; `meeting` makes the place where the
//! branches of a stage meet its mergers, by `over_links` or `on_board`; `branches`, `replicas`, `mergers` and `wire`
//! make the nodes of a stage, with `lanes` for their order; `cut` makes crews of them; `first` runs the dealer of the
//! first stage, and `crew` a crew; `start` starts and joins one; `in_turn` runs group after group; `keeping` keeps
//! their results; `collect` takes what comes from the last stage; and `run` combines these.
//!
//! Left out: that a call which waits ever returns, and so that a run ends.
#![tactic(auto)]

mod branches;
mod collect;
mod crew;
mod cut;
mod ended;
mod fans;
mod first;
mod in_turn;
mod keeping;
mod lanes;
mod meeting;
mod mergers;
mod node;
mod on_board;
mod over_links;
mod replicas;
mod run;
mod schedule;
mod stage;
mod start;
mod wire;

pub use cut::most_threads;
pub use meeting::MergeWay;
pub use node::Node;
pub use run::run_nodes;
pub use schedule::Schedule;
pub use stage::StageWork;
pub use wire::{WiredStage, wire_stage};
