//! The flows of a capture, counted on several workers: each flow in the shard of one of them.
//!
//! `flows` of `specs/Flows.antt` defines the counts of a capture, on one worker and in one go: a list of lines in the
//! order of first sight, by a fold over the packets. Flows are distinguished, and their packets counted, as a monitor
//! does (`nf_observe`). [`Shards`] are that list, whatever the number of workers and whatever the bursts in which the
//! packets come: contracts see one list of lines, each with its flow. A shard has the lines whose key belongs to its
//! worker ([`shard_of`]), and [`Shards::gather`] puts them together again.
//!
//! Stated without these definitions: [`flows_have_one_shard`] says that a flow is in exactly one shard, and that a
//! shard's lines are the counts of the packets of its own flows alone; [`lines_are_a_monitors`] that keys, packets and
//! bytes are those of one monitor; [`first_and_last_packets_bound_flows`] that of packets in order of time the first and
//! the last of a flow bound its times.
//!
//! Left out: when workers run side by side. For a burst of many packets a worker is a thread if one can be started, and
//! otherwise a turn of the caller.
#![tactic(auto)]

mod beside;
mod columns;
mod counting;
mod key;
mod laws;
mod shards;
mod sight;

pub use flow_line::{FlowKey, FlowLine};
pub use key::{key_of, shard_of};
pub use laws::{
    bursts_go_on, first_and_last_packets_bound_flows, flows_have_one_shard, lines_are_a_monitors,
};
pub use shards::Shards;
pub use sight::Sight;
