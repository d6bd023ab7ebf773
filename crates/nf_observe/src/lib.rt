//! Network functions that watch packets, and change nothing of them.
//!
//! A [`Monitor`] counts the packets and bytes of each flow: packets of one protocol between the same addresses of IPv4
//! or IPv6 and the same ports ([`packet_function::FiveTuple`]). A packet's bytes are its IP length: IPv4's total
//! length, or IPv6's header of 40 bytes and its payload length. Both counts stay at the largest number of 64 bits once
//! they reach it. [`flows_count_their_packets`] says that each flow has the counts of its own packets. No line sets a
//! monitor up: [`Monitor::build`] refuses any.
//!
//! A [`Limiter`] drops what a source sends beyond a rate. Each source, an address of IPv4 or IPv6, has a
//! [`TokenBucket`], which is full at first, holds the tokens of a burst and fills at the rate; a packet passes if its
//! bucket pays for it. At a rate of one byte a second, one token comes in each nanosecond, so no fraction is ever lost.
//! The tokens of a span of time are computed in 128 bits, and nothing wraps. [`buckets_keep_the_rate`] says that in no
//! row of packets a bucket pays for more than a burst and what comes at the rate meanwhile, [`conforming_sources_pass`]
//! that a source which keeps to the rate loses nothing, and [`sources_have_their_own_buckets`] that no source spends
//! the tokens of another. [`set_rate_decides_drops`] says that `set rate` decides each drop, and nothing else.
//! `set rate` and `set burst` set a limiter up, and both are required: [`Limiter::build`] returns the least line that
//! is refused.
//!
//! As functions of a chain they have one meaning each, `monitor_behaviour` of `specs/Monitors.antt` and
//! `limiter_behaviour` of `specs/Limiters.antt`: what they do as a function of what they see. `monitor_keeps` of
//! `specs/MonitorLaws.antt` and `limiter_keeps` of `specs/LimiterLaws.antt` say that they keep to their profiles.
//! `limiter_decides` names the line that decides on a packet ([`Limiter::decide`]); no line of a monitor decides.
//!
//! A monitor's step has two parts that may be separated: [`look`] notes the packet, and [`Monitor::settle`] counts what
//! was noted (`monitor_counts` of `specs/MonitorNotes.antt`). So it may see a packet before it is known whether an
//! earlier function drops it.
//!
//! A state is a list in the order of first sight, and contracts see that list. The code finds a key by its hash
//! (`first_sight::FirstSeen`), so no step searches through a state. If memory runs out, the function, the packet and
//! the text to which the lines of a state were to be appended are as they were.
//!
//! An address of IPv4 is never one of IPv6, so flows and sources of the two versions are never confused.
//!
//! Nothing is ever forgotten: a state grows with each new flow or source.
#![tactic(auto)]

mod bucket;
mod flow;
mod laws;
mod limiter;
mod monitor;
mod state_lines;

pub use bucket::TokenBucket;
pub use flow::FlowCounts;
pub use laws::{
    buckets_keep_the_rate, conforming_sources_pass, flows_count_their_packets,
    set_rate_decides_drops, sources_have_their_own_buckets,
};
pub use limiter::{Limiter, LimiterLine};
pub use monitor::{Monitor, MonitorLine, look};
