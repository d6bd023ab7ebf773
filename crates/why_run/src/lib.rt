//! Leads a capture through the chains of a policy, one packet after another, and reports why each packet was dropped.
//!
//! [`run_why`] takes one packet after another from a `Source` of `capture_items` and leads it through the chain that takes
//! it. The line of each dropped packet goes into Report, and at the end the totals, the chains, and how often each
//! function and each of its lines was used. If a record is asked for, its trace is kept. The text is `report_bytes` of
//! `why_report` for the ways of `plain_chains`, and the trace is that of `specs/Why.antt`.
//!
//! The text goes through one buffer, and what is kept of the packets takes the same room for any number of them: memory
//! doesn't grow with the capture but by what functions remember.
//!
//! If the run is broken off, a prefix of the report is in Report. Left out: the head of a capture, which belongs to its
//! format, and where the trace goes.
#![tactic(auto)]

mod records;
mod run;
mod summary;
mod telling;

pub use run::{WhyEnded, run_why};
