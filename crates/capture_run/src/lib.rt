//! Runs a capture through the chains of a service: records in, records and a report out.
//!
//! [`run_capture`] takes one packet after another from a `Source` of `capture_items` and runs the packets through their chains burst by
//! burst. It puts each packet that passes into a `Sink`, and the line of each that is dropped into the report, which
//! ends with the totals, the copies that were made and the state of each function. A block of a capture that isn't a
//! packet closes the burst and goes to the sink unchanged. Packets end and functions are left as if each packet walked
//! through its chain after the packets before it, whatever the bursts. `specs/Emitted.antt` and `specs/EmittedNg.antt`
//! define the capture that is written, and the crate `capture_report` the report.
//!
//! The part of the report after the lines of the dropped packets goes through one buffer, piece by piece, and each
//! state line by line: a report of any length needs no more memory than a short one.
//!
//! Left out: the head of a capture, which belongs to its format.
#![tactic(auto)]

mod emit;
mod passage;
mod records;
mod run;
mod summary;

pub use run::run_capture;

// The service, the walk of a burst through it and the report, for the crates above.
pub use capture_report::{Ended, MergeWay, Mergers, Merging, Service, ServiceChain, make_service};
