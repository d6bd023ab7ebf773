//! A capture of either format, item by item.
//!
//! A [`Source`] reads the items of a capture from the slot Capture of a desk, one after another: packets, each with what
//! its format holds besides the record, and other blocks ([`Given`]). A [`Sink`] writes such items into Out. Classic
//! captures are read and written by the reader and the writer of `pcap_io`, and pcapng captures by [`NgSource`] and
//! [`NgWriter`]. [`put_packet`], [`put_block`] and [`put_text`] put an item into Out and a text into Report, or return the
//! reason why a run is aborted, one small [`RunFault`]. [`fault_line`] is the line of a capture's first fault
//! ([`FormatFault`]), defined in `specs/FaultLines.antt`, and [`totals_line`] that of its [`Totals`].
//!
//! Left out: the head of a classic capture, what becomes of packets, and the report.
#![tactic(auto)]

mod fault;
mod given;
mod lines;
mod ng;
mod pcap;
mod sink;
mod source;
mod totals;
mod write;

pub use fault::{FormatFault, RunFault, SourceFault};
pub use given::Given;
pub use lines::{capture_line, fault_line, ng_line, push_last_line};
pub use ng::{Beside, NgSource, NgWriter, OtherBlock};
pub use pcap::NoBlock;
pub use sink::Sink;
pub use source::Source;
pub use totals::{Totals, push_totals_line, totals_line};
pub use write::{put_block, put_packet, put_text};
