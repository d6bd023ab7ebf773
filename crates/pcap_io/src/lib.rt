//! Captures in the classic pcap file format: a head of 24 bytes, then records, each a head of 16
//! bytes and the captured bytes of one frame.
//!
//! All numbers of a capture have the order of its magic number, which also says whether fractions
//! of seconds are microseconds or nanoseconds. Version 2.4 and the link type Ethernet are accepted,
//! and frames of at most 262,144 bytes. A fraction beyond its unit and a captured length beyond
//! snaplen or beyond the original length are accepted as they are.
//!
//! [`Reader`] takes a capture record by record off the slot Capture of a desk, in whatever pieces the desk gives it;
//! `capture_of` of `pcap_io.specs.Capture` says of the whole text which records it gives and where it ends. [`Writer`]
//! puts a capture into the slot Out. [`read_is_written`] and [`written_is_read`] relate the two.
//!
//! Left out: the modified magic numbers, compressed captures, link types with bits set above the type, and the meaning
//! of snaplen, which is kept and refuses nothing.
#![tactic(auto)]

mod capture;
mod fault;
mod fill;
mod laws;
mod parse;
mod reader;
mod record;
mod writer;

pub use capture::{CaptureFault, CaptureHead};
pub use capture_bytes::{Endian, PcapRecord, Unit};
pub use fault::PcapFault;
pub use laws::{body_is_relation, read_is_written, written_is_read};
pub use reader::Reader;
pub use writer::Writer;
