//! The capture of the demo, which is made and not read: its policy, its records one after another, and its summary.
//!
//! [`DemoRecords`] returns the records of a seed and a count. A record is made of four draws of a linear congruential
//! generator: its addresses (RFC 791), ports, transport (RFC 793 or RFC 768) and payload. It is captured whole, one a
//! millisecond, with right checksums (RFC 1071). [`policy`] is the policy that the demo runs, [`head`] the head of the
//! capture (`pcap_io`), and [`push_summary`] adds the four lines that summarize the run.
//!
//! The contracts promise: the records are those of `demo_records` of `demo_capture.specs.DemoCapture`, each once and in
//! order, and none is lost if memory runs out; policy, head and summary are those of the definitions.
//! [`checksums_are_right`] says for every seed and count that each record's checksums are there and right by the sum of
//! RFC 1071.
//!
//! Left out: the effect of the policy on the capture, and the weights of the texts, which the summary takes as numbers.
#![tactic(auto)]

mod draws;
mod frame;
mod laws;
mod records;
mod settings;
mod summary;

pub use laws::checksums_are_right;
pub use records::DemoRecords;
pub use settings::{head, policy};
pub use summary::{Summary, Weighed, push_summary};
