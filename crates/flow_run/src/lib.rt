//! The flows of a classic capture, counted record by record.
//!
//! [`count_flows`] reads the rest of a capture and counts its flows on several workers, burst by burst, so that memory
//! is allocated for one burst and for the flows, and not for the capture. The counts are the same for every number of
//! workers and every size of a burst: `specs/FlowsOut.antt` defines them from the records alone. If the capture has a
//! fault, the records before it are counted.
//!
//! Left out: the head of the capture, and the export (`flow_export`).
#![tactic(auto)]

mod count;
mod counting;

pub use count::{Counted, count_flows};
