//! The trace of a record, line by line: what each function of a chain did to its packet, and where the packet ended.
//!
//! A trace begins with [`push_record_line`]. Behind it stands [`push_trace`] for a packet that a chain took, and
//! [`push_untaken_trace`] for one that no chain took. A record that the capture doesn't have is [`push_missing_line`].
//! `specs/Trace.antt` has every line, and `specs/Values.antt` the text of each value that changed.
//!
//! The contracts promise: what is added is the text of the definition, for the acts as they were kept. The only error is
//! that memory runs out, and then the content of a text that was to be extended is unspecified.
//!
//! Left out: how a packet goes through a chain, and which record is asked for.
#![tactic(auto)]

mod acts;
mod changes;
mod lines;
mod values;

pub use acts::push_trace;
pub use lines::{push_missing_line, push_record_line, push_untaken_trace};
