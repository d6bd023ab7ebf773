//! The top call of `nfp`. It runs the chains of a policy over a capture, shows the plan of a policy, either with graphs
//! that were written by hand, runs a demo of its own, and exports the flows of a capture.
//!
//! What [`nfp()`] promises is the program's theorem: its contract states it, and `specs/Due.antt` defines the result
//! that is due. [`a_good_call_is_done`] says of this result that words, policy and capture without fault give Done. The
//! program itself, the crate `nfp`, passes its words to the call, over files and an open gate, and ends with the status
//! of the [`Outcome`]. If a desk lost bytes after the call, the program reports it by the same line,
//! [`write_fault_text`]. The crate `result_rows` has rows of the result that were worked out by hand.
#![tactic(auto)]

mod attach;
mod call;
mod commands;
mod demo;
mod demo_source;
mod flows;
mod graph_lines;
mod head;
mod laws;
mod plan;
mod prepare;
mod prepared;
mod run;
mod ways;

pub use call::nfp;
pub use call_ending::{Outcome, write_fault_text};
pub use command_words::{Option4, UsageFault};
pub use laws::a_good_call_is_done;
