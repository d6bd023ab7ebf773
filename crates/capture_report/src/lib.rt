//! The report of a capture that goes through the chains of a service.
//!
//! A report begins with its [`TITLE`]. [`burst_lines`] makes the lines of the packets that were dropped, burst by
//! burst. The rest is appended to a text of the caller, piece by piece: the totals, the copies
//! that were made of each chain's fields ([`push_copies_lines`]), each function ([`push_function_line`]), after which
//! the caller puts the lines of its state ([`function_named`]), and the end or the capture's fault. `specs/Report.antt`
//! has every line.
//!
//! The texts are ASCII, and each line ends with a line feed. The only error is that memory runs out, and then the
//! content of a text that was to be extended is unspecified.
//!
//! Left out: where the texts go.
#![tactic(auto)]

mod ended;
mod gone;
mod named;
mod report;

pub use ended::Ended;
pub use gone::count_gone;
pub use named::function_named;
pub use report::{TITLE, burst_lines, push_copies_lines, push_function_line};

// The service and the walk of a burst through it, for the crates above.
pub use burst_walk::{
    MergeWay, Mergers, Merging, NamedFunction, Piece, Service, ServiceChain,
    bursts_are_counted_in_a_row, make_service, walk_burst,
};
