//! The graphs that an operator writes by hand.
//!
//! A chain of a policy runs as a graph of stages, whose branches work side by side. [`read_graphs`] reads a text that
//! lists such stages for chains of a policy: a version line, then `chain NAME`, `stage` and `branch NAME ..`. It
//! returns the graph of each listed chain, or else the text's first fault. First come the faults of a line: its form,
//! or a name or a function that occurs twice. Then come the faults of a chain: a function that is missing, two that are
//! placed against the order of the chain, or two side by side that the dependency table forbids, with the actions.
//! Lines, words, comments and names are those of a policy text.
//!
//! Each graph that it returns may replace its chain: it is lawful, its stages follow each other, and no stage and no
//! branch of it is empty. A compiled graph has these properties too, so code that runs the one can run the other.
//! [`lawful_stages_have_no_fault`] is the converse: if a graph is lawful and none of its stages and branches is empty,
//! its stages are not refused. `specs/Graphs.antt` says what a text gives, `specs/Listing.antt` says it line by line,
//! and `specs/Faults.antt` defines the faults of stages.
#![tactic(auto)]

mod branch_lines;
mod chains;
mod fault;
mod faults;
mod forms;
mod graphs;
mod laws;
mod listed;
mod listing;
mod standing;

pub use chains::functions_at;
pub use fault::{GraphFault, GraphReadFault};
pub use graphs::{no_graphs, read_graphs};
pub use laws::lawful_stages_have_no_fault;
