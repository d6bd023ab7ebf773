//! How the work of a call ended, before its line is put into Note.

use crate::outcome::Outcome;
use capture_items::Totals;
use graph_text::GraphFault;
use item_list::Items;
use policy_judge::Refusal;

/// Why a text of graphs is refused, and the line that reports it.
#[derive(Debug, Drop)]
pub struct GraphRefusal {
    pub fault: GraphFault,
    pub line: Items<u8>,
}

/// How the work of a call ended.
#[derive(Debug, Drop)]
pub enum Ending {
    /// A capture without fault went through the chains.
    Completed(Totals),
    /// The text to show was made: the plan of a policy, or the summary of a demo.
    Shown(Items<u8>),
    /// The policy has a fault.
    Refused(Refusal),
    /// The graphs that were written for a policy without fault have one.
    GraphRefused(GraphRefusal),
    /// Any other end. The outcome says everything about it.
    Stopped(Outcome),
}
