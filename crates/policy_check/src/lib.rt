//! The order in which the functions of a service chain take a packet.
//!
//! The statements of a chain (`order`, `priority`, `position`) draw edges between its functions: which of two comes
//! first. [`order`] computes the order of the chain from them: again and again the earliest declared function whose
//! predecessors are all taken. It promises exactly that order, or exactly the first reason why there is none: a cycle
//! of edges, or else a Priority whose lower function the dependency table forbids before the higher one.
//!
//! Six laws describe the result without the algorithm:
//! - [`order_respects_edges`]: the order has each function once, and every edge leads forward.
//! - [`order_takes_the_earliest`]: each place has the earliest declared of the functions that may come there.
//! - [`no_cycle_beside_an_arrangement`]: if some order respects every edge, no cycle is returned.
//! - [`every_cycle_is_found`] and [`named_cycle_is_real`]: a cycle is returned exactly if there is one, and the named
//!   functions form one.
//! - [`named_priority_is_first`]: a Priority that is refused is the first in the text that the table forbids.
//!
//! Left out: which functions run side by side.
#![tactic(auto)]

mod check;
mod cycle;
mod edges;
mod fault;
mod laws;
mod priority;
mod turns;

pub use check::order;
pub use fault::{CheckFault, Order};
pub use laws::{
    every_cycle_is_found, named_cycle_is_real, named_priority_is_first,
    no_cycle_beside_an_arrangement, order_respects_edges, order_takes_the_earliest,
};
