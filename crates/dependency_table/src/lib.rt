//! Which two functions of a chain may run side by side.
//!
//! If function x comes before function y in the chain, each action of x is compared with each action of y: whether the
//! two may run at the same time on one packet, and whether each then needs a copy of a field of its own. [`pair`] is
//! that table, over two profiles.
//!
//! Three laws say what follows from an answer: [`beside_is_independent`] (y reads no field that x writes, a drop by x
//! affects no state of y, and neither works on the whole frame), [`copied_fields`] (which fields are copied), and
//! [`forbidden_has_a_cause`] (the named actions are actions of the two, and the first forbids the second).
//!
//! Left out: how functions are put into stages.
#![tactic(auto)]

mod action;
mod laws;
mod side_by_side;

pub use action::{Action, Answer};
pub use laws::{beside_is_independent, copied_fields, forbidden_has_a_cause};
pub use side_by_side::pair;
