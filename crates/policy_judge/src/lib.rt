//! Checks a policy text as a whole.
//!
//! [`judge`] reads a whole policy text and checks everything that an operator can get wrong in it, in this order: the
//! faults of the text, the least line that a function refuses among its settings, and then chain by chain a cycle of
//! orders or a Priority that the dependency table forbids. It returns the policy with the order and the functions of
//! each chain ([`Judged`]), or the first fault with the line that reports it ([`Refusal`]). `specs/Judging.antt` is the
//! definition, and `specs/Lines.antt` has the lines.
//!
//! Which lines a function refuses is known only when it is made. So each function is made here, once, and passed on if
//! the policy has no fault.
#![tactic(auto)]

mod chains;
mod fault;
mod judged;
mod judging;
mod making;
mod text;

pub use fault::{JudgeFault, PolicyFault, Refusal};
pub use judged::Judged;
pub use judging::{judge, too_long};
pub use text::action_text;
