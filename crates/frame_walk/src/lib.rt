//! A packet's way through the functions of a chain, one after another.
//!
//! [`walk_chain`] is the plain body of the walk that `chain_walk` defines, for functions of any kind: each acts on the
//! whole frame that the one before passed on, and the first that drops the packet ends it. [`step_frame`] is one turn
//! of it. A function sees a packet only through a view, so a turn takes the frame apart, deals it to the function as to
//! the only branch of a stage, and puts it together again with what the function wrote. No kind of function has a body
//! of its own for whole frames.
//!
//! [`act`], [`touch_of`] and [`modes`] are the parts of such a turn that other walks share.
//!
//! The contracts promise: the packet ends as the walk says, and the functions are as the walk leaves them. If memory
//! runs out, this holds of the first functions, which passed the packet on, and the others are as before.
#![tactic(auto)]

mod acting;
mod step;
mod walk;

pub use acting::act;
pub use step::{modes, step_frame, touch_of};
pub use walk::walk_chain;
