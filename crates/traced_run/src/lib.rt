//! What each function does to a packet on its way through a chain, as a plain body.
//!
//! [`trace_chain`] is the plain body of the walk that `traced_walk` defines: before a function acts, it names the lines
//! of its declaration that decide its step. The result is a [`Trace`]: for each function that the packet reached a
//! [`TracedAct`], with its lines, whether it dropped the packet, and whether the frame behind it differs from the frame
//! before it. The frames themselves are kept only if the caller asks for them.
//!
//! The frame is kept in parts on its way. A function that writes nothing looks at them and leaves them as they are, so
//! nothing is put together for it. A function that writes acts on the whole frame ([`frame_walk::step_frame`]), and
//! what it passes on is taken apart anew.
//!
//! The contracts promise: the fate, the functions and the acts are those of the definition. Left out: the numbers of
//! the lines, and functions that rewrite a frame whole.
#![tactic(auto)]

mod acts;
mod chain;
mod turn;

pub use acts::{Frames, Trace, TracedAct};
pub use chain::trace_chain;
