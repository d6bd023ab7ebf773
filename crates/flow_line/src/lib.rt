//! A flow, and a line of its counts: the types between the code that counts flows and the code that prints them.
//!
//! A flow is the packets of one protocol between the same addresses and ports (RFC 791, RFC 8200, RFC 793, RFC 768). A
//! [`FlowKey`] distinguishes flows, and a [`FlowLine`] has a flow's packets and bytes, its first and last moment and
//! its TCP flags.
//!
//! Left out: which packets make which lines, and any format in which lines are written.
#![tactic(auto)]

mod key;
mod line;

pub use key::FlowKey;
pub use line::FlowLine;
