//! Tests of the code that sends packets to chains and through a graph, and of the places where threads meet, through
//! public calls alone.
//!
//! No clause says that a call gets memory, so each call that allocates runs here once with ample memory.
#![tactic(auto)]

#[cfg(test)]
mod boards;
#[cfg(test)]
mod bursts;
#[cfg(test)]
mod classes;
#[cfg(test)]
mod links;
#[cfg(test)]
mod messages;
#[cfg(test)]
mod plenty;
#[cfg(test)]
mod runs;
