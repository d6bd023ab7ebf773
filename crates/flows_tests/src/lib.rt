//! Tests of flows that are counted on several workers and exported, through public calls alone.
//!
//! No clause says that a call gets memory, so each call that allocates runs here once with ample memory. The expected
//! bytes were worked out by hand from Cisco's layout.
#![tactic(auto)]

#[cfg(test)]
mod exported;
#[cfg(test)]
mod plenty;
